//! Commands of a user.

use crate::body::LoadBody;
use crate::interactions::Interactions;
use lj_base::Name;
use lj_fixed::Nano;

/// The number of frames that a load reads of its body.
#[derive(Clone, Copy, Debug, PartialEq, Eq)]
pub enum Mode {
    /// One: the atoms begin at rest.
    Rest,
    /// Two: the places one step before the opening, and those at it.
    Pair,
}

/// A LOAD, or a LOADMIX. A number is `None` if its word does not parse.
#[derive(Debug, Drop)]
pub struct Load {
    /// The name of the new session.
    pub name: Name,
    /// The edge of the box, in nano.
    pub edge: Option<Nano>,
    pub interactions: Interactions,
    pub mode: Mode,
    pub body: LoadBody,
}

/// A command. `name` is that of a session, and `branch` that of a frame saved in it. Atoms are
/// numbered from 0.
#[derive(Debug, Drop)]
pub enum Command {
    /// Loads a session from a body.
    Load(Load),
    /// Advances by a number of steps.
    Advance {
        name: Name,
        steps: u64,
    },
    /// Advances by a number of steps while other commands are answered. The reply comes at once, with the step number
    /// at the end.
    Start {
        name: Name,
        steps: u64,
    },
    /// Reverses the motion.
    Reverse {
        name: Name,
    },
    /// Saves the present simulation.
    Branch {
        name: Name,
        branch: Name,
    },
    /// Restores a saved simulation, which stays saved.
    Restore {
        name: Name,
        branch: Name,
    },
    /// Removes a saved simulation.
    Forget {
        name: Name,
        branch: Name,
    },
    /// Adds a displacement per step, in ring units along each axis, to the motion of an atom.
    Tug {
        name: Name,
        atom: u64,
        x: i32,
        y: i32,
        z: i32,
    },
    /// Measures momentum, kinetic number and potential.
    Measure {
        name: Name,
    },
    /// Shows the place of an atom.
    Show {
        name: Name,
        atom: u64,
    },
    /// Writes out the frame.
    Dump {
        name: Name,
    },
    /// Lists the sessions.
    List,
    /// Lists the saved simulations of a session.
    ListBranches {
        name: Name,
    },
    /// Removes a session.
    Unload {
        name: Name,
    },
    /// Ends the connection.
    Bye,
}
