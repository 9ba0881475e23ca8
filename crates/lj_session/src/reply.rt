//! Replies to commands.

use crate::refusal::Refusal;
use lj_base::Name;
use lj_ring::Place;

/// The reply to an item. It names the step that it describes.
#[derive(Debug, PartialEq, Eq, Drop)]
pub enum Reply {
    Loaded {
        name: Name,
        atoms: usize,
    },
    /// Of two species.
    LoadedMix {
        name: Name,
        atoms: usize,
    },
    Advanced {
        name: Name,
        step: i64,
    },
    /// The step number is the one after all pending steps.
    Started {
        name: Name,
        step: i64,
    },
    Reversed {
        name: Name,
        step: i64,
    },
    Branched {
        name: Name,
        branch: Name,
        step: i64,
    },
    Restored {
        name: Name,
        branch: Name,
        step: i64,
    },
    Forgotten {
        name: Name,
        branch: Name,
    },
    Tugged {
        name: Name,
        atom: u64,
        step: i64,
    },
    /// The momentum is in ring units per step, the kinetic number in the square of this unit, the potential in units of
    /// 2^-24 ε.
    Measured {
        name: Name,
        step: i64,
        atoms: usize,
        momentum: [i64; 3],
        kinetic: u128,
        potential: i128,
    },
    Shown {
        name: Name,
        step: i64,
        atom: u64,
        place: Place,
    },
    /// The frame of a session of the user after the command.
    Dumped {
        name: Name,
    },
    /// All sessions of the user after the command.
    Listed,
    /// The saved simulations of a session of the user after the command.
    ListedBranches {
        name: Name,
    },
    Unloaded {
        name: Name,
    },
    /// The connection ends.
    Bye,
    /// The user is unchanged.
    Refused(Refusal),
}
