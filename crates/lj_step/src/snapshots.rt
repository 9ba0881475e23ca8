//! Snapshots: copies of a simulation.
ghost use Rattle.std.specs.Prelude.{◌≡◌, length};

use crate::simulations::Direction;
use lj_ring::Place;
use std::marker::Model;

/// A copy of a simulation's two frames, its step number and its direction.
#[derive(Drop)]
pub struct Snapshot {
    pub(crate) prev: Vec<Place>,
    pub(crate) cur: Vec<Place>,
    pub(crate) step: i64,
    pub(crate) dir: Direction,
}

impl Model for Snapshot {
    ghost use Rattle.lj_step.specs.Motion.{Simulation};

    ghost Value = { Simulation };

    ghost use Rattle.lj_step.specs.Snapshots.{simulation_of, IsSaved};

    ghost view = { simulation_of };

    ghost invariant = { IsSaved };
}

impl Snapshot {
    /// Returns the step number.
    ///
    /// ```rust
    /// // `sim` as in the example of `Sim::new`, after two steps
    /// assert_eq!(sim.snapshot()?.step(), 2);
    /// ```
    pub fn step(&self) -> i64
        ensures { result ≡ self.now.step }
    {
        self.step
    }

    /// Returns the number of atoms.
    ///
    /// ```rust
    /// // `sim` as in the example of `Sim::new`
    /// assert_eq!(sim.snapshot()?.count(), 2);
    /// ```
    pub fn count(&self) -> usize
        ensures { result ≡ length self.now.cur }
    {
        self.cur.as_slice().len()
    }
}
