//! The frames that the tasks of steps share.
ghost use Rattle.std.specs.Prelude.{◌≡◌, length, false, IfOk};
ghost use Rattle.lj_step.specs.Shared.{AreFramesOf};

use lj_ring::Place;
use lj_task::SharedFrame;
use std::alloc::{AllocError, Global};
use std::mem;

/// Two frames that the tasks of steps share by turns. A step writes the one that the step before it did not use: the tasks of that
/// step, of which an end of a pool may still hold the last, are not in its way.
#[derive(Drop)]
pub(crate) struct StepFrames {
    /// The frame of the present step, if it is written.
    pub present: SharedFrame,
    pub last: SharedFrame,
    /// Whether `present` is the frame of the simulation, for tasks to share.
    pub is_written: bool,
}

impl StepFrames {
    /// Makes frames of `count` atoms, none of which is written.
    pub fn new(alloc: Global, count: usize) -> Result<StepFrames, AllocError>
        ensures present { IfOk result (λ frames. length frames.present ≡ count) }
        ensures last { IfOk result (λ frames. length frames.last ≡ count) }
        ensures none { IfOk result (λ frames. frames.is_written ≡ false) }
    {
        Ok(StepFrames {
            present: SharedFrame::new(alloc, count)?,
            last: SharedFrame::new(alloc, count)?,
            is_written: false,
        })
    }

    /// Writes a frame, unless a task still shares the one that is to be overwritten. Then the tasks of the step share none.
    pub fn write(&mut self, places: &[Place])
        requires present { length self.old.present ≡ length places.now }
        requires last { length self.old.last ≡ length places.now }
        ensures { AreFramesOf places.now self.new }
    {
        mem::swap(&mut self.present, &mut self.last);
        self.is_written = self.present.overwrite(places);
    }
}
