//! What the passes of a pool pushed and popped, and what its queue still holds.
ghost use Rattle.std.specs.Prelude.{◌≡◌, ◌+◌, vec_len};
ghost use Rattle.lj_queue.specs.Settling.{pushes_of, pops_of, LeavesOf};

use crate::pass::{PoolIdentity, PoolPass};
use crate::queue_pool::QueuePool;
use crate::rule::{Cut, Total};
use std::sync::Wait;

/// The numbers of tasks that were pushed, that were popped, and that are left in the queue.
#[derive(Clone, Copy, PartialEq, Eq, Debug)]
pub struct Settled {
    pub pushed: u128,
    pub popped: u128,
    pub left: u64,
}

impl<L: PoolIdentity> QueuePool<L> {
    /// Takes all passes of the pool back, and counts what they pushed and popped and what is left in the queue.
    ///
    /// Promise: over all passes, each task is pushed as often as popped, plus once per copy still in the queue.
    pub fn settle<R: Wait>(self, rt: &R, passes: Vec<PoolPass<L>>) -> Settled
        requires all { vec_len passes ≡ L.passes }
        ensures pushed { result.pushed ≡ pushes_of passes.items }
        ensures popped { result.popped ≡ pops_of passes.items }
        ensures left { result.pushed ≡ result.popped + result.left }
        ensures same { LeavesOf passes.items result.left }
    {
        let mut all = self.root_pass.into_inner().into_pass();
        let mut settled = Settled {
            pushed: 0,
            popped: 0,
            left: 0,
        };
        for pass in passes {
            settled.pushed += u128::from(pass.pushed());
            settled.popped += u128::from(pass.popped());
            self.queue.absorb::<Cut>(&mut all, pass.into_pass());
        }
        settled.left = self.queue.len_as::<Total, R>(rt, &mut all) as u64;
        settled
    }
}
