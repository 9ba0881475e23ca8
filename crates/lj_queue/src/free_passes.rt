//! The free passes of a pool with a queue.

use crate::pass::{PoolIdentity, PoolPass};
use std::sync::{Condvar, Mutex, Wait};

/// The passes of a pool that neither an end nor a worker has. An end that took its pass here gives it back where it is dropped.
#[derive(Drop)]
pub struct FreePasses<L: PoolIdentity> {
    passes: Mutex<Vec<PoolPass<L>>>,
    /// Signalled when a pass is given back. Ends wait on it.
    returned: Condvar,
}

impl<L: PoolIdentity> FreePasses<L> {
    /// Makes it of these passes.
    pub fn new(passes: Vec<PoolPass<L>>) -> FreePasses<L> {
        FreePasses {
            passes: Mutex::new(passes),
            returned: Condvar::new(),
        }
    }

    /// Returns the passes that are free.
    pub fn into_passes(self) -> Vec<PoolPass<L>> {
        self.passes.into_inner()
    }

    /// Takes a pass, and waits until one is free.
    pub(crate) fn take<R: Wait>(&self, rt: &R) -> PoolPass<L> {
        let mut passes = self.passes.lock(rt);
        for _ in rt.forever() {
            if let Some(pass) = passes.pop() {
                return pass;
            }
            passes = self.returned.wait(rt, passes);
        }
        unreachable!()
    }

    /// Takes back a pass. There is room for it: it was here before.
    pub(crate) fn give_back<R: Wait>(&self, rt: &R, pass: PoolPass<L>) {
        let _ = self.passes.lock(rt).push(pass);
        self.returned.notify_one();
    }
}
