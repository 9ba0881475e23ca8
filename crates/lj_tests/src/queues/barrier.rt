//! Barriers, which hold tasks until a test lets them go.

use super::wait_for;
use lj_pool::Gate;
use lj_tile::TaskName;
use std::rt::Clock;
use std::sync::Wait;
use std::sync::atomic::{AtomicU64, Ordering};

/// A gate that holds each task until it is open.
#[derive(Drop)]
pub struct Barrier<'a, R> {
    rt: &'a R,
    /// The number of tasks that came to it.
    came: AtomicU64,
    /// 1 where it is open, else 0.
    open: AtomicU64,
}

impl<'a, R: Clock> Barrier<'a, R> {
    /// Makes a barrier that is not open.
    pub fn new(rt: &'a R) -> Self {
        Barrier {
            rt,
            came: AtomicU64::new(0),
            open: AtomicU64::new(0),
        }
    }

    /// Waits until it is open.
    pub fn hold(&self) {
        self.came.fetch_add(1, Ordering::SeqCst);
        wait_for(self.rt, &self.open);
    }

    /// Waits until a task comes to it, and returns whether one came.
    pub fn has_come(&self) -> bool {
        wait_for(self.rt, &self.came)
    }

    /// Lets all tasks pass from now on, or none.
    pub fn set_open(&self, open: bool) {
        self.open.store(u64::from(open), Ordering::SeqCst);
    }
}

impl<R: Clock + Wait> Gate for Barrier<'_, R> {
    fn between(&self, _name: &TaskName) {
        self.hold();
    }
}
