//! The task or the result that a worker holds.

use lj_task::{Done, Task};

/// The task or the result that a worker holds.
#[derive(Drop)]
pub(crate) enum Holding {
    Task(Task),
    Done(Done),
}
