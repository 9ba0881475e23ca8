//! Faults of the book.
use lj_task::Task;
use thiserror::Error;

/// The refusal of a post, with the task: the book is full, or has counted 2^64 - 1 posts.
#[derive(Debug, Drop)]
pub struct Full {
    pub task: Task,
}

/// The refusal of a result, or of a task handed back: that task is not out under that key.
#[derive(Clone, Copy, PartialEq, Eq, Debug, Error)]
#[error("that task is not out under that key")]
pub struct NotOut;

/// The refusal of a post: the book is full, or has counted 2^64 - 1 posts.
#[derive(Clone, Copy, PartialEq, Eq, Debug, Error)]
#[error("the book takes no task now")]
pub struct NoRoom;
