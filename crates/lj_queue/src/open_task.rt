//! An open task, with its end and its user.

use lj_book::TaskBox;
use std::marker::Model;

/// An open task, with the number of the end that posted it and that end's user. The task lies in a box, which is handed on with
/// it and becomes the box of its result.
#[derive(Drop)]
pub struct OpenTask {
    pub end: u64,
    pub user: u8,
    pub task: TaskBox,
}

impl Model for OpenTask {
    ghost use Rattle.lj_queue.specs.OpenTask.{OpenTask};

    ghost Value = { OpenTask };

    ghost view = { λ t. record { end = t.end; user = t.user; task = t.task } };
}
