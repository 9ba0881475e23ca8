//! Who posts tasks to a pool with a queue.

use crate::pass::{CountedPass, PoolIdentity};
use lj_book::TaskBox;
use std::marker::Model;

/// The pass of an end, by which it posts, with the end's number, its user, and a box for the next task if there is one.
#[derive(Drop)]
pub(crate) struct Poster<L: PoolIdentity> {
    pub(crate) counted: CountedPass<L>,
    pub(crate) end: u64,
    pub(crate) user: u8,
    pub(crate) next: Option<TaskBox>,
}

impl<L: PoolIdentity> Model for Poster<L> {
    ghost use Rattle.lj_queue.specs.PoolPass.{Poster};

    ghost Value = { Poster };

    ghost view = { λ p. record { pass = p.counted; end = p.end; user = p.user; next = p.next } };
}
