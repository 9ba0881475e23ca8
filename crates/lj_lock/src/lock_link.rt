//! What an end of a pool behind a lock has of the pool.
ghost use Rattle.std.specs.Prelude.{◌≡◌, ⊤};
ghost use Rattle.lj_lock.specs.LockLinks.{ArePushed, IsPushed, IsTaken, IsUnpushed, IsUntaken, link_without_boxes};

use crate::end_boxes::EndBoxes;
use crate::lock_pool::LockPool;
use crate::pool_state::LockClosed;
use lj_end::{Finish, LinkedEnd, NotPosted, PoolLink, TaskList};
use lj_task::{DoneRef, TaskRef};
use std::marker::Model;
use std::sync::Wait;
use std::sync::ledger::Ledger;

/// An end of a pool behind a lock. One for a single user hands out results of this user alone, whatever number it is given. With
/// `finish`, and where it is dropped, its boxes go back to the pool, and all tasks and results of its single user leave it.
pub type LockEnd<'p, L, R> = LinkedEnd<LockLink<'p, L, R>, LockClosed>;

/// The boxes of an end, with its pool, and its user if it is for one alone. Where it is dropped, the boxes go back to the pool, and
/// what the pool has of that user is withdrawn.
pub struct LockLink<'p, L: Ledger, R: Wait> {
    rt: &'p R,
    pool: &'p LockPool<L>,
    user: Option<u8>,
    /// The result that was handed out last, the results that are handed out next, and spare boxes.
    boxes: EndBoxes,
}

impl<'p, L: Ledger, R: Wait> Model for LockLink<'p, L, R> {
    ghost use Rattle.std.specs.Prelude.{is_some, unwrap_or};
    ghost use Rattle.lj_task.specs.Blank.{blank_task};
    ghost use Rattle.lj_lock.specs.LockLinks.{LockLink};

    ghost Value = { LockLink };

    ghost view = { λ link. record {
      user = link.user;
      last = unwrap_or link.boxes.last blank_task;
      shown = is_some link.boxes.last;
      hand = link.boxes.hand;
      spare = link.boxes.spare;
    } };
}

impl<'p, L: Ledger, R: Wait> LockLink<'p, L, R> {
    /// Returns one without boxes, for one user or for any.
    pub(crate) fn new(rt: &'p R, pool: &'p LockPool<L>, user: Option<u8>) -> LockLink<'p, L, R>
        ensures { result ≡ link_without_boxes user }
    {
        LockLink {
            rt,
            pool,
            user,
            boxes: EndBoxes::new(),
        }
    }
}

impl<L: Ledger, R: Wait> Drop for LockLink<'_, L, R> {
    fn drop(self) {
        let LockLink {
            rt,
            pool,
            user,
            boxes,
        } = self;
        pool.take_home(rt, boxes, user);
    }
}

impl<'p, L: Ledger, R: Wait> PoolLink<LockClosed> for LockLink<'p, L, R> {
    ghost shown = { λ link. link.last };

    ghost pushed = { IsPushed };

    ghost none_pushed = { IsUnpushed };

    ghost some_pushed = { ArePushed };

    ghost taken = { IsTaken };

    ghost none_taken = { IsUntaken };

    fn push(&mut self, task: &TaskRef<'_>, wait: bool) -> Result<(), NotPosted<LockClosed>> {
        self.boxes.note_post();
        let mut boxed = self.boxes.copy_of(task);
        let posted = self.pool.post(self.rt, &mut boxed, task, wait);
        if let Some(handed_back) = boxed {
            self.boxes.push_spare(handed_back);
        }
        posted
    }

    fn push_some(&mut self, tasks: &TaskList<'_>) -> usize {
        self.boxes.note_post();
        let mut copies = self.boxes.copies_of(tasks);
        let posted = self.pool.post_some(self.rt, &mut copies, tasks);
        self.boxes.take_back(copies);
        posted
    }

    fn take(&mut self, user: u8, owed: usize) -> Result<(), LockClosed> {
        let user = self.user.unwrap_or(user);
        let owed = owed.saturating_sub(self.boxes.in_hand());
        self.pool.fetch(self.rt, user, owed, &mut self.boxes)
    }

    fn take_now(&mut self, user: u8) -> bool {
        let user = self.user.unwrap_or(user);
        self.pool.poll(self.rt, user, &mut self.boxes)
    }

    fn shown(&self) -> DoneRef<'_> {
        self.boxes.last_or(self.pool.blank())
    }

    fn seen_closed(&self) -> Option<LockClosed> {
        self.pool.seen_closed(self.rt)
    }
}

impl<'p, L: Ledger, R: Wait> Finish for LockLink<'p, L, R> {
    type Remains = ();

    ghost leaves = { λ _ _. ⊤ };

    fn finish(self) {
        drop(self);
    }
}
