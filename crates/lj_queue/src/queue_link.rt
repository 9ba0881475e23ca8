//! What an end of a pool with a queue has of the pool.
ghost use Rattle.std.specs.Prelude.{◌≡◌, ◌+◌, ◌<◌, ◌≤◌, ◌↔◌, [], ◌∷◌, true, false, length, IfErr, IfNone, IsTrue, OnErr, OnOk, OnSome};
ghost use Rattle.lj_queue.specs.NoRoom.{IsCauseOf, SaysClosed};
ghost use Rattle.lj_queue.specs.PoolPass.{HasPushed, HasPushedNothing, HasTaken, HasTakenNothing, IsSameLink};

use crate::free_passes::FreePasses;
use crate::kept_boxes::MAX_SPARE_BOXES;
use crate::mailboxes::QueueClosed;
use crate::no_room::PostFault;
use crate::pass::{PassBoxes, PoolIdentity, PoolPass};
use crate::poster::Poster;
use crate::queue_pool::QueuePool;
use lj_book::TaskBox;
use lj_end::{Finish, LinkedEnd, NotPosted, PoolLink, TASKS_AT_ONCE, TaskList, UnsignalledPosts};
use lj_task::{DoneRef, SharedFrame, TaskRef};
use std::marker::Model;
use std::mem;
use std::sync::Wait;

/// An end of a pool for one user, with a pass. It hands out results of its user's tasks alone; the result of another user's task
/// that it posted is dropped. `finish` returns its pass. Where one with a free pass is dropped, the pass is free again, and its
/// user's results leave the pool.
pub type QueueEnd<'p, L, R> = LinkedEnd<QueueLink<'p, L, R>, QueueClosed>;

/// The pass of an end, with its pool, its number, its user and its boxes. Where it is dropped and its pass was a free one, the
/// pass is free again, and the results of its user leave the pool.
pub struct QueueLink<'p, L: PoolIdentity, R: Wait> {
    rt: &'p R,
    pool: &'p QueuePool<L>,
    /// Where its pass goes, if that was a free one.
    free: Option<&'p FreePasses<L>>,
    /// Its pass, its number and its user.
    poster: Poster<L>,
    /// The result that was handed out last, the results that are handed out next, and boxes for the next tasks.
    boxes: PassBoxes,
    unsignalled: UnsignalledPosts,
    /// Whether the last fetch took all results that were there, so that the next poll need not ask the pool.
    took_all: bool,
    /// The frame that the task handed out before the last one shared, dropped with the next.
    older_frame: Option<SharedFrame>,
    ghost whose: { boxes.hand.user ≡ poster.user },
}

impl<'p, L: PoolIdentity, R: Wait> Model for QueueLink<'p, L, R> {
    ghost use Rattle.std.specs.Prelude.{◌+◌};
    ghost use Rattle.lj_queue.specs.NoRoom.{boxes_in};
    ghost use Rattle.lj_queue.specs.PoolPass.{QueueLink};

    ghost Value = { QueueLink };

    ghost view = { λ link. record {
      pass = link.poster.pass;
      number = link.poster.end;
      user = link.poster.user;
      last = link.boxes.last;
      hand = link.boxes.hand.results;
      boxes = link.boxes.spare + boxes_in link.poster.next;
    } };
}

impl<'p, L: PoolIdentity, R: Wait> QueueLink<'p, L, R> {
    /// Returns one of this number, with no result in hand.
    pub(crate) fn new(
        rt: &'p R,
        pool: &'p QueuePool<L>,
        free: Option<&'p FreePasses<L>>,
        pass: PoolPass<L>,
        number: u64,
        user: u8,
    ) -> QueueLink<'p, L, R>
        ensures pass { result.pass ≡ pass }
        ensures number { result.number ≡ number }
        ensures user { result.user ≡ user }
        ensures empty_handed { result.hand ≡ [] }
    {
        let (counted, mut boxes) = pass.into_parts();
        pool.spares.clear(rt, &mut boxes.hand, user);
        QueueLink {
            rt,
            pool,
            free,
            poster: Poster {
                counted,
                end: number,
                user,
                next: None,
            },
            boxes,
            unsignalled: UnsignalledPosts::new(),
            took_all: false,
            older_frame: None,
        }
    }

    /// Returns its pass, and drops the results in hand.
    fn into_pass(self) -> PoolPass<L>
        ensures { result ≡ self.entry.pass }
    {
        let QueueLink {
            rt,
            pool,
            free: _free,
            poster,
            mut boxes,
            mut unsignalled,
            took_all: _took_all,
            older_frame: _older_frame,
        } = self;
        pool.wake_workers(rt, unsignalled.take_due(1));
        let Poster { counted, user, .. } = poster;
        pool.spares.clear(rt, &mut boxes.hand, user);
        PoolPass::new(counted, boxes)
    }
}

impl<L: PoolIdentity, R: Wait> Drop for QueueLink<'_, L, R> {
    fn drop(self) {
        let (rt, pool, free) = (self.rt, self.pool, self.free);
        let user = self.poster.user;
        let pass = self.into_pass();
        if let Some(free) = free {
            pool.withdraw(rt, user);
            free.give_back(rt, pass);
        }
    }
}

impl<'p, L: PoolIdentity, R: Wait> PoolLink<QueueClosed> for QueueLink<'p, L, R> {
    ghost shown = { λ link. link.last };

    ghost pushed = { HasPushed };

    ghost none_pushed = { HasPushedNothing };

    ghost some_pushed = { λ _. IsSameLink };

    ghost taken = { λ _. HasTaken };

    ghost none_taken = { HasTakenNothing };

    fn push(&mut self, task: &TaskRef<'_>, wait: bool) -> Result<(), NotPosted<QueueClosed>> {
        let posted = self.post(task, wait).map_err(NotPosted::from);
        if posted.is_ok() {
            self.unsignalled.note_posted();
            self.wake_workers(TASKS_AT_ONCE);
        }
        posted
    }

    fn push_some(&mut self, tasks: &TaskList<'_>) -> usize {
        for here in 0..tasks.len() {
            if self.push(tasks.at(here), false).is_err() {
                return here;
            }
        }
        tasks.len()
    }

    fn take(&mut self, _user: u8, owed: usize) -> Result<(), QueueClosed> {
        self.fill_hand(owed)?;
        self.hand_out();
        Ok(())
    }

    fn take_now(&mut self, _user: u8) -> bool {
        let is_taken = self.note_closed().is_none() && self.refill_hand() && self.hand_out();
        if !is_taken {
            self.wake_workers(1);
        }
        is_taken
    }

    fn shown(&self) -> DoneRef<'_> {
        self.boxes.last.done()
    }

    fn seen_closed(&self) -> Option<QueueClosed> {
        self.pool.seen_closed(self.rt)
    }
}

impl<'p, L: PoolIdentity, R: Wait> Finish for QueueLink<'p, L, R> {
    type Remains = PoolPass<L>;

    ghost leaves = { λ link pass. pass ≡ link.pass };

    fn finish(self) -> PoolPass<L> {
        self.into_pass()
    }
}

impl<'p, L: PoolIdentity, R: Wait> QueueLink<'p, L, R> {
    /// Returns that the pool is closed, if it is. Then it drops the results in hand.
    fn note_closed(&mut self) -> Option<QueueClosed>
        ensures dropped { OnSome result (self.new.hand ≡ []) }
        ensures kept { IfNone result (self.new.hand ≡ self.old.hand) }
        ensures unchanged { self.new ≡ record self.old { hand = self.new.hand } }
    {
        let closed = self.pool.seen_closed(self.rt);
        if closed.is_some() {
            self.pool
                .spares
                .clear(self.rt, &mut self.boxes.hand, self.poster.user);
        }
        closed
    }

    /// Fetches results if none is in hand, and waits until there is one. `owed` tasks are owed to its end.
    ///
    /// # Errors
    /// The pool is closed.
    fn fill_hand(&mut self, owed: usize) -> Result<(), QueueClosed>
        ensures some { OnOk result (0 < length self.new.hand) }
        ensures kept { OnOk result (0 < length self.old.hand → self.new.hand ≡ self.old.hand) }
        ensures unchanged { self.new ≡ record self.old { hand = self.new.hand } }
    {
        if let Some(closed) = self.note_closed() {
            return Err(closed);
        }
        if self.refill_hand() {
            return Ok(());
        }
        self.wake_workers(1);
        self.took_all = true;
        self.pool
            .fetch(self.rt, self.poster.user, owed, &mut self.boxes.hand)
    }

    /// Fetches the results that are there if none is in hand, unless all were fetched since the last call. Returns whether some are
    /// in hand now.
    fn refill_hand(&mut self) -> bool
        ensures some { result ≡ true → 0 < length self.new.hand }
        ensures none { result ≡ false → self.new.hand ≡ [] }
        ensures kept { 0 < length self.old.hand → self.new.hand ≡ self.old.hand }
        ensures unchanged { self.new ≡ record self.old { hand = self.new.hand } }
    {
        if !self.boxes.hand.is_empty() {
            return true;
        }
        if mem::take(&mut self.took_all) {
            return false;
        }
        self.took_all = self
            .pool
            .poll(self.rt, self.poster.user, &mut self.boxes.hand);
        self.took_all
    }

    /// Shows the next result in hand. Returns false if there is none.
    fn hand_out(&mut self) -> bool
        ensures some { IsTrue result ↔ (0 < length self.old.hand) }
        ensures next { result ≡ true → self.old.hand ≡ self.new.last ∷ self.new.hand }
        ensures whose { result ≡ true → self.new.last.name.label.user ≡ self.old.user }
        ensures boxes { self.old.boxes < MAX_SPARE_BOXES → result ≡ true → self.new.boxes ≡ self.old.boxes + 1 }
        ensures never_fewer { self.old.boxes ≤ self.new.boxes }
        ensures unchanged { self.new ≡ record self.old { last = self.new.last; hand = self.new.hand; boxes = self.new.boxes } }
        ensures none { result ≡ false → self.new ≡ self.old }
    {
        let Some(first) = self.boxes.hand.pop(self.poster.user) else {
            return false;
        };
        self.older_frame = None;
        let older = mem::replace(&mut self.boxes.last, first);
        let (spare, frame) = older.into_parts();
        self.older_frame = frame;
        self.reuse(spare);
        true
    }

    /// Posts a task in one of the boxes that it keeps, or in a spare one of the pool.
    fn post(&mut self, task: &TaskRef<'_>, wait: bool) -> Result<(), PostFault>
        ensures pushed { OnOk result (HasPushed task.now self.old self.new) }
        ensures nothing { OnErr result (HasPushedNothing self.old self.new) }
        ensures unchanged { self.new ≡ record self.old { pass = self.new.pass; boxes = self.new.boxes } }
        ensures cause { IfErr result (λ fault. IsCauseOf fault self.old.boxes (length self.old.pass.pushed)) }
        ensures full { wait ≡ true → IfErr result SaysClosed }
    {
        if self.poster.next.is_none() {
            self.poster.next = self.boxes.spare.pop();
        }
        let posted = self.pool.post(self.rt, &mut self.poster, task, wait);
        self.keep_next();
        posted
    }

    /// Keeps the box for the next task if the post has left it.
    fn keep_next(&mut self)
        ensures kept { self.old.boxes ≤ MAX_SPARE_BOXES → self.new.boxes ≡ self.old.boxes }
        ensures unchanged { self.new ≡ record self.old { boxes = self.new.boxes } }
    {
        if let Some(unused) = self.poster.next.take() {
            self.reuse(unused.released());
        }
    }

    /// Keeps a box for a later task, or returns it to the pool if there are enough.
    fn reuse(&mut self, spare: TaskBox)
        ensures kept { self.old.boxes < MAX_SPARE_BOXES → self.new.boxes ≡ self.old.boxes + 1 }
        ensures never_fewer { self.old.boxes ≤ self.new.boxes }
        ensures unchanged { self.new ≡ record self.old { boxes = self.new.boxes } }
    {
        if let Err(spare) = self.boxes.spare.push(spare) {
            self.pool.spares.put_by(self.rt, spare);
        }
    }

    /// Wakes waiting workers for the tasks that none was woken for, if there are at least `least`.
    fn wake_workers(&mut self, least: usize)
        ensures { self.new ≡ self.old }
    {
        self.pool
            .wake_workers(self.rt, self.unsignalled.take_due(least));
    }
}
