//! The book that hands out tasks in their boxes.
ghost use Rattle.std.specs.Prelude.{◌≡◌, ◌≤◌, ◌<◌, ◌+◌, ◌-◌, ◌↔◌, ℕ, Some, IsOk, IsTrue, OnOk, OnErr, OnSome, IfOk, IfErr, IfSome, IfNone};
ghost use Rattle.lj_book.specs.Picks.{IsPick};
ghost use Rattle.lj_book.specs.Book.{entry_count, HasRoom, IsOpenAt, IsDoneAt};
ghost use Rattle.lj_book.specs.Boxes.{AreOlder, FetchesBox, GivesBox, HandsBackBox, IsOut, PostsBox, TakesBox, WithdrawsBox, boxes as boxes_of, empty_box_book};

use crate::book_of::BookOf;
use crate::counts::Counts;
use crate::lent_task::{Lent, LentDone, LentTask, Numbered, Slip};
use crate::task_box::{DoneBox, TaskBox, boxes};
use lj_task::Task;
use std::alloc::{AllocError, Global};
use std::marker::Model;

/// The book of tasks in boxes. A task is posted in its box, and is open; a worker takes the box, and the book stores
/// only the number of the post and the user; the worker gives the box back with the result, and the user fetches it. No
/// box is copied, and only `new` takes memory.
///
/// Each post has its own number, so the book knows a box that is out by its key and number: it refuses one that was
/// withdrawn, even if its key is in use again.
#[derive(Drop)]
pub struct BoxBook {
    inner: BookOf<Numbered, Slip>,
    spare: Vec<TaskBox>,
    made: usize,
}

impl Model for BoxBook {
    ghost use Rattle.std.specs.Prelude.{vec_len};
    ghost use Rattle.lj_book.specs.Boxes.{BoxBook, IsBoxBook};

    ghost Value = { BoxBook };

    ghost view = { λ b. record { inner = b.inner; spare = vec_len b.spare; made = b.made } };

    ghost invariant = { λ b. IsBoxBook b.inner b.spare b.made };
}

impl BoxBook {
    /// Makes a book without entries, with `made` boxes, all spare.
    ///
    /// # Errors
    /// Out of memory.
    pub fn new(alloc: Global, made: usize) -> Result<BoxBook, AllocError>
        ensures { IfOk result (λ book. book ≡ empty_box_book made) }
    {
        let inner = BookOf::new(alloc)?;
        let spare = boxes(alloc, made)?;
        Ok(BoxBook { inner, spare, made })
    }

    /// Lends a spare box.
    ///
    /// Promise: a box is handed out if and only if the book has a spare one.
    pub fn lend(&mut self) -> Option<TaskBox>
        ensures lends { OnSome result (self.old ≡ record self.new { spare = self.new.spare + 1 }) }
        ensures none { IfNone result (self.old.spare ≡ 0) }
        ensures unchanged { IfNone result (self.new ≡ self.old) }
    {
        self.spare.pop()
    }

    /// Returns whether a box is spare.
    pub fn has_spare(&self) -> bool
        ensures { IsTrue result ↔ (0 < self.now.spare) }
    {
        !self.spare.is_empty()
    }

    /// Takes back a box that was lent. If none is lent, the box comes from elsewhere and is dropped.
    ///
    /// Promise: a box that was handed out is not lost.
    pub fn put_by(&mut self, lent: TaskBox)
        ensures spare { boxes_of self.old < self.old.made → self.new ≡ record self.old { spare = self.old.spare + 1 } }
        ensures unchanged { self.old.made ≤ boxes_of self.old → self.new ≡ self.old }
    {
        if self.is_any_lent() {
            self.spare.push_reserved(lent);
        }
    }

    /// Posts the task in a box, which is then open.
    ///
    /// # Errors
    /// The box, if there are `MAX_ENTRIES` entries, 2^64 - 1 tasks have been posted, or no box is lent, so that this
    /// one comes from elsewhere. Nothing has changed then.
    ///
    /// Promise: if the book has room and at least one box is handed out, the task in the given box becomes open under a new
    /// number. Otherwise the box is returned, and the book is unchanged.
    pub fn post_box(&mut self, task: TaskBox) -> Result<(), TaskBox>
        ensures room { IsOk result ↔ (HasRoom self.old.inner × (boxes_of self.old < self.old.made)) }
        ensures posts { OnOk result ((key : ℕ) × PostsBox self.old self.new task key) }
        ensures handed_back { IfErr result (λ refused. refused ≡ task) }
        ensures unchanged { OnErr result (self.new ≡ self.old) }
    {
        if !self.has_room() {
            return Err(task);
        }
        let number = self.inner.posted();
        self.inner.post(Numbered::new(number, task));
        Ok(())
    }

    /// Takes the open task of the least key from `pick` on, else of the least key, in its box. It is then out.
    ///
    /// Promise: the open task with the smallest key at or above `pick` is handed out in its box. If there is no such task, the
    /// open task with the smallest key is handed out. If no task is open, nothing changes.
    pub fn take_box(&mut self, pick: usize) -> Option<LentTask>
        ensures some { IfSome result (λ lent. TakesBox self.old self.new lent) }
        ensures picked { IfSome result (λ lent. IsPick (IsOpenAt self.old.inner) pick lent.key) }
        ensures none { IfNone result ((k : ℕ) → ¬ IsOpenAt self.old.inner k) }
        ensures unchanged { IfNone result (self.new ≡ self.old) }
    {
        let key = self.inner.find_open(pick)?;
        let slip = self.inner.open_at(key).slip();
        let Numbered { number, task, .. } = self.inner.let_out(key, slip);
        Some(Lent {
            key,
            number,
            boxed: task,
        })
    }

    /// Gives the result of a task that is out. Its user can then fetch it.
    ///
    /// # Errors
    /// The box, if no task is out under that key with that number. Nothing has changed then.
    ///
    /// Promise: a result is accepted if and only if its task is handed out under the result's key and number. Otherwise the box
    /// is returned, and nothing changes.
    pub fn give_box(&mut self, lent: LentDone) -> Result<(), DoneBox>
        ensures given { IsOk result ↔ IsOut self.old lent }
        ensures gives { OnOk result (GivesBox self.old self.new lent) }
        ensures handed_back { IfErr result (λ refused. refused ≡ lent.work) }
        ensures unchanged { OnErr result (self.new ≡ self.old) }
    {
        if !self.is_out(lent.key, lent.number, lent.done().task()) {
            return Err(lent.boxed);
        }
        self.inner.finish(lent.key, lent.boxed);
        Ok(())
    }

    /// Hands back a task that is out. It is then open again, in its box.
    ///
    /// # Errors
    /// The box, if no task is out under that key with that number. Nothing has changed then.
    pub fn hand_back_box(&mut self, lent: LentTask) -> Result<(), TaskBox>
        ensures was_out { IsOk result ↔ IsOut self.old lent }
        ensures hands_back { OnOk result (HandsBackBox self.old self.new lent) }
        ensures handed_back { IfErr result (λ refused. refused ≡ lent.work) }
        ensures unchanged { OnErr result (self.new ≡ self.old) }
    {
        if !self.is_out(lent.key, lent.number, lent.task()) {
            return Err(lent.boxed);
        }
        self.inner
            .reopen(lent.key, Numbered::new(lent.number, lent.boxed));
        Ok(())
    }

    /// Fetches the user's result of the least key from `pick` on, else of the least key, in its box, and removes its entry.
    ///
    /// Promise: the user's result with the smallest key at or above `pick` leaves the book, still in its box. If there is no
    /// such result, the user's result with the smallest key leaves. If the user has no result, nothing changes.
    pub fn fetch_box(&mut self, user: u8, pick: usize) -> Option<DoneBox>
        ensures some { IfSome result (λ done. (key : ℕ) × FetchesBox self.old self.new done key
            × IsPick (IsDoneAt user self.old.inner) pick key) }
        ensures none { IfNone result ((k : ℕ) → ¬ IsDoneAt user self.old.inner k) }
        ensures unchanged { IfNone result (self.new ≡ self.old) }
    {
        self.inner.fetch(user, pick)
    }

    /// Removes every entry of the user, also those of tasks that are out. The boxes in them are spare then.
    ///
    /// Promise: exactly the user's entries leave the book, including those whose task a worker has. No box is lost.
    pub fn withdraw(&mut self, user: u8)
        ensures { WithdrawsBox user self.old self.new }
    {
        let BoxBook { inner, spare, .. } = self;
        inner.withdraw(user, spare);
    }

    /// Returns whether a box that was lent can be posted.
    fn has_room(&self) -> bool
        ensures { IsTrue result ↔ (HasRoom self.now.inner × (boxes_of self.now < self.now.made)) }
    {
        self.inner.has_room() && self.is_any_lent()
    }

    /// Returns whether a box is lent that is not out with the task of an entry.
    fn is_any_lent(&self) -> bool
        ensures { IsTrue result ↔ (boxes_of self.now < self.now.made) }
    {
        self.spare.len() + self.inner.len() < self.made
    }

    /// Returns whether a task of the same user is out under the key with this number.
    fn is_out(&self, key: usize, number: u64, task: &Task) -> bool
        ensures { IsTrue result ↔ IsOut self.now (record { key = key; number = number; work = task.now }) }
    {
        match self.inner.kept_at(key) {
            Some(kept) => kept.number == number && kept.user == task.name().label.user,
            None => false,
        }
    }

    /// Shows that each number in the book is below the count of posts, so no two posts have the same number.
    pub fn numbers_are_older(&self)
        ensures { AreOlder self.now.inner }
    {
        let _inner = &self.inner;
    }

    /// Shows that the spare boxes and the entries are together at most the boxes that were made; the other boxes are lent.
    pub fn boxes_are_few(&self)
        ensures { boxes_of self.now ≤ self.now.made }
    {
        let _inner = &self.inner;
    }

    /// Returns the counts. Each posted task has been fetched or withdrawn, or is still in the book.
    ///
    /// Promise: every posted task has been fetched or withdrawn, or is still in the book. Accepted results never outnumber
    /// posted tasks.
    pub fn counts(&self) -> Counts
        ensures posted { result.posted ≡ self.now.inner.posted }
        ensures given { result.given ≡ self.now.inner.given }
        ensures fetched { result.fetched ≡ self.now.inner.fetched }
        ensures withdrawn { result.withdrawn ≡ self.now.inner.withdrawn }
        ensures entries { result.entries ≡ entry_count self.now.inner }
        ensures balance { result.posted ≡ result.fetched + result.withdrawn + result.entries }
        ensures given_posted { result.given ≤ result.posted }
    {
        self.inner.counts()
    }
}
