//! The book of tasks.
ghost use Rattle.std.specs.Prelude.{◌≡◌, true, false, ◌≤◌, ◌<◌, ◌+◌, ◌-◌, ◌^◌, ◌↔◌, ◌⊎◌, ℕ, List, [], Some, IsOk, OnOk, OnErr, IfOk, IfErr, IfSome, IfNone, IsTrue};
ghost use Rattle.lj_book.specs.Picks.{IsPick};
ghost use Rattle.lj_book.specs.Book.{entry_at, entry_count, IsOpenAt, IsDoneAt, Posts, Takes, Gives, HandsBack, Fetches, Withdraws};

use crate::book_entry::{BookEntry, MAX_ENTRIES};
use crate::book_faults::{Full, NoRoom, NotOut};
use crate::book_of::BookOf;
use crate::counts::Counts;
use crate::task_box::{TaskBox, boxes, spare_box};
use lj_task::{Done, Task};
use std::alloc::{AllocError, Global};
use std::marker::Model;

/// The key of an entry of a book.
pub type Key = usize;

/// The book of tasks. A task is posted, and is open; a worker takes it, and it is out; the worker gives its result, and
/// the user fetches that. Only `new` takes memory.
///
/// Tasks and results are large, so they pass by reference, to a box of the book or to `out`; `post`, `take`, `give`
/// and `fetch` copy them.
#[derive(Drop)]
pub struct Book {
    inner: BookOf<TaskBox, TaskBox>,
    spare: Vec<TaskBox>,
}

impl Model for Book {
    ghost use Rattle.lj_book.specs.Book.{Book};
    ghost use Rattle.lj_book.specs.Boxes.{HasBoxes};

    ghost Value = { Book };

    ghost view = { λ b. b.inner };

    ghost invariant = { λ b. HasBoxes b.inner b.spare };
}

impl Book {
    /// Makes a book without entries, and reserves memory for `MAX_ENTRIES`.
    ///
    /// # Errors
    /// Out of memory.
    pub fn new(alloc: Global) -> Result<Book, AllocError>
        ensures { IfOk result (λ book.
            book ≡ record { slots = []; posted = 0; given = 0; fetched = 0; withdrawn = 0 }) }
    {
        let inner = BookOf::new(alloc)?;
        let spare = boxes(alloc, MAX_ENTRIES + 1)?;
        Ok(Book { inner, spare })
    }

    /// Posts a copy of a task, which is then open.
    ///
    /// # Errors
    /// `NoRoom` if there are `MAX_ENTRIES` entries, or 2^64 - 1 tasks have been posted. Nothing has changed then.
    pub fn post_from(&mut self, task: &Task) -> Result<(), NoRoom>
        ensures room { IsOk result ↔ ((entry_count self.old < MAX_ENTRIES) × (self.old.posted < 2 ^ 64 - 1)) }
        ensures posts { OnOk result ((key : ℕ) × Posts self.old self.new task.now key) }
        ensures unchanged { OnErr result (self.new ≡ self.old) }
    {
        if !self.inner.has_room() {
            return Err(NoRoom);
        }
        let mut opened = spare_box(&mut self.spare);
        opened.remake(&task.by_ref());
        self.inner.post(opened);
        Ok(())
    }

    /// Posts a task, which is then open.
    ///
    /// # Errors
    /// `Full`, with the task, if there are `MAX_ENTRIES` entries, or 2^64 - 1 tasks have been posted.
    ///
    /// Promise: if the book has room, it stores the task as open under a vacant key. Otherwise the task is returned, and the
    /// book is unchanged.
    pub fn post(&mut self, task: Task) -> Result<(), Full>
        ensures room { IsOk result ↔ ((entry_count self.old < MAX_ENTRIES) × (self.old.posted < 2 ^ 64 - 1)) }
        ensures posts { OnOk result ((key : ℕ) × Posts self.old self.new task key) }
        ensures handed_back { IfErr result (λ full. full.task ≡ task) }
        ensures unchanged { OnErr result (self.new ≡ self.old) }
    {
        match self.post_from(&task) {
            Ok(()) => Ok(()),
            Err(NoRoom) => Err(Full { task }),
        }
    }

    /// Takes the open task of the least key from `pick` on, else of the least key, copies it to `out`, and returns its
    /// key. The task is then out. If no task is open, `out` is unchanged.
    pub fn take_into(&mut self, pick: usize, out: &mut Task) -> Option<Key>
        ensures some { IfSome result (λ key. Takes self.old self.new key out.new) }
        ensures picked { IfSome result (λ key. IsPick (IsOpenAt self.old) pick key) }
        ensures none { IfNone result ((k : ℕ) → ¬ IsOpenAt self.old k) }
        ensures unchanged { IfNone result (self.new ≡ self.old) }
        ensures same_out { IfNone result (out.new ≡ out.old) }
    {
        let key = self.inner.find_open(pick)?;
        out.copy_from(self.inner.open_at(key).task());
        let mut kept = spare_box(&mut self.spare);
        kept.remake(&out.by_ref());
        let opened = self.inner.let_out(key, kept);
        self.spare.push_reserved(opened);
        Some(key)
    }

    /// Takes the open task of the least key from `pick` on, else of the least key. It is then out.
    ///
    /// Promise: the open task with the smallest key at or above `pick` is handed out. If there is no such task, the open task
    /// with the smallest key is handed out. If no task is open, nothing changes.
    pub fn take(&mut self, pick: usize) -> Option<(Key, Task)>
        ensures some { IfSome result (λ taken. Takes self.old self.new taken.0 taken.1) }
        ensures picked { IfSome result (λ taken. IsPick (IsOpenAt self.old) pick taken.0) }
        ensures none { IfNone result ((k : ℕ) → ¬ IsOpenAt self.old k) }
        ensures unchanged { IfNone result (self.new ≡ self.old) }
    {
        let mut out = Task::blank();
        let key = self.take_into(pick, &mut out)?;
        Some((key, out))
    }

    /// Gives a copy of the result of the task that is out under a key. Its user can then fetch it.
    ///
    /// # Errors
    /// `NotOut` if that very task is not out under that key. Nothing has changed then.
    pub fn give_from(&mut self, key: Key, done: &Done) -> Result<(), NotOut>
        ensures given { IsOk result ↔ (entry_at self.old key ≡ Some (BookEntry.Out done.now)) }
        ensures gives { OnOk result (Gives self.old self.new key done.now) }
        ensures unchanged { OnErr result (self.new ≡ self.old) }
    {
        if !self.is_out(key, done.task()) {
            return Err(NotOut);
        }
        let given = spare_box(&mut self.spare).filled(done);
        let kept = self.inner.finish(key, given);
        self.spare.push_reserved(kept);
        Ok(())
    }

    /// Gives the result of the task that is out under a key. Its user can then fetch it.
    ///
    /// # Errors
    /// The result, if that very task is not out under that key. Nothing has changed then.
    ///
    /// Promise: a result is accepted if and only if its task is handed out under the given key. Otherwise the result is returned,
    /// and nothing changes.
    pub fn give(&mut self, key: Key, done: Done) -> Result<(), Done>
        ensures given { IsOk result ↔ (entry_at self.old key ≡ Some (BookEntry.Out done)) }
        ensures gives { OnOk result (Gives self.old self.new key done) }
        ensures handed_back { IfErr result (λ refused. refused ≡ done) }
        ensures unchanged { OnErr result (self.new ≡ self.old) }
    {
        match self.give_from(key, &done) {
            Ok(()) => Ok(()),
            Err(NotOut) => Err(done),
        }
    }

    /// Hands back a task that is out under a key. It is then open again.
    ///
    /// # Errors
    /// `NotOut` if that very task is not out under that key. Nothing has changed then.
    pub fn hand_back(&mut self, key: Key, task: &Task) -> Result<(), NotOut>
        ensures was_out { IsOk result ↔ (entry_at self.old key ≡ Some (BookEntry.Out task.now)) }
        ensures hands_back { OnOk result (HandsBack self.old self.new key task.now) }
        ensures unchanged { OnErr result (self.new ≡ self.old) }
    {
        if !self.is_out(key, task) {
            return Err(NotOut);
        }
        let mut opened = spare_box(&mut self.spare);
        opened.remake(&task.by_ref());
        let kept = self.inner.reopen(key, opened);
        self.spare.push_reserved(kept);
        Ok(())
    }

    /// Fetches the user's result of the least key from `pick` on, else of the least key: copies it to `out`, and
    /// removes its entry. Returns false if there is none; `out` is unchanged then.
    pub fn fetch_into(&mut self, user: u8, pick: usize, out: &mut Done) -> bool
        ensures some { result ≡ true → (key : ℕ) × Fetches self.old self.new out.new key
            × IsPick (IsDoneAt user self.old) pick key }
        ensures none { result ≡ false → (k : ℕ) → ¬ IsDoneAt user self.old k }
        ensures unchanged { result ≡ false → self.new ≡ self.old }
        ensures same_out { result ≡ false → out.new ≡ out.old }
    {
        let Some(done) = self.inner.fetch(user, pick) else {
            return false;
        };
        out.copy_from(&done.done());
        self.spare.push_reserved(done.into_task());
        true
    }

    /// Fetches the user's result of the least key from `pick` on, else of the least key, and removes its entry.
    ///
    /// Promise: the user's result with the smallest key at or above `pick` leaves the book. If there is no such result, the
    /// user's result with the smallest key leaves. If the user has no result, nothing changes.
    pub fn fetch(&mut self, user: u8, pick: usize) -> Option<Done>
        ensures some { IfSome result (λ done. (key : ℕ) × Fetches self.old self.new done key
            × IsPick (IsDoneAt user self.old) pick key) }
        ensures none { IfNone result ((k : ℕ) → ¬ IsDoneAt user self.old k) }
        ensures unchanged { IfNone result (self.new ≡ self.old) }
    {
        let mut out = Done::blank();
        if !self.fetch_into(user, pick, &mut out) {
            return None;
        }
        Some(out)
    }

    /// Removes every entry of the user, also those of tasks that are out.
    ///
    /// Promise: exactly the user's entries leave the book, including those whose task a worker has.
    pub fn withdraw(&mut self, user: u8)
        ensures { Withdraws user self.old self.new }
    {
        let Book { inner, spare } = self;
        inner.withdraw(user, spare);
    }

    /// Returns whether this very task is out under the key.
    fn is_out(&self, key: Key, task: &Task) -> bool
        ensures { IsTrue result ↔ (entry_at self.now key ≡ Some (BookEntry.Out task.now)) }
    {
        match self.inner.kept_at(key) {
            Some(kept) => kept.task().is(task),
            None => false,
        }
    }

    /// Returns the counts. Each posted task has been fetched or withdrawn, or is still in the book.
    ///
    /// Promise: every posted task has been fetched or withdrawn, or is still in the book. Accepted results never outnumber
    /// posted tasks.
    pub fn counts(&self) -> Counts
        ensures posted { result.posted ≡ self.now.posted }
        ensures given { result.given ≡ self.now.given }
        ensures fetched { result.fetched ≡ self.now.fetched }
        ensures withdrawn { result.withdrawn ≡ self.now.withdrawn }
        ensures entries { result.entries ≡ entry_count self.now }
        ensures balance { result.posted ≡ result.fetched + result.withdrawn + result.entries }
        ensures given_posted { result.given ≤ result.posted }
    {
        self.inner.counts()
    }
}
