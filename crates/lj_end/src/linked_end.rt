//! One connection's end of a pool.
ghost use Rattle.std.specs.Prelude.{◌≡◌, ◌+◌, ◌<◌, ◌≤◌, ◌↔◌, ℕ, false, length, take, true, IfErr, OnErr, OnOk};
ghost use Rattle.lj_end.specs.Accounts.{IsKnownByName};
ghost use Rattle.lj_end.specs.LinkedEnds.{end_over};
ghost use Rattle.lj_end.specs.RefusedPosts.{IsPoolClosed};
ghost use Rattle.lj_end.specs.Seen.{ArePosted, IsHandedOut, IsPosted, SameOwed, StaysClosed};
ghost use Rattle.lj_task.specs.Task.{Task};

use crate::account::Account;
use crate::pool::{MAX_OWED, NotPosted, PoolEnd};
use crate::task_list::TaskList;
use lj_task::{DoneRef, TaskRef};
use std::marker::Model;

/// What an end has of its pool: how tasks go there and results come. Each kind of pool has its own link, which says by its ghost
/// members what each call has changed. `C` is the token of the pool's close.
///
/// Promise: only taking a result changes the result that a link shows.
pub trait PoolLink<C>: Drop {
    // the task of the result that is shown
    ghost shown: { Self → Task };

    // this task was pushed, and nothing else
    ghost pushed: { Task → Self → Self → Type 0 };

    // no task was pushed
    ghost none_pushed: { Self → Self → Type 0 };

    // this many tasks were pushed
    ghost some_pushed: { ℕ → Self → Self → Type 0 };

    // the next result for the user of this number was taken
    ghost taken: { ℕ → Self → Self → Type 0 };

    // no result was taken
    ghost none_taken: { Self → Self → Type 0 };

    /// Pushes a task. With `wait` it waits for room.
    fn push(&mut self, task: &TaskRef<'_>, wait: bool) -> Result<(), NotPosted<C>>
        ensures pushed { OnOk result (pushed task.now self.old self.new) }
        ensures none { OnErr result (none_pushed self.old self.new) }
        ensures shown { shown self.new ≡ shown self.old }
        ensures full { wait ≡ true → IfErr result IsPoolClosed };

    /// Pushes tasks in order and never waits. Returns how many were pushed: the first ones, and no others.
    fn push_some(&mut self, tasks: &TaskList<'_>) -> usize
        ensures most { result ≤ length tasks.now }
        ensures pushed { some_pushed result self.old self.new }
        ensures shown { shown self.new ≡ shown self.old };

    /// Takes the next result for a user, and waits for it if there is none. `owed` tasks are owed to the end.
    ///
    /// # Errors
    /// The pool is closed.
    fn take(&mut self, user: u8, owed: usize) -> Result<(), C>
        ensures taken { OnOk result (taken user self.old self.new) }
        ensures none { OnErr result (none_taken self.old self.new) }
        ensures shown { OnErr result (shown self.new ≡ shown self.old) };

    /// Takes the next result for a user if one is there now. It never waits for a worker. It may return false at any time.
    fn take_now(&mut self, user: u8) -> bool
        ensures taken { result ≡ true → taken user self.old self.new }
        ensures none { result ≡ false → none_taken self.old self.new }
        ensures shown { result ≡ false → shown self.new ≡ shown self.old };

    /// Returns the result that was taken last.
    fn shown(&self) -> DoneRef<'_>
        ensures { result ≡ shown self.now };

    /// Returns that the pool is closed, if it is.
    fn seen_closed(&self) -> Option<C>;
}

/// A link of which something is left once its end is finished.
pub trait Finish {
    /// What is left.
    type Remains;

    // this is left of it
    ghost leaves: { Self → Self.Remains → Type 0 };

    /// Takes it apart.
    fn finish(self) -> Self::Remains
        ensures { leaves self result };
}

/// An end of a pool, over its link to the pool. It keeps a copy of each task that is owed to it, and allocates no memory.
///
/// Promise: a `LinkedEnd` satisfies all clauses of `PoolEnd`, for any number of workers. So `serve` writes the same replies over a
/// `LinkedEnd` as over any other pool.
#[derive(Drop)]
pub struct LinkedEnd<X, C> {
    link: X,
    account: Account<C>,
    /// Whether the result that is shown was taken, and is not counted yet.
    is_uncounted: bool,
}

impl<X, C> Model for LinkedEnd<X, C> {
    ghost use Rattle.lj_end.specs.LinkedEnds.{LinkedEnd};

    ghost Value = { LinkedEnd X };

    ghost view = { λ end. record { link = end.link; seen = end.account; uncounted = end.is_uncounted } };
}

impl<C: Copy + Drop, X: PoolLink<C>> LinkedEnd<X, C> {
    /// Returns an end to which nothing is owed.
    pub fn new(link: X) -> LinkedEnd<X, C>
        ensures { result ≡ end_over link }
    {
        LinkedEnd {
            link,
            account: Account::new(),
            is_uncounted: false,
        }
    }
}

impl<C: Drop, X: Finish> LinkedEnd<X, C> {
    /// Finishes the end, and returns what is left of its link. Results that were owed to it may still come.
    pub fn finish(self) -> X::Remains
        ensures { X.leaves self.link result }
    {
        let LinkedEnd {
            link,
            account: _account,
            is_uncounted: _is_uncounted,
        } = self;
        link.finish()
    }
}

impl<C: Copy + Drop, X: PoolLink<C>> PoolEnd for LinkedEnd<X, C> {
    type Closed = C;

    ghost use Rattle.lj_end.specs.declared.pool.TheConstants.{MAX_OWED};

    ghost seen = { λ end. end.seen };

    ghost last = { λ end. X.shown end.link };

    ghost uncounted = { λ end. end.uncounted };

    ghost for_others = { λ _ _. 0 };

    ghost most = { MAX_OWED };

    ghost takes_all = { false };

    fn post_from(&mut self, task: &TaskRef<'_>, wait: bool) -> Result<(), NotPosted<C>>
        requires room { length self.old.seen.owed < MAX_OWED }
        ensures pushed { OnOk result (X.pushed task.now self.old.link self.new.link) }
        ensures none { OnErr result (X.none_pushed self.old.link self.new.link) }
        ensures shown { X.shown self.new.link ≡ X.shown self.old.link }
        ensures kept { self.new.uncounted ≡ self.old.uncounted }
        ensures posted { OnOk result (IsPosted task.now self.old.seen self.new.seen) }
        ensures unchanged { OnErr result (SameOwed self.old.seen self.new.seen) }
        ensures full { wait ≡ true → IfErr result IsPoolClosed }
        ensures closed { IfErr result (λ why. IsPoolClosed why → self.new.seen.closed ≡ true) }
        ensures stays_closed { StaysClosed self.old.seen self.new.seen }
    {
        let posted = self.link.push(task, wait);
        self.account.note_post(task, posted);
        posted
    }

    fn post_some(&mut self, tasks: &TaskList<'_>) -> usize
        requires room { length self.old.seen.owed + length tasks.now ≤ MAX_OWED }
        ensures pushed { X.some_pushed result self.old.link self.new.link }
        ensures shown { X.shown self.new.link ≡ X.shown self.old.link }
        ensures kept { self.new.uncounted ≡ self.old.uncounted }
        ensures most { result ≤ length tasks.now }
        ensures posted { ArePosted (take result tasks.now) self.old.seen self.new.seen }
        ensures stays_closed { StaysClosed self.old.seen self.new.seen }
    {
        let posted = self.link.push_some(tasks);
        self.account.note_posts(tasks, posted);
        if posted == tasks.len() {
            return posted;
        }
        if let Some(closed) = self.link.seen_closed() {
            self.account.close(closed);
        }
        posted
    }

    fn fetch_uncounted(&mut self, user: u8) -> Result<(), C>
        ensures taken { self.old.uncounted ≡ false → OnOk result (X.taken user self.old.link self.new.link) }
        ensures none { OnErr result (X.none_taken self.old.link self.new.link) }
        ensures same { self.old.uncounted ≡ true → self.new ≡ self.old }
        ensures uncounted { OnOk result (self.new.uncounted ≡ true) }
        ensures again { self.old.uncounted ≡ true → X.shown self.new.link ≡ X.shown self.old.link }
        ensures as_before { OnErr result (self.new.uncounted ≡ self.old.uncounted) }
        ensures last { OnErr result (X.shown self.new.link ≡ X.shown self.old.link) }
        ensures unchanged { SameOwed self.old.seen self.new.seen }
        ensures closed { OnErr result (self.new.seen.closed ≡ true) }
        ensures stays_closed { StaysClosed self.old.seen self.new.seen }
    {
        if self.is_uncounted {
            return Ok(());
        }
        if let Err(closed) = self.link.take(user, self.account.owed()) {
            self.account.close(closed);
            return Err(closed);
        }
        self.is_uncounted = true;
        Ok(())
    }

    fn poll_uncounted(&mut self, user: u8) -> bool
        ensures taken { self.old.uncounted ≡ false → result ≡ true → X.taken user self.old.link self.new.link }
        ensures none { result ≡ false → X.none_taken self.old.link self.new.link }
        ensures same { self.old.uncounted ≡ true → self.new ≡ self.old }
        ensures uncounted { result ≡ true → self.new.uncounted ≡ true }
        ensures as_before { result ≡ false → self.new.uncounted ≡ self.old.uncounted }
        ensures again { self.old.uncounted ≡ true → X.shown self.new.link ≡ X.shown self.old.link }
        ensures last { result ≡ false → X.shown self.new.link ≡ X.shown self.old.link }
        ensures seen { self.new.seen ≡ self.old.seen }
        ensures unchanged { SameOwed self.old.seen self.new.seen }
        ensures stays_closed { StaysClosed self.old.seen self.new.seen }
    {
        self.is_uncounted = self.is_uncounted || self.link.take_now(user);
        self.is_uncounted
    }

    fn count(&mut self, by_name: bool)
        requires { by_name ≡ true → IsKnownByName self.old.seen.owed (X.shown self.old.link) }
        ensures link { self.new ≡ record self.old { seen = self.new.seen; uncounted = false } }
        ensures handed_out { IsHandedOut (X.shown self.old.link) self.old.seen self.new.seen }
        ensures closed { self.new.seen.closed ≡ self.old.seen.closed }
        ensures stays_closed { StaysClosed self.old.seen self.new.seen }
    {
        self.is_uncounted = false;
        self.account.count(self.link.shown().task(), by_name);
    }

    fn fetched(&self) -> DoneRef<'_> {
        self.link.shown()
    }

    fn owed(&self) -> usize {
        self.account.owed()
    }

    fn room(&self) -> usize
        ensures all { length self.now.seen.owed + result ≡ MAX_OWED }
        ensures none { result ≡ 0 ↔ (length self.now.seen.owed ≡ MAX_OWED) }
        ensures owes { result ≡ 0 → 0 < length self.now.seen.owed }
        ensures within { 0 < result → length self.now.seen.owed + result ≤ MAX_OWED }
    {
        self.account.room()
    }

    fn is_closed(&self) -> bool {
        self.account.is_closed()
    }
}
