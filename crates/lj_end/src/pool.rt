//! The interface of a pool to a caller who posts tasks: an end that takes tasks and hands out results.
ghost use Rattle.std.specs.Prelude.{◌≡◌, ◌+◌, ◌<◌, ◌≤◌, ◌↔◌, ℕ, Bool, length, take, true, false, [], IfErr, IfNone, IfSome, IsOk, OnErr, OnOk, OnSome};
ghost use Rattle.std.specs.List.{All};
ghost use Rattle.lj_task.specs.Task.{Task};
ghost use Rattle.lj_end.specs.Seen.{Seen, SameOwed, ArePosted, IsPosted, IsHandedOut, StaysClosed};
ghost use Rattle.lj_end.specs.Accounts.{IsKnownByName};
ghost use Rattle.lj_end.specs.RefusedPosts.{refused_task, IsClosed, IsPoolClosed};

use crate::task_list::TaskList;
use lj_task::{Done, DoneRef, Task, TaskRef};
use thiserror::Error;

/// Maximum number of simultaneous ends for which a pool has boxes. With more of them a post may be refused before the book is
/// full.
pub const MAX_ENDS: usize = 64;

/// Maximum number of owed tasks (result not received yet) at one end of a pool.
pub const MAX_OWED: usize = 64;

/// Maximum number of tasks that one call posts.
pub const MAX_POSTS: usize = 16;

/// Number of consecutive stray results that end the work for a user.
pub const MAX_STRAYS: u64 = 4096;

/// Maximum number of unfinished tasks of a connection that waits for its next command. 63 waiting connections then leave room
/// for the last one among the 1,024 entries of a book.
pub const MAX_AHEAD: usize = 15;

/// Why a task was not posted. `C` is the token of the pool's close.
#[derive(Clone, Copy, PartialEq, Eq, Debug, Error)]
pub enum NotPosted<C> {
    /// There is no room for it now.
    #[error("there is no room for the task now")]
    Full,
    /// The pool is closed.
    #[error("the pool is closed")]
    Closed(C),
}

/// Why a task was not posted, with the task.
#[derive(Debug, Drop)]
pub enum Refused {
    /// There is no room for it now.
    Full(Task),
    /// The pool is closed.
    Closed(Task),
}

/// An end of a pool, as the engine uses it. A posted task is owed until its result is handed out. A pool may hand out results that
/// are not owed, the strays. The end counts both kinds, each up to 2^64 - 1, where the count stays.
///
/// Tasks and results are large, so they are passed by reference.
///
/// Promise: a posted task is owed until its result is handed out. Until a fetched result is counted as owed or as a stray, the
/// pool hands out only this result.
pub trait PoolEnd {
    /// The token of the pool's close. Only a closed pool makes one.
    type Closed: Drop;

    ghost seen: { Self → Seen };

    // the task of the result that `fetched` returns
    ghost last: { Self → Task };

    // whether the result that `fetched` returns was taken, and is not counted yet
    ghost uncounted: { Self → Bool };

    // how often the end was called for a user other than this one, by a task of another user, or by a fetch or poll for
    // another, where the pool counts that
    ghost for_others: { Self → ℕ → ℕ };

    // how many tasks are owed to a full end
    ghost most: { ℕ };

    // whether a post is never refused while fewer are owed
    ghost takes_all: { Bool };

    /// Posts a task. With `wait` it waits for room, and never refuses the task as `Full`.
    fn post_from(&mut self, task: &TaskRef<'_>, wait: bool) -> Result<(), NotPosted<Self::Closed>>
        requires room { length (seen self.old).owed < MAX_OWED }
        requires alone { wait ≡ true → (seen self.old).owed ≡ [] }
        ensures posted { OnOk result (IsPosted task.now (seen self.old) (seen self.new)) }
        ensures unchanged { OnErr result (SameOwed (seen self.old) (seen self.new)) }
        ensures full { wait ≡ true → IfErr result IsPoolClosed }
        ensures taken { takes_all ≡ true → length (seen self.old).owed < most → IsOk result }
        ensures closed { IfErr result (λ why. IsPoolClosed why → (seen self.new).closed ≡ true) }
        ensures stays_closed { StaysClosed (seen self.old) (seen self.new) }
        ensures kept { uncounted self.new ≡ uncounted self.old }
        ensures shown { uncounted self.old ≡ true → last self.new ≡ last self.old }
        ensures own { let user = task.now.name.label.user in for_others self.new user
            ≡ for_others self.old user };

    /// Posts tasks in order and never waits. Returns how many were posted: the first ones, and no others.
    fn post_some(&mut self, tasks: &TaskList<'_>) -> usize
        requires room { length (seen self.old).owed + length tasks.now ≤ MAX_OWED }
        ensures most { result ≤ length tasks.now }
        ensures all { takes_all ≡ true → length (seen self.old).owed + length tasks.now ≤ most → result ≡ length tasks.now }
        ensures posted { ArePosted (take result tasks.now) (seen self.old) (seen self.new) }
        ensures stays_closed { StaysClosed (seen self.old) (seen self.new) }
        ensures kept { uncounted self.new ≡ uncounted self.old }
        ensures shown { uncounted self.old ≡ true → last self.new ≡ last self.old }
        ensures own { (user : ℕ) → All (λ task. task.name.label.user ≡ user) tasks.now
            → for_others self.new user ≡ for_others self.old user }
    {
        for here in 0..tasks.len() {
            if self.post_from(tasks.at(here), false).is_err() {
                return here;
            }
        }
        tasks.len()
    }

    /// Takes the next result for a user, waits for it if there is none, and leaves it to be counted; `fetched` returns it. One that
    /// is not counted yet is the next one again, so none is lost.
    ///
    /// # Errors
    /// The pool is closed.
    fn fetch_uncounted(&mut self, user: u8) -> Result<(), Self::Closed>
        requires { 0 < length (seen self.old).owed }
        ensures uncounted { OnOk result (uncounted self.new ≡ true) }
        ensures as_before { OnErr result (uncounted self.new ≡ uncounted self.old) }
        ensures again { uncounted self.old ≡ true → last self.new ≡ last self.old }
        ensures last { OnErr result (last self.new ≡ last self.old) }
        ensures unchanged { SameOwed (seen self.old) (seen self.new) }
        ensures closed { OnErr result ((seen self.new).closed ≡ true) }
        ensures stays_closed { StaysClosed (seen self.old) (seen self.new) }
        ensures own { for_others self.new user ≡ for_others self.old user };

    /// Takes the next result for a user if one is there now, and leaves it to be counted; `fetched` returns it. One that is not
    /// counted yet is the next one again. It never waits for a worker. It may return false at any time.
    fn poll_uncounted(&mut self, user: u8) -> bool
        ensures uncounted { result ≡ true → uncounted self.new ≡ true }
        ensures as_before { result ≡ false → uncounted self.new ≡ uncounted self.old }
        ensures again { uncounted self.old ≡ true → last self.new ≡ last self.old }
        ensures last { result ≡ false → last self.new ≡ last self.old }
        ensures unchanged { SameOwed (seen self.old) (seen self.new) }
        ensures stays_closed { StaysClosed (seen self.old) (seen self.new) }
        ensures own { for_others self.new user ≡ for_others self.old user };

    /// Counts the result that `fetched` returns: as one that was owed, whose task is then owed no more, or as a stray. With
    /// `by_name` the name of its task is enough to find it among those that are owed.
    fn count(&mut self, by_name: bool)
        requires uncounted { uncounted self.old ≡ true }
        requires known { by_name ≡ true → IsKnownByName (seen self.old).owed (last self.old) }
        ensures counted { uncounted self.new ≡ false }
        ensures last { last self.new ≡ last self.old }
        ensures handed_out { IsHandedOut (last self.old) (seen self.old) (seen self.new) }
        ensures stays_closed { StaysClosed (seen self.old) (seen self.new) }
        ensures own { (user : ℕ) → for_others self.new user ≡ for_others self.old user };

    /// Returns the result that was handed out last. The end keeps it until the next post, fetch or poll, and until it is counted.
    fn fetched(&self) -> DoneRef<'_>
        ensures { result ≡ last self.now };

    /// Returns the number of tasks that are owed.
    fn owed(&self) -> usize
        ensures { result ≡ length (seen self.now).owed };

    /// Returns for how many tasks there is room now: 0 if the end is full, as many tasks being owed as may be, and at least one.
    fn room(&self) -> usize
        ensures none { result ≡ 0 ↔ (length (seen self.now).owed ≡ most) }
        ensures owes { result ≡ 0 → 0 < length (seen self.now).owed }
        ensures within { 0 < result → length (seen self.now).owed + result ≤ MAX_OWED }
        ensures fits { 0 < result → length (seen self.now).owed + result ≤ most };

    /// Returns whether the end has seen the pool closed.
    fn is_closed(&self) -> bool
        ensures { result ≡ (seen self.now).closed };
}

/// A pool to which tasks are posted by value, and whose results are fetched by value and counted at once. Each `PoolEnd` is one.
pub trait Pool: PoolEnd {
    /// Posts a task. With `wait` it waits for room, and never refuses the task as `Full`.
    fn post(&mut self, task: Task, wait: bool) -> Result<(), Refused>
        requires room { length (Self.seen self.old).owed < MAX_OWED }
        requires alone { wait ≡ true → (Self.seen self.old).owed ≡ [] }
        ensures posted { OnOk result (IsPosted task (Self.seen self.old) (Self.seen self.new)) }
        ensures handed_back { IfErr result (λ refused. refused_task refused ≡ task) }
        ensures unchanged { OnErr result (SameOwed (Self.seen self.old) (Self.seen self.new)) }
        ensures full { wait ≡ true → IfErr result IsClosed }
        ensures closed { IfErr result (λ refused. IsClosed refused → (Self.seen self.new).closed ≡ true) }
        ensures stays_closed { StaysClosed (Self.seen self.old) (Self.seen self.new) }
        ensures kept { Self.uncounted self.new ≡ Self.uncounted self.old }
        ensures shown { Self.uncounted self.old ≡ true → Self.last self.new ≡ Self.last self.old }
        ensures own { let user = task.name.label.user in Self.for_others self.new user ≡ Self.for_others self.old user }
    {
        match self.post_from(&task.by_ref(), wait) {
            Ok(()) => Ok(()),
            Err(NotPosted::Full) => Err(Refused::Full(task)),
            Err(NotPosted::Closed(_)) => Err(Refused::Closed(task)),
        }
    }

    /// Takes and counts the next result for a user, and waits for it if there is none. `None` only if the pool is closed.
    #[tactic(auto, using(crate::proofs::Handed::handed_after))]
    fn fetch(&mut self, user: u8) -> Option<Done>
        requires { 0 < length (Self.seen self.old).owed }
        ensures handed_out { IfSome result (λ done. IsHandedOut done (Self.seen self.old) (Self.seen self.new)) }
        ensures unchanged { IfNone result (SameOwed (Self.seen self.old) (Self.seen self.new)) }
        ensures closed { IfNone result ((Self.seen self.new).closed ≡ true) }
        ensures stays_closed { StaysClosed (Self.seen self.old) (Self.seen self.new) }
        ensures counted { OnSome result (Self.uncounted self.new ≡ false) }
        ensures as_before { IfNone result (Self.uncounted self.new ≡ Self.uncounted self.old) }
        ensures last { IfNone result (Self.last self.new ≡ Self.last self.old) }
        ensures shown { IfSome result (λ done. done ≡ Self.last self.new) }
        ensures own { Self.for_others self.new user ≡ Self.for_others self.old user }
    {
        if self.fetch_uncounted(user).is_err() {
            return None;
        }
        self.count(false);
        Some(self.fetched().to_done())
    }

    /// Takes and counts the next result for a user if one is there now. It never waits for a worker. It may return `None` at any
    /// time.
    #[tactic(auto, using(crate::proofs::Handed::handed_after))]
    fn poll(&mut self, user: u8) -> Option<Done>
        ensures handed_out { IfSome result (λ done. IsHandedOut done (Self.seen self.old) (Self.seen self.new)) }
        ensures unchanged { IfNone result (SameOwed (Self.seen self.old) (Self.seen self.new)) }
        ensures stays_closed { StaysClosed (Self.seen self.old) (Self.seen self.new) }
        ensures counted { OnSome result (Self.uncounted self.new ≡ false) }
        ensures as_before { IfNone result (Self.uncounted self.new ≡ Self.uncounted self.old) }
        ensures last { IfNone result (Self.last self.new ≡ Self.last self.old) }
        ensures shown { IfSome result (λ done. done ≡ Self.last self.new) }
        ensures own { Self.for_others self.new user ≡ Self.for_others self.old user }
    {
        if !self.poll_uncounted(user) {
            return None;
        }
        self.count(false);
        Some(self.fetched().to_done())
    }

    /// Returns whether the end has seen the pool closed.
    fn closed(&self) -> bool
        ensures { result ≡ (Self.seen self.now).closed }
    {
        self.is_closed()
    }
}

impl<E: PoolEnd> Pool for E {}
