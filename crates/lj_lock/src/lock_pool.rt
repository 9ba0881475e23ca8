//! A pool behind a lock, whose workers run in threads of their own.
ghost use Rattle.std.specs.Prelude.{◌≡◌, ◌+◌, ◌≤◌, None, true, false, cond, is_some, length, vec_len, IfErr, IfOk, IsSomeAnd, OnErr, OnOk};
ghost use Rattle.std.specs.List.{All};
ghost use Rattle.std.specs.Option.{ForSome};
ghost use Rattle.lj_lock.specs.EndBoxes.{IsNext, SameResults, TakesInHand};
ghost use Rattle.lj_lock.specs.Copies.{AreCopies, HandsOver};
ghost use Rattle.lj_end.specs.RefusedPosts.{IsPoolClosed};
ghost use Rattle.lj_end.specs.LinkedEnds.{end_over};
ghost use Rattle.lj_lock.specs.LockLinks.{link_without_boxes};
ghost use Rattle.lj_task.specs.Blank.{blank_task};

use crate::end_boxes::{EndBoxes, MAX_END_BOXES, TaskCopies};
use crate::lock_link::{LockEnd, LockLink};
use crate::pool_state::{LockClosed, PoolState};
use lj_book::{BoxBook, Counts, LentDone, LentTask, MAX_ENTRIES, TaskBox};
use lj_end::{
    LOOKS, LinkedEnd, MAX_ENDS, NotPosted, Share, TASKS_AT_ONCE, TaskList, WAIT_QUEUES, lock_soon,
    shares_of, wait_queue_of, wake,
};
use lj_task::{Done, TaskRef};
use std::alloc::{AllocError, Global};
use std::sync::atomic::{AtomicBool, Ordering};
use std::sync::ledger::{self, Blank, Ledger};
use std::sync::{Condvar, Mutex, MutexGuard, Wait};
use std::{array, thread};

/// A book of tasks behind a lock. Its ends post tasks and fetch results, each from a thread of its own, and workers
/// compute them (`work`). Tasks and results change hands in their boxes. The lock is never held while a task is computed.
#[derive(Drop)]
pub struct LockPool<L: Ledger> {
    state: Mutex<PoolState<L>>,
    /// Signalled when a task is posted or the pool closes. Workers wait on it.
    not_empty: Condvar,
    /// Signalled when an entry leaves a full book, a box becomes spare where none was, or the pool closes. Ends that have a task
    /// to post wait on it.
    not_full: Condvar,
    /// Signalled when results are given or the pool closes, one for each wait queue. The ends of its users wait on it.
    results_ready: [Condvar; WAIT_QUEUES],
    /// Set once the pool is closed, as its state says too.
    closed: AtomicBool,
    /// The result that an end shows before it is handed one.
    blank: Done,
    ghost blank_is: { blank ≡ blank_task },
}

impl<L: Ledger> LockPool<L> {
    /// Makes an empty pool, with a share for each worker, and boxes for all entries, workers and ends.
    ///
    /// # Errors
    /// Out of memory.
    pub fn new(
        alloc: Global,
        blank: Blank,
        workers: usize,
    ) -> Result<(LockPool<L>, Vec<Share<L>>), AllocError>
        requires name { blank.name ≡ L.name }
        requires parts { blank.parts ≡ L.parts }
        requires one_each { blank.parts ≡ workers }
        ensures one_each { IfOk result (λ made. vec_len made.1 ≡ workers) }
        ensures nothing { IfOk result (λ made. All (λ count. count ≡ 0) made.1.items) }
    {
        let Some(made) = workers.checked_add(MAX_ENTRIES + MAX_ENDS * MAX_END_BOXES) else {
            return Err(AllocError);
        };
        let book = BoxBook::new(alloc, made)?;
        let (results, all) = blank.open::<L>();
        let shares = shares_of(alloc, all, workers)?;
        let pool = LockPool {
            state: Mutex::new(PoolState::new(book, results)),
            not_empty: Condvar::new(),
            not_full: Condvar::new(),
            results_ready: array::from_fn(|_| Condvar::new()),
            closed: AtomicBool::new(false),
            blank: Done::blank(),
        };
        Ok((pool, shares))
    }

    /// Makes an end of the pool, to which nothing is owed, for tasks of any user.
    pub fn end<'p, R: Wait>(&'p self, rt: &'p R) -> LockEnd<'p, L, R>
        ensures { result ≡ end_over (link_without_boxes None) }
    {
        LinkedEnd::new(LockLink::new(rt, self, None))
    }

    /// Makes an end of the pool, to which nothing is owed, for tasks of one user. Once it is finished or dropped, the pool has no
    /// entry of this user.
    pub fn end_of<'p, R: Wait>(&'p self, rt: &'p R, user: u8) -> LockEnd<'p, L, R>
        ensures { result ≡ end_over (link_without_boxes (Some user)) }
    {
        LinkedEnd::new(LockLink::new(rt, self, Some(user)))
    }

    /// Closes the pool: from now on no task is posted or taken and no result fetched.
    pub fn close<R: Wait>(&self, rt: &R) {
        self.closed.store(true, Ordering::SeqCst);
        self.lock(rt).close();
        self.not_empty.notify_all();
        self.not_full.notify_all();
        for queue in &self.results_ready {
            queue.notify_all();
        }
    }

    /// Returns the counts of the book.
    ///
    /// Promise: every posted task has been fetched or withdrawn, or is still in the book. Accepted results never outnumber
    /// posted tasks.
    pub fn counts<R: Wait>(&self, rt: &R) -> Counts
        ensures balance { result.posted ≡ result.fetched + result.withdrawn + result.entries }
        ensures given_posted { result.given ≤ result.posted }
    {
        self.lock(rt).counts()
    }

    /// Withdraws every entry of the user, also those whose tasks are out.
    pub fn withdraw<R: Wait>(&self, rt: &R, user: u8) {
        self.lock(rt).withdraw(user);
        self.not_full.notify_all();
    }

    /// Locks the state.
    fn lock<R: Wait>(&self, rt: &R) -> MutexGuard<'_, PoolState<L>> {
        lock_soon(rt, &self.state)
    }

    /// Returns that the pool is closed, if it is. It takes the lock only then.
    pub(crate) fn seen_closed<R: Wait>(&self, rt: &R) -> Option<LockClosed> {
        if !self.closed.load(Ordering::SeqCst) {
            return None;
        }
        self.lock(rt).closed()
    }

    /// Returns a blank result.
    pub(crate) fn blank(&self) -> &Done
        ensures { result.now ≡ blank_task }
    {
        &self.blank
    }

    /// Posts a task in the box at hand if there is one, else a copy of it in a spare box. If it is not posted, the box at hand is
    /// handed back. With `wait` it waits while the book is full, and fails only where the pool is closed.
    pub(crate) fn post<R: Wait>(
        &self,
        rt: &R,
        boxed: &mut Option<TaskBox>,
        task: &TaskRef<'_>,
        wait: bool,
    ) -> Result<(), NotPosted<LockClosed>>
        requires { ForSome boxed.old (λ work. work ≡ task.now) }
        ensures out_of_hand { OnOk result (boxed.new ≡ None) }
        ensures handed_back { OnErr result (boxed.new ≡ boxed.old) }
        ensures full { wait ≡ true → IfErr result IsPoolClosed }
    {
        let mut state = self.lock(rt);
        for _ in rt.forever() {
            match state.post(boxed, task) {
                Err(NotPosted::Full) if wait => {}
                posted => {
                    let workers = state.take_woken(TASKS_AT_ONCE);
                    drop(state);
                    wake(&self.not_empty, workers);
                    return posted;
                }
            }
            state = self.not_full.wait(rt, state);
        }
        unreachable!()
    }

    /// Posts tasks in their order, in the boxes of their copies or in spare ones, and takes the lock once. Returns how many of
    /// them were posted, the first ones. It never waits for room.
    pub(crate) fn post_some<R: Wait>(
        &self,
        rt: &R,
        copies: &mut TaskCopies,
        tasks: &TaskList<'_>,
    ) -> usize
        requires { AreCopies copies.old.items tasks.now }
        ensures most { result ≤ length tasks.now }
        ensures hands_over { HandsOver result copies.old.items copies.new.items }
    {
        let mut state = self.lock(rt);
        let posted = state.post_some(copies, tasks);
        let workers = state.take_woken(TASKS_AT_ONCE);
        drop(state);
        wake(&self.not_empty, workers);
        posted
    }

    /// Hands out the user's next result in hand. If there is none, waits until the book has results of the user, takes as many in
    /// hand as there is room for, and hands out the first. `owed` results are owed to the end and not in its hand.
    ///
    /// # Errors
    /// The pool is closed.
    #[tactic(auto, using(crate::proofs::EndBoxLemmas::next_in_hand, crate::proofs::EndBoxLemmas::next_fetched))]
    pub(crate) fn fetch<R: Wait>(
        &self,
        rt: &R,
        user: u8,
        owed: usize,
        own: &mut EndBoxes,
    ) -> Result<(), LockClosed>
        ensures next { OnOk result (IsSomeAnd own.new.last (λ done. IsNext user own.old.hand done own.new.hand)) }
        ensures freed { OnOk result (cond (is_some own.old.last) 1 0 ≤ own.new.spare) }
        ensures same_results { OnErr result (SameResults own.old own.new) }
    {
        if let Some(closed) = self.seen_closed(rt) {
            return Err(closed);
        }
        if own.hand_out(user) {
            return Ok(());
        }
        let mut state = self.lock(rt);
        for _ in rt.forever() {
            match self.fetch_from(state, user, own) {
                Ok(fetched) => return fetched,
                Err(kept) => state = kept,
            }
            state.note_waiting(user, owed);
            state = self.results_ready[wait_queue_of(user)].wait(rt, state);
        }
        unreachable!()
    }

    /// Hands out the user's next result in hand. If there is none, takes as many results of the user that are in the book now as
    /// there is room for, and hands out the first. Returns false where there is none, or the pool is closed. The first poll after
    /// all results were taken returns false too, unless a task was posted since, and takes no lock.
    #[tactic(auto, using(crate::proofs::EndBoxLemmas::next_in_hand, crate::proofs::EndBoxLemmas::next_fetched))]
    pub(crate) fn poll<R: Wait>(&self, rt: &R, user: u8, own: &mut EndBoxes) -> bool
        ensures next { result ≡ true
            → IsSomeAnd own.new.last (λ done. IsNext user own.old.hand done own.new.hand) }
        ensures freed { result ≡ true → cond (is_some own.old.last) 1 0 ≤ own.new.spare }
        ensures same_results { result ≡ false → SameResults own.old own.new }
    {
        if self.closed.load(Ordering::SeqCst) {
            return false;
        }
        if own.hand_out(user) {
            return true;
        }
        if own.forget_fetch() {
            return false;
        }
        let state = self.lock(rt);
        matches!(self.fetch_from(state, user, own), Ok(Ok(())))
    }

    /// Adds the spare boxes of the end to those of the pool, takes as many results of the user in hand as there is room for, and
    /// unlocks the state. Wakes ends that wait for room if there is some now, and, unless there may be further results, workers for
    /// the tasks that none was woken for. The result is that of a fetch.
    ///
    /// # Errors
    /// The state, where there is no result yet and the pool is open.
    fn fetch_from<'d>(
        &self,
        state: MutexGuard<'d, PoolState<L>>,
        user: u8,
        own: &mut EndBoxes,
    ) -> Result<Result<(), LockClosed>, MutexGuard<'d, PoolState<L>>>
        ensures taken { IfOk result (λ fetched. OnOk fetched (TakesInHand user own.old own.new)) }
        ensures none { IfOk result (λ fetched. OnErr fetched (SameResults own.old own.new)) }
        ensures same_results { OnErr result (SameResults own.old own.new) }
    {
        let mut state = state;
        let was_full = state.is_full();
        let puts_by = own.has_spare();
        let fetched = state.fetch(user, own);
        if was_full && (fetched || puts_by) {
            self.not_full.notify_all();
        }
        if !fetched {
            if let Some(closed) = state.closed() {
                return Ok(Err(closed));
            }
            wake(&self.not_empty, state.take_woken(1));
            return Err(state);
        }
        let workers = if own.note_fetch() {
            state.take_woken(1)
        } else {
            0
        };
        drop(state);
        wake(&self.not_empty, workers);
        Ok(Ok(()))
    }

    /// Gives a result, which is credited to the share if it is accepted. Then takes an open task, and waits until there is one.
    /// None where the pool is closed.
    pub(crate) fn exchange<R: Wait>(
        &self,
        rt: &R,
        done: LentDone,
        share: &mut Share<L>,
    ) -> Option<LentTask>
        ensures never_falls { share.old ≤ share.new }
        ensures one_at_most { share.new ≤ share.old + 1 }
    {
        let user = done.done().task().name().label.user;
        let mut state = self.lock(rt);
        let was_full = state.is_full();
        let given = state.give(done, share);
        let wakes = given && state.note_given(user);
        let taken = state.take();
        drop(state);
        if wakes {
            self.results_ready[wait_queue_of(user)].notify_all();
        }
        if was_full && !given {
            self.not_full.notify_all();
        }
        if taken.is_none() {
            thread::yield_now();
            return self.take(rt);
        }
        taken
    }

    /// Hands a task back, which is then open again, and wakes waiting workers. Then takes an open task, perhaps the same one, and
    /// waits until there is one. None where the pool is closed.
    pub(crate) fn hand_back<R: Wait>(&self, rt: &R, lent: LentTask) -> Option<LentTask> {
        let mut state = self.lock(rt);
        let was_full = state.is_full();
        let was_out = state.hand_back(lent);
        let workers = state.take_woken(1);
        drop(state);
        wake(&self.not_empty, workers);
        if was_full && !was_out {
            self.not_full.notify_all();
        }
        self.take(rt)
    }

    /// Takes an open task, and waits until there is one. None where the pool is closed.
    pub(crate) fn take<R: Wait>(&self, rt: &R) -> Option<LentTask> {
        let taken = self.take_soon(rt);
        if taken.is_some() {
            return taken;
        }
        self.take_later(rt)
    }

    /// Takes an open task. None where there was none at any look.
    fn take_soon<R: Wait>(&self, rt: &R) -> Option<LentTask> {
        for _ in 0..LOOKS {
            let taken = self.lock(rt).take();
            if taken.is_some() {
                return taken;
            }
            thread::yield_now();
        }
        None
    }

    /// Waits for an open task, and takes it. None where the pool is closed.
    fn take_later<R: Wait>(&self, rt: &R) -> Option<LentTask> {
        let mut state = self.lock(rt);
        for _ in rt.forever() {
            let taken = state.take();
            if taken.is_some() || state.closed().is_some() {
                return taken;
            }
            state.note_idle();
            state = self.not_empty.wait(rt, state);
        }
        unreachable!()
    }

    /// Takes home what an end had: its boxes, and every entry of its user if it was for one user.
    pub(crate) fn take_home<R: Wait>(&self, rt: &R, own: EndBoxes, user: Option<u8>) {
        let mut state = self.lock(rt);
        let was_full = state.is_full();
        state.take_home(own, user);
        drop(state);
        if was_full {
            self.not_full.notify_all();
        }
    }

    /// Returns the number of results given, which is the amount of all parts of the ledger together.
    pub(crate) fn audited<R: Wait>(&self, rt: &R, all: &mut ledger::Share<L>) -> u64
        requires { all.old.parts ≡ L.parts }
        ensures { result ≡ all.old.amount }
    {
        self.lock(rt).audited(all)
    }
}
