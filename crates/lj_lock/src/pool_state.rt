//! The state under the lock of a pool.
ghost use Rattle.std.specs.Prelude.{◌≡◌, ◌≢◌, ◌+◌, ◌-◌, ◌%◌, ◌^◌, ◌≤◌, ◌<◌, ◌↔◌, ◌⊎◌, ◌++◌, ℕ, List, None, true, false, is_some, length, min, slice_index_or, take, IsOk, IsTrue, IfErr, IfNone, IfSome, OnErr, OnOk};
ghost use Rattle.std.specs.List.{All};
ghost use Rattle.std.specs.Option.{ForSome};
ghost use Rattle.lj_book.specs.Book.{entry_count, user_of_task, HasRoom, IsOpenAt};
ghost use Rattle.lj_book.specs.Boxes.{boxes as boxes_of, GivesBox, HandsBackBox, IsOut, TakesBox, WithdrawsBox};
ghost use Rattle.lj_book.specs.Picks.{IsPick};
ghost use Rattle.lj_task.specs.Task.{Task};
ghost use Rattle.lj_end.specs.RefusedPosts.{IsPoolClosed};
ghost use Rattle.lj_lock.specs.EndBoxes.{SameResults, end_box_count};
ghost use Rattle.lj_lock.specs.PoolStates.{FetchesEach, FetchesInHand, HasBox, HasNoResult, HasPosted, NoneIsLost, PostsEach, PostsIn, PutsBy, TakesHome, open_pool};
ghost use Rattle.lj_lock.specs.Copies.{AreCopies, HandsOver};
ghost use Rattle.lj_end.specs.Waking.{due_at, due_of, with_given, with_waiting, woken_for};

use crate::end_boxes::{EndBoxes, MAX_IN_HAND, TaskCopies};
use lj_book::{BoxBook, Counts, Key, LentDone, LentTask, MAX_ENTRIES, TaskBox};
use lj_end::{IdleWorkers, NotPosted, Share, TaskList, UnsignalledPosts, WaitQueues};
use lj_task::TaskRef;
use std::marker::Model;
use std::sync::ledger::{self, Ledger};

/// That a pool is closed. Only the state of a closed pool makes one.
#[derive(Clone, Copy, Debug)]
pub struct LockClosed(());

/// The book of a pool, and the ledger's book of the results given to it.
#[derive(Drop)]
pub(crate) struct PoolState<L: Ledger> {
    book: BoxBook,
    results: ledger::Book<L>,
    next: Key,
    unsignalled: UnsignalledPosts,
    idle: IdleWorkers,
    /// The queues in which ends wait for results.
    wait_queues: WaitQueues,
    closed: bool,
}

impl<L: Ledger> Model for PoolState<L> {
    ghost use Rattle.std.specs.Prelude.{◌≡◌};
    ghost use Rattle.lj_lock.specs.PoolStates.{PoolState};

    ghost Value = { PoolState };

    ghost view = { λ state. record {
      book = state.book;
      next = state.next;
      unsignalled = state.unsignalled;
      idle = state.idle;
      wait_queues = state.wait_queues;
      closed = state.closed;
    } };

    ghost invariant = { λ state. state.book.inner.given ≡ state.results.total };
}

impl<L: Ledger> PoolState<L> {
    /// Makes the state of an open pool.
    pub(crate) fn new(book: BoxBook, results: ledger::Book<L>) -> PoolState<L>
        requires { book.inner.given ≡ results.total }
        ensures { result ≡ open_pool book }
    {
        PoolState {
            book,
            results,
            next: 0,
            unsignalled: UnsignalledPosts::new(),
            idle: IdleWorkers::new(),
            wait_queues: WaitQueues::new(),
            closed: false,
        }
    }

    /// Posts a task in the box at hand if there is one, else a copy of it in a spare box. If it is not posted, the box at hand is
    /// handed back.
    pub(crate) fn post(
        &mut self,
        boxed: &mut Option<TaskBox>,
        task: &TaskRef<'_>,
    ) -> Result<(), NotPosted<LockClosed>>
        requires { ForSome boxed.old (λ work. work ≡ task.now) }
        ensures room { IsOk result
            ↔ ((self.old.closed ≡ false) × HasRoom self.old.book.inner × HasBox self.old.book boxed.old) }
        ensures posts { OnOk result (PostsIn boxed.old task.now self.old.book self.new.book) }
        ensures unsignalled { OnOk result (1 ≤ self.new.unsignalled) }
        ensures out_of_hand { OnOk result (boxed.new ≡ None) }
        ensures closed { IfErr result (λ why. IsPoolClosed why ↔ (self.old.closed ≡ true)) }
        ensures unchanged { OnErr result (self.new ≡ self.old) }
        ensures handed_back { OnErr result (boxed.new ≡ boxed.old) }
        ensures stays { self.new ≡ record self.old { book = self.new.book; unsignalled = self.new.unsignalled } }
    {
        if let Some(closed) = self.closed() {
            return Err(NotPosted::Closed(closed));
        }
        let Some(at_hand) = boxed.take() else {
            return self.post_copy(task);
        };
        if let Err(refused) = self.book.post_box(at_hand) {
            *boxed = Some(refused);
            return Err(NotPosted::Full);
        }
        self.unsignalled.note_posted();
        Ok(())
    }

    /// Posts tasks in their order: in the boxes of their copies as far as there are some, else copies of them in spare boxes.
    /// Returns how many of them were posted, the first ones. The boxes of the others are handed back.
    #[tactic(auto, using(crate::proofs::CopyLemmas::posts_next))]
    pub(crate) fn post_some(&mut self, copies: &mut TaskCopies, tasks: &TaskList<'_>) -> usize
        requires { AreCopies copies.old.items tasks.now }
        ensures most { result ≤ length tasks.now }
        ensures posts { PostsEach (take result tasks.now) self.old.book self.new.book }
        ensures unsignalled { 0 < result → 1 ≤ self.new.unsignalled }
        ensures hands_over { HandsOver result copies.old.items copies.new.items }
        ensures stays { self.new ≡ record self.old { book = self.new.book; unsignalled = self.new.unsignalled } }
    {
        for here in 0..tasks.len() {
            if self.post_at(here, copies, tasks.at(here)).is_err() {
                return here;
            }
        }
        tasks.len()
    }

    /// Posts a task in the box at this place if there is one, else a copy of it in a spare box. If it is not posted, the box
    /// stays.
    fn post_at(
        &mut self,
        here: usize,
        copies: &mut TaskCopies,
        task: &TaskRef<'_>,
    ) -> Result<(), NotPosted<LockClosed>>
        requires { ForSome (slice_index_or copies.old.items here None) (λ work. work ≡ task.now) }
        ensures posts { OnOk result (HasPosted task.now self.old.book self.new.book) }
        ensures unsignalled { OnOk result (1 ≤ self.new.unsignalled) }
        ensures unchanged { OnErr result (self.new ≡ self.old) }
        ensures out_of_hand { OnOk result (slice_index_or copies.new.items here None ≡ None) }
        ensures handed_back { OnErr result (copies.new.items ≡ copies.old.items) }
        ensures places { length copies.new.items ≡ length copies.old.items }
        ensures others { (k : ℕ) → k ≢ here
            → slice_index_or copies.new.items k None ≡ slice_index_or copies.old.items k None }
        ensures stays { self.new ≡ record self.old { book = self.new.book; unsignalled = self.new.unsignalled } }
    {
        if here < copies.len() {
            self.post(&mut copies[here], task)
        } else {
            self.post(&mut None, task)
        }
    }

    /// Posts a copy of a task in a spare box.
    fn post_copy(&mut self, task: &TaskRef<'_>) -> Result<(), NotPosted<LockClosed>>
        ensures room { IsOk result ↔ (HasRoom self.old.book.inner × (0 < self.old.book.spare)) }
        ensures posts { OnOk result (PostsIn None task.now self.old.book self.new.book) }
        ensures unsignalled { OnOk result (1 ≤ self.new.unsignalled) }
        ensures open { IfErr result (λ why. ¬ IsPoolClosed why) }
        ensures unchanged { OnErr result (self.new ≡ self.old) }
        ensures stays { self.new ≡ record self.old { book = self.new.book; unsignalled = self.new.unsignalled } }
    {
        self.book.boxes_are_few();
        let Some(mut spare) = self.book.lend() else {
            return Err(NotPosted::Full);
        };
        spare.remake(task);
        if let Err(refused) = self.book.post_box(spare) {
            self.book.put_by(refused);
            return Err(NotPosted::Full);
        }
        self.unsignalled.note_posted();
        Ok(())
    }

    /// Takes an open task in its box, round robin. None where there is none, or the pool is closed.
    pub(crate) fn take(&mut self) -> Option<LentTask>
        ensures some { IfSome result (λ lent. TakesBox self.old.book self.new.book lent) }
        ensures picked { IfSome result (λ lent. IsPick (IsOpenAt self.old.book.inner) self.old.next lent.key) }
        ensures next { IfSome result (λ lent. self.new.next ≡ (lent.key + 1) % 2 ^ 64) }
        ensures none { IfNone result (self.old.closed ≡ false → (k : ℕ) → ¬ IsOpenAt self.old.book.inner k) }
        ensures unchanged { IfNone result (self.new ≡ self.old) }
        ensures closed { self.old.closed ≡ true → result ≡ None }
        ensures stays { self.new ≡ record self.old { book = self.new.book; next = self.new.next } }
    {
        if self.closed {
            return None;
        }
        let lent = self.book.take_box(self.next)?;
        self.next = lent.key().wrapping_add(1);
        Some(lent)
    }

    /// Gives a result, and credits it to the share of its worker if it is accepted; else its box becomes spare. Returns whether
    /// it is accepted.
    pub(crate) fn give(&mut self, done: LentDone, share: &mut Share<L>) -> bool
        ensures accepted { IsTrue result ↔ IsOut self.old.book done }
        ensures gives { result ≡ true → GivesBox self.old.book self.new.book done }
        ensures credited { result ≡ true → share.new ≡ share.old + 1 }
        ensures put_by { result ≡ false → PutsBy self.old.book self.new.book }
        ensures not_credited { result ≡ false → share.new ≡ share.old }
        ensures stays { self.new ≡ record self.old { book = self.new.book } }
    {
        let PoolState { book, results, .. } = self;
        if let Err(refused) = book.give_box(done) {
            self.put_by(refused.into_task());
            return false;
        }
        let _given = book.counts().given;
        share.credit(results);
        true
    }

    /// Hands back a task that was taken, and counts it as a post for which workers are to be woken. Returns whether it was out;
    /// where its user's entries were withdrawn it was not, and its box becomes spare.
    pub(crate) fn hand_back(&mut self, lent: LentTask) -> bool
        ensures was_out { IsTrue result ↔ IsOut self.old.book lent }
        ensures hands_back { result ≡ true → HandsBackBox self.old.book self.new.book lent }
        ensures unsignalled { result ≡ true → 1 ≤ self.new.unsignalled }
        ensures put_by { result ≡ false → PutsBy self.old.book self.new.book }
        ensures none_noted { result ≡ false → self.new.unsignalled ≡ self.old.unsignalled }
        ensures stays { self.new ≡ record self.old { book = self.new.book; unsignalled = self.new.unsignalled } }
    {
        if let Err(refused) = self.book.hand_back_box(lent) {
            self.put_by(refused);
            return false;
        }
        self.unsignalled.note_posted();
        true
    }

    /// Adds the spare boxes of an end to those of the pool, then takes as many results of the user in hand as there is room for.
    /// The first of them is handed out at once, and the box of the one before it is spare for the next task. Returns false where
    /// there is none, or the pool is closed.
    pub(crate) fn fetch(&mut self, user: u8, own: &mut EndBoxes) -> bool
        ensures some { result ≡ true → FetchesInHand user self.old.book own.old self.new.book own.new }
        ensures all { result ≡ true → (length own.new.hand ≡ MAX_IN_HAND) ⊎ HasNoResult user self.new.book.inner }
        ensures none { result ≡ false → self.old.closed ≡ false → HasNoResult user self.old.book.inner }
        ensures unchanged { result ≡ false → self.new.book.inner ≡ self.old.book.inner }
        ensures same_results { result ≡ false → SameResults own.old own.new }
        ensures kept { NoneIsLost self.old.book own.old self.new.book own.new }
        ensures put_by { own.new.spare ≤ 1 }
        ensures closed { self.old.closed ≡ true → result ≡ false }
        ensures made { self.new.book.made ≡ self.old.book.made }
        ensures stays { self.new ≡ record self.old { book = self.new.book } }
    {
        self.put_spare_by(own);
        if self.closed {
            return false;
        }
        let Some(first) = self.book.fetch_box(user, 0) else {
            return false;
        };
        own.show(first);
        self.fetch_more(user, own);
        true
    }

    /// Adds a box that was lent to the spare ones.
    fn put_by(&mut self, lent: TaskBox)
        ensures put_by { PutsBy self.old.book self.new.book }
        ensures stays { self.new ≡ record self.old { book = self.new.book } }
    {
        self.book.put_by(lent);
    }

    /// Adds the spare boxes of an end to those of the pool.
    fn put_spare_by(&mut self, own: &mut EndBoxes)
        ensures own { own.new ≡ record own.old { spare = 0 } }
        ensures few { length own.new.hand ≤ MAX_IN_HAND }
        ensures kept { NoneIsLost self.old.book own.old self.new.book own.new }
        ensures stays { self.new ≡ record self.old { book = record self.old.book { spare = self.new.book.spare } } }
    {
        while let Some(spare) = own.pop_spare() {
            self.put_by(spare);
        }
    }

    /// Takes as many results of the user in hand as are there and there is room for.
    fn fetch_more(&mut self, user: u8, own: &mut EndBoxes)
        requires { own.old.spare ≤ 1 }
        ensures fetches { (others : List Task) × (own.new ≡ record own.old { hand = own.old.hand ++ others })
            × FetchesEach others self.old.book.inner self.new.book.inner × All (λ done. user_of_task done ≡ user) others }
        ensures all { (length own.new.hand ≡ MAX_IN_HAND) ⊎ HasNoResult user self.new.book.inner }
        ensures kept { boxes_of self.new.book + length own.new.hand
            ≡ boxes_of self.old.book + length own.old.hand }
        ensures made { self.new.book.made ≡ self.old.book.made }
        ensures stays { self.new ≡ record self.old { book = self.new.book } }
    {
        for _in_hand in own.in_hand()..MAX_IN_HAND {
            let Some(next) = self.book.fetch_box(user, 0) else {
                return;
            };
            own.push(next);
        }
    }

    /// Adds all boxes of an end to the spare ones of the pool.
    pub(crate) fn put_all_by(&mut self, own: EndBoxes)
        ensures kept { boxes_of self.old.book + end_box_count own ≤ self.old.book.made
            → boxes_of self.new.book ≡ boxes_of self.old.book + end_box_count own }
        ensures stays { self.new ≡ record self.old { book = record self.old.book { spare = self.new.book.spare } } }
    {
        let mut left = own;
        while let Some(lent) = left.give_up() {
            self.put_by(lent);
        }
        left.let_go();
    }

    /// Takes home what an end had: adds its boxes to the spare ones, and withdraws every entry of its user if it was for one user.
    pub(crate) fn take_home(&mut self, own: EndBoxes, user: Option<u8>)
        ensures book { TakesHome own user self.old.book self.new.book }
        ensures stays { self.new ≡ record self.old { book = self.new.book } }
    {
        self.put_all_by(own);
        if let Some(user) = user {
            self.withdraw(user);
        }
    }

    /// Notes that a worker waits for a task.
    pub(crate) fn note_idle(&mut self)
        ensures { self.new ≡ record self.old { idle = min (self.old.idle + 1) (2 ^ 64 - 1) } }
    {
        self.idle.note_waiting();
    }

    /// Takes the number of tasks that no worker was woken for, if it has reached `least`. Returns how many idle workers are to
    /// be woken for them; these count as idle no more.
    pub(crate) fn take_woken(&mut self, least: usize) -> usize
        ensures value { result ≡ woken_for (due_of self.old.unsignalled least) self.old.idle }
        ensures left { self.old ≡ record self.new {
          unsignalled = self.new.unsignalled + due_of self.old.unsignalled least;
          idle = self.new.idle + result;
        } }
    {
        let tasks = self.unsignalled.take_due(least);
        self.idle.take_woken(tasks)
    }

    /// Notes that an end, to which `owed` results are owed, waits for results of the user.
    pub(crate) fn note_waiting(&mut self, user: u8, owed: usize)
        ensures { self.new ≡ record self.old { wait_queues = with_waiting self.old.wait_queues user owed } }
    {
        self.wait_queues.note_waiting(user, owed);
    }

    /// Counts a result given to the user. Returns whether the ends that wait for it are to be woken now.
    pub(crate) fn note_given(&mut self, user: u8) -> bool
        ensures wakes { IsTrue result ↔ (due_at self.old.wait_queues user ≡ 1) }
        ensures due { self.new ≡ record self.old { wait_queues = with_given self.old.wait_queues user } }
    {
        self.wait_queues.note_given(user)
    }

    /// Withdraws every entry of the user.
    pub(crate) fn withdraw(&mut self, user: u8)
        ensures withdraws { WithdrawsBox user self.old.book self.new.book }
        ensures stays { self.new ≡ record self.old { book = self.new.book } }
    {
        self.book.withdraw(user);
    }

    /// Closes the pool.
    pub(crate) fn close(&mut self)
        ensures { self.new ≡ record self.old { closed = true } }
    {
        self.closed = true;
    }

    /// Returns that the pool is closed, if it is.
    pub(crate) fn closed(&self) -> Option<LockClosed>
        ensures { is_some result ≡ self.now.closed }
    {
        self.closed.then_some(LockClosed(()))
    }

    /// Returns whether no task can be posted before an entry leaves the book or a box becomes spare.
    pub(crate) fn is_full(&self) -> bool
        ensures { result ≡ false
            ↔ ((entry_count self.now.book.inner ≢ MAX_ENTRIES) × (0 < self.now.book.spare)) }
    {
        self.book.counts().entries == MAX_ENTRIES as u64 || !self.book.has_spare()
    }

    /// Returns the counts of the book.
    pub(crate) fn counts(&self) -> Counts
        ensures posted { result.posted ≡ self.now.book.inner.posted }
        ensures given { result.given ≡ self.now.book.inner.given }
        ensures fetched { result.fetched ≡ self.now.book.inner.fetched }
        ensures withdrawn { result.withdrawn ≡ self.now.book.inner.withdrawn }
        ensures entries { result.entries ≡ entry_count self.now.book.inner }
        ensures balance { result.posted ≡ result.fetched + result.withdrawn + result.entries }
        ensures given_posted { result.given ≤ result.posted }
    {
        self.book.counts()
    }

    /// Returns the number of results given, which is the amount of all parts of the ledger together.
    pub(crate) fn audited(&mut self, all: &mut ledger::Share<L>) -> u64
        requires { all.old.parts ≡ L.parts }
        ensures given { result ≡ self.old.book.inner.given }
        ensures amount { result ≡ all.old.amount }
        ensures unchanged { self.new ≡ self.old }
    {
        let PoolState { book, results, .. } = self;
        results.audit(all);
        book.counts().given
    }
}
