//! A pool whose open tasks lie in a queue that no lock guards, and whose results lie under a lock.
ghost use Rattle.std.specs.Prelude.{◌≡◌, ◌+◌, ◌≤◌, ◌<◌, [], None, Some, true, false, length, vec_len, IfErr, IfNone, IfOk, IfSome, IsSomeAnd, OnErr, OnOk};
ghost use Rattle.std.specs.List.{All};
ghost use Rattle.lj_end.specs.LinkedEnds.{end_over};
ghost use Rattle.lj_queue.specs.NoRoom.{IsCause, IsCauseOf, SaysClosed, boxes_in};
ghost use Rattle.lj_queue.specs.ResultList.{FetchesResults, empty_list};
ghost use Rattle.lj_queue.specs.PoolPass.{AreUntouched, IsRootPass, with_post, with_push, with_pop};

use crate::free_passes::FreePasses;
use crate::mailboxes::{Mailboxes, QueueClosed};
use crate::no_room::{FullCause, PostFault};
use crate::open_task::OpenTask;
use crate::pass::{CountedPass, NotPushed, PoolIdentity, PoolPass};
use crate::poster::Poster;
use crate::queue_link::{QueueEnd, QueueLink};
use crate::result_list::ResultList;
use crate::root_pass::{RootPass, passes_of};
use crate::rule::{OpenTasks, TaskPass};
use crate::spares::Spares;
use lj_book::{DoneBox, MAX_ENTRIES, TaskBox};
use lj_end::{
    IdleWorkers, LOOKS, LinkedEnd, MAX_ENDS, Share, WAIT_QUEUES, lock_soon, shares_of,
    wait_queue_of, wake,
};
use lj_task::TaskRef;
use std::alloc::{AllocError, Global};
use std::marker::Model;
use std::sync::atomic::{AtomicBool, AtomicUsize, Ordering};
use std::sync::ledger::{self, Blank};
use std::sync::{Condvar, Mutex, MutexGuard, Wait};
use std::{array, thread};

/// Maximum number of open tasks in the pool with a queue.
pub const MAX_OPEN_TASKS: usize = MAX_ENTRIES;

/// The number of passes for connections. Those of the workers come after them.
pub const CONNECTIONS: usize = MAX_ENDS;

/// The parts that a pool is made from: an empty queue, its first pass and a blank ledger.
#[derive(Drop)]
pub struct QueueBlank {
    queue: OpenTasks,
    first: TaskPass,
    ledger: Blank,
}

impl Model for QueueBlank {
    ghost use Rattle.lj_queue.specs.PoolPass.{IsRootPass, QueueBlank};
    ghost use Rattle.lj_queue.specs.declared.queue_pool.TheConstants.{MAX_OPEN_TASKS};
    ghost use Rattle.std.specs.Prelude.{◌≡◌};
    ghost use Rattle.crossbeam_queue.specs.Passes.{ruled_capacity};

    ghost Value = { QueueBlank };

    ghost view = { λ b. record { name = b.ledger.name; parts = b.ledger.parts; table = b.queue.table.shared.table_id } };

    ghost invariant = { λ b. IsRootPass b.queue.table.shared.table_id 0 b.first × (ruled_capacity b.queue ≡ MAX_OPEN_TASKS) };
}

impl QueueBlank {
    /// Makes the parts of a pool of this many workers.
    ///
    /// # Errors
    /// Out of memory.
    pub fn new(alloc: Global, workers: u64) -> Result<QueueBlank, AllocError>
        ensures { IfOk result (λ blank. blank.parts ≡ workers) }
    {
        let (queue, first) = OpenTasks::ruled(alloc, MAX_OPEN_TASKS)?;
        Ok(QueueBlank {
            queue,
            first,
            ledger: Blank::new(workers),
        })
    }
}

/// A pool with open tasks in a queue, and results in lists of their users behind a lock. Its ends post tasks and fetch results,
/// each from a thread of its own, and workers compute them (`work_queue`). The lock is never held while a task is computed.
#[derive(Drop)]
pub struct QueuePool<L: PoolIdentity> {
    pub(crate) queue: OpenTasks,
    /// The spare boxes: those without an open task and without a result.
    pub(crate) spares: Spares,
    /// The pass that the others were cut from.
    pub(crate) root_pass: Mutex<RootPass<L>>,
    mailboxes: Mutex<Mailboxes<L>>,
    idle: Mutex<IdleWorkers>,
    /// Signalled when tasks are posted or the pool closes. Idle workers wait on it.
    not_empty: Condvar,
    /// Signalled when a task is taken while ends wait for room, or the pool closes. These ends wait on it.
    not_full: Condvar,
    /// Signalled when results are kept or the pool closes, one for each wait queue. The ends of its users wait on it.
    results_ready: [Condvar; WAIT_QUEUES],
    /// False only where no worker is idle. A worker sets it before it looks for a task under the lock of the idle ones, so an
    /// end that has posted a task and then reads false need wake none.
    some_idle: AtomicBool,
    /// The number of ends that wait for room.
    waiting_posters: AtomicUsize,
    /// Set once the pool is closed, as the mailboxes say too.
    closed: AtomicBool,
    ghost is_of: { queue.table.shared.table_id ≡ L.table },
}

impl<L: PoolIdentity> QueuePool<L> {
    /// Makes an empty pool, its passes, the first `CONNECTIONS` for connections and the others for the workers, and a share for
    /// each worker.
    ///
    /// # Errors
    /// Out of memory.
    pub fn new(
        alloc: Global,
        blank: QueueBlank,
        workers: usize,
    ) -> Result<(QueuePool<L>, Vec<PoolPass<L>>, Vec<Share<L>>), AllocError>
        requires name { blank.name ≡ L.name }
        requires parts { blank.parts ≡ L.parts }
        requires one_each { blank.parts ≡ workers }
        requires table { blank.table ≡ L.table }
        requires passes { workers + CONNECTIONS ≡ L.passes }
        ensures passes { IfOk result (λ made. vec_len made.1 ≡ L.passes) }
        ensures numbered { IfOk result (λ made. AreUntouched L.passes made.1.items) }
        ensures one_each { IfOk result (λ made. vec_len made.2 ≡ workers) }
        ensures nothing { IfOk result (λ made. All (λ count. count ≡ 0) made.2.items) }
    {
        let QueueBlank {
            queue,
            first,
            ledger,
        } = blank;
        let Some(count) = workers.checked_add(CONNECTIONS) else {
            return Err(AllocError);
        };
        let spares = Spares::new(alloc, count)?;
        let (results, all) = ledger.open::<L>();
        let shares = shares_of(alloc, all, workers)?;
        let (passes, root) = passes_of(alloc, &queue, first, count)?;
        let pool = QueuePool {
            queue,
            spares,
            root_pass: Mutex::new(root),
            mailboxes: Mutex::new(Mailboxes::new(alloc, results)?),
            idle: Mutex::new(IdleWorkers::new()),
            not_empty: Condvar::new(),
            not_full: Condvar::new(),
            results_ready: array::from_fn(|_| Condvar::new()),
            some_idle: AtomicBool::new(false),
            waiting_posters: AtomicUsize::new(0),
            closed: AtomicBool::new(false),
        };
        Ok((pool, passes, shares))
    }

    /// Makes an end of the pool for a user, to which nothing is owed, in place of the user's present one. After 2^64 - 1 ends it
    /// closes the pool, and the end has the number 0, which no present one has.
    pub fn end<'p, R: Wait>(&'p self, rt: &'p R, pass: PoolPass<L>, user: u8) -> QueueEnd<'p, L, R>
        ensures over { result ≡ end_over result.link }
        ensures pass { result.link.pass ≡ pass }
        ensures user { result.link.user ≡ user }
        ensures empty_handed { result.link.hand ≡ [] }
    {
        let number = self.enter(rt, user);
        LinkedEnd::new(QueueLink::new(rt, self, None, pass, number, user))
    }

    /// Makes an end of the pool as `end` does, with a free pass, and waits until one is free. Once it is dropped, the pool has no
    /// result of its user, and the pass is free again.
    pub fn end_of<'p, R: Wait>(
        &'p self,
        rt: &'p R,
        free: &'p FreePasses<L>,
        user: u8,
    ) -> QueueEnd<'p, L, R>
        ensures over { result ≡ end_over result.link }
        ensures user { result.link.user ≡ user }
        ensures empty_handed { result.link.hand ≡ [] }
    {
        let pass = free.take(rt);
        let number = self.enter(rt, user);
        LinkedEnd::new(QueueLink::new(rt, self, Some(free), pass, number, user))
    }

    /// Gives the user's next end a number. After 2^64 - 1 ends it closes the pool, and the number is 0.
    fn enter<R: Wait>(&self, rt: &R, user: u8) -> u64 {
        let entered = self.lock_mailboxes(rt).enter(rt, user, &self.spares);
        if entered.is_none() {
            self.close(rt);
        }
        entered.unwrap_or(0)
    }

    /// Closes the pool: from now on no task is posted or taken and no result fetched.
    pub fn close<R: Wait>(&self, rt: &R) {
        self.closed.store(true, Ordering::SeqCst);
        self.lock_mailboxes(rt).close();
        // A worker that read `closed` before it was set holds this lock until it waits, and is woken below.
        drop(self.idle.lock(rt));
        self.not_empty.notify_all();
        self.not_full.notify_all();
        for queue in &self.results_ready {
            queue.notify_all();
        }
    }

    /// Drops the user's results, and removes the present end: results that come for it later are dropped too.
    pub fn withdraw<R: Wait>(&self, rt: &R, user: u8) {
        self.lock_mailboxes(rt).withdraw(rt, user, &self.spares);
    }

    /// Posts a task in the next box of the poster or a spare one. With `wait` it waits while there is no room, and fails only where
    /// the pool is closed.
    pub(crate) fn post<R: Wait>(
        &self,
        rt: &R,
        poster: &mut Poster<L>,
        task: &TaskRef<'_>,
        wait: bool,
    ) -> Result<(), PostFault>
        ensures pushed { OnOk result (poster.new ≡ record (with_post poster.old task.now) { next = poster.new.next }) }
        ensures nothing { OnErr result (poster.new ≡ record poster.old { next = poster.new.next }) }
        ensures box_kept { OnErr result (boxes_in poster.old.next ≤ boxes_in poster.new.next) }
        ensures cause { IfErr result (λ fault. IsCauseOf fault (boxes_in poster.old.next) (length poster.old.pass.pushed)) }
        ensures full { wait ≡ true → IfErr result SaysClosed }
    {
        if let Some(closed) = self.seen_closed(rt) {
            return Err(PostFault::Closed(closed));
        }
        match self.try_post(rt, poster, task) {
            Ok(()) => Ok(()),
            Err(_) if wait => {
                self.wake_workers(rt, MAX_OPEN_TASKS);
                self.post_later(rt, poster, task)
            }
            Err(cause) => Err(PostFault::NoRoom(cause)),
        }
    }

    /// Posts a task in the next box of the poster or a spare one. Fails where there is no room.
    fn try_post<R: Wait>(
        &self,
        rt: &R,
        poster: &mut Poster<L>,
        task: &TaskRef<'_>,
    ) -> Result<(), FullCause>
        ensures pushed { OnOk result (poster.new ≡ record (with_post poster.old task.now) { next = poster.new.next }) }
        ensures nothing { OnErr result (poster.new ≡ record poster.old { next = poster.new.next }) }
        ensures box_kept { OnErr result (boxes_in poster.old.next ≤ boxes_in poster.new.next) }
        ensures cause { IfErr result (λ cause. IsCause cause (boxes_in poster.old.next) (length poster.old.pass.pushed)) }
    {
        if !self.fill(rt, task, &mut poster.next) {
            return Err(FullCause::NoBox);
        }
        self.push_next(rt, poster)
    }

    /// Copies a task into the next box; where there is none, takes a spare one for it. Returns false if none is spare either.
    fn fill<R: Wait>(&self, rt: &R, task: &TaskRef<'_>, next: &mut Option<TaskBox>) -> bool
        ensures filled { result ≡ true → next.new ≡ Some task.now }
        ensures none { result ≡ false → next.old ≡ None }
        ensures unchanged { result ≡ false → next.new ≡ None }
    {
        if next.is_none() {
            *next = self.spares.take(rt);
        }
        match next {
            Some(room) => {
                room.remake(task);
                true
            }
            None => false,
        }
    }

    /// Pushes the task in the next box of the poster. If there is no room, the box stays.
    fn push_next<R: Wait>(&self, rt: &R, poster: &mut Poster<L>) -> Result<(), FullCause>
        ensures pushed { OnOk result (IsSomeAnd poster.old.next
            (λ task. poster.new ≡ record (with_post poster.old task) { next = poster.new.next })) }
        ensures stays { OnErr result (poster.new ≡ poster.old) }
        ensures cause { IfErr result (λ cause. IsCause cause (boxes_in poster.old.next) (length poster.old.pass.pushed)) }
    {
        let Some(task) = poster.next.take() else {
            return Err(FullCause::NoBox);
        };
        let ticket = OpenTask {
            end: poster.end,
            user: poster.user,
            task,
        };
        let Err(NotPushed { ticket, cause }) = poster.counted.push(rt, &self.queue, ticket) else {
            return Ok(());
        };
        poster.next = Some(ticket.task);
        Err(cause)
    }

    /// Waits for room, and then posts a task. Fails only where the pool is closed.
    fn post_later<R: Wait>(
        &self,
        rt: &R,
        poster: &mut Poster<L>,
        task: &TaskRef<'_>,
    ) -> Result<(), PostFault>
        ensures pushed { OnOk result (poster.new ≡ record (with_post poster.old task.now) { next = poster.new.next }) }
        ensures nothing { OnErr result (poster.new ≡ record poster.old { next = poster.new.next }) }
        ensures box_kept { OnErr result (boxes_in poster.old.next ≤ boxes_in poster.new.next) }
        ensures closed { IfErr result SaysClosed }
    {
        let mut mailboxes = self.lock_mailboxes(rt);
        self.waiting_posters.fetch_add(1, Ordering::SeqCst);
        for _ in rt.forever() {
            if let Some(closed) = mailboxes.closed() {
                self.waiting_posters.fetch_sub(1, Ordering::SeqCst);
                return Err(PostFault::Closed(closed));
            }
            if self.try_post(rt, poster, task).is_ok() {
                self.waiting_posters.fetch_sub(1, Ordering::SeqCst);
                return Ok(());
            }
            mailboxes = self.not_full.wait(rt, mailboxes);
        }
        unreachable!()
    }

    /// Wakes idle workers for this many tasks that were posted: one for one task, all for more.
    pub(crate) fn wake_workers<R: Wait>(&self, rt: &R, tasks: usize) {
        if tasks == 0 || !self.some_idle.load(Ordering::SeqCst) {
            return;
        }
        let mut idle = self.idle.lock(rt);
        let woken = idle.take_woken(tasks);
        self.some_idle.store(idle.has_some(), Ordering::SeqCst);
        drop(idle);
        wake(&self.not_empty, woken);
    }

    /// Takes an open task by a pass, and waits until there is one. None where the pool is closed.
    pub(crate) fn take<R: Wait>(&self, rt: &R, pass: &mut CountedPass<L>) -> Option<OpenTask>
        ensures popped { IfSome result (λ ticket. pass.new ≡ with_pop pass.old ticket) }
        ensures nothing { IfNone result (pass.new ≡ pass.old) }
    {
        if self.is_closed() {
            return None;
        }
        let taken = match self.take_soon(rt, pass) {
            Some(ticket) => Some(ticket),
            None => self.take_later(rt, pass),
        };
        if self.waiting_posters.load(Ordering::SeqCst) > 0 {
            drop(self.lock_mailboxes(rt));
            self.not_full.notify_all();
        }
        taken
    }

    /// Takes an open task. None where there was none at any look.
    fn take_soon<R: Wait>(&self, rt: &R, pass: &mut CountedPass<L>) -> Option<OpenTask>
        ensures popped { IfSome result (λ ticket. pass.new ≡ with_pop pass.old ticket) }
        ensures nothing { IfNone result (pass.new ≡ pass.old) }
    {
        for _ in 0..LOOKS {
            let taken = pass.pop(rt, &self.queue);
            if taken.is_some() {
                return taken;
            }
            thread::yield_now();
        }
        None
    }

    /// Waits for an open task, and takes it. None where the pool is closed.
    fn take_later<R: Wait>(&self, rt: &R, pass: &mut CountedPass<L>) -> Option<OpenTask>
        ensures popped { IfSome result (λ ticket. pass.new ≡ with_pop pass.old ticket) }
        ensures nothing { IfNone result (pass.new ≡ pass.old) }
    {
        let mut idle = self.idle.lock(rt);
        for _ in rt.forever() {
            if self.is_closed() {
                return None;
            }
            self.some_idle.store(true, Ordering::SeqCst);
            let taken = pass.pop(rt, &self.queue);
            if taken.is_some() {
                return taken;
            }
            idle.note_waiting();
            idle = self.not_empty.wait(rt, idle);
        }
        unreachable!()
    }

    /// Hands a task back by the pass that popped it, and wakes a waiting worker.
    ///
    /// # Errors
    /// The task, where there is no room for it.
    pub(crate) fn hand_back<R: Wait>(
        &self,
        rt: &R,
        pass: &mut CountedPass<L>,
        ticket: OpenTask,
    ) -> Result<(), OpenTask>
        ensures pushed { OnOk result (pass.new ≡ with_push pass.old ticket) }
        ensures unchanged { OnErr result (pass.new ≡ pass.old) }
        ensures refused { IfErr result (λ refused. refused ≡ ticket) }
    {
        pass.push(rt, &self.queue, ticket)?;
        self.wake_workers(rt, 1);
        Ok(())
    }

    /// Gives the result of a task that an end posted for its user. If it is not kept, its box becomes spare.
    pub(crate) fn give_or_put_by<R: Wait>(
        &self,
        rt: &R,
        end: u64,
        user: u8,
        done: DoneBox,
        share: &mut Share<L>,
    )
        ensures never_falls { share.old ≤ share.new }
        ensures one_at_most { share.new ≤ share.old + 1 }
    {
        if let Err(refused) = self.give(rt, end, user, done, share) {
            self.spares.put_by(rt, refused.into_task());
        }
    }

    /// Gives the result of a task that an end posted for its user. It is kept, and credited to the share, if that end is present,
    /// the task is of its user and there is room for it.
    ///
    /// # Errors
    /// The result, where it is not kept.
    fn give<R: Wait>(
        &self,
        rt: &R,
        end: u64,
        user: u8,
        done: DoneBox,
        share: &mut Share<L>,
    ) -> Result<(), DoneBox>
        ensures credited { OnOk result (share.new ≡ share.old + 1) }
        ensures not_credited { OnErr result (share.new ≡ share.old) }
        ensures refused { IfErr result (λ refused. refused ≡ done) }
    {
        let mut mailboxes = self.lock_mailboxes(rt);
        let kept = mailboxes.keep(end, user, done, share);
        let wakes = kept.is_ok() && mailboxes.wait_queues.note_given(user);
        drop(mailboxes);
        if wakes {
            self.results_ready[wait_queue_of(user)].notify_all();
        }
        kept
    }

    /// Locks the mailboxes.
    fn lock_mailboxes<R: Wait>(&self, rt: &R) -> MutexGuard<'_, Mailboxes<L>> {
        lock_soon(rt, &self.mailboxes)
    }

    /// Returns whether the pool is closed, or about to be.
    fn is_closed(&self) -> bool {
        self.closed.load(Ordering::SeqCst)
    }

    /// Returns that the pool is closed, if it is. It takes the lock of the mailboxes only then.
    pub(crate) fn seen_closed<R: Wait>(&self, rt: &R) -> Option<QueueClosed> {
        if !self.is_closed() {
            return None;
        }
        self.lock_mailboxes(rt).closed()
    }

    /// Fetches all results of the user that are there, in exchange for an empty list, and waits until there is one. `owed`
    /// results are owed to the end.
    ///
    /// # Errors
    /// The pool is closed.
    pub(crate) fn fetch<R: Wait>(
        &self,
        rt: &R,
        user: u8,
        owed: usize,
        hand: &mut ResultList,
    ) -> Result<(), QueueClosed>
        requires { hand.old ≡ empty_list user }
        ensures fetched { OnOk result (FetchesResults user true hand.old hand.new) }
        ensures none { OnErr result (FetchesResults user false hand.old hand.new) }
    {
        let mut mailboxes = self.lock_mailboxes(rt);
        for _ in rt.forever() {
            if mailboxes.hand_out(user, hand) {
                return Ok(());
            }
            if let Some(closed) = mailboxes.closed() {
                return Err(closed);
            }
            mailboxes.wait_queues.note_waiting(user, owed);
            mailboxes = self.results_ready[wait_queue_of(user)].wait(rt, mailboxes);
        }
        unreachable!()
    }

    /// Fetches all results of the user that are there now, in exchange for an empty list. Returns false where there is none, or
    /// the pool is closed.
    pub(crate) fn poll<R: Wait>(&self, rt: &R, user: u8, hand: &mut ResultList) -> bool
        requires { hand.old ≡ empty_list user }
        ensures { FetchesResults user result hand.old hand.new }
    {
        self.lock_mailboxes(rt).hand_out(user, hand)
    }

    /// Returns the number of results given, which is the amount of all parts of the ledger together.
    pub(crate) fn audited<R: Wait>(&self, rt: &R, all: &mut ledger::Share<L>) -> u64
        requires { all.old.parts ≡ L.parts }
        ensures { result ≡ all.old.amount }
    {
        self.lock_mailboxes(rt).audited(all)
    }
}
