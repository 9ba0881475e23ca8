//! The state under the lock of a pool: results for its users, and the ledger's book of all results.
ghost use Rattle.std.specs.Prelude.{◌≡◌, ◌+◌, ◌-◌, ◌<◌, ◌^◌, ◌↔◌, [], None, Some, is_some, length, true, false, unwrap_or, vec_len, IfErr, IfNone, IfOk, IfSome, IsOk, IsTrue, OnErr, OnOk};
ghost use Rattle.std.specs.List.{All};
ghost use Rattle.lj_queue.specs.ResultList.{empty_list};
ghost use Rattle.lj_queue.specs.Mailboxes.{mailbox_of, list_of, new_mailboxes, present_of, with_end, with_result, without_results};
ghost use Rattle.lj_queue.specs.declared.mailboxes.TheConstants.{USERS};

use crate::result_list::{MAX_RESULTS, ResultList};
use crate::spares::Spares;
use lj_book::DoneBox;
use lj_end::{Share, WAIT_QUEUES, WaitQueues};
use std::alloc::{AllocError, Global};
use std::marker::Model;
use std::mem;
use std::sync::Wait;
use std::sync::ledger::{self, Ledger};

/// The number of mailboxes, one for each wait queue. Users whose numbers are equal modulo this share one.
pub const USERS: usize = WAIT_QUEUES;

/// Returns the mailbox of a user, 0 to 63.
pub(crate) fn mailbox_of(user: u8) -> usize
    ensures value { result ≡ mailbox_of user }
    ensures within { result < USERS }
{
    usize::from(user) % USERS
}

/// That a pool is closed. Only the mailboxes of a closed pool make one.
#[derive(Clone, Copy, Debug)]
pub struct QueueClosed(());

/// The results and the present end of each user, and the ledger's book of the results that were given.
#[derive(Drop)]
pub(crate) struct Mailboxes<L: Ledger> {
    lists: Vec<ResultList>,
    /// The number of each user's present end.
    present: [Option<u64>; USERS],
    /// The number of the end that came last, from 1; 0 before one came.
    last: u64,
    /// The number of results that were given.
    given: u64,
    results: ledger::Book<L>,
    /// The queues in which ends wait for results.
    pub(crate) wait_queues: WaitQueues,
    closed: bool,
}

impl<L: Ledger> Model for Mailboxes<L> {
    ghost use Rattle.std.specs.Prelude.{◌≡◌, vec_len};
    ghost use Rattle.lj_queue.specs.Mailboxes.{Mailboxes};
    ghost use Rattle.lj_queue.specs.declared.mailboxes.TheConstants.{USERS};

    ghost Value = { Mailboxes };

    ghost view = { λ m. record {
      lists = m.lists.items;
      present = m.present;
      last = m.last;
      given = m.given;
      wait_queues = m.wait_queues;
      closed = m.closed;
    } };

    ghost invariant = { λ m. (m.given ≡ m.results.total) × (vec_len m.lists ≡ USERS) };
}

impl<L: Ledger> Mailboxes<L> {
    /// Makes open mailboxes without results, where no user has an end.
    pub(crate) fn new(alloc: Global, results: ledger::Book<L>) -> Result<Mailboxes<L>, AllocError>
        requires { results.total ≡ 0 }
        ensures value { IfOk result (λ mailboxes. mailboxes ≡ new_mailboxes mailboxes.lists) }
        ensures count { IfOk result (λ mailboxes. length mailboxes.lists ≡ USERS) }
        ensures empty { IfOk result (λ mailboxes. All (λ list. list.results ≡ []) mailboxes.lists) }
    {
        Ok(Mailboxes {
            lists: empty_lists(alloc)?,
            present: [None; USERS],
            last: 0,
            given: 0,
            results,
            wait_queues: WaitQueues::new(),
            closed: false,
        })
    }

    /// Replaces the user's present end by a new one: drops the results of the old one, and adds their boxes to the spare ones.
    /// Returns the new number, which no end had before. None after 2^64 - 1 ends: then the user has no present end.
    pub(crate) fn enter<R: Wait>(&mut self, rt: &R, user: u8, spares: &Spares) -> Option<u64>
        ensures number { IfSome result (λ number. number ≡ self.old.last + 1) }
        ensures none { IfNone result (self.old.last ≡ 2 ^ 64 - 1) }
        ensures entered { self.new
            ≡ record (with_end self.old user result) { last = unwrap_or result self.old.last } }
    {
        let number = self.last.checked_add(1);
        self.last = self.last.saturating_add(1);
        spares.clear(rt, &mut self.lists[mailbox_of(user)], user);
        self.present[mailbox_of(user)] = number;
        number
    }

    /// Drops the user's results, adds their boxes to the spare ones, and removes the present end.
    pub(crate) fn withdraw<R: Wait>(&mut self, rt: &R, user: u8, spares: &Spares)
        ensures { self.new ≡ with_end self.old user None }
    {
        spares.clear(rt, &mut self.lists[mailbox_of(user)], user);
        self.present[mailbox_of(user)] = None;
    }

    /// Returns whether this end is the user's present one.
    fn is_present(&self, end: u64, user: u8) -> bool
        ensures { IsTrue result ↔ (present_of self.now.present user ≡ Some end) }
    {
        self.present[mailbox_of(user)] == Some(end)
    }

    /// Keeps a result of a task that an end posted for its user, and credits it to the share, if that end is present, the task is
    /// of the list's user, there is room, and fewer than 2^64 - 1 results were given.
    ///
    /// # Errors
    /// The result, where it is not kept.
    pub(crate) fn keep(
        &mut self,
        end: u64,
        user: u8,
        done: DoneBox,
        share: &mut Share<L>,
    ) -> Result<(), DoneBox>
        ensures kept { let list = list_of self.old.lists user in
            IsOk result
            ↔ ((present_of self.old.present user ≡ Some end) × ((length list.results < MAX_RESULTS)
            × (done.name.label.user ≡ list.user)) × (self.old.given < 2 ^ 64 - 1)) }
        ensures given { OnOk result (self.new ≡ with_result self.old user done) }
        ensures credited { OnOk result (share.new ≡ share.old + 1) }
        ensures refused { IfErr result (λ refused. refused ≡ done) }
        ensures unchanged { OnErr result (self.new ≡ self.old) }
        ensures not_credited { OnErr result (share.new ≡ share.old) }
    {
        let is_present = self.is_present(end, user);
        let Mailboxes {
            lists,
            given,
            results,
            ..
        } = self;
        let list = &mut lists[mailbox_of(user)];
        if !is_present || !list.takes(&done.done()) || *given == u64::MAX {
            return Err(done);
        }
        list.push(done);
        *given += 1;
        share.credit(results);
        Ok(())
    }

    /// Hands out all results of the user, in exchange for an empty list. Returns false where there is none, or the pool is
    /// closed.
    pub(crate) fn hand_out(&mut self, user: u8, hand: &mut ResultList) -> bool
        requires { hand.old ≡ empty_list user }
        ensures some { let list = list_of self.old.lists user in
            IsTrue result ↔ ((self.old.closed ≡ false) × (list.user ≡ user) × (0 < length list.results)) }
        ensures handed_out { result ≡ true → hand.new ≡ list_of self.old.lists user }
        ensures left { result ≡ true → self.new ≡ without_results self.old user }
        ensures whose { hand.new.user ≡ user }
        ensures unchanged { result ≡ false → self.new ≡ self.old }
        ensures stays_empty { result ≡ false → hand.new ≡ hand.old }
    {
        if self.closed {
            return false;
        }
        let list = &mut self.lists[mailbox_of(user)];
        if !list.has_some_of(user) {
            return false;
        }
        mem::swap(list, hand);
        true
    }

    /// Closes the pool.
    pub(crate) fn close(&mut self)
        ensures { self.new ≡ record self.old { closed = true } }
    {
        self.closed = true;
    }

    /// Returns that the pool is closed, if it is.
    pub(crate) fn closed(&self) -> Option<QueueClosed>
        ensures { is_some result ≡ self.now.closed }
    {
        self.closed.then_some(QueueClosed(()))
    }

    /// Returns the number of results given, which is the amount of all parts of the ledger together.
    pub(crate) fn audited(&mut self, all: &mut ledger::Share<L>) -> u64
        requires { all.old.parts ≡ L.parts }
        ensures result { result ≡ self.old.given }
        ensures amount { result ≡ all.old.amount }
        ensures unchanged { self.new ≡ self.old }
    {
        self.results.audit(all);
        self.given
    }
}

/// Makes an empty list for each mailbox.
fn empty_lists(alloc: Global) -> Result<Vec<ResultList>, AllocError>
    ensures count { IfOk result (λ lists. vec_len lists ≡ USERS) }
    ensures empty { IfOk result (λ lists. All (λ list. list.results ≡ []) lists.items) }
{
    let mut lists = Vec::with_capacity(alloc, USERS)?;
    for user in 0..USERS as u8 {
        lists.push(ResultList::new(alloc, user)?)?;
    }
    Ok(lists)
}
