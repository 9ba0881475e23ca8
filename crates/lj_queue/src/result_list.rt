//! The results of a user that were not fetched yet.
ghost use Rattle.std.specs.Prelude.{◌≡◌, ◌<◌, ◌↔◌, [], length, IfNone, IfOk, IfSome, IsTrue};
ghost use Rattle.lj_queue.specs.ResultList.{empty_list, with_first, with_last};

use lj_book::DoneBox;
use lj_end::MAX_OWED;
use lj_task::DoneRef;
use std::alloc::{AllocError, Global};
use std::collections::VecDeque;
use std::marker::Model;

/// Maximum number of results that the pool with a queue keeps for a user.
pub const MAX_RESULTS: usize = MAX_OWED;

/// At most `MAX_RESULTS` results, all of one user, first in, first out. Each comes in and goes out in its box. The list takes its
/// memory when it is made.
#[derive(Drop)]
pub struct ResultList {
    user: u8,
    results: VecDeque<DoneBox>,
}

impl Model for ResultList {
    ghost use Rattle.std.specs.Prelude.{◌≡◌, ◌≤◌};
    ghost use Rattle.lj_queue.specs.ResultList.{ResultList, HasPlaces};

    ghost Value = { ResultList };

    ghost view = { λ list. record { user = list.user; results = list.results.items } };

    ghost invariant = { λ list. HasPlaces list.user list.results };
}

impl ResultList {
    /// Makes a list without results for a user.
    pub fn new(alloc: Global, user: u8) -> Result<ResultList, AllocError>
        ensures { IfOk result (λ list. list ≡ empty_list user) }
    {
        let results = VecDeque::with_capacity(alloc, MAX_RESULTS)?;
        Ok(ResultList { user, results })
    }

    /// Returns whether it has results of this user.
    pub fn has_some_of(&self, user: u8) -> bool
        ensures { IsTrue result ↔ ((self.now.user ≡ user) × (0 < length self.now.results)) }
    {
        self.user == user && !self.results.is_empty()
    }

    /// Returns whether it has no results.
    pub fn is_empty(&self) -> bool
        ensures { IsTrue result ↔ (length self.now.results ≡ 0) }
    {
        self.results.is_empty()
    }

    /// Returns whether there is room for a result, and it is of the list's user.
    pub fn takes(&self, done: &DoneRef<'_>) -> bool
        ensures { IsTrue result ↔ ((length self.now.results < MAX_RESULTS)
            × (done.now.name.label.user ≡ self.now.user)) }
    {
        self.results.len() < MAX_RESULTS && done.task().name().label.user == self.user
    }

    /// Puts a result behind the others.
    pub fn push(&mut self, done: DoneBox)
        requires room { length self.old.results < MAX_RESULTS }
        requires whose { done.name.label.user ≡ self.old.user }
        ensures { self.new ≡ with_last self.old done }
    {
        self.results.push_back_reserved(done);
    }

    /// Takes the first result for a user. None where there is none, or the list is of another user.
    pub fn pop(&mut self, user: u8) -> Option<DoneBox>
        ensures first { IfSome result (λ done. self.old ≡ with_first done self.new) }
        ensures whose { IfSome result (λ done. done.name.label.user ≡ user) }
        ensures none { IfNone result (self.old.user ≡ user → self.old.results ≡ []) }
        ensures unchanged { IfNone result (self.new ≡ self.old) }
    {
        if self.user != user {
            return None;
        }
        self.take_first()
    }

    /// Takes the first result, of whichever user.
    pub fn take_first(&mut self) -> Option<DoneBox>
        ensures first { IfSome result (λ done. self.old ≡ with_first done self.new) }
        ensures whose { IfSome result (λ done. done.name.label.user ≡ self.old.user) }
        ensures none { IfNone result (self.old.results ≡ []) }
        ensures unchanged { IfNone result (self.new ≡ self.old) }
    {
        self.results.pop_front()
    }

    /// Makes a list without results this user's list.
    pub fn turn_to(&mut self, user: u8)
        requires { self.old.results ≡ [] }
        ensures { self.new ≡ empty_list user }
    {
        self.user = user;
    }
}
