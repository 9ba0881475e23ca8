//! Tickets that were given up while they waited: each is passed over when its turn comes.
ghost use Rattle.std.specs.Prelude.{◌≡◌, ◌↔◌, [], ◌∷◌, ◌++◌, IsTrue, IfErr, IfNone, IfSome, IsSomeAnd, OnErr, OnOk, slice_get};
ghost use Rattle.std.specs.List.{All};
ghost use Rattle.std.specs.List.Sorted.{IsPermutation};
ghost use Rattle.lj_access.specs.Passing.{IsNextTicket, PassesOver, passed_over, tickets_passed};
ghost use Rattle.lj_access.specs.UserRows.{CanEnter, with_row_changed};

use crate::directory::Directory;
use crate::ticket::Ticket;
use std::alloc::Global;
use std::marker::Model;

/// Tickets for which nobody waits any more.
#[derive(Drop)]
pub struct GivenUp {
    tickets: Vec<Ticket>,
}

impl Model for GivenUp {
    ghost use Rattle.std.specs.Prelude.{List};
    ghost use Rattle.lj_access.specs.UserRows as known;

    ghost Value = { List known.Ticket };

    ghost view = { λ given_up. given_up.tickets.items };
}

impl GivenUp {
    /// Makes a list without tickets.
    pub fn new(alloc: Global) -> GivenUp
        ensures { result ≡ [] }
    {
        GivenUp {
            tickets: Vec::new(alloc),
        }
    }

    /// Keeps a ticket until its turn has come.
    ///
    /// # Errors
    /// Out of memory. The ticket is handed back.
    pub fn keep(&mut self, ticket: Ticket) -> Result<(), Ticket>
        ensures kept { OnOk result (self.new ≡ self.old ++ ticket ∷ []) }
        ensures back { IfErr result (λ back. back ≡ ticket) }
        ensures unchanged { OnErr result (self.new ≡ self.old) }
    {
        match self.tickets.push(ticket) {
            Ok(()) => Ok(()),
            Err(refused) => Err(refused.value),
        }
    }

    /// Passes over the kept tickets of a user whose turn has come, one after the other: each enters, leaves at once, and is no
    /// longer kept.
    ///
    /// Promise: a ticket leaves the directory if and only if it is given up and its turn has come. After that, no given-up
    /// ticket of this user may enter.
    pub fn pass(&mut self, directory: &mut Directory, user: u8)
        ensures passed { PassesOver user directory.old directory.new }
        ensures kept { IsPermutation self.old (self.new ++ tickets_passed user directory.old directory.new) }
        ensures waiting { All (λ ticket. ¬ IsNextTicket directory.new user ticket) self.new }
    {
        while let Some(at) = self.next_of(directory, user) {
            let ticket = self.tickets.remove(at);
            pass_over(directory, ticket);
        }
    }

    /// Returns the index of a kept ticket of this user that may enter now.
    fn next_of(&self, directory: &Directory, user: u8) -> Option<usize>
        ensures next { IfSome result (λ at. IsSomeAnd (slice_get self.now at) (IsNextTicket directory.now user)) }
        ensures none { IfNone result (All (λ ticket. ¬ IsNextTicket directory.now user ticket) self.now) }
    {
        self.tickets
            .iter()
            .position(|ticket| is_next(directory, ticket, user))
    }
}

/// Returns whether the ticket is one of this user that may enter now.
fn is_next(directory: &Directory, ticket: &Ticket, user: u8) -> bool
    ensures { IsTrue result ↔ IsNextTicket directory.now user ticket.now }
{
    ticket.user() == user && directory.can_enter(ticket)
}

/// Lets a ticket that may enter now enter and leave at once. The state is home again, unchanged.
fn pass_over(directory: &mut Directory, ticket: Ticket)
    requires { IsSomeAnd (slice_get directory.old ticket.user) (CanEnter ticket.number) }
    ensures { directory.new ≡ with_row_changed ticket.user passed_over directory.old }
{
    let Some(state) = directory.try_enter(&ticket) else {
        unreachable!();
    };
    if directory.leave(ticket, state).is_err() {
        unreachable!();
    }
}
