//! Tickets, and the errors for those that are refused.
ghost use Rattle.std.specs.Prelude.{◌≡◌};

use lj_session::UserState;
use std::fmt;
use std::marker::Model;
use thiserror::Error;

/// A place in a user's queue. A user's tickets enter one after the other, in the order in which they were granted.
#[derive(Debug, Drop)]
pub struct Ticket {
    user: u8,
    number: u32,
}

impl Model for Ticket {
    ghost use Rattle.lj_access.specs.UserRows.{Ticket};

    ghost Value = { Ticket };

    ghost view = { λ ticket. record { user = ticket.user; number = ticket.number } };
}

impl Ticket {
    pub(crate) fn new(user: u8, number: u32) -> Ticket
        ensures user { result.user ≡ user }
        ensures number { result.number ≡ number }
    {
        Ticket { user, number }
    }

    /// Returns the number of its user. Users are numbered from 0.
    pub fn user(&self) -> u8
        ensures { result ≡ self.now.user }
    {
        self.user
    }

    /// Returns its number among the tickets of its user, from 0.
    pub fn number(&self) -> u32
        ensures { result ≡ self.now.number }
    {
        self.number
    }
}

/// A HELLO that was denied. It does not say whether the name or the token was wrong, or whether no ticket is left.
#[derive(Clone, Copy, PartialEq, Eq, Debug, Error)]
#[error("denied")]
pub struct Denied;

/// A ticket that has not entered, or has already left, handed back with the state that came with it.
#[derive(Drop, Error)]
#[error("the ticket has not entered, or has already left")]
pub struct NotEntered {
    pub ticket: Ticket,
    pub state: UserState,
}

impl fmt::Debug for NotEntered {
    fn fmt<W: fmt::Write>(&self, f: &mut fmt::Formatter<W>) -> fmt::Result {
        write!(f, "NotEntered({:?})", self.ticket)
    }
}
