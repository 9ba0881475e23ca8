//! What is lent to a connection: a ticket, and with it the state of its user. Neither may be let go: the one who has lent it takes
//! it back, or it is lost on purpose.
ghost use Rattle.std.specs.Prelude.{◌≡◌, Bool, true};

use lj_access::Ticket;
use lj_session::UserState;
use std::marker::Model;

/// One who lends tickets and states, and takes them back.
pub trait Lender {
    // Whether no ticket enters any more.
    ghost closed: { Self → Bool };

    /// Returns whether no ticket enters any more.
    fn is_closed(&self) -> bool
        ensures { result ≡ closed self.now };
}

/// A ticket that is lent to a connection.
#[derive(Debug)]
pub struct LentTicket {
    ticket: Ticket,
    is_lost: bool,
}

impl Model for LentTicket {
    ghost use Rattle.lj_visit.specs.Lent as known;

    ghost Value = { known.LentTicket };

    ghost view = { λ lent. record { ticket = lent.ticket; is_lost = lent.is_lost } };
}

impl LentTicket {
    /// Lends a ticket.
    pub fn new(ticket: Ticket) -> LentTicket
        ensures { result.ticket ≡ ticket }
    {
        LentTicket {
            ticket,
            is_lost: false,
        }
    }

    /// Returns the ticket.
    pub fn ticket(&self) -> &Ticket
        ensures { result.now ≡ self.now.ticket }
    {
        &self.ticket
    }

    /// Takes the ticket back. This is done before its lender alone.
    pub fn take_back<D: Lender>(self, _lender: &D) -> Ticket
        ensures { result ≡ self.ticket }
    {
        let LentTicket {
            ticket,
            is_lost: _is_lost,
        } = self;
        ticket
    }

    /// Lends a state too.
    pub(crate) fn with_state(self, state: UserState) -> LentState
        ensures ticket { result.ticket ≡ self.ticket }
        ensures state { result.state ≡ state }
    {
        LentState {
            ticket: self,
            state,
        }
    }

    /// Loses the ticket: it never leaves, so no later ticket of its user enters.
    pub(crate) fn lose(mut self) {
        self.is_lost = true;
    }
}

impl Drop for LentTicket {
    fn drop(self)
        requires { self.is_lost ≡ true }
    {
        let LentTicket {
            ticket: _ticket,
            is_lost: _is_lost,
        } = self;
    }
}

/// A user's state, lent to a ticket that has entered.
pub struct LentState {
    ticket: LentTicket,
    state: UserState,
}

impl Model for LentState {
    ghost use Rattle.lj_visit.specs.Lent as known;

    ghost Value = { known.LentState };

    ghost view = { λ lent. record {
      ticket = lent.ticket.ticket;
      state = lent.state;
      is_lost = lent.ticket.is_lost;
    } };
}

impl LentState {
    /// Lends a state to a ticket.
    pub fn new(ticket: Ticket, state: UserState) -> LentState
        ensures ticket { result.ticket ≡ ticket }
        ensures state { result.state ≡ state }
    {
        LentTicket::new(ticket).with_state(state)
    }

    /// Takes the state back, and its ticket. This is done before their lender alone.
    pub fn take_back<D: Lender>(self, lender: &D) -> (Ticket, UserState)
        ensures ticket { result.0 ≡ self.ticket }
        ensures state { result.1 ≡ self.state }
    {
        let LentState { ticket, state } = self;
        (ticket.take_back(lender), state)
    }

    /// Takes the state out, to be served. The ticket is still lent.
    pub(crate) fn take_out(self) -> (LentTicket, UserState)
        ensures ticket { result.0.ticket ≡ self.ticket }
        ensures state { result.1 ≡ self.state }
    {
        let LentState { ticket, state } = self;
        (ticket, state)
    }
}

impl Drop for LentState {
    fn drop(self)
        requires { self.is_lost ≡ true }
    {
        let LentState {
            ticket: _ticket,
            state: _state,
        } = self;
    }
}
