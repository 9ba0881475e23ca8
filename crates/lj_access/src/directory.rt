//! The directory: users with their tickets, and the states that are at home.
ghost use Rattle.std.specs.Prelude.{◌≡◌, ◌↔◌, ◌<◌, ◌≤◌, length, map, slice_get, Some, IsOk, IsTrue, IsSome, IfOk, IfSome, IfNone, IfErr, IsSomeAnd, OnOk, OnSome, OnErr};
ghost use Rattle.std.specs.List.{IsDistinct};
ghost use Rattle.std.specs.Option.{ForSome, option_map, option_copied};
ghost use Rattle.std.specs.Str.{bytes_eq};
ghost use Rattle.lj_session.specs.UserState.{Reached};
ghost use Rattle.lj_access.specs.UserLists.{user_names};
ghost use Rattle.lj_access.specs.UserRows.{first_row, user_with, tickets_out_of, HasTicketLeft, next_number, home_of, CanEnter, HasEntered, with_ticket, without_home, with_home, with_row_changed};

use crate::ticket::{Denied, NotEntered, Ticket};
use crate::user::User;
use crate::user_row::UserRow;
use lj_base::Name;
use lj_session::UserState;
use std::alloc::{AllocError, Global};
use std::fmt;
use std::marker::Model;

/// Maximum number of users of a server or a schedule.
pub const MAX_USERS: usize = 64;

/// Users, numbered from 0, with their tickets and their states. A user's state is either at home or lent to one ticket.
#[derive(Drop)]
pub struct Directory {
    rows: Vec<UserRow>,
}

impl Model for Directory {
    ghost use Rattle.std.specs.Prelude.{List};
    ghost use Rattle.lj_access.specs.UserRows as known;
    ghost use Rattle.lj_access.specs.Directories.{IsDirectory};

    ghost Value = { List known.UserRow };

    ghost view = { λ directory. directory.rows.items };

    ghost invariant = { λ directory. IsDirectory directory.rows.items };
}

impl Directory {
    /// Makes the directory of these users: each has a state without sessions, which is at home, and no ticket.
    ///
    /// # Errors
    /// Out of memory. No other call takes any.
    pub fn new(alloc: Global, users: Vec<User>) -> Result<Directory, AllocError>
        requires some { 1 ≤ length users.items }
        requires most { length users.items ≤ MAX_USERS }
        requires distinct { IsDistinct bytes_eq (user_names users.items) }
        ensures { IfOk result (λ directory. directory ≡ map first_row users.items) }
    {
        let rows = opening_rows(alloc, users)?;
        Ok(Directory { rows })
    }

    /// Returns the number of users, 1 to 64.
    pub fn count(&self) -> usize
        ensures value { result ≡ length self.now }
        ensures some { 1 ≤ result }
        ensures most { result ≤ MAX_USERS }
        ensures distinct { IsDistinct bytes_eq (map (λ row. row.name) self.now) }
    {
        self.rows.len()
    }

    /// Returns the name of a user; None where no user has this number.
    pub fn name_at(&self, user: u8) -> Option<&Name>
        ensures { option_copied result ≡ option_map (λ row. row.name) (slice_get self.now user) }
    {
        Some(self.rows.get(usize::from(user))?.name())
    }

    /// Grants the next ticket of the user with this name and this token.
    ///
    /// # Errors
    /// No user has both, or all tickets of this user are granted. Nothing has changed then.
    ///
    /// Promise: only a HELLO with a user's name and token gets a ticket: the user's next ticket. A denied HELLO changes nothing.
    pub fn hello(&mut self, name: &[u8], token: &[u8]) -> Result<Ticket, Denied>
        ensures granted { IsOk result
            ↔ IsSomeAnd (user_with self.old name.now token.now)
            (λ user. IsSomeAnd (slice_get self.old user) HasTicketLeft) }
        ensures user { IfOk result (λ ticket. user_with self.old name.now token.now ≡ Some ticket.user) }
        ensures number { IfOk result (λ ticket. next_number self.old ticket.user ≡ Some ticket.number) }
        ensures counted { IfOk result
            (λ ticket. self.new ≡ with_row_changed ticket.user with_ticket self.old) }
        ensures unchanged { OnErr result (self.new ≡ self.old) }
    {
        let user = self.user_with(name, token).ok_or(Denied)?;
        if !self.rows[user].has_ticket_left() {
            return Err(Denied);
        }
        let number = self.rows[user].grant();
        Ok(Ticket::new(user as u8, number))
    }

    /// Returns how many tickets of the user with this name and this token have not left: the one that has entered, those that wait,
    /// and those given up whose turn has not come. None where no user has both.
    pub fn tickets_out(&self, name: &[u8], token: &[u8]) -> Option<u64>
        ensures { result ≡ tickets_out_of self.now name.now token.now }
    {
        let user = self.user_with(name, token)?;
        Some(self.rows[user].tickets_out())
    }

    /// Lends the state of the ticket's user to this ticket, if it is the user's first one that has not left and the state is at
    /// home; else returns None.
    ///
    /// Promise: a ticket gets its user's state if and only if no connection has the state and all the user's earlier tickets
    /// have left.
    pub fn try_enter(&mut self, ticket: &Ticket) -> Option<UserState>
        ensures enters { IsSome result
            ↔ IsSomeAnd (slice_get self.old ticket.now.user) (CanEnter ticket.now.number) }
        ensures state { IfSome result (λ state. home_of self.old ticket.now.user ≡ Some state) }
        ensures reached { IfSome result Reached }
        ensures lent { OnSome result (self.new ≡ with_row_changed ticket.now.user without_home self.old) }
        ensures unchanged { IfNone result (self.new ≡ self.old) }
    {
        if !self.can_enter(ticket) {
            return None;
        }
        let user = usize::from(ticket.user());
        Some(self.rows[user].lend())
    }

    /// Takes the state home from the ticket that it was lent to. The next ticket of the user may then enter.
    ///
    /// # Errors
    /// The ticket has not entered, or has already left. Both are handed back, and nothing has changed.
    ///
    /// Promise: a state is taken back if and only if the ticket that got it returns it. The caller gets any other ticket back
    /// with its state, and nothing changes.
    pub fn leave(&mut self, ticket: Ticket, state: UserState) -> Result<(), NotEntered>
        ensures entered { IsOk result
            ↔ IsSomeAnd (slice_get self.old ticket.user) (HasEntered ticket.number) }
        ensures home { OnOk result (self.new ≡ with_row_changed ticket.user (with_home state) self.old) }
        ensures ticket { IfErr result (λ refused. refused.ticket ≡ ticket) }
        ensures state { IfErr result (λ refused. refused.state ≡ state) }
        ensures unchanged { OnErr result (self.new ≡ self.old) }
    {
        if !self.has_entered(&ticket) {
            return Err(NotEntered { ticket, state });
        }
        let user = usize::from(ticket.user());
        self.rows[user].take_home(ticket.number(), state);
        Ok(())
    }

    fn user_with(&self, name: &[u8], token: &[u8]) -> Option<usize>
        ensures { result ≡ user_with self.now name.now token.now }
    {
        self.rows.iter().position(|row| row.is_of(name, token))
    }

    /// Returns whether the ticket may enter now.
    pub(crate) fn can_enter(&self, ticket: &Ticket) -> bool
        ensures { IsTrue result
            ↔ IsSomeAnd (slice_get self.now ticket.now.user) (CanEnter ticket.now.number) }
    {
        match self.rows.get(usize::from(ticket.user())) {
            Some(row) => row.can_enter(ticket.number()),
            None => false,
        }
    }

    fn has_entered(&self, ticket: &Ticket) -> bool
        ensures { IsTrue result
            ↔ IsSomeAnd (slice_get self.now ticket.now.user) (HasEntered ticket.now.number) }
    {
        match self.rows.get(usize::from(ticket.user())) {
            Some(row) => row.has_entered(ticket.number()),
            None => false,
        }
    }
}

fn opening_rows(alloc: Global, users: Vec<User>) -> Result<Vec<UserRow>, AllocError>
    ensures { IfOk result (λ rows. rows.items ≡ map first_row users.items) }
{
    users
        .into_iter()
        .map(|user| UserRow::new(alloc, user))
        .collect(alloc)
}

impl fmt::Debug for Directory {
    fn fmt<W: fmt::Write>(&self, f: &mut fmt::Formatter<W>) -> fmt::Result {
        write!(f, "Directory of {} users", self.rows.len())
    }
}
