//! The row of a user in the directory.
ghost use Rattle.std.specs.Prelude.{◌≡◌, ◌↔◌, ◌<◌, IsTrue, IsSome, Some, None};
ghost use Rattle.lj_access.specs.UserRows.{first_row, has_credentials, tickets_out, HasTicketLeft, IsFirstTicket, CanEnter, HasEntered, with_ticket, without_home, with_home};
ghost use Rattle.lj_session.specs.UserState.{Reached};

use crate::user::User;
use lj_base::{Name, Token};
use lj_session::UserState;
use std::alloc::Global;
use std::marker::Model;

/// Maximum number of tickets of one user.
pub const MAX_TICKETS: u64 = 4_294_967_296;

/// A user: the number of tickets granted and of those that have left, and the state while it is at home.
#[derive(Drop)]
pub(crate) struct UserRow {
    name: Name,
    token: Token,
    granted: u64,
    past: u64,
    home: Option<UserState>,
}

impl Model for UserRow {
    ghost use Rattle.lj_access.specs.UserRows as rows;

    ghost Value = { rows.UserRow };

    ghost view = { λ row. record { name = row.name; token = row.token; granted = row.granted; past = row.past; home = row.home } };
}

impl UserRow {
    /// Makes the row of a user without tickets, whose state has no sessions.
    pub(crate) fn new(alloc: Global, user: User) -> UserRow
        ensures { result ≡ first_row user }
    {
        UserRow {
            name: user.name,
            token: user.token,
            granted: 0,
            past: 0,
            home: Some(UserState::new(alloc, user.quota)),
        }
    }

    pub(crate) fn name(&self) -> &Name
        ensures { result.now ≡ self.now.name }
    {
        &self.name
    }

    /// Returns whether the user has this name and this token.
    pub(crate) fn is_of(&self, name: &[u8], token: &[u8]) -> bool
        ensures { result ≡ has_credentials name.now token.now self.now }
    {
        (self.name.as_bytes() == name) & self.token.is(token)
    }

    /// Returns how many tickets have not left.
    pub(crate) fn tickets_out(&self) -> u64
        ensures { result ≡ tickets_out self.now }
    {
        self.granted.saturating_sub(self.past)
    }

    /// Returns whether another ticket may be granted.
    pub(crate) fn has_ticket_left(&self) -> bool
        ensures { IsTrue result ↔ HasTicketLeft self.now }
    {
        self.granted < MAX_TICKETS
    }

    /// Grants the next ticket, and returns its number.
    pub(crate) fn grant(&mut self) -> u32
        requires { HasTicketLeft self.old }
        ensures number { result ≡ self.old.granted }
        ensures granted { self.new ≡ with_ticket self.old }
    {
        let granted = self.granted;
        self.granted = granted + 1;
        granted as u32
    }

    /// Returns whether the ticket of this number may enter.
    pub(crate) fn can_enter(&self, number: u32) -> bool
        ensures { IsTrue result ↔ CanEnter number self.now }
    {
        self.is_first(number) && self.home.is_some()
    }

    /// Returns whether the ticket of this number has entered and has not left.
    pub(crate) fn has_entered(&self, number: u32) -> bool
        ensures { IsTrue result ↔ HasEntered number self.now }
    {
        self.is_first(number) && self.home.is_none()
    }

    fn is_first(&self, number: u32) -> bool
        ensures { IsTrue result ↔ IsFirstTicket number self.now }
    {
        u64::from(number) < self.granted && self.past == u64::from(number)
    }

    /// Lends the state, which is then not at home.
    pub(crate) fn lend(&mut self) -> UserState
        requires { IsSome self.old.home }
        ensures state { self.old.home ≡ Some result }
        ensures reached { Reached result }
        ensures lent { self.new ≡ without_home self.old }
    {
        let state = self.home.take().unwrap();
        let _sessions = state.len();
        state
    }

    /// Takes the state home, and counts one more ticket that has left.
    pub(crate) fn take_home(&mut self, number: u32, state: UserState)
        requires { HasEntered number self.old }
        ensures { self.new ≡ with_home state self.old }
    {
        self.past = u64::from(number) + 1;
        self.home = Some(state);
    }
}
