//! The directory of a server, where tickets wait for the states of their users.
ghost use Rattle.std.specs.Prelude.{◌≡◌, ◌↔◌, ◌≤◌, [], ◌∷◌, ◌++◌, List, Some, length, slice_get, true, IfOk, IfErr, IfSome, IfNone, IsSome, IsSomeAnd, IsTrue, OnErr, OnOk, OnSome};
ghost use Rattle.std.specs.List.{All};
ghost use Rattle.std.specs.List.Sorted.{IsPermutation};
ghost use Rattle.lj_access.specs.Passing.{IsNextTicket, PassesOver, tickets_passed};
ghost use Rattle.lj_access.specs.UserRows.{HasEntered, UserRow, next_number, user_with, with_home, with_row_changed, with_ticket};
ghost use Rattle.lj_visit.specs.declared.shut.NoTicket.TheVariants.{Crowded};
ghost use Rattle.lj_session.specs.UserState.{UserState};
ghost use Rattle.lj_program.specs.Admissions.{ComesHome, HasMoved, IsClosing, IsCrowded, IsOutcome};
ghost use Rattle.lj_program.specs.Homes.{HomesAreLatest, LeavesLast, NotesLast};
ghost use Rattle.lj_program.specs.NamedUsers.{AreUsers};

use crate::serve::clock::{end_of, left_until};
use crate::serve::history::{HistoryIdentity, NextState, SeenHistory, StateHistories};
use lj_access::{Directory, GivenUp, Ticket, User};
use lj_base::{Name, Token};
use lj_session::UserState;
use lj_visit::{Lender, LentState, LentTicket, NoTicket, SeenClosed};
use std::alloc::{AllocError, Global};
use std::marker::Model;
use std::rt::Clock;
use std::sync::{Condvar, CondvarTimeouts, Mutex, Wait};
use std::time::Duration;

/// Maximum number of waiting connections of one user. One more is turned away.
pub const MAX_WAITING: u64 = 8;

/// The state under the lock: the directory, the tickets that were given up, whether no more tickets enter, and the history of each
/// user.
#[derive(Drop)]
struct DirectoryState<J: HistoryIdentity> {
    directory: Directory,
    given_up: GivenUp,
    closed: bool,
    histories: StateHistories<J>,
}

impl<J: HistoryIdentity> Model for DirectoryState<J> {
    ghost use Rattle.lj_program.specs.Homes as known;

    ghost Value = { known.GuardedDirectory };

    ghost view = { λ state. record {
      directory = state.directory;
      given_up = state.given_up;
      closed = state.closed;
      histories = state.histories;
    } };

    ghost invariant = { λ state. known.HomesAreLatest J.users state.histories state.directory };
}

/// A directory behind a lock. Each ticket waits until it may enter.
#[derive(Drop)]
pub struct SharedDirectory<J: HistoryIdentity> {
    state: Mutex<DirectoryState<J>>,
    /// Signalled when a state comes home, or no more tickets enter. Tickets wait on it.
    state_returned: Condvar,
}

/// What has become of a ticket that waited for a while.
pub enum EntryOutcome<J: HistoryIdentity> {
    /// It has entered, and has the state of its user: the latest in the history that was seen.
    Entered(LentState, SeenHistory<J>),
    /// No ticket enters any more. The ticket is lost.
    Closed(SeenClosed),
    /// It still waits.
    Waits(LentTicket),
}

impl<J: HistoryIdentity> Lender for DirectoryState<J> {
    ghost closed = { λ state. state.closed };

    fn is_closed(&self) -> bool {
        self.closed
    }
}

impl<J: HistoryIdentity> DirectoryState<J> {
    // Grants the next ticket of a user, unless as many of its connections wait as may.
    fn hello(&mut self, name: &Name, token: &Token) -> Result<LentTicket, NoTicket>
        ensures crowded { IfErr result (λ why. why ≡ Crowded ↔ IsCrowded self.old.directory name.now token.now) }
        ensures few { OnOk result (¬ IsCrowded self.old.directory name.now token.now) }
        ensures user { IfOk result (λ lent. user_with self.old.directory name.now token.now ≡ Some lent.ticket.user) }
        ensures number { IfOk result (λ lent. next_number self.old.directory lent.ticket.user ≡ Some lent.ticket.number) }
        ensures counted { IfOk result
            (λ lent. self.new.directory ≡ with_row_changed lent.ticket.user with_ticket self.old.directory) }
        ensures unchanged { OnErr result (self.new.directory ≡ self.old.directory) }
        ensures stays { self.new.closed ≡ self.old.closed }
        ensures unlost { self.new.given_up ≡ self.old.given_up }
        ensures unnoted { self.new.histories ≡ self.old.histories }
    {
        if self.is_crowded(name, token) {
            return Err(NoTicket::Crowded);
        }
        let granted = self.directory.hello(name.as_bytes(), token.as_bytes())?;
        Ok(LentTicket::new(granted))
    }

    // Returns whether as many connections of a user wait as may.
    fn is_crowded(&self, name: &Name, token: &Token) -> bool
        ensures { IsTrue result ↔ IsCrowded self.now.directory name.now token.now }
    {
        match self
            .directory
            .tickets_out(name.as_bytes(), token.as_bytes())
        {
            Some(out) => out > MAX_WAITING,
            None => false,
        }
    }

    // Lets a ticket enter, if its turn has come and the directory is not closed.
    fn enter(&mut self, ticket: LentTicket) -> EntryOutcome<J>
        ensures outcome { IsOutcome J.users ticket.ticket result }
        ensures closed { IsClosing result ↔ (self.old.closed ≡ true) }
        ensures stays { self.new.closed ≡ self.old.closed }
        ensures unlost { self.new.given_up ≡ self.old.given_up }
        ensures entered { HasMoved ticket.ticket result self.old.directory self.new.directory }
        ensures unnoted { self.new.histories ≡ self.old.histories }
    {
        if let Some(seen) = SeenClosed::look(self) {
            seen.lose(ticket);
            return EntryOutcome::Closed(seen);
        }
        let Some(state) = self.directory.try_enter(ticket.ticket()) else {
            return EntryOutcome::Waits(ticket);
        };
        let ticket = ticket.take_back(self);
        let Some(seen) = self.histories.seen(ticket.user()) else {
            unreachable!();
        };
        EntryOutcome::Entered(LentState::new(ticket, state), seen)
    }

    // Keeps a ticket that was given up. It is passed over at once, if its turn has come.
    fn give_up(&mut self, ticket: LentTicket) -> Result<(), LentTicket>
        ensures back { IfErr result (λ back. back.ticket ≡ ticket.ticket) }
        ensures closed { self.new.closed ≡ self.old.closed }
        ensures unchanged { OnErr result (self.new.directory ≡ self.old.directory) }
        ensures unlost { OnErr result (self.new.given_up ≡ self.old.given_up) }
        ensures kept { OnOk result (IsPermutation (self.old.given_up ++ ticket.ticket ∷ [])
            (self.new.given_up ++ tickets_passed ticket.ticket.user self.old.directory self.new.directory)) }
        ensures passed { OnOk result (PassesOver ticket.ticket.user self.old.directory self.new.directory) }
        ensures waiting { OnOk result
            (All (λ other. ¬ IsNextTicket self.new.directory ticket.ticket.user other) self.new.given_up) }
        ensures unnoted { self.new.histories ≡ self.old.histories }
    {
        let user = ticket.ticket().user();
        let ticket = ticket.take_back(self);
        self.given_up.keep(ticket).map_err(LentTicket::new)?;
        self.given_up.pass(&mut self.directory, user);
        Ok(())
    }

    // Takes a state home, notes it as the last one in the history of its user, and passes over the next tickets of this user that were
    // given up. Returns what was seen of the history then; None where the ticket had not entered, or had already left.
    fn leave(&mut self, lent: LentState) -> Option<SeenHistory<J>>
        ensures home { IsSome result ↔ IsSomeAnd (slice_get self.old.directory lent.ticket.user) (HasEntered lent.ticket.number) }
        ensures noted { IfSome result (NotesLast lent.ticket lent.state self.old.histories self.new.histories) }
        ensures unnoted { IfNone result (self.new.histories ≡ self.old.histories) }
        ensures closed { self.new.closed ≡ self.old.closed }
        ensures passed { (home : List UserRow) × ComesHome lent.ticket lent.state self.old.directory home
            × PassesOver lent.ticket.user home self.new.directory
            × IsPermutation self.old.given_up
            (self.new.given_up ++ tickets_passed lent.ticket.user home self.new.directory) }
        ensures waiting { All (λ other. ¬ IsNextTicket self.new.directory lent.ticket.user other) self.new.given_up }
    {
        let (ticket, state) = lent.take_back(self);
        let user = ticket.user();
        let seen = bring_home(&mut self.directory, &mut self.histories, ticket, state);
        self.given_up.pass(&mut self.directory, user);
        seen
    }

    // From now on no ticket enters.
    fn close(&mut self)
        ensures closed { self.new.closed ≡ true }
        ensures unchanged { self.new.directory ≡ self.old.directory }
        ensures unlost { self.new.given_up ≡ self.old.given_up }
        ensures unnoted { self.new.histories ≡ self.old.histories }
    {
        self.closed = true;
    }
}

/// Takes a state home, and notes it as the last one in the history of its user. None where the ticket had not entered, or had
/// already left; then nothing has changed.
fn bring_home<J: HistoryIdentity>(
    directory: &mut Directory,
    histories: &mut StateHistories<J>,
    ticket: Ticket,
    state: UserState,
) -> Option<SeenHistory<J>>
    requires homes { HomesAreLatest J.users histories.old directory.old }
    ensures entered { IsSome result ↔ IsSomeAnd (slice_get directory.old ticket.user) (HasEntered ticket.number) }
    ensures home { OnSome result (directory.new ≡ with_row_changed ticket.user (with_home state) directory.old) }
    ensures noted { IfSome result (NotesLast ticket state histories.old histories.new) }
    ensures unchanged { IfNone result (directory.new ≡ directory.old) }
    ensures unnoted { IfNone result (histories.new ≡ histories.old) }
    ensures homes { HomesAreLatest J.users histories.new directory.new }
{
    let user = ticket.user();
    let next = NextState::of(&state);
    let Ok(()) = directory.leave(ticket, state) else {
        return None;
    };
    histories.note(user, next)
}

impl<J: HistoryIdentity> SharedDirectory<J> {
    /// Makes the directory of these users, for which no ticket waits, with a history for each.
    ///
    /// # Errors
    /// Out of memory.
    pub fn new(
        alloc: Global,
        users: Vec<User>,
        histories: StateHistories<J>,
    ) -> Result<SharedDirectory<J>, AllocError>
        requires users { AreUsers users.items }
        requires some { 1 ≤ length users.items }
        requires known { users.items ≡ J.users }
        requires one_each { length histories ≡ length users.items }
        requires empty { All (λ states. states ≡ []) histories }
    {
        let directory = Directory::new(alloc, users)?;
        Ok(SharedDirectory {
            state: Mutex::new(DirectoryState {
                directory,
                given_up: GivenUp::new(alloc),
                closed: false,
                histories,
            }),
            state_returned: Condvar::new(),
        })
    }

    /// Grants the next ticket of the user with this name and this token.
    ///
    /// # Errors
    /// No user has both, all tickets of this user are granted, or eight of its connections wait.
    pub fn hello<R: Wait>(
        &self,
        rt: &R,
        name: &Name,
        token: &Token,
    ) -> Result<LentTicket, NoTicket> {
        self.state.lock(rt).hello(name, token)
    }

    /// Waits until the ticket may enter, for `patience` at most.
    pub fn wait<R: Wait + Clock>(
        &self,
        rt: &R,
        ticket: LentTicket,
        patience: Duration,
    ) -> EntryOutcome<J>
        ensures { IsOutcome J.users ticket.ticket result }
    {
        let end = end_of(rt, patience);
        let mut ticket = ticket;
        let mut locked = self.state.lock(rt);
        for _ in rt.forever() {
            match locked.enter(ticket) {
                EntryOutcome::Waits(waiting) => ticket = waiting,
                outcome => return outcome,
            }
            let left = left_until(rt, end);
            if left.is_zero() {
                return EntryOutcome::Waits(ticket);
            }
            locked = self.state_returned.wait_timeout(rt, locked, left).0;
        }
        unreachable!()
    }

    /// Takes a ticket for which nobody waits any more, and passes it over once its turn has come.
    ///
    /// # Errors
    /// Out of memory to keep the ticket, which is handed back.
    pub fn give_up<R: Wait>(&self, rt: &R, ticket: LentTicket) -> Result<(), LentTicket>
        ensures { IfErr result (λ back. back.ticket ≡ ticket.ticket) }
    {
        self.state.lock(rt).give_up(ticket)?;
        self.state_returned.notify_all();
        Ok(())
    }

    /// Takes a state home from the ticket that it was lent to, so that the user's next ticket may enter, with the state that is
    /// the last one in the history returned. None where the ticket had not entered, or had already left.
    pub fn leave<R: Wait>(&self, rt: &R, lent: LentState) -> Option<SeenHistory<J>>
        ensures { IfSome result (LeavesLast lent.ticket lent.state) }
    {
        let seen = self.state.lock(rt).leave(lent);
        self.state_returned.notify_all();
        seen
    }

    /// Closes the directory: from now on no ticket enters.
    pub fn close<R: Wait>(&self, rt: &R) {
        self.state.lock(rt).close();
        self.state_returned.notify_all();
    }
}
