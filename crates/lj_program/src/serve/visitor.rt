//! One visit to a server.
ghost use Rattle.std.specs.Prelude.{◌≡◌, IfOk};
ghost use Rattle.lj_session.specs.UserState.{Reached};
ghost use Rattle.lj_program.specs.Homes.{EntersLatest};

use crate::serve::first_line::Deadline;
use crate::serve::history::{HistoryIdentity, SeenHistory};
use crate::serve::shared_directory::{EntryOutcome, SharedDirectory};
use lj_base::{Name, Token};
use lj_visit::{LentState, LentTicket, NoTicket, Shut, Visited};
use log::{Log, info};
use std::io::ErrorKind;
use std::net::TcpStream;
use std::rt::Clock;
use std::sync::Wait;
use std::time::Duration;

/// Maximum number of seconds that a ticket waits before the server checks that its client is still there.
const LOOK_SECONDS: u64 = 1;

/// Maximum number of milliseconds that this check takes, if the client has sent nothing.
const LOOK_MILLIS: u64 = 1;

/// A connection that asks a directory for a ticket.
#[derive(Drop)]
pub struct Visitor<'s, R> {
    pub rt: &'s R,
    pub stream: &'s TcpStream,
    pub deadline: &'s Deadline,
    pub number: u64,
    pub name: Option<Name>,
}

impl<'s, R: Wait + Clock + Log> Visitor<'s, R> {
    /// Makes a visitor who has not asked yet.
    pub fn new(rt: &'s R, stream: &'s TcpStream, deadline: &'s Deadline, number: u64) -> Self {
        Visitor {
            rt,
            stream,
            deadline,
            number,
            name: None,
        }
    }

    /// Lifts the deadline of the first line, and asks for a ticket of the user with this name and this token.
    pub fn hello<J: HistoryIdentity>(
        &mut self,
        directory: &SharedDirectory<J>,
        name: &Name,
        token: &Token,
    ) -> Result<LentTicket, NoTicket> {
        self.deadline.lift(self.stream);
        self.name = Some(name.copy());
        directory.hello(self.rt, name, token)
    }

    /// Waits until the ticket enters, and returns the state with what was seen of its history. Each second it checks that the
    /// client is still there, unless bytes of it are held.
    pub fn enter<J: HistoryIdentity>(
        &mut self,
        directory: &SharedDirectory<J>,
        ticket: LentTicket,
        held: bool,
    ) -> Result<(LentState, SeenHistory<J>), Shut>
        ensures ticket { IfOk result (λ entered. entered.0.ticket ≡ ticket.ticket) }
        ensures reached { IfOk result (λ entered. Reached entered.0.state) }
        ensures latest { IfOk result (λ entered. EntersLatest J.users ticket.ticket entered.0.state entered.1) }
    {
        let mut ticket = ticket;
        for _ in self.rt.forever() {
            match directory.wait(self.rt, ticket, Duration::from_secs(LOOK_SECONDS)) {
                EntryOutcome::Entered(lent, seen) => return Ok((lent, seen)),
                EntryOutcome::Closed(seen) => return Err(Shut::Closed(seen)),
                EntryOutcome::Waits(waiting) => ticket = waiting,
            }
            if held || is_there(self.stream) {
                continue;
            }
            match directory.give_up(self.rt, ticket) {
                Ok(()) => return Err(Shut::Gone),
                Err(back) => ticket = back,
            }
        }
        unreachable!()
    }

    /// Logs that the user was let in.
    pub fn note_entry(&self) {
        self.note("is in");
    }

    /// Logs how the connection has ended.
    pub fn note_end(&self, visited: Visited) {
        let number = self.number;
        match visited {
            Visited::NoLine => info!(self.rt; "connection {number}: ended before a line"),
            Visited::Denied => info!(self.rt; "connection {number}: denied"),
            Visited::TurnedAway => self.note("has too many connections that wait"),
            Visited::ShutOut(Shut::Closed(_)) => self.note("waited, and the server was closed"),
            Visited::ShutOut(Shut::Gone) => self.note("was gone while it waited"),
            Visited::NotWelcomed => self.note("was gone before it was let in"),
            Visited::Attended(served) => {
                if let Some(name) = &self.name {
                    info!(self.rt; "connection {number}: {name} has left, {served:?}");
                }
            }
        }
    }

    // Logs a message with the user's name.
    fn note(&self, what: &str) {
        let number = self.number;
        if let Some(name) = &self.name {
            info!(self.rt; "connection {number}: {name} {what}");
        }
    }
}

/// Returns whether the client of a stream is still there: it has sent bytes that were not read yet, or may still send some.
fn is_there(stream: &TcpStream) -> bool {
    if stream
        .set_read_timeout(Some(Duration::from_millis(LOOK_MILLIS)))
        .is_err()
    {
        return false;
    }
    let peeked = stream.peek(&mut [0; 1]);
    let _ = stream.set_read_timeout(None);
    match peeked {
        Ok(count) => count > 0,
        Err(error) => error.kind() == ErrorKind::WouldBlock,
    }
}
