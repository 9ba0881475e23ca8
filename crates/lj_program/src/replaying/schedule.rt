//! Schedules: users, and events of connections and of workers, each in a line.
ghost use Rattle.std.specs.Prelude.{◌≤◌, ◌<◌, length, IfOk};
ghost use Rattle.lj_program.specs.NamedUsers.{AreUsers};

use crate::input::{FromLines, LineFault, TextFault, Users, first_line, read_lines, without_user};
use crate::replaying::event_lines::{parse_arrival, parse_event, parse_loss};
use lj_access::User;
use lj_base::{Words, split_word};
use lj_session::{Body, Command, LoadBody};
use lj_wire::{Item, read_line};
use lj_world::{ConnectionEvent, Event};
use std::alloc::{AllocError, Global};

/// Users, at least one, and events.
#[derive(Drop)]
pub struct Schedule {
    pub users: Vec<User>,
    pub events: Vec<Event>,
}

/// Reads a schedule: lines of users, and after these a line for each event. Lines without a word are skipped.
///
/// # Errors
/// The number of the first bad line, counted from 1 with the lines of bodies; of the line after the last if there is no user; or
/// out of memory.
///
/// Promise: there are 1 to 64 users, each with a different name.
pub fn read_schedule(alloc: Global, bytes: &[u8]) -> Result<Schedule, TextFault>
    ensures users { IfOk result (λ schedule. AreUsers schedule.users.items) }
    ensures some { IfOk result (λ schedule. 1 ≤ length schedule.users.items) }
{
    let mut draft = Draft::new(alloc);
    read_lines(&mut draft, bytes)?;
    if draft.users.is_empty() {
        return Err(without_user(bytes));
    }
    Ok(Schedule {
        users: draft.users.into_vec(),
        events: draft.events,
    })
}

/// The part of a schedule that was read so far.
#[derive(Drop)]
struct Draft {
    alloc: Global,
    users: Users,
    events: Vec<Event>,
}

impl Draft {
    fn new(alloc: Global) -> Draft {
        Draft {
            alloc,
            users: Users::new(alloc),
            events: Vec::new(alloc),
        }
    }

    /// Reads a line, and returns how many of the bytes that follow it are its body.
    fn read_line(&mut self, line: &[u8], after: &[u8]) -> Result<usize, LineFault>
        ensures { IfOk result (λ body. body ≤ length after.now) }
    {
        let Some((verb, rest)) = split_word(line) else {
            return Ok(0);
        };
        if verb == b"user".as_slice() {
            self.add_user(Words::new(rest))?;
            return Ok(0);
        }
        if self.users.is_empty() {
            return Err(LineFault::Form);
        }
        if verb == b"arrive".as_slice() {
            return self.arrive(rest, after);
        }
        let event = if verb == b"lost".as_slice() {
            parse_loss(rest)
        } else {
            parse_event(verb, Words::new(rest))
        };
        self.events.push(event.ok_or(LineFault::Form)?)?;
        Ok(0)
    }

    fn add_user(&mut self, words: Words) -> Result<(), LineFault> {
        if !self.events.is_empty() {
            return Err(LineFault::Form);
        }
        self.users.add(words)
    }

    /// Adds the arrival of an item: its line follows the connection, and its body is in the next lines. Returns the number of
    /// bytes of the body.
    fn arrive(&mut self, words: &[u8], after: &[u8]) -> Result<usize, LineFault>
        ensures { IfOk result (λ body. body ≤ length after.now) }
    {
        let (connection, line) = parse_arrival(words).ok_or(LineFault::Form)?;
        let arrived = read_line(line);
        if arrived.body > after.len() {
            return Err(LineFault::Form);
        }
        let (bytes, _) = after.split_at(arrived.body);
        let event = ConnectionEvent::Arrive(with_bytes(self.alloc, arrived.item, bytes)?);
        self.events.push(Event::At { connection, event })?;
        Ok(arrived.body)
    }
}

impl FromLines for Draft {
    fn read(&mut self, bytes: &[u8]) -> Result<usize, LineFault> {
        let (line, after) = first_line(bytes);
        let body = self.read_line(line, after)?;
        Ok(bytes.len() - after.len() + body)
    }
}

/// Returns a load with a copy of these bytes as its body, and any other item unchanged.
fn with_bytes(alloc: Global, item: Item, bytes: &[u8]) -> Result<Item, AllocError> {
    if !matches!(&item, Item::Command(Command::Load(_))) {
        return Ok(item);
    }
    let mut body = Vec::new(alloc);
    body.extend_from_slice(bytes)?;
    Ok(item.with_body(LoadBody::Read(Body::new(body))))
}
