//! The state machine of a world: one step for each event.
ghost use Rattle.std.specs.Prelude.{◌≡◌, ◌≤◌, ◌<◌, Some, None, IfOk, length, replicate, slice_set};
ghost use Rattle.std.specs.List.{IsDistinct};
ghost use Rattle.std.specs.Str.{bytes_eq};
ghost use Rattle.lj_access.specs.UserLists.{user_names};
ghost use Rattle.lj_world.specs.declared.event.Event.TheVariants.{Hello, At, By};
ghost use Rattle.lj_world.specs.Machine.{initial_machine};
ghost use Rattle.lj_world.specs.Runs.{Step};
ghost use Rattle.lj_world.specs.Picked.{PickedStep};

use crate::connection::Connection;
use crate::event::{ConnectionEvent, Event, WorkerEvent};
use crate::transcript::Entry;
use crate::worker::{self, Worker};
use crate::world_limits::{MAX_CONNECTIONS, MAX_WORKERS};
use lj_access::{Directory, MAX_USERS, User};
use lj_base::{Name, Token};
use lj_book::Book;
use lj_table::Table;
use std::alloc::{AllocError, Global};
use std::marker::Model;

/// Users, connections, workers and the book. The slot of a connection or a worker has its number; slot 0 stays empty.
#[derive(Drop)]
pub(crate) struct Machine {
    alloc: Global,
    table: Table,
    directory: Directory,
    connections: Vec<Option<Connection>>,
    workers: Vec<Option<Worker>>,
    book: Book,
}

impl Model for Machine {
    ghost use Rattle.lj_world.specs.Machine.{Machine};

    ghost Value = { Machine };

    ghost use Rattle.lj_world.specs.Machines.{IsMachine};

    ghost view = { λ m. record {
      rows = m.directory;
      connections = m.connections.items;
      workers = m.workers.items;
      book = m.book;
    } };

    ghost invariant = { λ m. IsMachine m.directory m.connections.items m.workers.items };
}

impl Machine {
    /// Creates the machine of these users: no connection is known, and no worker holds anything.
    ///
    /// # Errors
    /// Out of memory.
    pub(crate) fn new(alloc: Global, users: Vec<User>) -> Result<Machine, AllocError>
        requires some { 1 ≤ length users.items }
        requires most { length users.items ≤ MAX_USERS }
        requires distinct { IsDistinct bytes_eq (user_names users.items) }
        ensures { IfOk result (λ machine. machine ≡ initial_machine users.items) }
    {
        Ok(Machine {
            alloc,
            table: Table::new(),
            directory: Directory::new(alloc, users)?,
            connections: empty_slots(alloc, usize::from(MAX_CONNECTIONS) + 1)?,
            workers: empty_slots(alloc, usize::from(MAX_WORKERS) + 1)?,
            book: Book::new(alloc)?,
        })
    }

    /// Makes one step of the machine. Returns the reply, if any.
    ///
    /// # Errors
    /// Out of memory. The state is then unspecified.
    pub(crate) fn step(&mut self, event: Event) -> Result<Option<Entry>, AllocError>
        ensures { IfOk result (λ reply. PickedStep self.old event reply self.new) }
    {
        match event {
            Event::Hello {
                connection,
                name,
                token,
            } => {
                self.hello(connection, &name, &token);
                Ok(None)
            }
            Event::At { connection, event } => self.handle_connection_event(connection, event),
            Event::By { worker, event } => {
                self.handle_worker_event(worker, event);
                Ok(None)
            }
        }
    }

    /// Grants a ticket to a new connection.
    fn hello(&mut self, id: u8, name: &Name, token: &Token)
        ensures { Step self.old (Hello id name.now token.now) None self.new }
    {
        let slot = usize::from(id);
        if slot == 0 || slot >= self.connections.len() {
            return;
        }
        if self.connections[slot].is_some() {
            return;
        }
        let Ok(ticket) = self.directory.hello(name.as_bytes(), token.as_bytes()) else {
            return;
        };
        put(
            &mut self.connections,
            slot,
            Connection::new(self.alloc, ticket),
        );
    }

    /// Handles an event at a connection. Returns the reply, if any.
    fn handle_connection_event(
        &mut self,
        id: u8,
        event: ConnectionEvent,
    ) -> Result<Option<Entry>, AllocError>
        ensures { IfOk result (λ reply. PickedStep self.old (At id event) reply self.new) }
    {
        let slot = usize::from(id);
        if slot >= self.connections.len() {
            return Ok(None);
        }
        let Some(connection) = &mut self.connections[slot] else {
            return Ok(None);
        };
        let user = connection.user();
        let Some(text) = connection.handle(event, &mut self.directory, &mut self.book)? else {
            return Ok(None);
        };
        Ok(Some(Entry {
            user,
            connection: id,
            text,
        }))
    }

    /// Handles an event at a worker.
    fn handle_worker_event(&mut self, id: u8, event: WorkerEvent)
        ensures { PickedStep self.old (By id event) None self.new }
    {
        let slot = usize::from(id);
        if slot == 0 || slot >= self.workers.len() {
            return;
        }
        worker::handle(&mut self.workers[slot], event, &mut self.book, &self.table);
    }
}

/// Returns `count` empty slots.
fn empty_slots<T: Drop>(alloc: Global, count: usize) -> Result<Vec<Option<T>>, AllocError>
    ensures { IfOk result (λ slots. slots.items ≡ replicate count None) }
{
    let mut slots = Vec::with_capacity(alloc, count)?;
    while slots.len() < count {
        slots.push(None)?;
    }
    Ok(slots)
}

/// Stores a connection in a slot.
fn put(connections: &mut Vec<Option<Connection>>, slot: usize, connection: Connection)
    requires { slot < length connections.old.items }
    ensures { connections.new.items ≡ slice_set connections.old.items slot (Some connection) }
{
    connections[slot] = Some(connection);
}
