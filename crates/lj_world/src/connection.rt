//! A connection, and how it handles each event.
ghost use Rattle.std.specs.Prelude.{◌≡◌, ◌↔◌, None, IfOk, IsTrue, OnErr, List};
ghost use Rattle.lj_access.specs.UserRows.{UserRow};
ghost use Rattle.lj_book.specs.Book.{Book, IsDoneAt};
ghost use Rattle.lj_world.specs.declared.event.ConnectionEvent.TheVariants.{Arrive, End, Enter, Next, Post, Fetch, Turn, Leave};
ghost use Rattle.lj_world.specs.Machine.{new_connection};
ghost use Rattle.lj_world.specs.Connections.{IsDone, connection_view};
ghost use Rattle.lj_world.specs.Steps.{ConnectionStep};
ghost use Rattle.lj_world.specs.Picked.{ChangesPicked, ConnectionFollowsPick};
ghost use Rattle.lj_world.specs.KnownConnections.{HasRow, KeepsTicket};

use crate::answers;
use crate::connection_state::ConnectionState;
use crate::event::ConnectionEvent;
use crate::transcript::ReplyText;
use crate::world_limits::MAX_POSTED;
use lj_access::{Directory, Ticket};
use lj_base::Name;
use lj_book::Book;
use lj_session::Owner;
use lj_task::Done;
use lj_wire::Item;
use std::alloc::{AllocError, Global};
use std::collections::VecDeque;
use std::marker::Model;
use std::mem;

/// A connection that has been granted a ticket.
#[derive(Drop)]
pub(crate) struct Connection {
    alloc: Global,
    user: u8,
    number: u32,
    ticket: Option<Ticket>,
    state: ConnectionState,
    inbox: VecDeque<Item>,
    ended: bool,
    finished: bool,
    posted: usize,
}

impl Model for Connection {
    ghost use Rattle.lj_world.specs.ConnectionStates.{state_of, HoldsTicket};
    ghost use Rattle.lj_world.specs.Machine.{Connection};

    ghost Value = { Connection };

    ghost view = { λ c. record {
      user = c.user;
      number = c.number;
      state = state_of c.state;
      inbox = c.inbox.items;
      ended = c.ended;
      finished = c.finished;
      posted = c.posted;
    } };

    ghost invariant = { λ c. HoldsTicket c.state c.ticket c.user c.number };
}

impl Connection {
    /// Creates a connection that waits with this ticket. Its inbox is empty.
    pub(crate) fn new(alloc: Global, ticket: Ticket) -> Connection
        ensures { result ≡ new_connection ticket.user ticket.number }
    {
        Connection {
            alloc,
            user: ticket.user(),
            number: ticket.number(),
            ticket: Some(ticket),
            state: ConnectionState::Waiting,
            inbox: VecDeque::new(alloc),
            ended: false,
            finished: false,
            posted: 0,
        }
    }

    /// Returns the number of its user.
    pub(crate) fn user(&self) -> u8
        ensures { result ≡ self.now.user }
    {
        self.user
    }

    /// Handles an event, or changes nothing if the event is not possible now. Returns the text of the reply, if any.
    ///
    /// # Errors
    /// Out of memory. The directory is then unchanged, the connection keeps its ticket, and the rest is unspecified.
    pub(crate) fn handle(
        &mut self,
        event: ConnectionEvent,
        directory: &mut Directory,
        book: &mut Book,
    ) -> Result<Option<ReplyText>, AllocError>
        requires { HasRow directory.old self.old }
        ensures step { IfOk result (λ text.
            ConnectionStep event (connection_view self.old directory.old book.old) text
            (connection_view self.new directory.new book.new)) }
        ensures picked { ConnectionFollowsPick event self.old.user book.old book.new }
        ensures stays { OnErr result (KeepsTicket self.old self.new) }
        ensures rows { OnErr result (directory.new ≡ directory.old) }
    {
        match event {
            ConnectionEvent::Arrive(item) => self.arrive(item)?,
            ConnectionEvent::End => self.end(),
            ConnectionEvent::Enter => self.enter(directory),
            ConnectionEvent::Next => return self.next(),
            ConnectionEvent::Post => self.post(book),
            ConnectionEvent::Fetch { pick } => self.fetch(book, pick),
            ConnectionEvent::Turn { session } => return self.turn(session),
            ConnectionEvent::Leave => self.leave(directory, book),
        }
        Ok(None)
    }

    /// Appends an item to the inbox, unless the input of the connection has ended.
    fn arrive(&mut self, item: Item) -> Result<(), AllocError>
        ensures step { IfOk result (λ _. (rows : List UserRow) (book : Book)
            → ConnectionStep (Arrive item) (connection_view self.old rows book) None
            (connection_view self.new rows book)) }
        ensures stays { OnErr result (KeepsTicket self.old self.new) }
    {
        if !self.ended {
            self.inbox.push_back(item)?;
        }
        Ok(())
    }

    /// Marks the input as ended: no more items arrive.
    fn end(&mut self)
        ensures { (rows : List UserRow) (book : Book)
            → ConnectionStep End (connection_view self.old rows book) None
            (connection_view self.new rows book) }
    {
        self.ended = true;
    }

    /// Takes the state of its user from the directory, if its ticket may enter.
    fn enter(&mut self, directory: &mut Directory)
        ensures { (book : Book)
            → ConnectionStep Enter (connection_view self.old directory.old book) None
            (connection_view self.new directory.new book) }
    {
        let ConnectionState::Waiting = &self.state else {
            return;
        };
        let Some(ticket) = &self.ticket else {
            return;
        };
        if let Some(state) = directory.try_enter(ticket) {
            self.state = ConnectionState::Inside(Owner::new(state, self.user));
        }
    }

    /// Begins the next item of the inbox, unless a command is pending or the connection is finished.
    fn next(&mut self) -> Result<Option<ReplyText>, AllocError>
        ensures step { IfOk result (λ text. (rows : List UserRow) (book : Book)
            → ConnectionStep Next (connection_view self.old rows book) text
            (connection_view self.new rows book)) }
        ensures stays { OnErr result (KeepsTicket self.old self.new) }
    {
        let ConnectionState::Inside(owner) = &mut self.state else {
            return Ok(None);
        };
        if self.finished || owner.is_waiting() {
            return Ok(None);
        }
        let Some(item) = self.inbox.pop_front() else {
            return Ok(None);
        };
        let ends = item.ends();
        let text = answers::begin(self.alloc, owner, item)?;
        self.finished = text.is_some() && ends;
        Ok(text)
    }

    /// Posts the next task of its user's sessions.
    fn post(&mut self, book: &mut Book)
        ensures { (rows : List UserRow)
            → ConnectionStep Post (connection_view self.old rows book.old) None
            (connection_view self.new rows book.new) }
    {
        if self.posted >= MAX_POSTED {
            return;
        }
        let ConnectionState::Inside(owner) = &mut self.state else {
            return;
        };
        let Some(task) = owner.next_task() else {
            return;
        };
        if book.post(task).is_ok() {
            owner.posted();
            self.posted += 1;
        }
    }

    /// Fetches a result of its user. A result that no session awaits is dropped.
    fn fetch(&mut self, book: &mut Book, pick: usize)
        ensures step { (rows : List UserRow)
            → ConnectionStep (Fetch pick) (connection_view self.old rows book.old) None
            (connection_view self.new rows book.new) }
        ensures picked { ChangesPicked (IsDoneAt self.old.user book.old) pick book.old book.new }
    {
        let ConnectionState::Inside(owner) = &mut self.state else {
            return;
        };
        if !owner.is_busy() {
            return;
        }
        let Some(done) = book.fetch(self.user, pick) else {
            return;
        };
        let _taken_in = owner.accept(done);
        self.posted = self.posted.saturating_sub(1);
    }

    /// Turns the step of the named session or, if none is named, of the first that is ready.
    fn turn(&mut self, session: Option<Name>) -> Result<Option<ReplyText>, AllocError>
        ensures step { IfOk result (λ text. (rows : List UserRow) (book : Book)
            → ConnectionStep (Turn session) (connection_view self.old rows book) text
            (connection_view self.new rows book)) }
        ensures stays { OnErr result (KeepsTicket self.old self.new) }
    {
        let ConnectionState::Inside(owner) = &mut self.state else {
            return Ok(None);
        };
        let Some(name) = answers::session_to_turn(owner, session) else {
            return Ok(None);
        };
        answers::turn(self.alloc, owner, &name)
    }

    /// Returns the state of its user to the directory, if nothing is left to answer.
    fn leave(&mut self, directory: &mut Directory, book: &mut Book)
        requires { HasRow directory.old self.old }
        ensures { ConnectionStep Leave (connection_view self.old directory.old book.old) None
            (connection_view self.new directory.new book.new) }
    {
        if !self.is_done() {
            return;
        }
        let ConnectionState::Inside(owner) = &self.state else {
            return;
        };
        if owner.is_waiting() {
            return;
        }
        let Some(ticket) = self.ticket.take() else {
            return;
        };
        let ConnectionState::Inside(owner) = mem::replace(&mut self.state, ConnectionState::Gone)
        else {
            return;
        };
        book.withdraw(self.user);
        let _refused = directory.leave(ticket, owner.into_state());
    }

    /// Returns true if nothing is left to answer.
    fn is_done(&self) -> bool
        ensures { IsTrue result ↔ IsDone self.now }
    {
        self.finished || self.ended && self.inbox.is_empty()
    }
}
