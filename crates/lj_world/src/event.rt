//! The events of a world.

use lj_base::{Name, Token};
use lj_wire::Item;

/// An event. Connections are numbered from 1 to `MAX_CONNECTIONS`, workers from 1 to `MAX_WORKERS`. An event that is not
/// possible changes nothing.
#[derive(Debug, Drop)]
pub enum Event {
    /// A new connection sends a name and a token, and is granted a ticket.
    Hello {
        connection: u8,
        name: Name,
        token: Token,
    },
    /// An event at a known connection: one that has been granted a ticket.
    At {
        connection: u8,
        event: ConnectionEvent,
    },
    /// An event at a worker.
    By {
        worker: u8,
        event: WorkerEvent,
    },
}

/// An event at a connection. The book begins its search at the key `pick`.
#[derive(Debug, Drop)]
pub enum ConnectionEvent {
    /// An item arrives.
    Arrive(Item),
    /// The input ends: no more items arrive.
    End,
    /// The connection takes the state of its user.
    Enter,
    /// The connection begins the next item of its inbox.
    Next,
    /// The connection posts the next task of its user's sessions.
    Post,
    /// The connection fetches a result of its user.
    Fetch { pick: usize },
    /// The connection turns the step of the named session or, if none is named, of the first that is ready.
    Turn { session: Option<Name> },
    /// The connection returns the state of its user.
    Leave,
}

/// An event at a worker. The book begins its search at the key `pick`.
#[derive(Clone, Copy, PartialEq, Eq, Debug)]
pub enum WorkerEvent {
    /// The worker takes a task.
    Take { pick: usize },
    /// The worker computes the task that it holds.
    Compute,
    /// The worker gives the result that it holds.
    Give,
    /// The worker hands back the task that it holds.
    HandBack,
}
