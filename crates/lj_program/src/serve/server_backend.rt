//! The backend of a visit to a server, over either of its pools.
ghost use Rattle.std.specs.Prelude.{◌≡◌, ◌∷◌, [], None};
ghost use Rattle.lj_end.specs.Seen.{nothing_seen};
ghost use Rattle.lj_visit.specs.Events.{Happens};
ghost use Rattle.lj_visit.specs.Visits.{IsVisit};
ghost use Rattle.lj_wire.specs.declared.reader.phase.Phase.TheVariants.{Open};
ghost use Rattle.lj_visit.specs.Events.Event.{withdrawn};

use crate::serve::history::HistoryIdentity;
use crate::serve::shared_directory::SharedDirectory;
use crate::serve::visitor::Visitor;
use lj_base::{Name, Token};
use lj_end::PoolEnd;
use lj_visit::{Backend, LentState, LentTicket, NoTicket, Shut, UserEnd, Visited, visit};
use lj_wire::{LineReader, Sink, Source};
use log::Log;
use std::rt::Clock;
use std::sync::Wait;

/// The ends of a pool for the connections of a server, whose threads have this runtime.
pub trait PoolEnds<'s, R> {
    /// An end of the pool. Where it is dropped, what the pool has of its user leaves the pool.
    type OpenedEnd: PoolEnd + Drop;

    /// Makes an end for the user of this number. Nothing is owed to it.
    fn open_end(&'s self, rt: &'s R, user: u8) -> UserEnd<Self::OpenedEnd>
        ensures user { result.user ≡ user }
        ensures seen { Self.OpenedEnd.seen result.pool ≡ nothing_seen }
        ensures own { Self.OpenedEnd.for_others result.pool user ≡ 0 };

    /// Closes the pool: from now on no task is computed.
    fn close_pool(&self, rt: &R);
}

/// The backend of a visit over a pool of this server.
#[derive(Drop)]
pub struct ServerBackend<'v, 's, P, R, J: HistoryIdentity> {
    pub visitor: &'v mut Visitor<'s, R>,
    pub directory: &'s SharedDirectory<J>,
    pub pool: &'s P,
}

impl<'s, P: PoolEnds<'s, R>, R: Wait + Clock + Log, J: HistoryIdentity> Backend
    for ServerBackend<'_, 's, P, R, J> {
    type End = P::OpenedEnd;

    ghost events = { λ _. None };

    fn hello(&mut self, name: &Name, token: &Token) -> Result<LentTicket, NoTicket> {
        self.visitor.hello(self.directory, name, token)
    }

    fn enter(&mut self, ticket: LentTicket, held: bool) -> Result<LentState, Shut> {
        let (lent, _seen) = self.visitor.enter(self.directory, ticket, held)?;
        Ok(lent)
    }

    fn open(&mut self, user: u8) -> UserEnd<P::OpenedEnd> {
        self.visitor.note_entry();
        self.pool.open_end(self.visitor.rt, user)
    }

    fn finish(&mut self, end: UserEnd<P::OpenedEnd>)
        ensures { Happens None None (withdrawn end.user (P.OpenedEnd.seen end.pool)
            (P.OpenedEnd.for_others end.pool end.user) ∷ []) }
    {
        drop(end);
    }

    fn leave(&mut self, lent: LentState) {
        let _seen = self.directory.leave(self.visitor.rt, lent);
    }

    fn close(&mut self) {
        self.pool.close_pool(self.visitor.rt);
        self.directory.close(self.visitor.rt);
    }
}

/// Answers a connection from its first line to its end, over an end of the pool.
pub fn visit_over<
    's,
    P: PoolEnds<'s, R>,
    R: Wait + Clock + Log,
    J: HistoryIdentity,
    S: Source,
    W: Sink,
>(
    pool: &'s P,
    directory: &'s SharedDirectory<J>,
    visitor: &mut Visitor<'s, R>,
    lines: &mut LineReader<S>,
    writer: &mut W,
) -> Visited
    requires fresh { lines.old.items ≡ 0 }
    requires at_work { lines.old.phase ≡ Open }
    ensures { IsVisit result
        (record {
          lines = lines.old;
          writer = record { contents = W.contents writer.old; faults = W.faults writer.old; unflushed = W.unflushed writer.old };
          events = None;
        })
        (record {
          lines = lines.new;
          writer = record { contents = W.contents writer.new; faults = W.faults writer.new; unflushed = W.unflushed writer.new };
          events = None;
        }) }
{
    let mut backend = ServerBackend {
        visitor,
        directory,
        pool,
    };
    visit(&mut backend, lines, writer)
}
