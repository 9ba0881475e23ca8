//! The pool of workers of a server.
ghost use Rattle.std.specs.Prelude.{◌≡◌, ℕ, IfOk, List, None};
ghost use Rattle.lj_wire.specs.declared.reader.phase.Phase.TheVariants.{Open};
ghost use Rattle.lj_visit.specs.Visits.{IsVisit};

use crate::serve::history::HistoryIdentity;
use crate::serve::shared_directory::SharedDirectory;
use crate::serve::visitor::Visitor;
use lj_base::OutOfMemory;
use lj_table::Table;
use lj_visit::Visited;
use lj_wire::{LineReader, Sink, Source};
use log::Log;
use std::rt::Clock;
use std::sync::Wait;

/// Where the open tasks of a server are kept.
#[derive(Clone, Copy)]
pub enum Kept {
    /// In a book behind a lock, with the results.
    Lock,
    /// In a queue that no lock guards.
    Queue,
}

/// A pool whose ends serve connections, and for which workers compute, each with a state of its own.
pub trait WorkerPool: Drop {
    /// The state of a worker: what it counts its results by, and pops tasks with.
    type WorkerState: Send + Drop;

    // such a pool has this many workers
    ghost has_workers: { ℕ → Type 0 };

    // how many results these states count
    ghost counted: { List Self.WorkerState → ℕ };

    /// Answers a connection from its first line to its end, over an end of the pool. The directory lets its user in.
    fn visit<'s, R: Wait + Clock + Log, J: HistoryIdentity, S: Source, W: Sink>(
        &'s self,
        directory: &'s SharedDirectory<J>,
        visitor: &mut Visitor<'s, R>,
        lines: &mut LineReader<S>,
        writer: &mut W,
    ) -> Visited
        requires fresh { lines.old.items ≡ 0 }
        requires at_work { lines.old.phase ≡ Open }
        ensures { IsVisit result
            (record {
              lines = lines.old;
              writer = record { contents = W.contents writer.old; faults = W.faults writer.old; unflushed = W.unflushed writer.old };
              events = None;
            })
            (record {
              lines = lines.new;
              writer = record { contents = W.contents writer.new; faults = W.faults writer.new; unflushed = W.unflushed writer.new };
              events = None;
            }) };

    /// Computes tasks until the pool is closed.
    fn work<R: Wait>(&self, rt: &R, state: Self::WorkerState, table: &Table) -> Self::WorkerState;

    /// Closes the pool: from now on no task is computed.
    fn close<R: Wait>(&self, rt: &R);

    /// Returns the number of results given to the pool: the sum of what the states of all its workers count. Logs the counts of the
    /// tasks.
    ///
    /// # Errors
    /// Out of memory if the state of a worker is lost, since it had no thread.
    fn gather<R: Wait + Log>(
        self,
        rt: &R,
        workers: usize,
        states: Vec<Self::WorkerState>,
    ) -> Result<u64, OutOfMemory>
        requires { has_workers workers }
        ensures { IfOk result (λ total. total ≡ counted states.items) };
}
