//! A pool behind a lock, as the worker pool of a server.
ghost use Rattle.std.specs.Prelude.{◌≡◌, IfOk, sum};

use crate::serve::history::HistoryIdentity;
use crate::serve::server_backend::{PoolEnds, visit_over};
use crate::serve::shared_directory::SharedDirectory;
use crate::serve::visitor::Visitor;
use crate::serve::worker_pool::WorkerPool;
use lj_base::OutOfMemory;
use lj_book::Counts;
use lj_end::Share;
use lj_lock::{LockEnd, LockPool, gather, work};
use lj_table::Table;
use lj_visit::{UserEnd, Visited};
use lj_wire::{LineReader, Sink, Source};
use log::{Log, info};
use std::alloc::{AllocError, Global};
use std::rt::Clock;
use std::sync::Wait;
use std::sync::ledger::{Blank, Ledger};

/// A pool behind a lock.
#[derive(Drop)]
pub struct LockWorkers<L: Ledger> {
    pool: LockPool<L>,
}

impl<L: Ledger> LockWorkers<L> {
    /// Makes an empty pool, with the state of each worker.
    ///
    /// # Errors
    /// Out of memory.
    pub fn new(
        alloc: Global,
        blank: Blank,
        workers: usize,
    ) -> Result<(LockWorkers<L>, Vec<Share<L>>), AllocError>
        requires name { blank.name ≡ L.name }
        requires parts { blank.parts ≡ L.parts }
        requires one_each { blank.parts ≡ workers }
    {
        let (pool, shares) = LockPool::new(alloc, blank, workers)?;
        Ok((LockWorkers { pool }, shares))
    }
}

impl<'s, L: Ledger + 's, R: Wait + 's> PoolEnds<'s, R> for LockWorkers<L> {
    type OpenedEnd = LockEnd<'s, L, R>;

    fn open_end(&'s self, rt: &'s R, user: u8) -> UserEnd<LockEnd<'s, L, R>> {
        let pool = self.pool.end_of(rt, user);
        UserEnd { pool, user }
    }

    fn close_pool(&self, rt: &R) {
        self.pool.close(rt);
    }
}

impl<L: Ledger + Send> WorkerPool for LockWorkers<L> {
    type WorkerState = Share<L>;

    ghost has_workers = { λ workers. workers ≡ L.parts };

    ghost counted = { sum };

    fn visit<'s, R: Wait + Clock + Log, J: HistoryIdentity, S: Source, W: Sink>(
        &'s self,
        directory: &'s SharedDirectory<J>,
        visitor: &mut Visitor<'s, R>,
        lines: &mut LineReader<S>,
        writer: &mut W,
    ) -> Visited {
        visit_over(self, directory, visitor, lines, writer)
    }

    fn work<R: Wait>(&self, rt: &R, state: Share<L>, table: &Table) -> Share<L> {
        work(rt, &self.pool, state, &(), table)
    }

    fn close<R: Wait>(&self, rt: &R) {
        self.pool.close(rt);
    }

    fn gather<R: Wait + Log>(
        self,
        rt: &R,
        workers: usize,
        states: Vec<Share<L>>,
    ) -> Result<u64, OutOfMemory>
        requires { workers ≡ L.parts }
        ensures { IfOk result (λ total. total ≡ sum states.items) }
    {
        if states.len() != workers {
            return Err(OutOfMemory);
        }
        let Counts {
            posted,
            fetched,
            withdrawn,
            ..
        } = self.pool.counts(rt);
        info!(rt; "the book: {posted} tasks posted, {fetched} fetched, {withdrawn} withdrawn");
        Ok(gather(rt, &self.pool, states))
    }
}
