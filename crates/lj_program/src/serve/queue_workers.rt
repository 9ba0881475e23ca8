//! A pool with a queue, as the worker pool of a server.
ghost use Rattle.std.specs.Prelude.{◌≡◌, ◌+◌, IfOk};
ghost use Rattle.std.specs.List.{sum_by};

use crate::serve::history::HistoryIdentity;
use crate::serve::server_backend::{PoolEnds, visit_over};
use crate::serve::shared_directory::SharedDirectory;
use crate::serve::visitor::Visitor;
use crate::serve::worker_pool::WorkerPool;
use lj_base::OutOfMemory;
use lj_end::Share;
use lj_queue::{
    CONNECTIONS, FreePasses, PoolIdentity, PoolPass, QueueBlank, QueueEnd, QueuePool, Settled,
    gather, work_queue,
};
use lj_table::Table;
use lj_visit::{UserEnd, Visited};
use lj_wire::{LineReader, Sink, Source};
use log::{Log, info};
use std::alloc::{AllocError, Global};
use std::rt::Clock;
use std::sync::{Mutex, Wait};

/// A pool with a queue, whose passes are with the open connections and the workers, or free. There are as many for connections as
/// may be open.
#[derive(Drop)]
pub struct QueueWorkers<L: PoolIdentity> {
    pool: QueuePool<L>,
    free: FreePasses<L>,
    /// Memory for the workers' shares, each of which is with its worker.
    shares: Mutex<Vec<Share<L>>>,
}

impl<L: PoolIdentity> QueueWorkers<L> {
    /// Makes an empty pool, with the state of each worker.
    ///
    /// # Errors
    /// Out of memory.
    pub fn new(
        alloc: Global,
        blank: QueueBlank,
        workers: usize,
    ) -> Result<(QueueWorkers<L>, Vec<(Share<L>, PoolPass<L>)>), AllocError>
        requires name { blank.name ≡ L.name }
        requires parts { blank.parts ≡ L.parts }
        requires one_each { blank.parts ≡ workers }
        requires table { blank.table ≡ L.table }
        requires passes { workers + CONNECTIONS ≡ L.passes }
    {
        let (pool, mut passes, mut shares) = QueuePool::new(alloc, blank, workers)?;
        let mut states = Vec::with_capacity(alloc, workers)?;
        while let Some(share) = shares.pop() {
            let Some(pass) = passes.pop() else {
                break;
            };
            states.push((share, pass))?;
        }
        let made = QueueWorkers {
            pool,
            free: FreePasses::new(passes),
            shares: Mutex::new(shares),
        };
        Ok((made, states))
    }
}

impl<'s, L: PoolIdentity + 's, R: Wait + 's> PoolEnds<'s, R> for QueueWorkers<L> {
    type OpenedEnd = QueueEnd<'s, L, R>;

    fn open_end(&'s self, rt: &'s R, user: u8) -> UserEnd<QueueEnd<'s, L, R>> {
        let pool = self.pool.end_of(rt, &self.free, user);
        UserEnd { pool, user }
    }

    fn close_pool(&self, rt: &R) {
        self.pool.close(rt);
    }
}

impl<L: PoolIdentity + Send> WorkerPool for QueueWorkers<L> {
    type WorkerState = (Share<L>, PoolPass<L>);

    ghost use Rattle.std.specs.Prelude.{◌≡◌, ◌+◌};
    ghost use Rattle.std.specs.List.{sum_by};
    ghost use Rattle.lj_queue.specs.declared.queue_pool.TheConstants.{CONNECTIONS};

    ghost has_workers = { λ workers. (workers ≡ L.parts) × (workers + CONNECTIONS ≡ L.passes) };

    ghost counted = { sum_by (λ state. state.0) };

    fn visit<'s, R: Wait + Clock + Log, J: HistoryIdentity, S: Source, W: Sink>(
        &'s self,
        directory: &'s SharedDirectory<J>,
        visitor: &mut Visitor<'s, R>,
        lines: &mut LineReader<S>,
        writer: &mut W,
    ) -> Visited {
        visit_over(self, directory, visitor, lines, writer)
    }

    fn work<R: Wait>(
        &self,
        rt: &R,
        state: (Share<L>, PoolPass<L>),
        table: &Table,
    ) -> (Share<L>, PoolPass<L>) {
        let (share, pass) = state;
        work_queue(rt, &self.pool, share, pass, &(), table)
    }

    fn close<R: Wait>(&self, rt: &R) {
        self.pool.close(rt);
    }

    fn gather<R: Wait + Log>(
        self,
        rt: &R,
        workers: usize,
        states: Vec<(Share<L>, PoolPass<L>)>,
    ) -> Result<u64, OutOfMemory>
        requires { (workers ≡ L.parts) × (workers + CONNECTIONS ≡ L.passes) }
        ensures { IfOk result (λ total. total ≡ sum_by (λ state. state.0) states.items) }
    {
        let QueueWorkers { pool, free, shares } = self;
        let (mut passes, mut shares) = (free.into_passes(), shares.into_inner());
        shares.clear();
        let mut states = states;
        while let Some((share, pass)) = states.pop() {
            shares.push(share)?;
            passes.push(pass)?;
        }
        if shares.len() != workers || Some(passes.len()) != workers.checked_add(CONNECTIONS) {
            return Err(OutOfMemory);
        }
        let given = gather(rt, &pool, shares);
        let Settled {
            pushed,
            popped,
            left,
        } = pool.settle(rt, passes);
        info!(rt; "the queue: {pushed} tasks posted, {popped} taken, {left} left");
        Ok(given)
    }
}
