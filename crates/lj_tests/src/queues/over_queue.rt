//! Scenarios over a pool with a queue.
ghost use Rattle.std.specs.Prelude.{◌≡◌, ◌+◌};

use super::scenario::{Scenario, Seen, Setup, run_over};
use super::test_pool::{Host, TestPool, TestWorkers, Worked};
use super::{next, put_back, serve_over};
use lj_book::Counts;
use lj_pool::{Gate, Share};
use lj_queue::{
    CONNECTIONS, PoolIdentity, PoolPass, QueueBlank, QueueEnd, QueuePool, Settled, gather,
    work_queue,
};
use lj_table::Table;
use std::alloc::{AllocError, AllocGlobal};
use std::io::{Read, Write};
use std::marker::Brand;
use std::sync::Mutex;

/// A pool with a queue, with its free passes and shares.
#[derive(Drop)]
struct QueueTestPool<'p, L: PoolIdentity, R> {
    rt: &'p R,
    pool: &'p QueuePool<L>,
    passes: Mutex<Vec<PoolPass<L>>>,
    shares: Mutex<Vec<Share<L>>>,
}

impl<'p, L: PoolIdentity + Send + Sync, R: Host + Sync> TestPool<R> for QueueTestPool<'p, L, R> {
    type TestEnd = QueueEnd<'p, L, R>;

    fn end(&self, rt: &R, user: u8) -> QueueEnd<'p, L, R> {
        let pass = next(rt, &mut self.passes.lock(rt));
        self.pool.end(self.rt, pass, user)
    }

    fn leave(&self, rt: &R, end: QueueEnd<'p, L, R>) -> Option<usize> {
        let pass = end.finish();
        let number = pass.number();
        put_back(rt, &mut self.passes.lock(rt), pass);
        Some(number)
    }
}

impl<'p, L: PoolIdentity + Send + Sync, R: Host + Sync> TestWorkers<R> for QueueTestPool<'p, L, R> {
    fn serve_user<I: Read + Drop, W: Write + Drop>(
        &self,
        rt: &R,
        user: u8,
        input: I,
        output: W,
    ) -> W {
        let mut end = self.end(rt, user);
        let output = serve_over(rt, &mut end, user, input, output);
        self.leave(rt, end);
        output
    }

    fn work<G: Gate>(&self, rt: &R, gate: &G) -> Worked {
        let share = next(rt, &mut self.shares.lock(rt));
        let pass = next(rt, &mut self.passes.lock(rt));
        let before = share.count();
        let (share, pass) = work_queue(rt, self.pool, share, pass, gate, &Table::new());
        let worked = Worked {
            credited: share.count().saturating_sub(before),
            pass: Some(pass.number()),
        };
        put_back(rt, &mut self.shares.lock(rt), share);
        put_back(rt, &mut self.passes.lock(rt), pass);
        worked
    }

    fn withdraw(&self, rt: &R, user: u8) {
        self.pool.withdraw(rt, user);
    }

    fn close(&self, rt: &R) {
        self.pool.close(rt);
    }

    fn counts(&self, _rt: &R) -> Option<Counts> {
        None
    }
}

/// What was seen, the number of results given to the pool, and what its passes pushed and popped, unless memory was refused.
pub type OverQueue = Result<(Seen, u64, Settled), AllocError>;

fn run<L: PoolIdentity + Send + Sync, R: Host + Sync>(
    rt: &R,
    blank: QueueBlank,
    setup: Setup,
) -> OverQueue
    requires name { blank.name ≡ L.name }
    requires parts { blank.parts ≡ L.parts }
    requires one_each { blank.parts ≡ setup.workers }
    requires table { blank.table ≡ L.table }
    requires passes { setup.workers + CONNECTIONS ≡ L.passes }
{
    let workers = usize::from(setup.workers);
    let (pool, passes, shares) = QueuePool::<L>::new(rt.alloc(), blank, workers)?;
    let test_pool = QueueTestPool {
        rt,
        pool: &pool,
        passes: Mutex::new(passes),
        shares: Mutex::new(shares),
    };
    let seen = run_over(rt, &test_pool, setup.scenario);
    let QueueTestPool { passes, shares, .. } = test_pool;
    let (passes, shares) = (passes.into_inner(), shares.into_inner());
    assert!(rt; passes.len() == workers + CONNECTIONS && shares.len() == workers);
    Ok((seen, gather(rt, &pool, shares), pool.settle(rt, passes)))
}

fn run_once<R: Host + Sync>(rt: &R, setup: Setup) -> OverQueue {
    let blank = QueueBlank::new(rt.alloc(), u64::from(setup.workers))?;
    run::<Brand, R>(rt, blank, setup)
}

/// Runs a scenario over a pool with a queue for this many workers; once more if memory was refused.
///
/// # Errors
/// Out of memory.
pub fn over_queue<R: Host + Sync>(rt: &R, workers: u8, scenario: Scenario) -> OverQueue {
    let setup = Setup { workers, scenario };
    run_once(rt, setup).or_else(|_| run_once(rt, setup))
}
