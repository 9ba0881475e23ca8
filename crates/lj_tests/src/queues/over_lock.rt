//! Scenarios over a pool behind a lock.
ghost use Rattle.std.specs.Prelude.{◌≡◌};

use super::scenario::{Scenario, Seen, Setup, run_over};
use super::test_pool::{Host, TestPool, TestWorkers, Worked};
use super::{next, put_back, serve_over};
use lj_book::Counts;
use lj_pool::{Gate, LockEnd, LockPool, Share, gather, work};
use lj_table::Table;
use std::alloc::{AllocError, AllocGlobal};
use std::io::{Read, Write};
use std::marker::Brand;
use std::sync::Mutex;
use std::sync::ledger::{Blank, Ledger};

/// A pool behind a lock, with the shares that no worker has.
#[derive(Drop)]
struct LockTestPool<'p, L: Ledger, R> {
    rt: &'p R,
    pool: &'p LockPool<L>,
    shares: Mutex<Vec<Share<L>>>,
}

impl<'p, L: Ledger + Send + Sync, R: Host + Sync> TestPool<R> for LockTestPool<'p, L, R> {
    type TestEnd = LockEnd<'p, L, R>;

    fn end(&self, _rt: &R, _user: u8) -> LockEnd<'p, L, R> {
        self.pool.end(self.rt)
    }

    fn leave(&self, _rt: &R, end: LockEnd<'p, L, R>) -> Option<usize> {
        end.finish();
        None
    }
}

impl<'p, L: Ledger + Send + Sync, R: Host + Sync> TestWorkers<R> for LockTestPool<'p, L, R> {
    fn serve_user<I: Read + Drop, W: Write + Drop>(
        &self,
        rt: &R,
        user: u8,
        input: I,
        output: W,
    ) -> W {
        let mut end = self.end(rt, user);
        let output = serve_over(rt, &mut end, user, input, output);
        self.leave(rt, end);
        output
    }

    fn work<G: Gate>(&self, rt: &R, gate: &G) -> Worked {
        let share = next(rt, &mut self.shares.lock(rt));
        let before = share.count();
        let share = work(rt, self.pool, share, gate, &Table::new());
        let credited = share.count().saturating_sub(before);
        put_back(rt, &mut self.shares.lock(rt), share);
        Worked {
            credited,
            pass: None,
        }
    }

    fn withdraw(&self, rt: &R, user: u8) {
        self.pool.withdraw(rt, user);
    }

    fn close(&self, rt: &R) {
        self.pool.close(rt);
    }

    fn counts(&self, rt: &R) -> Option<Counts> {
        Some(self.pool.counts(rt))
    }
}

/// What was seen, the number of results given to the pool, and the counts of its book at last, unless memory was refused.
pub type OverLock = Result<(Seen, u64, Counts), AllocError>;

fn run<L: Ledger + Send + Sync, R: Host + Sync>(rt: &R, blank: Blank, setup: Setup) -> OverLock
    requires name { blank.name ≡ L.name }
    requires parts { blank.parts ≡ L.parts }
    requires one_each { blank.parts ≡ setup.workers }
{
    let workers = usize::from(setup.workers);
    let (pool, shares) = LockPool::<L>::new(rt.alloc(), blank, workers)?;
    let test_pool = LockTestPool {
        rt,
        pool: &pool,
        shares: Mutex::new(shares),
    };
    let seen = run_over(rt, &test_pool, setup.scenario);
    let shares = test_pool.shares.into_inner();
    assert!(rt; shares.len() == workers);
    let counts = pool.counts(rt);
    Ok((seen, gather(rt, &pool, shares), counts))
}

fn run_once<R: Host + Sync>(rt: &R, setup: Setup) -> OverLock {
    run::<Brand, R>(rt, Blank::new(u64::from(setup.workers)), setup)
}

/// Runs a scenario over a pool behind a lock for this many workers; once more if memory was refused.
///
/// # Errors
/// Out of memory.
pub fn over_lock<R: Host + Sync>(rt: &R, workers: u8, scenario: Scenario) -> OverLock {
    let setup = Setup { workers, scenario };
    run_once(rt, setup).or_else(|_| run_once(rt, setup))
}
