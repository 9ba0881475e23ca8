//! What scenarios are run over: a pool of either kind, whose ends and workers come and go.
ghost use Rattle.std.specs.Prelude.{◌≡◌, []};

use lj_book::Counts;
use lj_pool::{Gate, Pool};
use std::alloc::AllocGlobal;
use std::io::{Read, Write};
use std::process::Abort;
use std::rt::Clock;
use std::sync::Wait;
use std::thread;
use std::thread::Threads;

/// What a test has: memory, threads that wait, a clock, and leave to stop.
pub trait Host: AllocGlobal + Threads + Wait + Clock + Abort {}

impl<R: AllocGlobal + Threads + Wait + Clock + Abort> Host for R {}

/// What a worker did.
#[derive(Clone, Copy, PartialEq, Eq, Debug)]
pub struct Worked {
    /// The number of results credited to its share since it began: a late worker may have the share of one that has ended.
    pub credited: u64,
    /// The number of its pass, if the pool has passes.
    pub pass: Option<usize>,
}

/// A pool, and what its workers need. It may be used by several threads, whatever its ends are.
pub trait TestWorkers<R: Host> {
    /// Serves the input of a user with the usual quota over an end of the pool, and returns the output.
    fn serve_user<I: Read + Drop, W: Write + Drop>(
        &self,
        rt: &R,
        user: u8,
        input: I,
        output: W,
    ) -> W;

    /// Computes tasks, as a worker does, until the pool is closed.
    fn work<G: Gate>(&self, rt: &R, gate: &G) -> Worked;

    /// Drops what the pool has of a user.
    fn withdraw(&self, rt: &R, user: u8);

    /// Closes the pool.
    fn close(&self, rt: &R);

    /// Returns the counts of its book, if it has one.
    fn counts(&self, rt: &R) -> Option<Counts>;
}

/// A pool, and what its ends and workers need.
pub trait TestPool<R: Host>: TestWorkers<R> {
    type TestEnd: Pool + Send + Drop;

    /// Makes an end for a user.
    fn end(&self, rt: &R, user: u8) -> Self::TestEnd
        ensures { (Self.TestEnd.seen result).owed ≡ [] };

    /// Takes back what an end needed, and returns the number of its pass, if the pool has passes.
    fn leave(&self, rt: &R, end: Self::TestEnd) -> Option<usize>;
}

/// Calls a function beside a worker, and then closes the pool.
pub fn beside_worker<S: TestWorkers<R> + Sync, G: Gate + Sync, A, F: FnOnce() -> A, R: Host + Sync>(
    rt: &R,
    test_pool: &S,
    gate: &G,
    part: F,
) -> A
    requires { F.IsAlwaysCallable part }
{
    let (_, seen) = thread::join(
        rt,
        move || test_pool.work(rt, gate),
        move || {
            let seen = part();
            test_pool.close(rt);
            seen
        },
    );
    seen
}

/// Computes tasks by two workers until the pool is closed, and returns what both did.
pub fn work_both<S: TestWorkers<R> + Sync, G: Gate + Sync, R: Host + Sync>(
    rt: &R,
    test_pool: &S,
    gate: &G,
) -> (Worked, Worked) {
    thread::join(
        rt,
        move || test_pool.work(rt, gate),
        move || test_pool.work(rt, gate),
    )
}
