//! Ends that are gone: results of their tasks are dropped, and their passes go on.

use super::scenario::{Scenario, Seen};
use super::test_pool::{Host, TestPool, TestWorkers};
use super::{all_popped, check_queue, posting_end};
use lj_pool::Gate;
use lj_tile::TaskName;
use std::sync::atomic::{AtomicUsize, Ordering};
use std::test::Fail;

/// A gate that closes the pool at the last of a number of tasks.
#[derive(Drop)]
struct Last<'a, S, R> {
    rt: &'a R,
    test_pool: &'a S,
    left: AtomicUsize,
}

impl<S: TestWorkers<R>, R: Host> Gate for Last<'_, S, R> {
    fn between(&self, _name: &TaskName) {
        if self.left.fetch_sub(1, Ordering::SeqCst) == 1 {
            self.test_pool.close(self.rt);
        }
    }
}

/// The number of results in the worker's share, and the numbers of the passes that came back, of the three ends and of the
/// worker. They are taken from the last one on.
pub type CreditAndPasses = (u64, [Option<usize>; 4]);

/// Lets one end post three tasks, another post two in its place, and a third one post four and be withdrawn. A worker computes
/// all nine.
pub fn compute_nine<S: TestPool<R>, R: Host>(rt: &R, test_pool: &S) -> CreditAndPasses {
    let gone = posting_end(rt, test_pool, 5, 3);
    let present = posting_end(rt, test_pool, 5, 2);
    let withdrawn = posting_end(rt, test_pool, 6, 4);
    test_pool.withdraw(rt, 6);
    let gate = Last {
        rt,
        test_pool,
        left: AtomicUsize::new(9),
    };
    let worked = test_pool.work(rt, &gate);
    let numbers = [
        test_pool.leave(rt, gone),
        test_pool.leave(rt, present),
        test_pool.leave(rt, withdrawn),
        worked.pass,
    ];
    (worked.credited, numbers)
}

/// Of nine results the two are kept that are for an end that is not gone.
#[test]
fn results_for_ends_that_are_gone_are_dropped(rt: HostRuntime) -> Result<(), Fail> {
    let kept = (2, [Some(64), Some(63), Some(62), Some(61)]);
    let expected = (Seen::Nine(kept), 2, all_popped(9));
    check_queue(&rt, 1, Scenario::Nine, expected)
}
