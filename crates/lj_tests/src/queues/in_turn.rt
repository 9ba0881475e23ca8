//! The order in which tasks are taken, over both pools: round robin by their keys, and not from the least one on each time.

use super::barrier::Barrier;
use super::scenario::{Scenario, Seen};
use super::test_pool::{Host, TestPool, TestWorkers, beside_worker};
use super::{check_both, post_one};
use crate::sample_task::task;
use lj_pool::{Gate, Pool, TaskList};
use lj_tile::TaskName;
use std::process::Abort;
use std::rt::Clock;
use std::sync::Wait;
use std::sync::atomic::{AtomicU64, Ordering};
use std::test::Fail;

const USER: u8 = 7;

/// The step of the task that is held.
const HELD: i64 = 2;

/// A gate that notes which tasks pass, and holds one of them.
#[derive(Drop)]
struct Noting<'a, R> {
    /// Their steps, each a digit.
    order: AtomicU64,
    held: Barrier<'a, R>,
}

impl<R: Clock + Wait> Gate for Noting<'_, R> {
    fn between(&self, name: &TaskName) {
        let before = self.order.load(Ordering::SeqCst);
        let digit = u64::try_from(name.step).unwrap_or(0);
        let order = before.saturating_mul(10).saturating_add(digit);
        self.order.store(order, Ordering::SeqCst);
        if name.step == HELD {
            self.held.hold();
        }
    }
}

/// Whether all results came, and in which order the tasks were taken.
#[derive(Clone, Copy, PartialEq, Eq, Debug)]
pub struct Taken {
    all_came: bool,
    order: u64,
}

/// Fetches this many results, and returns whether all came.
fn fetch_some<P: Pool>(end: &mut P, results: u8) -> bool {
    for _ in 0..results {
        if end.owed() == 0 || end.fetch(USER).is_none() {
            return false;
        }
    }
    true
}

/// Fetches the first result while the second task is held, so that its key is vacant, and posts a fourth task under it. Then
/// fetches the others. Returns whether all came.
fn post_fourth<P: Pool, R: Clock + Abort>(rt: &R, held: &Barrier<'_, R>, end: &mut P) -> bool {
    let is_held = held.has_come();
    let first_came = fetch_some(end, 1);
    post_one(rt, end, task(rt, USER, 4));
    held.set_open(true);
    let others_came = fetch_some(end, 3);
    is_held && first_came && others_came
}

/// Does this beside a worker that passes a gate, and then closes the pool.
fn post_fourth_beside<S: TestWorkers<R> + Sync, P: Pool, R: Host + Sync>(
    rt: &R,
    test_pool: &S,
    gate: &Noting<'_, R>,
    end: &mut P,
) -> bool {
    beside_worker(rt, test_pool, gate, || post_fourth(rt, &gate.held, end))
}

/// Posts one task, and then two together.
fn post_three<P: Pool, R: Abort>(rt: &R, end: &mut P) {
    post_one(rt, end, task(rt, USER, 1));
    if end.owed() == 1 {
        let (second, third) = (task(rt, USER, 2), task(rt, USER, 3));
        let mut both = TaskList::new();
        both.push(second.by_ref());
        both.push(third.by_ref());
        let posted = end.post_some(&both);
        assert!(rt; posted == 2);
    }
}

/// Posts three tasks by an end, and then lets a worker come until the pool is closed.
pub fn take_in_turn<S: TestPool<R> + Sync, R: Host + Sync>(rt: &R, test_pool: &S) -> Taken {
    let mut end = test_pool.end(rt, USER);
    post_three(rt, &mut end);
    let gate = Noting {
        order: AtomicU64::new(0),
        held: Barrier::new(rt),
    };
    let all_came = post_fourth_beside(rt, test_pool, &gate, &mut end);
    test_pool.leave(rt, end);
    Taken {
        all_came,
        order: gate.order.load(Ordering::SeqCst),
    }
}

const EXPECTED: Taken = Taken {
    all_came: true,
    order: 1234,
};

/// The fourth task is under the least key of a book then, before the third one.
#[test]
fn tasks_are_taken_in_turn(rt: HostRuntime) -> Result<(), Fail> {
    check_both(&rt, 1, Scenario::InTurn, (Seen::Taken(EXPECTED), 4))
}
