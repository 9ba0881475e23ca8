//! A user that is withdrawn while its neighbour has results that were not fetched, over both pools.

use super::over_lock::over_lock;
use super::over_queue::over_queue;
use super::scenario::{Scenario, Seen};
use super::test_pool::{Host, TestPool, beside_worker};
use super::{await_last, post_one, posting_end};
use crate::sample_task::task;
use lj_book::Counts;
use lj_pool::Pool;
use std::process::Abort;
use std::test::Fail;

/// The user that is withdrawn, and how many tasks it posts.
const GONE: u8 = 6;

const GONE_TASKS: i64 = 20;

/// The number of them in hand over a book once the first one was handed out.
const IN_HAND: i64 = 16;

/// The number of tasks that it posts once it has those in hand.
const MORE_TASKS: i64 = 2;

/// Its neighbour.
const NEIGHBOUR: u8 = 5;

const NEIGHBOUR_TASKS: i64 = 3;

/// How many results came.
#[derive(Clone, Copy, PartialEq, Eq, Debug)]
pub struct Left {
    /// Of the user that is withdrawn, before that and afterwards.
    before: i64,
    after: i64,
    neighbour: i64,
}

const EXPECTED: Left = Left {
    before: 1,
    after: 0,
    neighbour: NEIGHBOUR_TASKS,
};

/// Polls for the results of a user's tasks at these steps, the last one not included. Returns how many came, in order.
fn count_polled<P: Pool, R: Abort>(rt: &R, end: &mut P, user: u8, steps: (i64, i64)) -> i64 {
    let mut count = 0_i64;
    for step in steps.0..steps.1 {
        match end.poll(user) {
            Some(done) if done.task().is(&task(rt, user, step)) => count = count.saturating_add(1),
            _ => return count,
        }
    }
    count
}

/// Withdraws a user once all results were given, when its end has some of them in hand: these are still handed out. The
/// neighbour's end also posts a task of that user, whose result does not come.
fn leave_with_end<S: TestPool<R>, R: Host>(rt: &R, test_pool: &S) -> Left {
    let mut gone = posting_end(rt, test_pool, GONE, GONE_TASKS);
    let mut neighbour = posting_end(rt, test_pool, NEIGHBOUR, NEIGHBOUR_TASKS);
    post_one(rt, &mut neighbour, task(rt, GONE, GONE_TASKS));
    await_last(rt, test_pool);
    let before = count_polled(rt, &mut gone, GONE, (0, 1));
    for step in GONE_TASKS..GONE_TASKS + MORE_TASKS {
        post_one(rt, &mut gone, task(rt, GONE, step));
    }
    await_last(rt, test_pool);
    test_pool.withdraw(rt, GONE);
    let after = count_polled(rt, &mut gone, GONE, (1, GONE_TASKS + MORE_TASKS));
    let kept = count_polled(rt, &mut neighbour, NEIGHBOUR, (0, NEIGHBOUR_TASKS + 1));
    test_pool.leave(rt, gone);
    test_pool.leave(rt, neighbour);
    Left {
        before,
        after,
        neighbour: kept,
    }
}

/// Withdraws a user beside a worker, and then closes the pool.
pub fn withdraw_with_end<S: TestPool<R> + Sync, R: Host + Sync>(rt: &R, test_pool: &S) -> Left {
    beside_worker(rt, test_pool, &(), move || leave_with_end(rt, test_pool))
}

/// All results are kept except that of the task that another user's end posted. Those in hand come, and the two that the pool had
/// do not.
#[test]
fn a_withdrawal_over_a_queue_leaves_the_neighbour(rt: HostRuntime) -> Result<(), Fail> {
    let (seen, given, _) = over_queue(&rt, 1, Scenario::WithEnd)?;
    let expected = Left {
        after: GONE_TASKS - 1,
        ..EXPECTED
    };
    assert_eq!(rt; (seen, given), (Seen::WithEnd(expected), 27));
    Ok(())
}

/// The results in hand come, and those in the book do not.
#[test]
fn a_withdrawal_over_a_book_leaves_what_is_in_hand(rt: HostRuntime) -> Result<(), Fail> {
    let (seen, _, _) = over_lock(&rt, 1, Scenario::WithEnd)?;
    let expected = Left {
        after: IN_HAND,
        ..EXPECTED
    };
    assert_eq!(rt; seen, Seen::WithEnd(expected));
    Ok(())
}

/// What came, and the counts of the book while the entries of the end that is gone were there, and after they were withdrawn.
pub type LeftAndCounts = (Left, Option<Counts>, Option<Counts>);

/// Withdraws a user whose end is gone, once all results were given. Those that it had in hand are dropped with it.
fn leave_without_end<S: TestPool<R>, R: Host>(rt: &R, test_pool: &S) -> LeftAndCounts {
    let mut gone = posting_end(rt, test_pool, GONE, GONE_TASKS);
    let mut neighbour = posting_end(rt, test_pool, NEIGHBOUR, NEIGHBOUR_TASKS);
    await_last(rt, test_pool);
    let before = count_polled(rt, &mut gone, GONE, (0, 1));
    test_pool.leave(rt, gone);
    let standing = test_pool.counts(rt);
    test_pool.withdraw(rt, GONE);
    let withdrawn = test_pool.counts(rt);
    let mut next = test_pool.end(rt, GONE);
    let left = Left {
        before,
        after: count_polled(rt, &mut next, GONE, (1, GONE_TASKS)),
        neighbour: count_polled(rt, &mut neighbour, NEIGHBOUR, (0, NEIGHBOUR_TASKS + 1)),
    };
    test_pool.leave(rt, next);
    test_pool.leave(rt, neighbour);
    (left, standing, withdrawn)
}

/// Withdraws a user whose end is gone beside a worker, and then closes the pool.
pub fn withdraw_without_end<S: TestPool<R> + Sync, R: Host + Sync>(
    rt: &R,
    test_pool: &S,
) -> LeftAndCounts {
    beside_worker(rt, test_pool, &(), move || leave_without_end(rt, test_pool))
}

/// An entry stays until it is fetched or withdrawn, also that of an end that is gone. With the first result those that are then
/// in hand are fetched.
#[test]
fn a_withdrawal_over_a_book_leaves_the_neighbour(rt: HostRuntime) -> Result<(), Fail> {
    let (seen, _, _) = over_lock(&rt, 1, Scenario::WithoutEnd)?;
    let standing = Counts {
        posted: 24,
        given: 24,
        fetched: 18,
        withdrawn: 0,
        entries: 6,
    };
    let withdrawn = Counts {
        withdrawn: 3,
        entries: 3,
        ..standing
    };
    let expected = (EXPECTED, Some(standing), Some(withdrawn));
    assert_eq!(rt; seen, Seen::WithoutEnd(expected));
    Ok(())
}
