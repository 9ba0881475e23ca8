//! Ends that poll, over both pools: a poll does not wait for a result, a sleeping worker is woken for the task, and the end does
//! not note that the pool is closed.

use super::scenario::{Scenario, Seen};
use super::test_pool::{Host, TestPool, TestWorkers, beside_worker};
use super::{check_both, post_one, sleep_a_while};
use crate::sample_task::task;
use lj_pool::Pool;
use std::process::Abort;
use std::rt::Clock;
use std::test::Fail;
use std::thread;
use std::time::Duration;

/// Maximum number of polls for a result.
const POLLS: u64 = 200_000;

/// The microseconds until the next poll.
const POLL_MICROS: u64 = 20;

const USER: u8 = 7;

/// Polls until a result comes. Returns whether it is that of the user's task at this step.
fn poll_for<P: Pool, R: Clock + Abort>(rt: &R, end: &mut P, step: i64) -> bool {
    for _ in 0..POLLS {
        if let Some(done) = end.poll(USER) {
            return done.task().is(&task(rt, USER, step));
        }
        thread::sleep(rt, Duration::from_micros(POLL_MICROS));
    }
    false
}

/// Posts a task that nobody computes yet. Returns whether nothing came of it.
fn post_first<P: Pool, R: Abort>(rt: &R, end: &mut P) -> bool {
    post_one(rt, end, task(rt, USER, 0));
    end.poll(USER).is_none() && end.owed() == 1
}

/// Polls for its result, and for that of a second task that is posted while the worker sleeps. Posts a third one. Returns whether
/// both came.
fn poll_for_both<P: Pool, R: Clock + Abort>(rt: &R, end: &mut P) -> bool {
    let first_came = poll_for(rt, end, 0);
    sleep_a_while(rt);
    post_one(rt, end, task(rt, USER, 1));
    let second_came = poll_for(rt, end, 1);
    post_one(rt, end, task(rt, USER, 2));
    first_came && second_came
}

/// Does the same beside a worker, and then closes the pool.
fn poll_beside<S: TestWorkers<R> + Sync, P: Pool, R: Host + Sync>(
    rt: &R,
    test_pool: &S,
    end: &mut P,
) -> bool {
    beside_worker(rt, test_pool, &(), || poll_for_both(rt, end))
}

/// Polls over a closed pool. Returns whether nothing came, the third task is still owed, and the end has not noted the close.
fn poll_closed<P: Pool>(end: &mut P) -> bool {
    end.poll(USER).is_none() && end.owed() == 1 && !end.closed()
}

/// Polls by an end while there is no worker, beside one, and once the pool is closed. Returns whether only the results beside the
/// worker came.
pub fn poll_in_turn<S: TestPool<R> + Sync, R: Host + Sync>(rt: &R, test_pool: &S) -> bool {
    let mut end = test_pool.end(rt, USER);
    let none_at_first = post_first(rt, &mut end);
    let both_came = poll_beside(rt, test_pool, &mut end);
    let none_of_closed = poll_closed(&mut end);
    test_pool.leave(rt, end);
    none_at_first && both_came && none_of_closed
}

#[test]
fn polls_do_not_wait(rt: HostRuntime) -> Result<(), Fail> {
    check_both(&rt, 1, Scenario::Polling, (Seen::Right(true), 3))
}
