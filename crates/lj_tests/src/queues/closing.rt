//! A pool that is closed while an end waits for a result, or has fetched one of two, or before one posts.

use super::over_lock::over_lock;
use super::over_queue::over_queue;
use super::room::{Answer, post_last};
use super::scenario::{Scenario, Seen};
use super::test_pool::{Host, TestPool, TestWorkers, beside_worker};
use super::{LAST, all_left, await_last, check_both, check_queue, close_late, posting_end};
use crate::sample_task::task;
use lj_pool::Pool;
use std::process::Abort;
use std::test::Fail;
use std::thread;

const USER: u8 = 7;

/// Another user.
const OTHER: u8 = 9;

/// Posts a task that nobody computes, and waits for its result. Returns whether none came, and the end is closed.
fn wait_in_vain<P: Pool, R: Abort>(rt: &R, end: &mut P) -> bool {
    if end.room() == 0 || end.post(task(rt, USER, 0), false).is_err() || end.owed() == 0 {
        return false;
    }
    end.fetch(USER).is_none() && end.closed()
}

/// Does the same while the pool is closed.
fn wait_until_closed<S: TestWorkers<R> + Sync, P: Pool, R: Host + Sync>(
    rt: &R,
    test_pool: &S,
    end: &mut P,
) -> bool {
    let ((), is_closed) = thread::join(
        rt,
        move || close_late(rt, test_pool),
        || wait_in_vain(rt, end),
    );
    is_closed
}

/// Waits for a result by an end until the pool is closed. Returns whether none came, and the end is closed.
pub fn end_in_vain<S: TestPool<R> + Sync, R: Host + Sync>(rt: &R, test_pool: &S) -> bool {
    let mut end = test_pool.end(rt, USER);
    let is_closed = wait_until_closed(rt, test_pool, &mut end);
    test_pool.leave(rt, end);
    is_closed
}

#[test]
fn who_waits_for_a_result_is_told_of_a_closed_pool(rt: HostRuntime) -> Result<(), Fail> {
    let expected = (Seen::Right(true), 0, all_left(1));
    check_queue(&rt, 0, Scenario::InVain, expected)
}

#[test]
fn who_waits_for_a_result_is_told_of_a_closed_book(rt: HostRuntime) -> Result<(), Fail> {
    let (seen, _, _) = over_lock(&rt, 1, Scenario::InVain)?;
    assert_eq!(rt; seen, Seen::Right(true));
    Ok(())
}

/// Polls over a closed pool, and then fetches. Returns whether nothing came, and the task is still owed.
fn poll_then_fetch<P: Pool>(end: &mut P) -> bool {
    end.poll(USER).is_none() && end.owed() == 1 && end.fetch(USER).is_none() && end.closed()
}

/// Fetches over a closed pool, and then polls. Returns whether nothing came, and the task is still owed.
fn fetch_then_poll<P: Pool>(end: &mut P) -> bool {
    end.owed() == 1 && end.fetch(OTHER).is_none() && end.closed() && end.poll(OTHER).is_none()
}

/// Lets two ends each fetch one of two results, so that the other one is in hand, and closes the pool. Returns whether neither
/// result in hand comes any more.
fn drop_in_hand<S: TestPool<R>, R: Host>(rt: &R, test_pool: &S) -> bool {
    let mut end = posting_end(rt, test_pool, USER, 2);
    let mut other = posting_end(rt, test_pool, OTHER, 2);
    await_last(rt, test_pool);
    let first_came = end.poll(USER).is_some() && other.poll(OTHER).is_some();
    test_pool.close(rt);
    let are_dropped = poll_then_fetch(&mut end) && fetch_then_poll(&mut other);
    test_pool.leave(rt, end);
    test_pool.leave(rt, other);
    first_came && are_dropped
}

/// Closes the pool while ends have results in hand. Returns whether these do not come any more.
pub fn close_in_hand<S: TestPool<R> + Sync, R: Host + Sync>(rt: &R, test_pool: &S) -> bool {
    beside_worker(rt, test_pool, &(), move || drop_in_hand(rt, test_pool))
}

#[test]
fn results_in_hand_do_not_outlive_the_pool(rt: HostRuntime) -> Result<(), Fail> {
    let (seen, given, _) = over_queue(&rt, 1, Scenario::InHand)?;
    assert_eq!(rt; (seen, given), (Seen::Right(true), 5));
    Ok(())
}

/// The result that came before the close is still the last one of each end.
#[test]
fn no_result_outlives_a_pool_behind_a_lock(rt: HostRuntime) -> Result<(), Fail> {
    let (seen, given, _) = over_lock(&rt, 1, Scenario::InHand)?;
    assert_eq!(rt; (seen, given), (Seen::Right(true), 5));
    Ok(())
}

/// Posts over a closed pool, by an end from before the close and by a new one, each without waiting and with it.
pub fn post_after_close<S: TestPool<R>, R: Host>(rt: &R, test_pool: &S) -> [Answer; 4] {
    let mut present = test_pool.end(rt, LAST);
    test_pool.close(rt);
    let mut new = test_pool.end(rt, LAST);
    let answers = [
        post_last(rt, &mut present, false),
        post_last(rt, &mut present, true),
        post_last(rt, &mut new, false),
        post_last(rt, &mut new, true),
    ];
    test_pool.leave(rt, present);
    test_pool.leave(rt, new);
    answers
}

#[test]
fn nothing_is_posted_to_a_closed_pool(rt: HostRuntime) -> Result<(), Fail> {
    let expected = Seen::Answers([Answer::Closed; 4]);
    check_both(&rt, 1, Scenario::AfterClose, (expected, 0))
}
