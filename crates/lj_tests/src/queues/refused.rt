//! Posts that are refused, over both pools: however many they are, the pool has as much room afterwards.

use super::barrier::Barrier;
use super::over_lock::over_lock;
use super::over_queue::over_queue;
use super::room::{Answer, ENDS, fill, post_last};
use super::scenario::{Scenario, Seen};
use super::test_pool::{Host, TestPool, TestWorkers};
use super::{LAST, leave_all};
use crate::sample_task::task;
use lj_pool::{MAX_OWED, Pool};
use std::alloc::AllocError;
use std::process::Abort;
use std::test::Fail;
use std::thread;

/// What came of the posts.
#[derive(Clone, Copy, PartialEq, Eq, Debug)]
pub struct RefusalCounts {
    /// The number of posts that found no room.
    refused: u64,
    /// The answer to one more while a worker had taken a task, and given no result.
    beside_taken: Answer,
    /// The number of results that came once the worker went on.
    fetched: u64,
    /// The number of tasks that found room when there were no others.
    posted: u64,
}

/// The number of posts that are refused: more than a pool has places.
const REFUSED: u64 = 1100;

/// Posts again and again where there is no room, and returns how many posts were refused.
fn post_in_vain<P: Pool, R: Abort>(rt: &R, last: &mut P) -> u64 {
    let mut refused = 0_u64;
    for _ in 0..REFUSED {
        if post_last(rt, last, false) == Answer::Full {
            refused = refused.saturating_add(1);
        }
    }
    refused
}

/// Fetches all that is owed to the end of a user, and returns how many results came.
fn fetch_owed<P: Pool>(end: &mut P, user: u8) -> u64 {
    let mut fetched = 0_u64;
    for _ in 0..MAX_OWED {
        if end.owed() > 0 && end.fetch(user).is_some() {
            fetched = fetched.saturating_add(1);
        }
    }
    fetched
}

/// Fetches all that is owed to ends, and returns how many results came.
fn fetch_all<P: Pool>(ends: &mut Vec<P>) -> u64 {
    let mut fetched = 0_u64;
    for user in 0..ENDS {
        if let Some(end) = ends.get_mut(usize::from(user)) {
            fetched = fetched.saturating_add(fetch_owed(end, user));
        }
    }
    fetched
}

/// Posts as many tasks of a user as may be owed, without waiting, and returns how many found room.
fn post_some<P: Pool, R: Abort>(rt: &R, end: &mut P, user: u8) -> u64 {
    let mut posted = 0_u64;
    for _ in 0..MAX_OWED {
        if end.room() > 0 && end.post(task(rt, user, 0), false).is_ok() {
            posted = posted.saturating_add(1);
        }
    }
    posted
}

/// Posts tasks by each end without waiting, and returns how many found room.
fn post_all<P: Pool, R: Abort>(rt: &R, ends: &mut Vec<P>) -> u64 {
    let mut posted = 0_u64;
    for user in 0..ENDS {
        if let Some(end) = ends.get_mut(usize::from(user)) {
            posted = posted.saturating_add(post_some(rt, end, user));
        }
    }
    posted
}

/// Posts one more task while the first one is held, fetches the results of all, posts as many again while at most one of these is
/// held, and closes the pool.
fn go_on<S: TestWorkers<R>, P: Pool, R: Host>(
    rt: &R,
    test_pool: &S,
    barrier: &Barrier<'_, R>,
    ends: &mut Vec<P>,
    last: &mut P,
) -> RefusalCounts {
    barrier.has_come();
    let beside_taken = post_last(rt, last, false);
    barrier.set_open(true);
    let fetched = fetch_all(ends).saturating_add(fetch_owed(last, LAST));
    barrier.set_open(false);
    let posted = post_all(rt, ends);
    test_pool.close(rt);
    barrier.set_open(true);
    RefusalCounts {
        refused: 0,
        beside_taken,
        fetched,
        posted,
    }
}

/// Does this beside a worker.
fn go_on_beside_worker<S: TestWorkers<R> + Sync, P: Pool, R: Host + Sync>(
    rt: &R,
    test_pool: &S,
    barrier: &Barrier<'_, R>,
    ends: &mut Vec<P>,
    last: &mut P,
) -> RefusalCounts {
    let (_, counts) = thread::join(
        rt,
        move || test_pool.work(rt, barrier),
        || go_on(rt, test_pool, barrier, ends, last),
    );
    counts
}

/// Lets a full pool refuse many posts. Then a worker comes.
///
/// # Errors
/// Out of memory.
pub fn refuse_many<S: TestPool<R> + Sync, R: Host + Sync>(
    rt: &R,
    test_pool: &S,
) -> Result<RefusalCounts, AllocError> {
    let mut ends = fill(rt, test_pool)?;
    let mut last = test_pool.end(rt, LAST);
    let refused = post_in_vain(rt, &mut last);
    let barrier = Barrier::new(rt);
    let counts = go_on_beside_worker(rt, test_pool, &barrier, &mut ends, &mut last);
    test_pool.leave(rt, last);
    leave_all(rt, test_pool, ends);
    Ok(RefusalCounts { refused, ..counts })
}

/// What is seen where all posts are refused but for one beside a task that is taken, which has this answer.
fn expected(beside_taken: Answer, fetched: u64) -> Seen {
    Seen::Refused(Ok(RefusalCounts {
        refused: REFUSED,
        beside_taken,
        fetched,
        posted: 1024,
    }))
}

/// A task that is taken keeps its place in the book until its result is fetched.
#[test]
fn no_room_of_a_book_is_lost_by_refused_posts(rt: HostRuntime) -> Result<(), Fail> {
    let (seen, _, counts) = over_lock(&rt, 1, Scenario::Refused)?;
    assert_eq!(rt; (seen, counts.posted), (expected(Answer::Full, 1024), 2048));
    Ok(())
}

/// A task that is taken frees its place in the queue.
#[test]
fn no_room_of_a_queue_is_lost_by_refused_posts(rt: HostRuntime) -> Result<(), Fail> {
    let (seen, _, settled) = over_queue(&rt, 1, Scenario::Refused)?;
    assert_eq!(rt;
        (seen, settled.pushed),
        (expected(Answer::Posted, 1025), 2049)
    );
    Ok(())
}
