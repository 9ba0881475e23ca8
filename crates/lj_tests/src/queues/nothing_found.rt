//! Fetches and polls that find nothing over an open pool of either kind: the end does not take that for a close.

use super::scenario::{Scenario, Seen};
use super::test_pool::{Host, TestPool, TestWorkers};
use super::{check_both, post_one, sleep_a_while};
use crate::sample_task::task;
use lj_pool::Pool;
use std::process::Abort;
use std::test::Fail;
use std::thread;

const USER: u8 = 7;

/// Polls where nothing is there. Returns whether nothing came, and the end has not seen the pool closed.
fn poll_nothing<P: Pool>(end: &mut P) -> bool {
    end.poll(USER).is_none() && !end.closed()
}

/// Fetches the result of the task that is owed, and polls once more. Returns whether it came, and the end has not seen the pool
/// closed.
fn fetch_one<P: Pool, R: Abort>(rt: &R, end: &mut P) -> bool {
    if end.owed() == 0 {
        return false;
    }
    let came = end
        .fetch(USER)
        .is_some_and(|done| done.task().is(&task(rt, USER, 0)));
    came && !end.closed() && poll_nothing(end)
}

/// Fetches a result before it is computed, by a worker that comes after a while.
fn fetch_early<S: TestWorkers<R> + Sync, P: Pool, R: Host + Sync>(
    rt: &R,
    test_pool: &S,
    end: &mut P,
) -> bool {
    let (_, came) = thread::join(
        rt,
        move || {
            sleep_a_while(rt);
            test_pool.work(rt, &())
        },
        || {
            let came = fetch_one(rt, end);
            test_pool.close(rt);
            came
        },
    );
    came
}

/// Polls by an end while nothing is owed to it, and while there is no worker. Then fetches until a result comes.
pub fn find_nothing<S: TestPool<R> + Sync, R: Host + Sync>(rt: &R, test_pool: &S) -> bool {
    let mut end = test_pool.end(rt, USER);
    let none_owed = poll_nothing(&mut end);
    post_one(rt, &mut end, task(rt, USER, 0));
    let none_computed = poll_nothing(&mut end);
    let came = fetch_early(rt, test_pool, &mut end);
    test_pool.leave(rt, end);
    none_owed && none_computed && came
}

#[test]
fn who_finds_nothing_is_told_of_no_close(rt: HostRuntime) -> Result<(), Fail> {
    check_both(&rt, 1, Scenario::NothingFound, (Seen::Right(true), 1))
}
