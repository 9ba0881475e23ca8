//! Four tasks posted together, over both pools: only the first ones are posted where there is no room for all of them, and none
//! where there is no room or the pool is closed.

use super::room::fill_from;
use super::scenario::{Scenario, Seen};
use super::test_pool::{Host, TestPool};
use super::{LAST, check_both, leave_all};
use crate::sample_task::task;
use lj_pool::{MAX_OWED, MAX_POSTS, Pool, TaskList};
use std::alloc::AllocError;
use std::process::Abort;
use std::test::Fail;

/// The number of tasks posted, the number then owed to the end, and whether it has seen the pool closed.
#[derive(Clone, Copy, PartialEq, Eq, Debug)]
pub struct PostsOutcome {
    posted: usize,
    owed: usize,
    closed: bool,
}

/// Posts four tasks together.
fn post_four<P: Pool, R: Abort>(rt: &R, end: &mut P) -> PostsOutcome {
    let tasks = [0, 1, 2, 3].map(|step| task(rt, LAST, step));
    let has_room = end.owed() <= MAX_OWED - MAX_POSTS;
    assert!(rt; has_room);
    let mut list = TaskList::new();
    list.push(tasks[0].by_ref());
    list.push(tasks[1].by_ref());
    list.push(tasks[2].by_ref());
    list.push(tasks[3].by_ref());
    let posted = end.post_some(&list);
    PostsOutcome {
        posted,
        owed: end.owed(),
        closed: end.closed(),
    }
}

/// Posts four tasks by an end over a pool with room for two, four more over a full one, and four over a closed one.
///
/// # Errors
/// Out of memory.
pub fn post_together<S: TestPool<R>, R: Host>(
    rt: &R,
    test_pool: &S,
) -> Result<[PostsOutcome; 3], AllocError> {
    let ends = fill_from(rt, test_pool, 62)?;
    let mut last = test_pool.end(rt, LAST);
    let some = post_four(rt, &mut last);
    let none = post_four(rt, &mut last);
    test_pool.close(rt);
    let of_closed = post_four(rt, &mut last);
    test_pool.leave(rt, last);
    leave_all(rt, test_pool, ends);
    Ok([some, none, of_closed])
}

/// Two of 1,024 places were left: 62 tasks and 15 times 64 had the others.
const EXPECTED: [PostsOutcome; 3] = [
    PostsOutcome {
        posted: 2,
        owed: 2,
        closed: false,
    },
    PostsOutcome {
        posted: 0,
        owed: 2,
        closed: false,
    },
    PostsOutcome {
        posted: 0,
        owed: 2,
        closed: true,
    },
];

#[test]
fn the_first_of_four_tasks_have_the_last_places(rt: HostRuntime) -> Result<(), Fail> {
    check_both(
        &rt,
        1,
        Scenario::Together,
        (Seen::Together(Ok(EXPECTED)), 1024),
    )
}
