//! Ends that are full: they take as many tasks as may be owed, each at once, over all pools.

use super::scenario::{Scenario, Seen};
use super::test_pool::{Host, TestPool};
use super::{check_both, post_some};
use lj_pool::{InlinePool, Pool};
use lj_table::Table;
use std::process::Abort;
use std::test::Fail;

const USER: u8 = 9;

/// The state of an end that was given tasks without waiting.
#[derive(Clone, Copy, PartialEq, Eq, Debug)]
pub struct Given {
    owed: usize,
    full: bool,
}

/// Posts this many tasks without waiting.
fn give<P: Pool, R: Abort>(rt: &R, end: &mut P, tasks: i64) -> Given {
    post_some(rt, end, USER, tasks);
    Given {
        owed: end.owed(),
        full: end.room() == 0,
    }
}

/// Returns the state of an end after this many tasks, and after one more.
fn give_twice<P: Pool, R: Abort>(rt: &R, end: &mut P, tasks: i64) -> [Given; 2] {
    [give(rt, end, tasks), give(rt, end, 1)]
}

/// Gives an end 63 tasks, and one more.
pub fn fill_end<S: TestPool<R>, R: Host>(rt: &R, test_pool: &S) -> [Given; 2] {
    let mut end = test_pool.end(rt, USER);
    let given = give_twice(rt, &mut end, 63);
    test_pool.leave(rt, end);
    given
}

/// 63 tasks are owed with room for one more, and 64 are all.
const SIXTY_FOUR: [Given; 2] = [
    Given {
        owed: 63,
        full: false,
    },
    Given {
        owed: 64,
        full: true,
    },
];

#[test]
fn an_end_takes_sixty_four_tasks(rt: HostRuntime) -> Result<(), Fail> {
    check_both(&rt, 1, Scenario::Filling, (Seen::Filled(SIXTY_FOUR), 64))
}

#[test]
fn a_pool_of_no_threads_takes_one_task(rt: HostRuntime) {
    let given = give_twice(&rt, &mut InlinePool::new(Table::new()), 0);
    let one = [
        Given {
            owed: 0,
            full: false,
        },
        Given {
            owed: 1,
            full: true,
        },
    ];
    assert_eq!(rt; given, one);
}
