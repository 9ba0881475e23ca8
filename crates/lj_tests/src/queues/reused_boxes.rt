//! Boxes over a queue: whatever becomes of results, their boxes are used for other tasks.

use super::over_queue::over_queue;
use super::scenario::{Scenario, Seen};
use super::test_pool::{Host, TestPool, beside_worker};
use super::{await_last, post_some};
use lj_pool::Pool;
use std::test::Fail;

/// The number of ends that come one after another. Together they post more tasks than a pool has boxes.
const ROUNDS: u64 = 90;

/// The number of tasks that each of them posts.
const TASKS: i64 = 64;

const USER: u8 = 6;

/// Another user.
const OTHER: u8 = 5;

/// What becomes of the results of an end's tasks, once all were given.
#[derive(Clone, Copy)]
pub enum Fate {
    HandedOut,
    /// The tasks are another user's.
    Refused,
    Withdrawn,
    /// They are dropped as the next end comes.
    Replaced,
    /// The end has them in hand as it finishes.
    InHand,
}

/// Polls this many times, and returns how many results came.
fn count_polled<P: Pool>(end: &mut P, times: i64) -> i64 {
    let mut count = 0_i64;
    for _ in 0..times {
        if end.poll(USER).is_some() {
            count = count.saturating_add(1);
        }
    }
    count
}

impl Fate {
    /// Posts tasks by an end, and lets this become of their results. Returns whether all were computed, and the expected ones
    /// came.
    fn befall<S: TestPool<R>, R: Host>(self, rt: &R, test_pool: &S) -> bool {
        let owner = match self {
            Fate::Refused => OTHER,
            _ => USER,
        };
        let polled = match self {
            Fate::HandedOut => TASKS,
            Fate::InHand => 1,
            _ => 0,
        };
        let mut end = test_pool.end(rt, USER);
        post_some(rt, &mut end, owner, TASKS);
        await_last(rt, test_pool);
        let is_right = count_polled(&mut end, polled) == polled;
        if matches!(self, Fate::Withdrawn) {
            test_pool.withdraw(rt, USER);
        }
        test_pool.leave(rt, end);
        is_right
    }

    /// Returns whether that holds for one end after another.
    fn befall_all<S: TestPool<R>, R: Host>(self, rt: &R, test_pool: &S) -> bool {
        for _ in 0..ROUNDS {
            if !self.befall(rt, test_pool) {
                return false;
            }
        }
        true
    }

    /// Lets ends come one after another beside a worker, and then closes the pool. Returns whether each was right.
    pub fn run<S: TestPool<R> + Sync, R: Host + Sync>(self, rt: &R, test_pool: &S) -> bool {
        beside_worker(rt, test_pool, &(), move || self.befall_all(rt, test_pool))
    }
}

#[test]
fn boxes_of_results_that_are_handed_out_serve_other_tasks(rt: HostRuntime) -> Result<(), Fail> {
    let (seen, _, _) = over_queue(&rt, 1, Scenario::Boxes(Fate::HandedOut))?;
    assert_eq!(rt; seen, Seen::Right(true));
    Ok(())
}

#[test]
fn boxes_of_results_that_are_refused_serve_other_tasks(rt: HostRuntime) -> Result<(), Fail> {
    let (seen, _, _) = over_queue(&rt, 1, Scenario::Boxes(Fate::Refused))?;
    assert_eq!(rt; seen, Seen::Right(true));
    Ok(())
}

#[test]
fn boxes_of_results_that_are_dropped_serve_other_tasks(rt: HostRuntime) -> Result<(), Fail> {
    for fate in [Fate::Withdrawn, Fate::Replaced, Fate::InHand] {
        let (seen, _, _) = over_queue(&rt, 1, Scenario::Boxes(fate))?;
        assert_eq!(rt; seen, Seen::Right(true));
    }
    Ok(())
}
