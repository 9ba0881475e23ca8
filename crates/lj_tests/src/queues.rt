//! Tests of the pools: full ends, a full pool, tasks posted together, refused posts, a closed pool, ends that are gone, a user
//! that is withdrawn, ends that find nothing or poll, tasks taken round robin or sent back by a gate, work ahead of the next
//! command, sessions computed at once, and boxes that are used again.
ghost use Rattle.std.specs.Prelude.{◌≡◌, []};

mod ahead;
mod barrier;
mod closing;
mod departed_ends;
mod filled;
mod handed_back;
mod in_turn;
mod nothing_found;
mod over_lock;
mod over_queue;
mod polling;
mod refused;
mod reused_boxes;
mod room;
mod scenario;
mod side_by_side;
mod test_pool;
mod together;
mod withdrawn;

use crate::sample_task::task;
use lj_book::Counts;
use lj_pool::{Pool, PoolEnd, serve};
use lj_queue::Settled;
use lj_quota::Quota;
use lj_session::UserState;
use lj_tile::Task;
use lj_wire::{Reading, Writing};
use over_lock::over_lock;
use over_queue::over_queue;
use scenario::{Scenario, Seen};
use std::io::{Read, Write};
use std::process::Abort;
use std::rt::Clock;
use std::sync::atomic::{AtomicU64, Ordering};
use std::test::Fail;
use std::time::Duration;
use std::{io, thread};
use test_pool::{Host, TestPool, TestWorkers};

/// The user who comes last.
const LAST: u8 = 16;

/// The milliseconds that a thread sleeps before it does what another waits for.
const LATE_MILLIS: u64 = 20;

/// Maximum number of checks of a gate before it lets a task pass.
const TURNS: u64 = 3_000_000;

/// The microseconds that it waits after each check, so that other threads get on.
const TURN_MICROS: u64 = 20;

/// Asserts what is seen of a scenario over a pool behind a lock and over one with a queue, and how many tasks are posted to each.
///
/// # Errors
/// Out of memory.
fn check_both<R: Host + Sync>(
    rt: &R,
    workers: u8,
    scenario: Scenario,
    expected: (Seen, u64),
) -> Result<(), Fail> {
    let (seen, _, counts) = over_lock(rt, workers, scenario)?;
    assert_eq!(rt; (seen, counts.posted), expected);
    let (seen, _, settled) = over_queue(rt, workers, scenario)?;
    assert_eq!(rt;
        (seen, settled.pushed),
        (expected.0, u128::from(expected.1))
    );
    Ok(())
}

/// Asserts what is seen of a scenario over a pool with a queue, how many results are given to it, and what its passes settle.
///
/// # Errors
/// Out of memory.
fn check_queue<R: Host + Sync>(
    rt: &R,
    workers: u8,
    scenario: Scenario,
    expected: (Seen, u64, Settled),
) -> Result<(), Fail> {
    assert_eq!(rt; over_queue(rt, workers, scenario)?, expected);
    Ok(())
}

/// Returns the counts of a book to which this many tasks were posted, none of which was taken.
fn none_taken(posted: u64) -> Counts {
    Counts {
        posted,
        given: 0,
        fetched: 0,
        withdrawn: 0,
        entries: posted,
    }
}

/// Returns the counts of a book to which this many tasks were posted, and whose results were all given and fetched.
fn all_fetched(posted: u64) -> Counts {
    Counts {
        given: posted,
        fetched: posted,
        entries: 0,
        ..none_taken(posted)
    }
}

/// Returns what this many tasks settle that were pushed, all of which were popped.
fn all_popped(pushed: u64) -> Settled {
    Settled {
        pushed: u128::from(pushed),
        popped: u128::from(pushed),
        left: 0,
    }
}

/// Returns what this many tasks settle that were pushed, none of which was popped.
fn all_left(pushed: u64) -> Settled {
    Settled {
        pushed: u128::from(pushed),
        popped: 0,
        left: pushed,
    }
}

/// Takes the next pass or share of those that a pool was made with.
fn next<T>(rt: &impl Abort, items: &mut Vec<T>) -> T {
    items.pop().expect(rt, "one more")
}

/// Puts a pass or a share back. There is room for it: it was here before.
fn put_back<T: Drop>(rt: &impl Abort, items: &mut Vec<T>, item: T) {
    let fits = items.push(item).is_ok();
    assert!(rt; fits);
}

/// Posts a task, where the end has room for it.
fn post_one<P: Pool, R: Abort>(rt: &R, end: &mut P, task: Task) {
    if end.room() == 0 {
        return;
    }
    let posted = end.post(task, false).is_ok();
    assert!(rt; posted);
}

/// Posts this many tasks, where the end has room for them.
fn post_some<P: Pool, R: Abort>(rt: &R, end: &mut P, user: u8, tasks: i64) {
    for step in 0..tasks {
        post_one(rt, end, task(rt, user, step));
    }
}

/// Makes an end for a user, and posts this many of the user's tasks.
fn posting_end<S: TestPool<R>, R: Host>(rt: &R, test_pool: &S, user: u8, tasks: i64) -> S::TestEnd {
    let mut end = test_pool.end(rt, user);
    post_some(rt, &mut end, user, tasks);
    end
}

/// Posts a task after all others, so that its result is given after theirs, and waits for that result, which has to come.
fn await_last<S: TestPool<R>, R: Host>(rt: &R, test_pool: &S) {
    let mut last = posting_end(rt, test_pool, LAST, 1);
    let came = last.owed() > 0 && last.fetch(LAST).is_some();
    assert!(rt; came);
    test_pool.leave(rt, last);
}

/// Lets ends leave.
fn leave_all<S: TestPool<R>, R: Host>(rt: &R, test_pool: &S, ends: Vec<S::TestEnd>) {
    for end in ends {
        test_pool.leave(rt, end);
    }
}

/// Serves the input of a user with the usual quota over an end of the user's, and returns the output.
fn serve_over<P: Pool, I: Read + Drop, W: Write + Drop, R: Host>(
    rt: &R,
    end: &mut P,
    user: u8,
    input: I,
    output: W,
) -> W
    requires { (P.seen end.old).owed ≡ [] }
{
    let mut writer = Writing::new(output);
    let state = UserState::new(rt.alloc(), Quota::USUAL);
    let reader = Reading::new(input);
    let (state, _, _) = serve(rt.alloc(), state, user, reader, &mut writer, end);
    drop(state);
    writer.into_inner()
}

/// Sleeps so long that others come to wait.
fn sleep_a_while<R: Clock>(rt: &R) {
    thread::sleep(rt, Duration::from_millis(LATE_MILLIS));
}

/// Closes a pool, after a while.
fn close_late<S: TestWorkers<R>, R: Host>(rt: &R, test_pool: &S) {
    sleep_a_while(rt);
    test_pool.close(rt);
}

/// Checks again and again, up to `TURNS` times, and returns whether something was counted.
fn wait_for<R: Clock>(rt: &R, count: &AtomicU64) -> bool {
    for _ in 0..TURNS {
        if count.load(Ordering::SeqCst) > 0 {
            return true;
        }
        thread::sleep(rt, Duration::from_micros(TURN_MICROS));
    }
    false
}

/// A writer that counts the replies that begin with `begins`.
#[derive(Drop)]
struct Counted<'a, W> {
    output: W,
    begins: &'a [u8],
    count: &'a AtomicU64,
}

impl<W: Write> Write for Counted<'_, W> {
    fn write(&mut self, buf: &[u8]) -> io::Result<usize> {
        let written = self.output.write(buf)?;
        if buf.starts_with(self.begins) {
            self.count.fetch_add(1, Ordering::SeqCst);
        }
        Ok(written)
    }

    fn flush(&mut self) -> io::Result<()> {
        Ok(())
    }
}
