//! A full pool: a post that may not wait is refused, and one that waits goes on once there is room, or fails when the pool is
//! closed.

use super::over_lock::over_lock;
use super::scenario::{Scenario, Seen};
use super::test_pool::{Host, TestPool, TestWorkers};
use super::{
    LAST, all_left, all_popped, check_queue, leave_all, none_taken, posting_end, put_back,
    sleep_a_while,
};
use crate::sample_task::task;
use lj_book::Counts;
use lj_pool::{Pool, Refused};
use std::alloc::{AllocError, AllocGlobal};
use std::process::Abort;
use std::test::Fail;
use std::thread;

/// The number of ends with 64 tasks each that fill a queue or a book.
pub const ENDS: u8 = 16;

/// The answer to a post.
#[derive(Clone, Copy, PartialEq, Eq, Debug)]
pub enum Answer {
    Posted,
    /// There is no room, the task was handed back, and the end is not closed.
    Full,
    /// The pool and the end are closed, and the task was handed back.
    Closed,
    /// Another task was handed back, the end is not as its pool, or none could be posted.
    Other,
}

/// Makes ends that fill the pool, except that the first one posts only `first` tasks.
///
/// # Errors
/// Out of memory.
pub fn fill_from<S: TestPool<R>, R: Host>(
    rt: &R,
    test_pool: &S,
    first: i64,
) -> Result<Vec<S::TestEnd>, AllocError> {
    let mut ends = Vec::with_capacity(rt.alloc(), usize::from(ENDS))?;
    for user in 0..ENDS {
        let tasks = if user == 0 { first } else { 64 };
        put_back(rt, &mut ends, posting_end(rt, test_pool, user, tasks));
    }
    Ok(ends)
}

/// Makes ends that fill the pool.
///
/// # Errors
/// Out of memory.
pub fn fill<S: TestPool<R>, R: Host>(rt: &R, test_pool: &S) -> Result<Vec<S::TestEnd>, AllocError> {
    fill_from(rt, test_pool, 64)
}

/// Posts a task by an end that is owed nothing.
pub fn post_last<P: Pool, R: Abort>(rt: &R, end: &mut P, wait: bool) -> Answer {
    if end.owed() > 0 {
        return Answer::Other;
    }
    let posted = end.post(task(rt, LAST, 0), wait);
    match (posted, end.closed()) {
        (Ok(()), false) => Answer::Posted,
        (Err(Refused::Full(refused)), false) if refused.is(&task(rt, LAST, 0)) => Answer::Full,
        (Err(Refused::Closed(refused)), true) if refused.is(&task(rt, LAST, 0)) => Answer::Closed,
        _ => Answer::Other,
    }
}

/// Posts a task that may wait for room, fetches its result, and closes the pool. Returns the answer, and whether the result came.
fn post_and_fetch<S: TestWorkers<R>, P: Pool, R: Host>(
    rt: &R,
    test_pool: &S,
    end: &mut P,
) -> (Answer, bool) {
    let waited = post_last(rt, end, true);
    let fetched = if end.owed() > 0 {
        end.fetch(LAST)
    } else {
        None
    };
    test_pool.close(rt);
    let came = fetched.is_some_and(|done| done.task().is(&task(rt, LAST, 0)));
    (waited, came)
}

/// The answers to the end that comes last, at once and after it waited, and whether its result came.
pub type WaitAnswers = (Answer, Answer, bool);

/// What happens to a full pool, after a while.
#[derive(Clone, Copy, PartialEq, Eq)]
pub enum Relief {
    /// A worker takes its tasks, which makes room in a queue.
    Worker,
    /// A user is withdrawn, which makes room in a book, and then a worker comes.
    Withdrawal,
    /// It is closed.
    Close,
}

/// A full pool, where the end that comes last is refused, and then waits until there is room or the pool is closed.
#[derive(Clone, Copy)]
pub struct FullPool {
    relief: Relief,
}

impl FullPool {
    /// Makes room or closes the pool, and computes tasks until it is closed.
    fn relieve<S: TestWorkers<R>, R: Host>(&self, rt: &R, test_pool: &S) {
        sleep_a_while(rt);
        match self.relief {
            Relief::Worker => {}
            Relief::Withdrawal => test_pool.withdraw(rt, 0),
            Relief::Close => test_pool.close(rt),
        }
        test_pool.work(rt, &());
    }

    /// Lets the end that comes last wait meanwhile.
    fn wait<S: TestWorkers<R> + Sync, P: Pool, R: Host + Sync>(
        &self,
        rt: &R,
        test_pool: &S,
        last: &mut P,
    ) -> (Answer, bool) {
        let ((), seen) = thread::join(
            rt,
            move || self.relieve(rt, test_pool),
            || post_and_fetch(rt, test_pool, last),
        );
        seen
    }

    /// Fills the pool, and returns the answers to the end that comes last.
    ///
    /// # Errors
    /// Out of memory.
    pub fn run<S: TestPool<R> + Sync, R: Host + Sync>(
        &self,
        rt: &R,
        test_pool: &S,
    ) -> Result<WaitAnswers, AllocError> {
        let ends = fill(rt, test_pool)?;
        let mut last = test_pool.end(rt, LAST);
        let at_once = post_last(rt, &mut last, false);
        let (waited, fetched) = self.wait(rt, test_pool, &mut last);
        test_pool.leave(rt, last);
        leave_all(rt, test_pool, ends);
        Ok((at_once, waited, fetched))
    }
}

fn filled_until(relief: Relief) -> Scenario {
    Scenario::FullPool(FullPool { relief })
}

/// What is seen where the end that comes last is refused at first.
fn expected(waited: Answer, fetched: bool) -> Seen {
    Seen::FullPool(Ok((Answer::Full, waited, fetched)))
}

#[test]
fn who_waits_for_room_goes_on(rt: HostRuntime) -> Result<(), Fail> {
    let posted = (expected(Answer::Posted, true), 1025, all_popped(1025));
    check_queue(&rt, 1, filled_until(Relief::Worker), posted)
}

#[test]
fn who_waits_for_room_is_told_of_a_closed_pool(rt: HostRuntime) -> Result<(), Fail> {
    let closed = (expected(Answer::Closed, false), 0, all_left(1024));
    check_queue(&rt, 1, filled_until(Relief::Close), closed)
}

/// How many results were given before the close depends on the key of the last task.
#[test]
fn who_waits_for_room_in_a_book_goes_on(rt: HostRuntime) -> Result<(), Fail> {
    let (seen, given, counts) = over_lock(&rt, 1, filled_until(Relief::Withdrawal))?;
    let one_fetched = Counts {
        posted: 1025,
        given,
        fetched: 1,
        withdrawn: 64,
        entries: 960,
    };
    assert_eq!(rt;
        (seen, counts),
        (expected(Answer::Posted, true), one_fetched)
    );
    Ok(())
}

#[test]
fn who_waits_for_room_in_a_book_is_told_of_a_closed_pool(rt: HostRuntime) -> Result<(), Fail> {
    assert_eq!(rt;
        over_lock(&rt, 1, filled_until(Relief::Close))?,
        (expected(Answer::Closed, false), 0, none_taken(1024))
    );
    Ok(())
}
