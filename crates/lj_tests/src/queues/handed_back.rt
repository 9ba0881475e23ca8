//! A gate that sends each task back once: two users get the same replies over either pool.

use super::over_lock::over_lock;
use super::scenario::{Scenario, Seen};
use super::test_pool::{Host, TestWorkers, work_both};
use super::{Counted, all_fetched, all_popped, check_queue, wait_for};
use arrayvec::ArrayVec;
use lj_pool::Gate;
use lj_tile::{Kind, TaskName};
use std::rt::Clock;
use std::sync::atomic::{AtomicU64, Ordering};
use std::sync::{Mutex, Wait};
use std::test::Fail;
use std::thread;

/// The user whose step is held back.
const HELD: u8 = 0;

/// A gate that sends each task back once, and then holds the step of one user until another user is answered.
#[derive(Drop)]
struct SendBack<'a, R> {
    rt: &'a R,
    sent_back: Mutex<Vec<TaskName>>,
    /// The number of tasks that passed.
    passed: AtomicU64,
    /// The number of replies to the ADVANCE of the user that is held, and to the MEASURE of the other one.
    advanced: AtomicU64,
    measured: AtomicU64,
    /// How often the gate saw the second reply, and not the first.
    seen: AtomicU64,
}

impl<R: Clock + Wait> Gate for SendBack<'_, R> {
    fn between(&self, name: &TaskName) {
        self.passed.fetch_add(1, Ordering::SeqCst);
        if name.label.user != HELD || name.kind != Kind::Force {
            return;
        }
        if wait_for(self.rt, &self.measured) && self.advanced.load(Ordering::SeqCst) == 0 {
            self.seen.fetch_add(1, Ordering::SeqCst);
        }
    }

    fn back(&self, name: &TaskName) -> bool {
        let mut sent_back = self.sent_back.lock(self.rt);
        !sent_back.iter().any(|sent| sent.is(name)) && sent_back.push(name.copy()).is_ok()
    }
}

impl<'a, R: AllocGlobal + Wait> SendBack<'a, R> {
    fn new(rt: &'a R) -> Self {
        SendBack {
            rt,
            sent_back: Mutex::new(Vec::new(rt.alloc())),
            passed: AtomicU64::new(0),
            advanced: AtomicU64::new(0),
            measured: AtomicU64::new(0),
            seen: AtomicU64::new(0),
        }
    }

    /// Returns how many tasks were sent back, how many passed, and how often the other reply was seen first.
    fn counts(&self) -> (usize, u64, u64) {
        (
            self.sent_back.lock(self.rt).len(),
            self.passed.load(Ordering::SeqCst),
            self.seen.load(Ordering::SeqCst),
        )
    }
}

/// The replies to a user.
type HandBackOutput = ArrayVec<u8, 128>;

/// The commands of the user whose step is held back, and those of the other one.
const ADVANCES: &str = "LOAD a 256 1 131072 rest 28\n2\ndimer\nAr 0 0 0\nAr 1.5 0 0\nADVANCE a 1\n";

const MEASURES: &str = "LOAD a 256 1 131072 rest 28\n2\ndimer\nAr 0 0 0\nAr 1.5 0 0\nMEASURE a\n";

/// Serves the commands of this user.
fn serve_one<S: TestWorkers<R>, R: Host>(
    rt: &R,
    test_pool: &S,
    user: u8,
    gate: &SendBack<R>,
) -> HandBackOutput {
    let (input, begins, count) = if user == HELD {
        (ADVANCES, b"OK ADVANCE".as_slice(), &gate.advanced)
    } else {
        (MEASURES, b"OK MEASURE".as_slice(), &gate.measured)
    };
    let counted = Counted {
        output: HandBackOutput::new(),
        begins,
        count,
    };
    test_pool
        .serve_user(rt, user, input.as_bytes(), counted)
        .output
}

/// Serves both users at once, and then closes the pool.
fn serve_both<S: TestWorkers<R> + Sync, R: Host + Sync>(
    rt: &R,
    test_pool: &S,
    gate: &SendBack<R>,
) -> (HandBackOutput, HandBackOutput) {
    let outputs = thread::join(
        rt,
        move || serve_one(rt, test_pool, HELD, gate),
        move || serve_one(rt, test_pool, 1, gate),
    );
    test_pool.close(rt);
    outputs
}

/// The replies to both users, the number of results in the workers' shares, and the counts of the gate.
#[derive(Drop)]
struct HandBackOutcome {
    held: HandBackOutput,
    other: HandBackOutput,
    credited: u64,
    gate: (usize, u64, u64),
}

/// Serves two users at once, beside two workers. Returns whether all was right.
pub fn serve_beside_workers<S: TestWorkers<R> + Sync, R: Host + Sync>(
    rt: &R,
    test_pool: &S,
) -> bool {
    let gate = SendBack::new(rt);
    let keeper = &gate;
    let ((held, other), (one, another)) = thread::join(
        rt,
        move || serve_both(rt, test_pool, keeper),
        move || work_both(rt, test_pool, keeper),
    );
    is_right(&HandBackOutcome {
        held,
        other,
        credited: one.credited.saturating_add(another.credited),
        gate: gate.counts(),
    })
}

/// Returns whether both users got the replies that they get alone, and each task was sent back once and computed once.
fn is_right(outcome: &HandBackOutcome) -> bool {
    let held = b"OK LOAD a 0 2\nOK ADVANCE a 1\n".as_slice();
    let other = b"OK LOAD a 0 2\nOK MEASURE a 0 2 0 0 0 0 -5349132\n".as_slice();
    outcome.held.as_slice() == held
        && outcome.other.as_slice() == other
        && outcome.credited == 2
        && outcome.gate == (2, 2, 1)
}

#[test]
fn tasks_are_sent_back_over_a_pool_behind_a_lock(rt: HostRuntime) -> Result<(), Fail> {
    let (seen, _, counts) = over_lock(&rt, 2, Scenario::HandedBack)?;
    assert_eq!(rt; (seen, counts), (Seen::Right(true), all_fetched(2)));
    Ok(())
}

/// Both tasks are pushed again.
#[test]
fn tasks_are_sent_back_over_a_pool_with_a_queue(rt: HostRuntime) -> Result<(), Fail> {
    let expected = (Seen::Right(true), 2, all_popped(4));
    check_queue(&rt, 2, Scenario::HandedBack, expected)
}
