//! Two sessions of one user, computed at once while the user sends nothing: over both pools, a gate holds the task of one of them
//! until it is called for that of the other.

use super::scenario::{Scenario, Seen};
use super::test_pool::{Host, TestWorkers, work_both};
use super::{check_both, wait_for};
use arrayvec::ArrayVec;
use lj_pool::Gate;
use lj_tile::TaskName;
use std::io::{self, Read};
use std::rt::Clock;
use std::sync::Wait;
use std::sync::atomic::{AtomicU64, Ordering};
use std::test::Fail;
use std::thread;

const USER: u8 = 0;

/// A gate that holds the tasks of session `a` until it was called for one of session `b`.
#[derive(Drop)]
struct HoldFirst<'a, R> {
    rt: &'a R,
    /// How often it was called for a task of `b`.
    second: AtomicU64,
    /// How many tasks of `a` passed since then.
    first: AtomicU64,
    /// How often it was called for `b` while the user sent nothing.
    silent: AtomicU64,
}

impl<R: Clock + Wait> Gate for HoldFirst<'_, R> {
    fn between(&self, name: &TaskName) {
        if name.label.session.as_bytes() == b"b".as_slice() {
            self.second.fetch_add(1, Ordering::SeqCst);
        } else if wait_for(self.rt, &self.second) {
            self.first.fetch_add(1, Ordering::SeqCst);
        }
    }
}

impl<'a, R> HoldFirst<'a, R> {
    fn new(rt: &'a R) -> Self {
        HoldFirst {
            rt,
            second: AtomicU64::new(0),
            first: AtomicU64::new(0),
            silent: AtomicU64::new(0),
        }
    }

    /// Returns how many tasks of `a` passed, how often it was called for one of `b`, and how often while the user sent nothing.
    fn counts(&self) -> [u64; 3] {
        [
            self.first.load(Ordering::SeqCst),
            self.second.load(Ordering::SeqCst),
            self.silent.load(Ordering::SeqCst),
        ]
    }
}

/// The input of the user: `first`, and `then` once the gate was called for a task of `b`.
#[derive(Drop)]
struct TwoPartInput<'a, R> {
    gate: &'a HoldFirst<'a, R>,
    first: &'a [u8],
    then: &'a [u8],
}

impl<R: Clock + Wait> Read for TwoPartInput<'_, R> {
    fn read(&mut self, buf: &mut [u8]) -> io::Result<usize> {
        if !self.first.is_empty() {
            return self.first.read(buf);
        }
        if !self.then.is_empty() && wait_for(self.gate.rt, &self.gate.second) {
            self.gate.silent.fetch_add(1, Ordering::SeqCst);
        }
        self.then.read(buf)
    }
}

/// The replies to the user.
type SessionsOutput = ArrayVec<u8, 128>;

/// The commands that start both sessions.
const STARTS: &str = "LOAD a 256 1 131072 rest 28\n2\ndimer\nAr 0 0 0\nAr 1.5 0 0\n\
    LOAD b 256 1 131072 rest 28\n2\ndimer\nAr 0 0 0\nAr 1.5 0 0\nSTART a 1\nSTART b 1\n";

/// The command that shows the first one.
const SHOW: &str = "SHOW a 0\n";

const EXPECTED: &str =
    "OK LOAD a 0 2\nOK LOAD b 0 2\nOK START a 1\nOK START b 1\nOK SHOW a 1 0 589 0 0\n";

/// Serves the user, and then closes the pool.
fn serve_starts<S: TestWorkers<R>, R: Host>(
    rt: &R,
    test_pool: &S,
    gate: &HoldFirst<'_, R>,
) -> SessionsOutput {
    let input = TwoPartInput {
        gate,
        first: STARTS.as_bytes(),
        then: SHOW.as_bytes(),
    };
    let output = test_pool.serve_user(rt, USER, input, SessionsOutput::new());
    test_pool.close(rt);
    output
}

/// Serves a user beside two workers. Returns whether all was right.
pub fn serve_beside_workers<S: TestWorkers<R> + Sync, R: Host + Sync>(
    rt: &R,
    test_pool: &S,
) -> bool {
    let gate = HoldFirst::new(rt);
    let keeper = &gate;
    let (output, _) = thread::join(
        rt,
        move || serve_starts(rt, test_pool, keeper),
        move || work_both(rt, test_pool, keeper),
    );
    is_right(&output, gate.counts())
}

/// Returns whether the session is shown as it is alone, and its task passed after the gate was called for the other one, while
/// the user sent nothing.
fn is_right(output: &SessionsOutput, counts: [u64; 3]) -> bool {
    output.as_slice() == EXPECTED.as_bytes() && counts == [1, 1, 1]
}

#[test]
fn sessions_are_worked_on_at_once(rt: HostRuntime) -> Result<(), Fail> {
    check_both(&rt, 2, Scenario::SideBySide, (Seen::Right(true), 2))
}
