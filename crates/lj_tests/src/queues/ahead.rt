//! How far work goes ahead of the next command: fifteen tasks may be under way while it is read, and no more.

use super::over_queue::over_queue;
use super::scenario::{Scenario, Seen};
use super::test_pool::{Host, TestPool, TestWorkers};
use super::{Counted, check_both, close_late, wait_for};
use arrayvec::{ArrayString, ArrayVec};
use lj_pool::{Served, serve};
use lj_quota::Quota;
use lj_session::UserState;
use lj_wire::{Reading, Writing};
use std::alloc::AllocGlobal;
use std::fmt::Write;
use std::process::Abort;
use std::sync::atomic::AtomicU64;
use std::test::Fail;
use std::thread;

const USER: u8 = 7;

/// The commands of the user.
type InputText = ArrayString<2048>;

/// Writes commands that load this many sessions of two atoms and then start each, and a BYE.
fn input(rt: &impl Abort, sessions: u8) -> InputText {
    let mut input = InputText::new();
    for number in 0..sessions {
        load(rt, &mut input, number);
    }
    for number in 0..sessions {
        let written = write!(input, "START s{number} 1\n").is_ok();
        assert!(rt; written);
    }
    let written = write!(input, "BYE\n").is_ok();
    assert!(rt; written);
    input
}

/// Writes the load of the session of this number.
fn load(rt: &impl Abort, input: &mut InputText, number: u8) {
    let written = write!(
        input,
        "LOAD s{number} 256 1 131072 rest 28\n2\ndimer\nAr 0 0 0\nAr 1.5 0 0\n"
    )
    .is_ok();
    assert!(rt; written);
}

/// The number of sessions, and the reply when the last one is started.
#[derive(Clone, Copy)]
pub struct StartsCase {
    sessions: u8,
    last: &'static [u8],
}

/// The number of lines written, how serving ended, and whether the state is handed back.
#[derive(Clone, Copy, PartialEq, Eq, Debug)]
pub struct StartsOutcome {
    lines: usize,
    served: Served,
    is_handed_back: bool,
}

/// Serves these sessions over a pool whose tasks nobody computes, and counts when the last one is started.
fn serve_starts<S: TestPool<R>, R: Host>(
    rt: &R,
    test_pool: &S,
    case: StartsCase,
    count: &AtomicU64,
) -> StartsOutcome {
    let input = input(rt, case.sessions);
    let mut end = test_pool.end(rt, USER);
    let mut writer = Writing::new(Counted {
        output: ArrayVec::<u8, 1024>::new(),
        begins: case.last,
        count,
    });
    let quota = Quota {
        sessions: 16,
        atoms: 100,
        branches: 4,
    };
    let reader = Reading::new(input.as_str().as_bytes());
    let state = UserState::new(rt.alloc(), quota);
    let (state, served, _) = serve(rt.alloc(), state, USER, reader, &mut writer, &mut end);
    test_pool.leave(rt, end);
    let output = writer.into_inner().output;
    StartsOutcome {
        lines: output.iter().filter(|byte| **byte == b'\n').count(),
        served,
        is_handed_back: state.is_some(),
    }
}

/// Serves the sessions over a pool that is closed a while after the last one was started.
pub fn serve_until_closed<S: TestPool<R> + Sync, R: Host + Sync>(
    rt: &R,
    test_pool: &S,
    case: StartsCase,
) -> StartsOutcome {
    serve_until_closed_by(rt, test_pool, test_pool, case)
}

/// The same, where the pool that is closed is the one that serves, named by what may be sent to a thread.
fn serve_until_closed_by<C: TestWorkers<R> + Sync, S: TestPool<R>, R: Host + Sync>(
    rt: &R,
    closed: &C,
    test_pool: &S,
    case: StartsCase,
) -> StartsOutcome {
    let started = AtomicU64::new(0);
    let count = &started;
    let ((), outcome) = thread::join(
        rt,
        move || {
            wait_for(rt, count);
            close_late(rt, closed);
        },
        move || serve_starts(rt, test_pool, case, count),
    );
    outcome
}

const FIFTEEN: StartsCase = StartsCase {
    sessions: 15,
    last: b"OK START s14 1",
};

const SIXTEEN: StartsCase = StartsCase {
    sessions: 16,
    last: b"OK START s15 1",
};

/// With more than fifteen tasks the next command is read only once a result has come, and here none comes.
#[test]
fn fifteen_tasks_are_under_way_while_a_command_is_read(rt: HostRuntime) -> Result<(), Fail> {
    let few = StartsOutcome {
        lines: 31,
        served: Served::Bye,
        is_handed_back: true,
    };
    let many = StartsOutcome {
        lines: 32,
        served: Served::PoolClosed,
        is_handed_back: false,
    };
    for (case, outcome) in [(FIFTEEN, few), (SIXTEEN, many)] {
        let (seen, _, _) = over_queue(&rt, 0, Scenario::Ahead(case))?;
        assert_eq!(rt; seen, Seen::Ahead(outcome));
    }
    Ok(())
}

const ONE: StartsCase = StartsCase {
    sessions: 1,
    last: b"OK START s0 1",
};

/// No other has to be posted with it.
#[test]
fn a_task_alone_is_under_way_while_a_command_is_read(rt: HostRuntime) -> Result<(), Fail> {
    let outcome = StartsOutcome {
        lines: 3,
        served: Served::Bye,
        is_handed_back: true,
    };
    check_both(&rt, 0, Scenario::Ahead(ONE), (Seen::Ahead(outcome), 1))
}
