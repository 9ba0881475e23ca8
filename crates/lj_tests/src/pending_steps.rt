//! Streams that leave sessions with pending steps, which the next stream runs over a pool that may close at any of its calls.
ghost use Rattle.std.specs.Prelude.{◌≡◌, IsSome, false};
ghost use Rattle.lj_end.specs.Seen.{nothing_seen};

use arrayvec::ArrayVec;
use lj_pool::{InlinePool, NotPosted, PoolEnd, Served, serve};
use lj_quota::Quota;
use lj_session::UserState;
use lj_table::Table;
use lj_tile::{DoneRef, TaskRef};
use lj_wire::{Reading, Writing};
use std::alloc::{AllocGlobal, Global};

/// A pool without threads that closes after `calls` calls. A poll then hands out nothing.
#[derive(Drop)]
pub struct ClosingPool {
    inner: InlinePool,
    calls: u64,
    closed: bool,
}

impl ClosingPool {
    pub fn new(calls: u64) -> ClosingPool
        ensures { ⟦<ClosingPool as PoolEnd>⟧.seen result ≡ nothing_seen }
    {
        ClosingPool {
            inner: InlinePool::new(Table::new()),
            calls,
            closed: false,
        }
    }

    /// Counts a call, and returns whether it finds the pool open.
    fn is_open(&mut self) -> bool
        ensures inner { self.new.inner ≡ self.old.inner }
        ensures closed { self.new.closed ≡ self.old.closed }
    {
        let open = self.calls > 0;
        self.calls = self.calls.saturating_sub(1);
        open
    }
}

/// That a pool is closed.
#[derive(Clone, Copy, Debug)]
pub struct CallsSpent(());

impl PoolEnd for ClosingPool {
    type Closed = CallsSpent;

    ghost use Rattle.lj_end.specs.InlinePool.{seen_of};

    ghost seen = { λ pool. record (seen_of pool.inner) { closed = pool.closed } };

    ghost last = { λ pool. pool.inner.last };

    ghost uncounted = { λ pool. pool.inner.taken };

    ghost for_others = { λ _ _. 0 };

    ghost most = { 1 };

    ghost takes_all = { false };

    fn post_from(&mut self, task: &TaskRef<'_>, wait: bool) -> Result<(), NotPosted<CallsSpent>> {
        if !self.is_open() {
            self.closed = true;
            return Err(NotPosted::Closed(CallsSpent(())));
        }
        self.inner
            .post_from(task, wait)
            .map_err(|_| NotPosted::Full)
    }

    fn fetch_uncounted(&mut self, user: u8) -> Result<(), CallsSpent> {
        if !self.is_open() {
            self.closed = true;
            return Err(CallsSpent(()));
        }
        self.inner.fetch_uncounted(user).map_err(|_| CallsSpent(()))
    }

    fn poll_uncounted(&mut self, user: u8) -> bool {
        if !self.is_open() {
            return false;
        }
        self.inner.poll_uncounted(user)
    }

    fn count(&mut self, by_name: bool) {
        self.inner.count(by_name);
    }

    fn fetched(&self) -> DoneRef<'_> {
        self.inner.fetched()
    }

    fn owed(&self) -> usize {
        self.inner.owed()
    }

    fn room(&self) -> usize {
        self.inner.room()
    }

    fn is_closed(&self) -> bool {
        self.closed
    }
}

/// The replies to a stream, how it ended, and the state that was handed back.
#[derive(Drop)]
struct StreamOutcome {
    output: ArrayVec<u8, 256>,
    served: Served,
    state: Option<UserState>,
}

/// Serves a stream over a pool that closes after `calls` calls.
fn serve_until(alloc: Global, state: UserState, input: &str, calls: u64) -> StreamOutcome {
    let mut pool = ClosingPool::new(calls);
    let mut writer = Writing::new(ArrayVec::new());
    let reader = Reading::new(input.as_bytes());
    let (state, served, _) = serve(alloc, state, 0, reader, &mut writer, &mut pool);
    StreamOutcome {
        output: writer.into_inner(),
        served,
        state,
    }
}

/// Serves a stream to a new user.
fn serve_new(alloc: Global, input: &str, calls: u64) -> StreamOutcome {
    serve_until(alloc, UserState::new(alloc, Quota::USUAL), input, calls)
}

/// A stream that leaves a pending step, and one that asks for the session.
const STARTED: &str =
    "LOAD a 256 1 131072 rest 28\n2\ndimer\nAr 0 0 0\nAr 1.5 0 0\nSTART a 1\nBYE\n";

const STARTED_OUTPUT: &str = "OK LOAD a 0 2\nOK START a 1\nOK BYE\n";

const SHOWS: &str = "SHOW a 0\n";

const SHOWN: &str = "OK SHOW a 1 0 589 0 0\n";

/// The first stream needs no result, so it is answered whole over a pool that is closed from the start, too.
#[test]
fn pending_steps_are_made_for_the_next_stream(rt: HostRuntime) {
    for calls in [0, 1, u64::MAX] {
        let first = serve_new(rt.alloc(), STARTED, calls);
        assert_eq!(rt; first.output.as_slice(), STARTED_OUTPUT.as_bytes());
        assert_eq!(rt; first.served, Served::Bye);
        let state = first.state.expect(&rt, "a state");
        let second = serve_until(rt.alloc(), state, SHOWS, u64::MAX);
        assert_eq!(rt; second.output.as_slice(), SHOWN.as_bytes());
        assert_eq!(rt; second.served, Served::End);
    }
}

/// A stream in which two items wait, for two sessions that run side by side.
const SIDE_BY_SIDE: &str = "LOAD a 256 1 131072 rest 28\n2\ndimer\nAr 0 0 0\nAr 1.5 0 0\n\
    LOAD b 256 1 131072 rest 28\n2\ndimer\nAr 0 0 0\nAr 1.5 0 0\n\
    START a 2\nSTART b 1\nSHOW b 0\nLIST\nSHOW a 0\nBYE\n";

/// The replies before the first of them waits, before the second one does, and all replies.
const BEFORE_FIRST: &str = "OK LOAD a 0 2\nOK LOAD b 0 2\nOK START a 2\nOK START b 1\n";

const BEFORE_SECOND: &str = "OK LOAD a 0 2\nOK LOAD b 0 2\nOK START a 2\nOK START b 1\n\
    OK SHOW b 1 0 589 0 0\nOK LIST 2\na 2 2 0\nb 1 2 0\n";

const ALL: &str = "OK LOAD a 0 2\nOK LOAD b 0 2\nOK START a 2\nOK START b 1\n\
    OK SHOW b 1 0 589 0 0\nOK LIST 2\na 2 2 0\nb 1 2 0\nOK SHOW a 2 0 1774 0 0\nOK BYE\n";

/// More calls than the stream makes.
const MOST_CALLS: u64 = 100;

/// Where the pool is closed, the replies are those before an item that waits, and there is no state; else they are all.
fn is_right(outcome: &StreamOutcome) -> bool {
    let output = outcome.output.as_slice();
    match outcome.served {
        Served::Bye => output == ALL.as_bytes() && outcome.state.is_some(),
        Served::PoolClosed => {
            (output == BEFORE_FIRST.as_bytes() || output == BEFORE_SECOND.as_bytes())
                && outcome.state.is_none()
        }
        _ => false,
    }
}

#[test]
fn a_pool_may_be_closed_at_any_call(rt: HostRuntime) {
    let mut whole = 0_u64;
    for calls in 0..MOST_CALLS {
        let outcome = serve_new(rt.alloc(), SIDE_BY_SIDE, calls);
        assert!(rt; is_right(&outcome));
        whole = whole.saturating_add(u64::from(outcome.served == Served::Bye));
    }
    assert!(rt; 0 < whole && whole < MOST_CALLS - 2);
}
