//! What a connection is answered over pools that hand out strays, or that are closed.
ghost use Rattle.std.specs.Prelude.{◌≡◌, ◌↔◌, None, Some, IfSome, IsTrue, false, ⊤};

use arrayvec::ArrayVec;
use lj_pool::{NotPosted, PoolEnd, Served, serve_lines};
use lj_quota::Quota;
use lj_session::UserState;
use lj_table::Table;
use lj_tile::{Done, DoneRef, TaskRef, compute};
use lj_wire::{LineReader, Reading, Writing};
use std::alloc::Global;

/// A pool that computes a task as it is posted. A fetch may hand out copies of an earlier result before each result, and
/// the pool may be closed at a post, or at a fetch or poll.
#[derive(Drop)]
struct OddPool {
    table: Table,
    owed: Option<Done>,
    /// The result before the one that is owed.
    earlier: Option<Done>,
    /// The result that was handed out last.
    shown: Done,
    /// Whether it was taken, and is not counted yet.
    is_uncounted: bool,
    /// How many copies of it are handed out before each result.
    copies: u64,
    /// How many of them are still to come before the next one.
    left: u64,
    posts: u64,
    fetches: u64,
    expected: u64,
    strays: u64,
    closed: bool,
}

impl OddPool {
    fn new(copies: u64, posts: u64, fetches: u64) -> OddPool
        ensures { result.owed ≡ None }
    {
        OddPool {
            table: Table::new(),
            owed: None,
            earlier: None,
            shown: Done::blank(),
            is_uncounted: false,
            copies,
            left: copies,
            posts,
            fetches,
            expected: 0,
            strays: 0,
            closed: false,
        }
    }

    /// Returns a copy of the earlier result if a stray is due and the result that is owed is of another task.
    fn stray(&self) -> Option<Done>
        ensures { IfSome result (λ done. IfSome self.now.owed (λ owed. (done ≡ owed) → ⊥)) }
    {
        let earlier = self.earlier.as_ref()?;
        let owed = self.owed.as_ref()?;
        if self.left == 0 || earlier.task().is(owed.task()) {
            return None;
        }
        Some(earlier.copy())
    }

    /// Returns whether the result that was handed out last is of the task that is owed.
    fn shows_owed(&self) -> bool
        ensures { IsTrue result ↔ (self.now.owed ≡ Some self.now.shown) }
    {
        match &self.owed {
            Some(owed) => owed.task().is(self.shown.task()),
            None => false,
        }
    }
}

/// That an odd pool is closed.
#[derive(Clone, Copy, Debug)]
struct OddClosed(());

impl PoolEnd for OddPool {
    type Closed = OddClosed;

    ghost use Rattle.lj_end.specs.InlinePool.{tasks_in};

    ghost seen = { λ pool. record {
      owed = tasks_in pool.owed;
      expected = pool.expected;
      strays = pool.strays;
      closed = pool.closed;
    } };

    ghost last = { λ pool. pool.shown };

    ghost uncounted = { λ pool. pool.is_uncounted };

    ghost for_others = { λ _ _. 0 };

    ghost most = { 1 };

    ghost takes_all = { false };

    fn post_from(&mut self, task: &TaskRef<'_>, _wait: bool) -> Result<(), NotPosted<OddClosed>> {
        if self.posts == 0 {
            self.closed = true;
            return Err(NotPosted::Closed(OddClosed(())));
        }
        if self.owed.is_some() {
            return Err(NotPosted::Full);
        }
        self.posts -= 1;
        self.owed = Some(compute(task.to_task(), &self.table));
        Ok(())
    }

    fn fetch_uncounted(&mut self, _user: u8) -> Result<(), OddClosed> {
        if self.is_uncounted {
            return Ok(());
        }
        if self.fetches == 0 {
            self.closed = true;
            return Err(OddClosed(()));
        }
        if let Some(stray) = self.stray() {
            self.left = self.left.saturating_sub(1);
            self.shown = stray;
            self.is_uncounted = true;
            return Ok(());
        }
        let Some(owed) = &self.owed else {
            return Err(OddClosed(()));
        };
        self.fetches -= 1;
        self.left = self.copies;
        self.earlier = Some(owed.copy());
        self.shown = owed.copy();
        self.is_uncounted = true;
        Ok(())
    }

    fn poll_uncounted(&mut self, user: u8) -> bool {
        if self.owed.is_none() || self.stray().is_some() {
            return false;
        }
        self.fetch_uncounted(user).is_ok()
    }

    fn count(&mut self, _by_name: bool) {
        self.is_uncounted = false;
        if self.shows_owed() {
            self.owed = None;
            self.expected = self.expected.saturating_add(1);
        } else {
            self.strays = self.strays.saturating_add(1);
        }
    }

    fn fetched(&self) -> DoneRef<'_> {
        self.shown.by_ref()
    }

    fn owed(&self) -> usize {
        usize::from(self.owed.is_some())
    }

    fn room(&self) -> usize {
        usize::from(self.owed.is_none())
    }

    fn is_closed(&self) -> bool {
        self.closed
    }
}

/// The replies to a user.
type StrayOutput = ArrayVec<u8, 256>;

/// Two steps of two atoms 1.5 sigma apart.
const STEPS: &str = "LOAD a 256 1 131072 rest 28\n2\ndimer\nAr 0 0 0\nAr 1.5 0 0\n\
    ADVANCE a 1\nADVANCE a 1\nSHOW a 0\nLIST\n";

/// One step of theirs.
const STEP: &str = "LOAD a 256 1 131072 rest 28\n2\ndimer\nAr 0 0 0\nAr 1.5 0 0\nADVANCE a 1\n";

/// A step of one atom that moves. It has no task.
const ALONE: &str = "LOAD b 256 1 1 pair 44\n1\np\nH -0.0000003 0 0\n1\nc\nH -0.000000001 0 0\n\
    SHOW b 0\nADVANCE b 1\nSHOW b 0\n";

/// Two steps of 65 atoms in one place, which have two tiles each: that of a full block, and that of it and the last atom.
const CROWD: &str = "LOAD a 256 1 131072 rest 529\n65\ncrowd\n\
    H 0 0 0\nH 0 0 0\nH 0 0 0\nH 0 0 0\nH 0 0 0\nH 0 0 0\nH 0 0 0\nH 0 0 0\nH 0 0 0\nH 0 0 0\nH 0 0 0\nH 0 0 0\nH 0 0 0\n\
    H 0 0 0\nH 0 0 0\nH 0 0 0\nH 0 0 0\nH 0 0 0\nH 0 0 0\nH 0 0 0\nH 0 0 0\nH 0 0 0\nH 0 0 0\nH 0 0 0\nH 0 0 0\nH 0 0 0\n\
    H 0 0 0\nH 0 0 0\nH 0 0 0\nH 0 0 0\nH 0 0 0\nH 0 0 0\nH 0 0 0\nH 0 0 0\nH 0 0 0\nH 0 0 0\nH 0 0 0\nH 0 0 0\nH 0 0 0\n\
    H 0 0 0\nH 0 0 0\nH 0 0 0\nH 0 0 0\nH 0 0 0\nH 0 0 0\nH 0 0 0\nH 0 0 0\nH 0 0 0\nH 0 0 0\nH 0 0 0\nH 0 0 0\nH 0 0 0\n\
    H 0 0 0\nH 0 0 0\nH 0 0 0\nH 0 0 0\nH 0 0 0\nH 0 0 0\nH 0 0 0\nH 0 0 0\nH 0 0 0\nH 0 0 0\nH 0 0 0\nH 0 0 0\nH 0 0 0\n\
    ADVANCE a 2\nSHOW a 64\n";

/// A connection over an odd pool.
struct StrayCase {
    /// Whether another user was served before, so that results of theirs come before the first one.
    is_second: bool,
    /// How many strays come before each result but the first of all.
    copies: u64,
    /// How many come in all.
    strays: u64,
    posts: u64,
    fetches: u64,
    input: &'static str,
    served: Served,
    replies: &'static str,
}

const TWO_STEPS: &str =
    "OK LOAD a 0 2\nOK ADVANCE a 1\nOK ADVANCE a 2\nOK SHOW a 2 0 1774 0 0\nOK LIST 1\na 2 2 0\n";

const ONE_STEP: &str = "OK LOAD a 0 2\nOK ADVANCE a 1\n";

const NO_STEP: &str = "OK LOAD a 0 2\n";

/// A pool that hands out no strays and stays open.
const PLAIN: StrayCase = StrayCase {
    is_second: false,
    copies: 0,
    strays: 0,
    posts: u64::MAX,
    fetches: u64::MAX,
    input: STEPS,
    served: Served::End,
    replies: TWO_STEPS,
};

/// A pool that is closed at some post or fetch.
const CLOSING: StrayCase = StrayCase {
    posts: 9,
    fetches: 9,
    served: Served::PoolClosed,
    replies: NO_STEP,
    ..PLAIN
};

/// A pool that hands out as many strays in a row as a connection bears.
const STRAYING: StrayCase = StrayCase {
    copies: 4095,
    strays: 4095,
    ..PLAIN
};

/// A pool that hands out one more.
const LOST: StrayCase = StrayCase {
    copies: 4096,
    strays: 4096,
    served: Served::TooManyStrays,
    replies: ONE_STEP,
    ..PLAIN
};

const CASES: [StrayCase; 11] = [
    StrayCase {
        copies: 1,
        strays: 1,
        ..PLAIN
    },
    STRAYING,
    LOST,
    StrayCase {
        is_second: true,
        input: STEP,
        replies: ONE_STEP,
        ..STRAYING
    },
    StrayCase {
        is_second: true,
        input: STEP,
        replies: NO_STEP,
        ..LOST
    },
    StrayCase {
        posts: 0,
        ..CLOSING
    },
    StrayCase {
        fetches: 0,
        ..CLOSING
    },
    StrayCase {
        posts: 1,
        replies: ONE_STEP,
        ..CLOSING
    },
    StrayCase {
        fetches: 1,
        replies: ONE_STEP,
        ..CLOSING
    },
    StrayCase {
        posts: 0,
        fetches: 9,
        input: ALONE,
        replies: "OK LOAD b 0 1\nOK SHOW b 0 0 4294967295 0 0\nOK ADVANCE b 1\nOK SHOW b 1 0 4 0 0\n",
        ..PLAIN
    },
    StrayCase {
        copies: 4000,
        strays: 12_000,
        input: CROWD,
        replies: "OK LOAD a 0 65\nOK ADVANCE a 2\nOK SHOW a 2 64 0 0 0\n",
        ..PLAIN
    },
];

/// The replies to a connection, how it ended, and whether the state was handed back.
#[derive(Drop)]
struct StrayOutcome {
    output: StrayOutput,
    served: Served,
    is_handed_back: bool,
}

/// Serves a stream to a new user over a pool that owes nothing.
fn serve_over(alloc: Global, user: u8, input: &str, pool: &mut OddPool) -> StrayOutcome {
    pool.owed = None;
    let mut lines = LineReader::new(alloc, Reading::new(input.as_bytes()));
    let mut writer = Writing::new(StrayOutput::new());
    let state = UserState::new(alloc, Quota::USUAL);
    let (state, served) = serve_lines(state, user, &mut lines, &mut writer, pool);
    StrayOutcome {
        output: writer.into_inner(),
        served,
        is_handed_back: state.is_some(),
    }
}

/// The state comes back only where the stream came to its end.
#[test]
fn strays_are_dropped_and_a_closed_pool_ends_the_connection(rt: HostRuntime) {
    for case in &CASES {
        let mut pool = OddPool::new(case.copies, case.posts, case.fetches);
        if case.is_second {
            serve_over(rt.alloc(), 4, STEP, &mut pool);
        }
        let outcome = serve_over(rt.alloc(), 3, case.input, &mut pool);
        assert_eq!(rt; outcome.output.as_slice(), case.replies.as_bytes());
        assert_eq!(rt; outcome.served, case.served);
        assert_eq!(rt; outcome.is_handed_back, case.served == Served::End);
        assert_eq!(rt; pool.strays, case.strays);
    }
}
