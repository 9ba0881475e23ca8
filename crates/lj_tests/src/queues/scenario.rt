//! Scenarios, which are run over an empty and open pool of either kind.

use super::reused_boxes::Fate;
use super::room::FullPool;
use super::test_pool::{Host, TestPool};
use super::{
    ahead, closing, departed_ends, filled, handed_back, in_turn, nothing_found, polling, refused,
    room, side_by_side, together, withdrawn,
};
use std::alloc::AllocError;

/// A scenario. Its file says what is done.
#[derive(Clone, Copy)]
pub enum Scenario {
    Ahead(ahead::StartsCase),
    Boxes(Fate),
    InVain,
    InHand,
    AfterClose,
    Nine,
    Filling,
    HandedBack,
    InTurn,
    NothingFound,
    Polling,
    Refused,
    FullPool(FullPool),
    SideBySide,
    Together,
    WithEnd,
    WithoutEnd,
}

/// A scenario, and the number of workers that its pool is made for.
#[derive(Clone, Copy)]
pub struct Setup {
    pub workers: u8,
    pub scenario: Scenario,
}

/// What was seen.
#[derive(Clone, Copy, PartialEq, Eq, Debug)]
pub enum Seen {
    Ahead(ahead::StartsOutcome),
    /// Whether all was as the scenario says.
    Right(bool),
    Nine(departed_ends::CreditAndPasses),
    Filled([filled::Given; 2]),
    Taken(in_turn::Taken),
    Answers([room::Answer; 4]),
    FullPool(Result<room::WaitAnswers, AllocError>),
    Refused(Result<refused::RefusalCounts, AllocError>),
    Together(Result<[together::PostsOutcome; 3], AllocError>),
    WithEnd(withdrawn::Left),
    WithoutEnd(withdrawn::LeftAndCounts),
}

/// Runs a scenario. Each end leaves, and each worker stops.
///
/// Scenarios are functions, since a method of a trait may start no threads over a test pool that its caller chooses.
pub fn run_over<S: TestPool<R> + Sync, R: Host + Sync>(
    rt: &R,
    test_pool: &S,
    scenario: Scenario,
) -> Seen {
    match scenario {
        Scenario::Ahead(case) => Seen::Ahead(ahead::serve_until_closed(rt, test_pool, case)),
        Scenario::Boxes(fate) => Seen::Right(fate.run(rt, test_pool)),
        Scenario::InVain => Seen::Right(closing::end_in_vain(rt, test_pool)),
        Scenario::InHand => Seen::Right(closing::close_in_hand(rt, test_pool)),
        Scenario::AfterClose => Seen::Answers(closing::post_after_close(rt, test_pool)),
        Scenario::Nine => Seen::Nine(departed_ends::compute_nine(rt, test_pool)),
        Scenario::Filling => Seen::Filled(filled::fill_end(rt, test_pool)),
        Scenario::HandedBack => Seen::Right(handed_back::serve_beside_workers(rt, test_pool)),
        Scenario::InTurn => Seen::Taken(in_turn::take_in_turn(rt, test_pool)),
        Scenario::NothingFound => Seen::Right(nothing_found::find_nothing(rt, test_pool)),
        Scenario::Polling => Seen::Right(polling::poll_in_turn(rt, test_pool)),
        Scenario::Refused => Seen::Refused(refused::refuse_many(rt, test_pool)),
        Scenario::FullPool(full_pool) => Seen::FullPool(full_pool.run(rt, test_pool)),
        Scenario::SideBySide => Seen::Right(side_by_side::serve_beside_workers(rt, test_pool)),
        Scenario::Together => Seen::Together(together::post_together(rt, test_pool)),
        Scenario::WithEnd => Seen::WithEnd(withdrawn::withdraw_with_end(rt, test_pool)),
        Scenario::WithoutEnd => Seen::WithoutEnd(withdrawn::withdraw_without_end(rt, test_pool)),
    }
}
