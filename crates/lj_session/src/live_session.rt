//! A session in the code.
ghost use Rattle.std.specs.Prelude.{◌≡◌, ◌<◌, ◌+◌, ◌^◌, [], length, slice_get, Some, None};
ghost use Rattle.std.specs.Prelude.{IfNone, IfSome, ◌≤◌, unsigned_abs, true, false};
ghost use Rattle.std.specs.Prelude.{nat_le, pos, ◌&&◌, ◌-◌, ◌+ℤ◌, ◌*ℤ◌};
ghost use Rattle.lj_task.specs.declared.task_name.Kind.TheVariants.{Force};
ghost use Rattle.lj_step.specs.OpenSteps as steps;
ghost use Rattle.lj_session.specs.Answers.{can_advance};
ghost use Rattle.lj_session.specs.UserState as states;
ghost use Rattle.lj_session.specs.UserState.{settled_session, HasWholeStep};

use lj_base::Label;
use lj_branch::Branches;
use lj_step::{MAX_STEP, Sim};
use lj_task::{Kind, TaskRef};
use lj_xyz::Symbol;
use std::marker::Model;

/// Maximum number of steps of one ADVANCE or START.
const MAX_STEPS: u64 = 1_000_000;

/// The symbols of some atoms, their simulation, its saved copies, and the number of pending steps. Callers use `sim` and
/// `branches` directly, by the contracts of those, and owe the invariant after each change.
#[derive(Drop)]
pub(crate) struct LiveSession {
    symbols: Vec<Symbol>,
    pub(crate) sim: Sim,
    passed: usize,
    pub(crate) branches: Branches,
    pending: u64,
}

impl Model for LiveSession {
    ghost use Rattle.lj_session.specs.UserState.{LiveSession};

    ghost Value = { LiveSession };

    ghost use Rattle.lj_session.specs.KeptSessions.{session_of_kept, IsHeld};

    ghost view = { session_of_kept };

    ghost invariant = { IsHeld };
}

impl LiveSession {
    /// Makes a session without saved simulations and pending steps.
    pub(crate) fn new(symbols: Vec<Symbol>, sim: Sim, branches: Branches) -> LiveSession
        requires symbols { length symbols.items ≡ length sim.sim.cur }
        requires branches { branches ≡ [] }
        ensures { result ≡ record { symbols = symbols.items; live = sim; passed = 0; saved = []; pending = 0 } }
    {
        let _most = sim.step();
        LiveSession {
            symbols,
            sim,
            passed: 0,
            branches,
            pending: 0,
        }
    }

    /// Returns the symbol of an atom.
    pub(crate) fn symbol(&self, atom: usize) -> &Symbol
        requires { atom < length self.now.live.sim.cur }
        ensures { slice_get self.now.symbols atom ≡ Some result.now }
    {
        &self.symbols[atom]
    }

    /// Returns the number of pending steps.
    pub(crate) fn pending(&self) -> u64
        ensures { result ≡ self.now.pending }
    {
        self.pending
    }

    /// Returns the step number after all pending steps.
    #[tactic(auto, using(crate::proofs::PendingSteps::target_is))]
    pub(crate) fn target(&self) -> i64
        ensures value { result ≡ (settled_session self.now).sim.step }
        ensures most { unsigned_abs result ≤ MAX_STEP }
    {
        self.sim.step() + self.sim.dir() * self.pending as i64
    }

    /// Returns whether it may advance by `steps` after the pending steps.
    #[tactic(auto, using(crate::proofs::PendingSteps::dir_is))]
    pub(crate) fn can_advance(&self, steps: u64) -> bool
        ensures { result ≡ can_advance (settled_session self.now) steps }
    {
        leads_in_range(self.target(), self.sim.dir(), steps)
    }

    /// Adds pending steps. If none were pending, the first of them is open then.
    pub(crate) fn add_pending(&mut self, steps: u64)
        requires { can_advance (settled_session self.old) steps ≡ true }
        ensures { self.new ≡ states.with_more_pending steps self.old }
    {
        let _dir = self.sim.dir();
        let _step = self.sim.step();
        let first = steps > 0 && self.pending == 0;
        self.pending += steps;
        if first {
            self.sim.open_step(Kind::Force);
            self.passed = 0;
        }
    }

    /// Opens a step of a kind. No tile of it is posted or in.
    pub(crate) fn open_step(&mut self, kind: Kind)
        ensures { self.new ≡ states.with_step kind self.old }
    {
        self.sim.open_step(kind);
        self.passed = 0;
    }

    /// Closes the open step. The frames stay.
    pub(crate) fn close_step(&mut self)
        ensures { self.new ≡ states.with_no_step self.old }
    {
        self.sim.close_step();
        self.passed = 0;
    }

    /// Restarts its step if one is pending, so that no tile is posted or in; else no step is open then.
    pub(crate) fn restart_step(&mut self)
        ensures { self.new ≡ states.with_step_restarted self.old }
    {
        if self.pending > 0 {
            self.open_step(Kind::Force);
        } else {
            self.close_step();
        }
    }

    /// Returns how many tiles of the open step's cover were posted, or skipped because they were in.
    pub(crate) fn passed(&self) -> usize
        ensures { result ≡ self.now.passed }
    {
        self.passed
    }

    /// Returns the position in the cover of the first tile that is neither posted nor in.
    pub(crate) fn next_tile(&self) -> Option<usize>
        ensures value { result ≡ states.next_tile self.now }
        ensures below { IfSome result (λ i. i < steps.tiles_of self.now.live) }
    {
        self.next_tile_past(self.passed)
    }

    /// Returns the position in the cover of the next tile past the first `from`: the first of them that is awaited.
    fn next_tile_past(&self, from: usize) -> Option<usize>
        ensures value { result ≡ states.next_tile (record self.now { passed = from }) }
        ensures below { IfSome result (λ i. i < steps.tiles_of self.now.live) }
        ensures room { IfSome result (λ i. i < 2 ^ 64 - 1) }
    {
        for i in from..self.sim.tiles() {
            if self.sim.is_tile_awaited(i) {
                return Some(i);
            }
        }
        None
    }

    /// Returns the task of the next tile past the first `from`, by reference, and the position after it.
    pub(crate) fn task_past<'a>(
        &'a self,
        from: usize,
        label: &'a Label,
    ) -> Option<(TaskRef<'a>, usize)>
        ensures task { let session = record self.now { passed = from } in
            IfSome result (λ found. states.next_of label.now (Some session) ≡ Some found.0) }
        ensures passes { let session = record self.now { passed = from } in
            IfSome result (λ found. states.with_posted session ≡ record session { passed = found.1 }) }
        ensures none { let session = record self.now { passed = from } in
            IfNone result (states.next_of label.now (Some session) ≡ None) }
    {
        let i = self.next_tile_past(from)?;
        let task = self.sim.task_ref(i, label)?;
        Some((task, i + 1))
    }

    /// Notes the tiles of the open step's cover before a position as posted, and no other.
    pub(crate) fn post_to(&mut self, to: usize)
        ensures { self.new ≡ states.with_passed to self.old }
    {
        self.passed = to;
    }

    /// Turns a whole force step: the motion advances by one step, one fewer is pending, and the next one is open if
    /// there is one.
    pub(crate) fn finish_step(&mut self)
        requires whole { HasWholeStep Force self.old }
        requires pending { 0 < self.old.pending }
        ensures { self.new ≡ states.with_step_finished self.old }
    {
        let _dir = self.sim.dir();
        let _step = self.sim.step();
        self.sim.turn();
        self.pending -= 1;
        if self.pending > 0 {
            self.sim.open_step(Kind::Force);
            self.passed = 0;
        }
    }
}

/// Returns whether a million steps or fewer lead from a step number in a direction to one in range.
fn leads_in_range(step: i64, dir: i64, steps: u64) -> bool
    requires here { unsigned_abs step ≤ MAX_STEP }
    requires dir { unsigned_abs dir ≡ 1 }
    ensures { result ≡ (nat_le steps MAX_STEPS
        && nat_le (unsigned_abs (step +ℤ dir *ℤ pos steps)) MAX_STEP) }
{
    if steps > MAX_STEPS {
        return false;
    }
    let target = step + dir * steps as i64;
    target.unsigned_abs() <= MAX_STEP
}
