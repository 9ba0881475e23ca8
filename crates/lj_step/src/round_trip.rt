//! The round trip: steps forward and as many back leave a simulation as it was.
ghost use Rattle.std.specs.Prelude.{◌≡◌, ◌≤◌, ◌<◌, ◌+◌, ◌*◌, ◌^◌, ◌+ℤ◌, unsigned_abs};
ghost use Rattle.lj_step.specs.declared.simulations.TheConstants.{MAX_STEP};
ghost use Rattle.lj_step.specs.Motion as motion;
ghost use Rattle.lj_step.specs.MotionLaws.{drift};
ghost use Rattle.lj_step.specs.OpenSteps.{with_step_closed};

use crate::Sim;
use lj_base::Label;
use lj_task::{Kernel, Kind};

/// Makes `steps` steps, reverses, makes as many steps back and reverses again. Nothing has changed then, except that an
/// open step is closed.
///
/// ```rust
/// // two atoms at rest, 1.5 apart in a box of 256, with sigma 1 and step factor 131072
/// there_and_back(&mut sim, 100, &label, &kernel);
/// assert_eq!((sim.step(), sim.dir(), sim.place(1).x), (0, 1, 25_165_824));
/// ```
///
/// Promise: n steps, a reversal, n steps and a reversal change nothing, except that an open step is closed. Every task is computed
/// and accepted.
pub fn there_and_back<K: Kernel>(sim: &mut Sim, steps: u32, label: &Label, kernel: &K)
    requires { unsigned_abs sim.old.sim.step + 2 * steps < MAX_STEP }
    ensures { sim.new ≡ with_step_closed sim.old sim.old.sim }
{
    let _whole = sim.count();
    go(sim, steps, label, kernel);
    sim.reverse();
    go(sim, steps, label, kernel);
    sim.reverse();
}

/// Makes `steps` steps, and has each task computed by a kernel.
///
/// ```rust
/// // two atoms at rest, 1.5 apart in a box of 256, with sigma 1 and step factor 131072
/// go(&mut sim, 2, &label, &kernel);
/// assert_eq!(sim.place(0).x, 1774);
/// ```
pub fn go<K: Kernel>(sim: &mut Sim, steps: u32, label: &Label, kernel: &K)
    requires { unsigned_abs sim.old.sim.step + steps ≤ MAX_STEP }
    ensures composition { sim.new.composition ≡ sim.old.composition }
    ensures motion { sim.new.sim ≡ motion.steps sim.old.composition steps sim.old.sim }
    ensures drift { drift sim.new.sim ≡ drift sim.old.sim }
    ensures step { unsigned_abs sim.new.sim.step ≤ unsigned_abs sim.old.sim.step + steps }
    ensures dir { unsigned_abs sim.new.sim.dir ≡ 1 }
{
    let (_whole, _near, _dir) = (sim.count(), sim.mix(), sim.dir());
    for _ in 0..steps {
        step(sim, label, kernel);
    }
}

/// Makes one step, and has its tasks computed one after the other.
fn step<K: Kernel>(sim: &mut Sim, label: &Label, kernel: &K)
    requires { unsigned_abs (sim.old.sim.step +ℤ sim.old.sim.dir) ≤ MAX_STEP }
    ensures { sim.new ≡ with_step_closed sim.old (motion.next_simulation sim.old.composition sim.old.sim) }
{
    sim.open_step(Kind::Force);
    for i in 0..sim.tiles() {
        let task = sim.task(i, label).unwrap();
        let _ = sim.accept(label, kernel.compute(task));
    }
    sim.turn();
}
