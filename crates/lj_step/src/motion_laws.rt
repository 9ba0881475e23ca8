//! Laws of the motion, over all simulations. The functions do nothing: what counts is what they ensure.
ghost use Rattle.std.specs.Prelude.{◌≡◌, ◌≤◌, ℕ, List, length};
ghost use Rattle.lj_ring.specs.declared.coordinates.Place.{Place};
ghost use Rattle.lj_task.specs.Species.{Composition};
ghost use Rattle.lj_task.specs.declared.task_name.Kind.TheVariants.{Force, Energy};
ghost use Rattle.lj_task.specs.Tiles.{Tile, IsForceCover, IsEnergyCover};
ghost use Rattle.lj_step.specs.Motion.{Simulation, steps, next_simulation, reversal, potential};
ghost use Rattle.lj_base.specs.declared.names.Label.{Label};
ghost use Rattle.lj_step.specs.declared.frames.TheConstants.{MAX_ATOMS};
ghost use Rattle.lj_step.specs.Sim.{Sim};
ghost use Rattle.lj_step.specs.OpenSteps.{cover_tiles, tile_task, tile_of};
ghost use Rattle.lj_step.specs.TileTasks.{HasEnergy, HasForces};
ghost use Rattle.lj_step.specs.MotionLaws.{IsFrameOnRing, IsWellFormed, IsMixture, drift, opposite_push, next_simulation_by, tiles_energy};

/// Promise: for every n, the sequence n steps, reversal, n steps, reversal leaves every simulation unchanged.
pub fn steps_are_undone()
    ensures { (u : Composition) (n : ℕ) (sim : Simulation) → IsWellFormed sim
        → reversal (steps u n (reversal (steps u n sim))) ≡ sim }
{}

/// Promise: steps conserve the drift (the sum of `cur - prev` on the ring). A reversal changes the drift's sign.
pub fn drift_is_conserved()
    ensures steps { (u : Composition) (n : ℕ) (sim : Simulation) → IsMixture u.mix → IsWellFormed sim
        → drift (steps u n sim) ≡ drift sim }
    ensures reverse { (sim : Simulation) → IsWellFormed sim → drift (reversal sim) ≡ opposite_push (drift sim) }
{}

/// Promise: a step computed from any cover, with its tiles in any order, equals the step over all pairs. The energies of a
/// cover's tiles add up to the potential.
pub fn covers_are_all_pairs()
    ensures step { (u : Composition) (sim : Simulation) (tiles : List Tile) → IsForceCover u sim.cur tiles
        → next_simulation_by u tiles sim ≡ next_simulation u sim }
    ensures energy { (u : Composition) (frame : List Place) (tiles : List Tile) → IsEnergyCover u frame tiles
        → tiles_energy u frame tiles ≡ potential u frame }
{}

/// Promise: if there are at most `MAX_ATOMS` atoms, all on the ring, the tiles of a force or energy step are a cover.
pub fn tasks_are_a_cover()
    ensures force { (u : Composition) (frame : List Place) → IsFrameOnRing frame → length frame ≤ MAX_ATOMS
        → IsForceCover u frame (cover_tiles Force u frame) }
    ensures energy { (u : Composition) (frame : List Place) → IsFrameOnRing frame → length frame ≤ MAX_ATOMS
        → IsEnergyCover u frame (cover_tiles Energy u frame) }
{}

/// Promise: the sums of a tile's task are the tile's pushes on the atoms or, in an energy step, the tile's energy.
pub fn tasks_are_the_tiles()
    ensures force { (live : Sim) (label : Label) (k : ℕ)
        → HasForces live.composition live.sim.cur (tile_of Force k) (tile_task live label Force k) }
    ensures energy { (live : Sim) (label : Label) (k : ℕ)
        → HasEnergy live.composition live.sim.cur (tile_of Energy k) (tile_task live label Energy k) }
{}
