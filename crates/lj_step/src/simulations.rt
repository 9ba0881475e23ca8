//! Simulations: the two frames, the open step, and the measures.
ghost use Rattle.std.specs.Prelude.{◌≡◌, ◌≤◌, ◌<◌, ◌+◌, ◌^◌, pos, ◌+ℤ◌, ◌-ℤ◌, length, unsigned_abs, IfOk};
ghost use Rattle.std.specs.Prelude.{Some, None, true, false, ℕ, ◌*◌, slice_index_or, []};
ghost use Rattle.std.specs.Prelude.{◌∷◌};
ghost use Rattle.lj_task.specs.declared.task_name.Kind.TheVariants.{Force, Energy};
ghost use Rattle.lj_ring.specs.Ring.{ring_residue};
ghost use Rattle.lj_ring.specs.Mix.{edge_of};
ghost use Rattle.lj_task.specs.Pushes.{no_push};
ghost use Rattle.lj_step.specs.declared.frames.TheConstants.{MAX_ATOMS};
ghost use Rattle.lj_step.specs.declared.simulations.TheConstants.{MAX_STEP};
ghost use Rattle.lj_step.specs.Motion as motion;
ghost use Rattle.lj_step.specs.OpenSteps as steps;
ghost use Rattle.lj_step.specs.Sets.{number_of_bits};
ghost use Rattle.lj_step.specs.MotionLaws.{IsMixture, IsWellFormed};

mod tile_tasks;

use crate::atoms::Atoms;
use crate::frames::{Frames, next_place, overwrite};
use crate::measures::{self, Momentum};
use crate::partial::Partial;
use crate::snapshots::Snapshot;
use crate::step_frames::StepFrames;
use lj_ring::{Edge, Mix, Place};
use lj_task::{Done, Kind, Push};
use std::alloc::{AllocError, Global};
use std::marker::Model;
use std::mem;

/// Maximum absolute value of a step number.
pub const MAX_STEP: u64 = 1_000_000_000_000;

/// The direction of the step numbers.
#[derive(Clone, Copy, PartialEq, Eq, Debug)]
pub(crate) enum Direction {
    Forward,
    Backward,
}

impl Direction {
    ghost use Rattle.lj_step.specs.KeptSims.{sign_of};
    ghost use Rattle.std.specs.Prelude.{neg_ℤ};

    fn sign(self) -> i64
        ensures value { result ≡ sign_of self }
        ensures size { unsigned_abs result ≡ 1 }
    {
        match self {
            Direction::Forward => 1,
            Direction::Backward => -1,
        }
    }

    fn turned(self) -> Direction
        ensures { sign_of result ≡ neg_ℤ (sign_of self) }
    {
        match self {
            Direction::Forward => Direction::Backward,
            Direction::Backward => Direction::Forward,
        }
    }
}

/// A displacement of an atom, in ring units along each axis.
#[derive(Clone, Copy, PartialEq, Eq, Debug)]
pub struct Displacement {
    pub x: i32,
    pub y: i32,
    pub z: i32,
}

/// The fault that the open step does not await a result.
#[derive(Clone, Copy, PartialEq, Eq, Debug)]
pub struct NotAwaited;

/// A result that the open step does not await, handed back.
#[derive(Debug, Drop)]
pub struct Stray {
    pub done: Done,
}

/// A simulation: two frames one step apart, its step number and direction, the composition of its atoms, and the open
/// step. The caller opens a step, has its tasks computed in any order, accepts their results, and turns the step when
/// it is whole.
#[derive(Drop)]
pub struct Sim {
    atoms: Atoms,
    prev: Vec<Place>,
    cur: Vec<Place>,
    step: i64,
    dir: Direction,
    partial: Partial,
    shared: StepFrames,
}

impl Model for Sim {
    ghost use Rattle.lj_step.specs.Sim.{Sim};

    ghost Value = { Sim };

    ghost use Rattle.lj_step.specs.KeptSims.{sim_of, IsSound};

    ghost view = { sim_of };

    ghost invariant = { IsSound };
}

impl Sim {
    /// Makes a simulation at step 0 that goes forward. It reserves the memory for steps; of the other calls only
    /// `snapshot` takes memory.
    ///
    /// Bit `t` of `species_bits[b]` is 1 if atom `t` of block `b` of 64 atoms is of the second species of the mixture. Atoms
    /// of blocks past the last of `species_bits` are of the first.
    ///
    /// ```rust
    /// // `frames` as in the example of `Frames`: the atoms are 1.5 sigma apart in a box of 256 sigma
    /// let mix = Mix::one(Scale::new(parse_nano(b"256")?, parse_nano(b"1")?, 131_072)?);
    /// let sim = Sim::new(alloc, frames, Vec::new(alloc), mix)?;
    /// assert_eq!((sim.count(), sim.step(), sim.dir()), (2, 0, 1));
    /// ```
    pub fn new(
        alloc: Global,
        frames: Frames,
        species_bits: Vec<u64>,
        mix: Mix,
    ) -> Result<Sim, AllocError>
        requires same { length frames.prev ≡ length frames.cur }
        requires some { 1 ≤ length frames.cur }
        requires most { length frames.cur ≤ MAX_ATOMS }
        ensures { IfOk result (λ s. s ≡ record {
          composition = record { mix = mix; species_bits = number_of_bits species_bits.items };
          sim = motion.opening frames.prev frames.cur;
          part = None;
        }) }
    {
        let partial = Partial::new(alloc, frames.cur.count())?;
        let shared = StepFrames::new(alloc, frames.cur.count())?;
        Ok(Sim {
            atoms: Atoms::new(mix, species_bits),
            prev: frames.prev.into_places(),
            cur: frames.cur.into_places(),
            step: 0,
            dir: Direction::Forward,
            partial,
            shared,
        })
    }

    /// Reverses the motion: exchanges the frames. An open step is closed.
    ///
    /// ```rust
    /// // `sim` as in the example of `new`, after two steps
    /// sim.reverse();
    /// assert_eq!((sim.step(), sim.dir(), sim.place(0).x), (1, -1, 589));
    /// ```
    pub fn reverse(&mut self)
        ensures value { self.new ≡ steps.with_step_closed self.old (motion.reversal self.old.sim) }
        ensures count { length self.new.sim.cur ≡ length self.old.sim.cur }
    {
        mem::swap(&mut self.prev, &mut self.cur);
        self.step -= self.dir.sign();
        self.dir = self.dir.turned();
        self.partial.kind = None;
        self.shared.is_written = false;
    }

    /// Adds `d` to the displacement of atom `i` per step, by moving its previous place back. An open step is closed.
    ///
    /// ```rust
    /// // `sim` as in the example of `new`
    /// sim.tug(0, Displacement { x: 5, y: 0, z: 0 });
    /// assert_eq!((sim.momentum(), sim.place(0).x), ([5, 0, 0], 0));
    /// ```
    pub fn tug(&mut self, i: usize, d: Displacement)
        requires { i < length self.old.sim.cur }
        ensures { self.new ≡ steps.with_step_closed self.old
            (motion.with_tug i (record { x = d.x; y = d.y; z = d.z }) self.old.sim) }
    {
        self.prev[i] = moved_back(self.prev[i], d);
        self.partial.kind = None;
    }

    /// Returns the momentum: the sums over all atoms of the images of `cur - prev` along x, y and z, each below 2^44 in
    /// size.
    ///
    /// ```rust
    /// // `sim` as in the example of `new`
    /// sim.tug(0, Displacement { x: 5, y: -7, z: 0 });
    /// sim.tug(1, Displacement { x: 1, y: 0, z: 0 });
    /// assert_eq!(sim.momentum(), [6, -7, 0]);
    /// ```
    pub fn momentum(&self) -> [i64; 3]
        ensures { let m = motion.momentum self.now.sim in result ≡ m.x ∷ m.y ∷ m.z ∷ [] }
    {
        let sum = measures::momentum_of(self.prev.as_slice(), self.cur.as_slice());
        [sum.x, sum.y, sum.z]
    }

    /// Returns the kinetic number: the sum of the squares of the same images, in square ring units.
    ///
    /// ```rust
    /// // `sim` as in the example of `new`, after two steps
    /// assert_eq!(sim.kinetic(), 2_808_450);
    /// ```
    pub fn kinetic(&self) -> u128
        ensures { result ≡ motion.kinetic self.now.sim }
    {
        measures::kinetic_of(self.prev.as_slice(), self.cur.as_slice())
    }

    /// Returns a copy of both frames, the step number and the direction.
    ///
    /// ```rust
    /// // `sim` as in the example of `new`, after two steps
    /// let snapshot = sim.snapshot()?;
    /// assert_eq!((snapshot.step(), snapshot.count()), (2, 2));
    /// ```
    pub fn snapshot(&self) -> Result<Snapshot, AllocError>
        ensures { IfOk result (λ s. s ≡ self.now.sim) }
    {
        let alloc = *self.cur.allocator();
        Ok(Snapshot {
            prev: Vec::from_slice(alloc, self.prev.as_slice())?,
            cur: Vec::from_slice(alloc, self.cur.as_slice())?,
            step: self.step(),
            dir: self.dir,
        })
    }

    /// Restores both frames, the step number and the direction from a snapshot, which stays. An open step is closed.
    ///
    /// ```rust
    /// // `sim` as in the example of `new`, two steps after `snapshot` was taken of it
    /// sim.restore(&snapshot);
    /// assert_eq!((sim.step(), sim.place(0).x), (0, 0));
    /// ```
    pub fn restore(&mut self, snapshot: &Snapshot)
        requires { length snapshot.now.cur ≡ length self.old.sim.cur }
        ensures { self.new ≡ steps.with_step_closed self.old snapshot.now }
    {
        overwrite(&mut self.prev, snapshot.prev.as_slice());
        overwrite(&mut self.cur, snapshot.cur.as_slice());
        self.step = snapshot.step;
        self.dir = snapshot.dir;
        self.partial.kind = None;
        self.shared.is_written = false;
    }

    /// Opens a step of a kind, which awaits the results of all its tiles: one for each two blocks of 64 atoms that may
    /// be within reach of each other, and one for each block of two or more atoms. A step without tiles is whole at
    /// once. A step that was open is dropped.
    ///
    /// ```rust
    /// // `sim` as in the example of `new`
    /// sim.open_step(Kind::Force);
    /// assert_eq!((sim.tiles(), sim.is_whole()), (1, false));
    /// ```
    pub fn open_step(&mut self, kind: Kind)
        ensures { self.new
            ≡ record self.old { part = Some (steps.opened_step kind self.old.composition self.old.sim.cur) } }
    {
        self.shared.write(self.cur.as_slice());
        self.partial.open(kind, &self.atoms, self.cur.as_slice());
    }

    /// Closes the open step, and drops its sums. The frames stay.
    ///
    /// ```rust
    /// // `sim` as in the example of `new`
    /// sim.open_step(Kind::Force);
    /// sim.close_step();
    /// assert_eq!(sim.tiles(), 0);
    /// ```
    pub fn close_step(&mut self)
        ensures { self.new ≡ steps.with_step_closed self.old self.old.sim }
    {
        self.partial.kind = None;
    }

    /// Returns whether a step is open and all its tiles are in.
    ///
    /// ```rust
    /// // `sim` as in the example of `new`, with a step open, and `done` the result of its one tile under `label`
    /// assert!(!sim.is_whole());
    /// assert!(sim.accept(&label, done).is_ok());
    /// assert!(sim.is_whole());
    /// ```
    pub fn is_whole(&self) -> bool
        ensures { result ≡ steps.is_whole self.now.part }
    {
        self.partial.kind.is_some() && self.partial.left == 0
    }

    /// Advances the motion by a whole force step. No step is open afterwards.
    ///
    /// ```rust
    /// // `sim` as in the example of `new`, with a force step open, and the result of its one tile in
    /// sim.turn();
    /// assert_eq!((sim.step(), sim.place(0).x), (1, 589));
    /// ```
    ///
    /// Promise: when a force step has all its sums, the simulation makes the step defined over all pairs.
    pub fn turn(&mut self)
        requires kind { steps.kind_of self.old.part ≡ Some Force }
        requires whole { steps.is_whole self.old.part ≡ true }
        requires step { unsigned_abs (self.old.sim.step +ℤ self.old.sim.dir) ≤ MAX_STEP }
        ensures { self.new
            ≡ steps.with_step_closed self.old (motion.next_simulation self.old.composition self.old.sim) }
    {
        advance(
            &mut self.prev,
            self.cur.as_slice(),
            self.partial.pushes.as_slice(),
        );
        mem::swap(&mut self.prev, &mut self.cur);
        self.step += self.dir.sign();
        self.partial.kind = None;
        self.shared.is_written = false;
    }

    /// Returns the potential once an energy step is whole: the sum of the energies of all pairs, in units of 2^-24 ε.
    ///
    /// ```rust
    /// // `sim` as in the example of `new`, with an energy step open, and the result of its one tile in
    /// assert_eq!(sim.potential(), -5_349_132);
    /// ```
    ///
    /// Promise: when an energy step has all its sums, the result is the sum of the energies of all pairs.
    pub fn potential(&self) -> i128
        requires kind { steps.kind_of self.now.part ≡ Some Energy }
        requires whole { steps.is_whole self.now.part ≡ true }
        ensures { result ≡ motion.potential self.now.composition self.now.sim.cur }
    {
        self.partial.energy
    }

    /// Returns the present place of atom `i`.
    ///
    /// ```rust
    /// // `sim` as in the example of `new`, after one step
    /// assert_eq!(sim.place(1), Place { x: 25_165_235, y: 0, z: 0 });
    /// ```
    pub fn place(&self, i: usize) -> Place
        requires { i < length self.now.sim.cur }
        ensures { result ≡ motion.place_at self.now.sim.cur i }
    {
        self.cur[i]
    }

    /// Returns the edge of the box.
    ///
    /// ```rust
    /// // `sim` as in the example of `new`
    /// assert_eq!(sim.edge().nano(), 256_000_000_000);
    /// ```
    pub fn edge(&self) -> Edge
        ensures { result ≡ edge_of self.now.composition.mix }
    {
        self.atoms.mix().edge()
    }

    /// Returns the mixture. No pair that interacts lies half the box apart.
    ///
    /// ```rust
    /// // `sim` and `mix` as in the example of `new`
    /// assert_eq!(sim.mix(), mix);
    /// ```
    pub fn mix(&self) -> Mix
        ensures value { result ≡ self.now.composition.mix }
        ensures near { IsMixture self.now.composition.mix }
    {
        let mix = self.atoms.mix();
        let _reach = mix.reach();
        *mix
    }

    /// Returns the step number, at most `MAX_STEP` in size.
    ///
    /// ```rust
    /// // `sim` as in the example of `new`, after two steps
    /// assert_eq!(sim.step(), 2);
    /// ```
    pub fn step(&self) -> i64
        ensures value { result ≡ self.now.sim.step }
        ensures most { unsigned_abs result ≤ MAX_STEP }
    {
        self.step
    }

    /// Returns the direction, which a step adds to the step number: 1 or -1.
    ///
    /// ```rust
    /// // `sim` as in the example of `new`
    /// sim.reverse();
    /// assert_eq!(sim.dir(), -1);
    /// ```
    pub fn dir(&self) -> i64
        ensures value { result ≡ self.now.sim.dir }
        ensures size { unsigned_abs result ≡ 1 }
    {
        self.dir.sign()
    }

    /// Returns the number of atoms, 1 to `MAX_ATOMS`.
    ///
    /// ```rust
    /// // `sim` as in the example of `new`
    /// assert_eq!(sim.count(), 2);
    /// ```
    pub fn count(&self) -> usize
        ensures value { result ≡ length self.now.sim.cur }
        ensures some { 1 ≤ result }
        ensures most { result ≤ MAX_ATOMS }
        ensures whole { IsWellFormed self.now.sim }
    {
        self.cur.as_slice().len()
    }
}

/// Overwrites `prev`, the frame before `cur`, with the frame after it, by the pushes on all atoms.
fn advance(prev: &mut Vec<Place>, cur: &[Place], pushes: &[Push])
    requires same { length prev.old.items ≡ length cur.now }
    requires pushes { length pushes.now ≡ length cur.now }
    ensures count { length prev.new.items ≡ length cur.now }
    ensures places { (i : ℕ) → i < length cur.now
        → motion.place_at prev.new.items i ≡ motion.next_place (motion.place_at prev.old.items i)
        (motion.place_at cur.now i) (slice_index_or pushes.now i no_push) }
{
    for i in 0..cur.len() {
        prev[i] = next_place(prev[i], cur[i], pushes[i]);
    }
}

/// Returns a place moved back by a displacement, on the ring.
fn moved_back(place: Place, by: Displacement) -> Place
    ensures x { result.x ≡ ring_residue (pos place.x -ℤ by.x) }
    ensures y { result.y ≡ ring_residue (pos place.y -ℤ by.y) }
    ensures z { result.z ≡ ring_residue (pos place.z -ℤ by.z) }
{
    Place {
        x: place.x.wrapping_sub(by.x.cast_unsigned()),
        y: place.y.wrapping_sub(by.y.cast_unsigned()),
        z: place.z.wrapping_sub(by.z.cast_unsigned()),
    }
}
