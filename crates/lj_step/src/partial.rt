//! The partial sums of an open step, over the tiles whose results are in.
ghost use Rattle.std.specs.Prelude.{◌≡◌, ◌≤◌, ◌+◌, ◌-◌, ◌*◌, ◌^◌, ℕ, pos, ◌+ℤ◌, unsigned_abs, length, map};
ghost use Rattle.std.specs.Prelude.{count_by, slice_index_or, slice_set, vec_capacity, IfOk, Some, None, false, true};
ghost use Rattle.std.specs.List.{range_with_len};
ghost use Rattle.std.proofs.Common.{replicate};
ghost use Rattle.lj_task.specs.declared.task_name.Kind.TheVariants.{Force, Energy};
ghost use Rattle.lj_task.specs.Pushes.{no_push};
ghost use Rattle.lj_task.specs.Task.{task_energy};
ghost use Rattle.lj_step.specs.declared.frames.TheConstants.{MAX_ATOMS};
ghost use Rattle.lj_step.specs.OpenSteps as steps;
ghost use Rattle.lj_step.specs.Sums.{HasCapacity, CanAdd, HasKeptTiles, HasAdded, HasBlockAdded, HasPartAdded, sum_of};
ghost use Rattle.lj_step.specs.KeptSims.{block_arcs, set_numbers};

use crate::atoms::Atoms;
use crate::cover::{block, blocks, is_tile};
use crate::tile_id::TileId;
use lj_ring::{Arcs, Place};
use lj_task::{BLOCK, DoneRef, Kind, MAX_BLOCKS, Push};
use std::alloc::{AllocError, Global};

/// The tiles and sums of the open step, in memory that is enough for any step.
#[derive(Drop)]
pub(crate) struct Partial {
    /// The kind of the open step; `None` if no step is open.
    pub kind: Option<Kind>,
    /// The arcs of each block of the frame.
    pub arcs: Vec<Arcs>,
    /// The cover's tiles, in order of their numbers.
    pub tiles: Vec<TileId>,
    /// For each tile number, whether the tile is still awaited.
    pub awaited: Vec<bool>,
    /// The number of awaited tiles.
    pub left: usize,
    /// For each atom, the sum of the pushes of the tiles that are in.
    pub pushes: Vec<Push>,
    /// The sum of the energies of the tiles that are in.
    pub energy: i128,
}

impl Partial {
    /// Makes sums with no step open, and reserves memory for steps of `count` atoms.
    pub fn new(alloc: Global, count: usize) -> Result<Partial, AllocError>
        requires { count ≤ MAX_ATOMS }
        ensures room { IfOk result (λ p. HasCapacity count p) }
        ensures closed { IfOk result (λ p. p.kind ≡ None) }
    {
        let blocks = blocks(count);
        let numbers = BLOCK * blocks;
        Ok(Partial {
            kind: None,
            arcs: Vec::with_capacity(alloc, blocks)?,
            tiles: Vec::with_capacity(alloc, numbers)?,
            awaited: vec![in alloc; false; numbers]?,
            left: 0,
            pushes: vec![in alloc; Push::NONE; count]?,
            energy: 0,
        })
    }

    /// Opens a step over a frame, which awaits all its tiles.
    pub fn open(&mut self, kind: Kind, atoms: &Atoms, frame: &[Place])
        requires room { HasCapacity (length frame.now) self.old }
        requires most { length frame.now ≤ MAX_ATOMS }
        ensures room { HasCapacity (length frame.now) self.new }
        ensures kind { self.new.kind ≡ Some kind }
        ensures tiles { self.new.tiles.items ≡ steps.cover atoms.now frame.now }
        ensures awaited { self.new.awaited.items ≡ steps.all_awaited atoms.now frame.now }
        ensures left { self.new.left ≡ length (steps.cover atoms.now frame.now) }
        ensures pushes { self.new.pushes.items ≡ replicate (length frame.now) no_push }
        ensures energy { self.new.energy ≡ pos 0 }
    {
        list_arcs(&mut self.arcs, frame);
        await_tiles(&mut self.awaited, self.arcs.as_slice(), atoms, frame);
        list_tiles(&mut self.tiles, self.awaited.as_slice());
        clear(&mut self.pushes);
        self.left = self.tiles.as_slice().len();
        self.energy = 0;
        self.kind = Some(kind);
    }

    /// Adds the sums of an awaited tile, which is then in.
    pub fn add(&mut self, done: &DoneRef<'_>)
        requires { CanAdd done.now self.old }
        ensures kept { HasKeptTiles self.old self.new }
        ensures awaited { self.new.awaited.items
            ≡ slice_set self.old.awaited.items (steps.tile_number_of done.now) false }
        ensures left { self.new.left + 1 ≡ self.old.left }
        ensures pushes { HasAdded done.now self.old.pushes.items self.new.pushes.items }
        ensures energy { done.now.name.kind ≡ Energy
            → self.new.energy ≡ self.old.energy +ℤ task_energy done.now }
        ensures size { unsigned_abs self.new.energy ≤ unsigned_abs self.old.energy + 2 ^ 63 }
    {
        let name = done.task().name();
        let number = TileId::of_task(done.task()).number();
        match name.kind {
            Kind::Force => add_pushes(self.pushes.as_mut_slice(), done),
            Kind::Energy => self.energy = plus_energy(self.energy, done),
        }
        self.awaited[number] = false;
        self.left -= 1;
    }
}

/// Writes the arcs of the blocks of a frame to the list reserved for them.
fn list_arcs(arcs: &mut Vec<Arcs>, frame: &[Place])
    requires room { steps.blocks (length frame.now) ≤ vec_capacity arcs.old }
    requires most { length frame.now ≤ MAX_ATOMS }
    ensures arcs { arcs.new.items
        ≡ map (block_arcs frame.now) (range_with_len 0 (steps.blocks (length frame.now))) }
    ensures room { vec_capacity arcs.new ≡ vec_capacity arcs.old }
{
    arcs.clear();
    for index in 0..blocks(frame.len()) {
        arcs.push_reserved(Arcs::of(block(frame, index)));
    }
}

/// Sets the flag of each tile of the cover, and clears the others.
fn await_tiles(awaited: &mut Vec<bool>, arcs: &[Arcs], atoms: &Atoms, frame: &[Place])
    requires room { length awaited.old.items ≡ BLOCK * steps.blocks (length frame.now) }
    requires most { length frame.now ≤ MAX_ATOMS }
    requires arcs { arcs.now
        ≡ map (block_arcs frame.now) (range_with_len 0 (steps.blocks (length frame.now))) }
    ensures { awaited.new.items ≡ steps.all_awaited atoms.now frame.now }
{
    for number in 0..BLOCK * blocks(frame.len()) {
        awaited[number] = is_tile(TileId::of_number(number), arcs, atoms, frame);
    }
}

/// Writes the awaited tiles to the list reserved for them.
fn list_tiles(tiles: &mut Vec<TileId>, awaited: &[bool])
    requires room { length awaited.now ≤ vec_capacity tiles.old }
    requires most { length awaited.now ≤ BLOCK * MAX_BLOCKS }
    ensures tiles { tiles.new.items ≡ set_numbers awaited.now }
    ensures room { vec_capacity tiles.new ≡ vec_capacity tiles.old }
{
    tiles.clear();
    for (number, is_awaited) in awaited.iter().enumerate() {
        if *is_awaited {
            tiles.push_reserved(TileId::of_number(number));
        }
    }
}

fn clear(pushes: &mut Vec<Push>)
    ensures { pushes.new.items ≡ replicate (length pushes.old.items) no_push }
{
    pushes.as_mut_slice().fill(Push::NONE);
}

/// Adds the sums of a force task to those of its two blocks' atoms, once if they are the same block.
fn add_pushes(pushes: &mut [Push], done: &DoneRef<'_>)
    requires kind { done.now.name.kind ≡ Force }
    requires first { steps.tile_number done.now.name.bi (length done.now.a.places) ≤ length pushes.old }
    requires second { steps.tile_number done.now.name.bj (length done.now.b.places) ≤ length pushes.old }
    ensures { HasAdded done.now pushes.old pushes.new }
{
    let name = done.task().name();
    add_block(pushes, usize::from(name.bi), done.sums());
    if name.bi < name.bj {
        add_block(pushes, usize::from(name.bj), done.second_sums());
    }
}

/// Adds sums to those of a block's atoms, one for each place.
fn add_block(pushes: &mut [Push], index: usize, sums: &[Push])
    requires count { steps.tile_number index (length sums.now) ≤ length pushes.old }
    ensures { HasBlockAdded index (length sums.now) (sum_of sums.now) pushes.old pushes.new }
{
    let start = BLOCK * index;
    let fours = sums.len() / 4;
    add_fours(pushes, start, sums, fours);
    add_rest(pushes, start, sums, 4 * fours);
}

/// Adds the first `4 * fours` sums to those from `start` on.
fn add_fours(pushes: &mut [Push], start: usize, sums: &[Push], fours: usize)
    requires enough { 4 * fours ≤ length sums.now }
    requires count { start + length sums.now ≤ length pushes.old }
    ensures { HasPartAdded start 0 (4 * fours) (sum_of sums.now) pushes.old pushes.new }
{
    for group in 0..fours {
        add_four(pushes, start, sums, 4 * group);
    }
}

/// Adds four sums. It reads all of them before it writes, so that they are added side by side.
#[inline]
fn add_four(pushes: &mut [Push], start: usize, sums: &[Push], from: usize)
    requires enough { from + 4 ≤ length sums.now }
    requires count { start + length sums.now ≤ length pushes.old }
    ensures { HasPartAdded start from (from + 4) (sum_of sums.now) pushes.old pushes.new }
{
    let at = start + from;
    let first = pushes[at].plus(sums[from]);
    let second = pushes[at + 1].plus(sums[from + 1]);
    let third = pushes[at + 2].plus(sums[from + 2]);
    let fourth = pushes[at + 3].plus(sums[from + 3]);
    pushes[at] = first;
    pushes[at + 1] = second;
    pushes[at + 2] = third;
    pushes[at + 3] = fourth;
}

/// Adds the sums from `from` on.
fn add_rest(pushes: &mut [Push], start: usize, sums: &[Push], from: usize)
    requires within { from ≤ length sums.now }
    requires count { start + length sums.now ≤ length pushes.old }
    ensures { HasPartAdded start from (length sums.now) (sum_of sums.now) pushes.old pushes.new }
{
    for place in from..sums.len() {
        pushes[start + place] = pushes[start + place].plus(sums[place]);
    }
}

fn plus_energy(energy: i128, done: &DoneRef<'_>) -> i128
    requires kind { done.now.name.kind ≡ Energy }
    requires size { unsigned_abs energy + 2 ^ 63 ≤ 2 ^ 75 }
    ensures value { result ≡ energy +ℤ task_energy done.now }
    ensures size { unsigned_abs result ≤ unsigned_abs energy + 2 ^ 63 }
{
    energy + i128::from(done.energy_sum())
}
