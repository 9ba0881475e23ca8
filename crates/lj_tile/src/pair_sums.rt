//! Sums of the pushes of a list of pairs of one class.
ghost use Rattle.std.specs.Prelude.{◌≡◌, ◌≤◌, ◌<◌, ◌+◌, ℕ, [], length, take, drop, slice_index, slice_index_or, slice_set};
ghost use Rattle.lj_ring.specs.Ring.{IsOnRing};
ghost use Rattle.lj_ring.specs.Scale.{IsScale};
ghost use Rattle.lj_tile.specs.declared.near_pairs.TheConstants.{FULL};
ghost use Rattle.lj_tile.specs.Lanes.{AreApartBy, IsPlace};
ghost use Rattle.lj_task.specs.Pushes as pushes_of;
ghost use Rattle.lj_task.specs.Pushes.{no_push, sum_of_pushes, opposite_push};
ghost use Rattle.lj_tile.specs.Pairs as pairs_of;
ghost use Rattle.lj_tile.specs.Pairs.{place_on, AreOfBlocks, AreOnRing, ArePairs, HavePushes};
ghost use Rattle.lj_tile.specs.PairTotals.{HaveTotals};
ghost use Rattle.lj_task.specs.Task.{IsTask};
ghost use Rattle.lj_task.specs.Tiles.{place_at};

use crate::near_pairs::NearPairs;
use crate::pair_lanes::{Eight, pushes};
use crate::pairs::pair_push;
use lj_ring::{Place, Scale};
use lj_table::Table;
use lj_task::{BLOCK, ForceSums, Push, TaskRef};
use std::simd::prelude::*;

/// The places of the two blocks of a task, and the table in which their pairs are looked up.
#[derive(Clone, Copy)]
pub(crate) struct BlockPair<'a> {
    pub(crate) first: &'a [Place],
    pub(crate) second: &'a [Place],
    pub(crate) table: &'a Table,
    ghost of_blocks: { AreOfBlocks first.now second.now },
}

impl<'a> BlockPair<'a> {
    /// Returns the places of the blocks of a task, with a table.
    #[inline(always)]
    pub(crate) fn new(task: &TaskRef<'a>, table: &'a Table) -> BlockPair<'a>
        requires first { AreOnRing task.now.a.places }
        requires second { AreOnRing task.now.b.places }
        ensures first { result.first.now ≡ task.now.a.places }
        ensures second { result.second.now ≡ task.now.b.places }
        ensures sound { IsTask task.now }
    {
        BlockPair {
            first: task.first().places(),
            second: task.second().places(),
            table,
        }
    }
}

/// Adds the pushes of a list's pairs in whole eights to the sums of their places, and drops these pairs: fewer than
/// eight are left.
pub(crate) fn work_off(
    pairs: &mut NearPairs,
    blocks: &BlockPair<'_>,
    scale: &Scale,
    sums: &mut ForceSums,
)
    requires few { length pairs.old < FULL + BLOCK }
    requires pairs { ArePairs blocks.now.first.now blocks.now.second.now pairs.old }
    ensures few { length pairs.new < 8 }
    ensures pairs { ArePairs blocks.now.first.now blocks.now.second.now pairs.new }
    ensures totals { HaveTotals scale.now blocks.now.first.now blocks.now.second.now
        (record { pairs = pairs.old; sums = sums.old }) (record { pairs = pairs.new; sums = sums.new }) }
{
    let done = add_eights(pairs, blocks, scale, sums);
    pairs.keep_from(done);
}

/// Adds the pushes of all pairs of a list to the sums of their places.
pub(crate) fn add_all(
    pairs: &NearPairs,
    blocks: &BlockPair<'_>,
    scale: &Scale,
    sums: &mut ForceSums,
)
    requires pairs { ArePairs blocks.now.first.now blocks.now.second.now pairs.now }
    ensures { HavePushes scale.now blocks.now.first.now blocks.now.second.now pairs.now sums.old sums.new }
{
    let _room = sums.room();
    let done = add_eights(pairs, blocks, scale, sums);
    for i in done..pairs.len() {
        let pair = pairs.at(i);
        let push = pair_push(
            blocks.table,
            scale,
            &blocks.first[first_of(pair)],
            &blocks.second[second_of(pair)],
        );
        add(pair, push, sums);
    }
}

/// Adds the pushes of a list's pairs, eight at a time, and returns how many pairs it added: fewer than eight are left.
#[inline(always)]
fn add_eights(
    pairs: &NearPairs,
    blocks: &BlockPair<'_>,
    scale: &Scale,
    sums: &mut ForceSums,
) -> usize
    requires pairs { ArePairs blocks.now.first.now blocks.now.second.now pairs.now }
    ensures within { result ≤ length pairs.now }
    ensures left { length pairs.now < result + 8 }
    ensures sums { HavePushes scale.now blocks.now.first.now blocks.now.second.now (take result pairs.now) sums.old sums.new }
{
    let blocks = *blocks; // so that its fields stay in registers while sums are written
    let mut at = 0;
    while pairs.len() >= at + 8 {
        add_eight(pairs, at, &blocks, scale, sums);
        at += 8;
    }
    at
}

/// Adds the pushes of eight pairs of a list, from `at` on.
#[inline(always)]
fn add_eight(
    pairs: &NearPairs,
    at: usize,
    blocks: &BlockPair<'_>,
    scale: &Scale,
    sums: &mut ForceSums,
)
    requires within { at + 8 ≤ length pairs.now }
    requires few { at + 8 < FULL + BLOCK }
    requires pairs { ArePairs blocks.now.first.now blocks.now.second.now pairs.now }
    ensures { HavePushes scale.now blocks.now.first.now blocks.now.second.now (take 8 (drop at pairs.now)) sums.old sums.new }
{
    let eight = pushes(&apart(pairs, at, blocks), scale, blocks.table);
    let (x, y, z) = (eight.x.to_array(), eight.y.to_array(), eight.z.to_array());
    // Reading the step factor shows that no pair that interacts lies half the box apart: opposite pushes are exact.
    let _step_factor = scale.step_factor();
    let _room = sums.room();
    for k in 0..8 {
        let push = Push {
            x: x[k],
            y: y[k],
            z: z[k],
        };
        add(pairs.at(at + k), push, sums);
    }
}

/// Adds the push of a pair to the sum of its first place, and the opposite to that of its second.
#[inline(always)]
fn add(pair: u16, push: Push, sums: &mut ForceSums)
    requires { pairs_of.first_of pair < BLOCK }
    ensures first { sums.new.first ≡ slice_set sums.old.first (pairs_of.first_of pair)
        (sum_of_pushes (slice_index_or sums.old.first (pairs_of.first_of pair) no_push) push) }
    ensures second { sums.new.second ≡ slice_set sums.old.second (pairs_of.second_of pair)
        (sum_of_pushes (slice_index_or sums.old.second (pairs_of.second_of pair) no_push) (opposite_push push)) }
{
    let (t, s) = (first_of(pair), second_of(pair));
    sums.first[t] = sums.first[t].plus(push);
    sums.second[s] = sums.second[s].minus(push);
}

/// Returns the place of a pair in the first block.
#[inline(always)]
pub(crate) fn first_of(pair: u16) -> usize
    ensures { result ≡ pairs_of.first_of pair }
{
    usize::from(pair) / BLOCK
}

/// Returns the place of a pair in the second block.
#[inline(always)]
pub(crate) fn second_of(pair: u16) -> usize
    ensures { result ≡ pairs_of.second_of pair }
{
    usize::from(pair) % BLOCK
}

/// Returns the differences on the ring of the places of eight pairs of a list, from `at` on.
#[inline(always)]
pub(crate) fn apart(pairs: &NearPairs, at: usize, blocks: &BlockPair<'_>) -> Eight
    requires within { at + 8 ≤ length pairs.now }
    requires few { at + 8 < FULL + BLOCK }
    requires pairs { ArePairs blocks.now.first.now blocks.now.second.now pairs.now }
    ensures { (k : ℕ) → k < 8 → AreApartBy result k
        (place_at blocks.now.first.now (pairs_of.first_of (slice_index_or pairs.now (at + k) 0)))
        (place_at blocks.now.second.now (pairs_of.second_of (slice_index_or pairs.now (at + k) 0))) }
{
    let a = in_lanes(&eight_places(pairs, at, PairSide::First, blocks.first));
    let b = in_lanes(&eight_places(pairs, at, PairSide::Second, blocks.second));
    Eight {
        x: a.x - b.x,
        y: a.y - b.y,
        z: a.z - b.z,
    }
}

/// Returns the places of eight pairs of a list in one of the two blocks, from `at` on.
#[inline(always)]
fn eight_places(pairs: &NearPairs, at: usize, side: PairSide, places: &[Place]) -> [Place; 8]
    requires within { at + 8 ≤ length pairs.now }
    requires few { at + 8 < FULL + BLOCK }
    requires places { (i : ℕ) → i < length pairs.now
        → place_on side (slice_index_or pairs.now i 0) < length places.now }
    ensures { (k : ℕ) → k < 8 → place_at result k
        ≡ place_at places.now (place_on side (slice_index_or pairs.now (at + k) 0)) }
{
    [
        places[side.place_in(pairs.at(at))],
        places[side.place_in(pairs.at(at + 1))],
        places[side.place_in(pairs.at(at + 2))],
        places[side.place_in(pairs.at(at + 3))],
        places[side.place_in(pairs.at(at + 4))],
        places[side.place_in(pairs.at(at + 5))],
        places[side.place_in(pairs.at(at + 6))],
        places[side.place_in(pairs.at(at + 7))],
    ]
}

/// Which of the two places of a pair.
#[derive(Clone, Copy)]
enum PairSide {
    /// The place of the first block.
    First,
    /// The place of the second block.
    Second,
}

impl PairSide {
    /// Returns this place of a pair.
    #[inline(always)]
    fn place_in(self, pair: u16) -> usize
        ensures { result ≡ place_on self pair }
    {
        match self {
            PairSide::First => first_of(pair),
            PairSide::Second => second_of(pair),
        }
    }
}

/// Returns eight places, their coordinates axis by axis.
#[inline(always)]
fn in_lanes(places: &[Place; 8]) -> Eight
    ensures { (k : ℕ) → k < 8 → IsPlace result k (place_at places.now k) }
{
    let [a, b, c, d, e, f, g, h] = *places;
    Eight {
        x: u32x8::from_array([a.x, b.x, c.x, d.x, e.x, f.x, g.x, h.x]),
        y: u32x8::from_array([a.y, b.y, c.y, d.y, e.y, f.y, g.y, h.y]),
        z: u32x8::from_array([a.z, b.z, c.z, d.z, e.z, f.z, g.z, h.z]),
    }
}
