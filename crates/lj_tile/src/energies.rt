//! Sums of the energies of a list of pairs of one class.
ghost use Rattle.std.specs.Prelude.{◌≡◌, ◌≤◌, ◌<◌, ◌+◌, ◌*◌, ◌/◌, ◌^◌, ◌+ℤ◌, length, take, drop, slice_index_or, unsigned_abs};
ghost use Rattle.lj_tile.specs.declared.near_pairs.TheConstants.{FULL};
ghost use Rattle.lj_tile.specs.Pairs.{ArePairs};
ghost use Rattle.lj_tile.specs.Energies.{list_energy};

use crate::near_pairs::NearPairs;
use crate::pair_lanes::energies;
use crate::pair_sums::{BlockPair, apart, first_of, second_of};
use lj_ring::{Class, dist2};
use lj_task::BLOCK;

/// Returns the sum of the energies of a list's pairs in whole eights, and drops these pairs: fewer than eight are left.
pub(crate) fn energy_of_most(pairs: &mut NearPairs, blocks: &BlockPair<'_>, class: &Class) -> i64
    requires few { length pairs.old < FULL + BLOCK }
    requires pairs { ArePairs blocks.now.first.now blocks.now.second.now pairs.old }
    ensures few { length pairs.new < 8 }
    ensures pairs { ArePairs blocks.now.first.now blocks.now.second.now pairs.new }
    ensures value { result +ℤ list_energy class.now blocks.now.first.now blocks.now.second.now pairs.new
        ≡ list_energy class.now blocks.now.first.now blocks.now.second.now pairs.old }
    ensures size { unsigned_abs result ≤ 2 ^ 52 }
{
    let energy = energy_of_eights(pairs, blocks, class);
    let whole = pairs.len() / 8 * 8;
    pairs.keep_from(whole);
    energy
}

/// Returns the sum of the energies of all pairs of a list.
pub(crate) fn energy_of_all(pairs: &NearPairs, blocks: &BlockPair<'_>, class: &Class) -> i64
    requires pairs { ArePairs blocks.now.first.now blocks.now.second.now pairs.now }
    ensures value { result ≡ list_energy class.now blocks.now.first.now blocks.now.second.now pairs.now }
    ensures size { unsigned_abs result ≤ 2 ^ 52 }
{
    let mut sum = energy_of_eights(pairs, blocks, class);
    for i in pairs.len() / 8 * 8..pairs.len() {
        let pair = pairs.at(i);
        let squared = dist2(
            &blocks.first[first_of(pair)],
            &blocks.second[second_of(pair)],
        );
        sum += blocks.table.energy(squared, &class.scale, class.weight);
    }
    sum
}

/// Returns the sum of the energies of a list's pairs in whole eights.
#[inline(always)]
fn energy_of_eights(pairs: &NearPairs, blocks: &BlockPair<'_>, class: &Class) -> i64
    requires pairs { ArePairs blocks.now.first.now blocks.now.second.now pairs.now }
    ensures value { result ≡ list_energy class.now blocks.now.first.now blocks.now.second.now (take (length pairs.now / 8 * 8) pairs.now) }
    ensures size { unsigned_abs result ≤ length pairs.now / 8 * 8 * 2 ^ 45 }
{
    let mut sum = 0;
    for eight in 0..pairs.len() / 8 {
        sum += energy_of_eight(pairs, 8 * eight, blocks, class);
    }
    sum
}

/// Returns the sum of the energies of eight pairs of a list, from `at` on, each weighted by itself.
#[inline(always)]
fn energy_of_eight(pairs: &NearPairs, at: usize, blocks: &BlockPair<'_>, class: &Class) -> i64
    requires within { at + 8 ≤ length pairs.now }
    requires few { at + 8 < FULL + BLOCK }
    requires pairs { ArePairs blocks.now.first.now blocks.now.second.now pairs.now }
    ensures value { result ≡ list_energy class.now blocks.now.first.now blocks.now.second.now (take 8 (drop at pairs.now)) }
    ensures size { unsigned_abs result ≤ 8 * 2 ^ 45 }
{
    let energies = energies(&apart(pairs, at, blocks), class, blocks.table);
    let mut sum = 0;
    for k in 0..8 {
        sum += energies[k];
    }
    sum
}
