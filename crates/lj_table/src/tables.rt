//! The tables of the entries of all bins within reach.
ghost use Rattle.std.specs.Prelude.{◌≡◌, ℕ, ℤ, ◌≤◌, ◌<◌, ◌^◌, pos, neg_ℤ, unsigned_abs, slice_index};
ghost use Rattle.lj_table.specs.Entries.{HasEntries, AreSmall, push_entry, energy_entry, push_at, energy_at, table_value};
ghost use Rattle.lj_table.specs.Entries.{weighted_energy, cell, HasSizes};

use crate::table_entries;
use lj_ring::{BINS, MIN_BIN, Scale, Weight};
use std::simd::prelude::*;

/// The last bin whose push is repulsive: from the next on it is attractive.
pub const LAST_APART: u32 = 160;

/// The last bin whose energy is positive: from the next on it is negative.
pub const LAST_POSITIVE: u32 = 127;

/// The number of cells: the bins within reach, and one for all pairs out of reach.
const CELLS: usize = BINS + 1;

/// The pushes and energies of the bins within reach. The cells below bin [`MIN_BIN`] repeat that of this bin.
#[derive(Drop)]
pub struct Table {
    pushes: [i64; BINS],
    energies: [i64; BINS],
    /// The sizes of the pushes, and 0 for bin [`BINS`].
    push_sizes: [u64; CELLS],
    /// The sizes of the energies, and 0 for bin [`BINS`].
    energy_sizes: [u64; CELLS],
    ghost push_entries: { HasEntries push_entry pushes },
    ghost energy_entries: { HasEntries energy_entry energies },
    ghost small_pushes: { AreSmall pushes },
    ghost small_energies: { AreSmall energies },
    ghost sizes_of_pushes: { HasSizes push_entry push_sizes },
    ghost sizes_of_energies: { HasSizes energy_entry energy_sizes },
}

impl Table {
    /// Computes the table from the closed forms of its entries.
    ///
    /// ```rust
    /// assert_eq!(Table::new().push(0, &Scale::least()), 91_369_185_901);
    /// ```
    pub fn new() -> Table {
        let mut pushes = [0; BINS];
        let mut energies = [0; BINS];
        let mut push_sizes = [0; CELLS];
        let mut energy_sizes = [0; CELLS];
        for k in 0..BINS as u16 {
            pushes[usize::from(k)] = table_entries::push_entry(k.max(MIN_BIN));
            energies[usize::from(k)] = table_entries::energy_entry(k.max(MIN_BIN));
            push_sizes[usize::from(k)] = pushes[usize::from(k)].unsigned_abs();
            energy_sizes[usize::from(k)] = energies[usize::from(k)].unsigned_abs();
        }
        Table {
            pushes,
            energies,
            push_sizes,
            energy_sizes,
        }
    }

    /// Returns the push of a pair at squared distance `s` (square ring units), in units of 2^-24; 0 out of reach.
    ///
    /// ```rust
    /// // 1.5 sigma apart, with sigma 2^24 ring units
    /// assert_eq!(Table::new().push(25_165_824 * 25_165_824, &scale), -12_876_994);
    /// ```
    ///
    /// Promise: the result is the entry of the pair's bin, or 0 beyond the cutoff.
    #[inline]
    pub fn push(&self, s: u64, scale: &Scale) -> i64
        ensures value { result ≡ push_at scale.now s }
        ensures size { unsigned_abs result < 2 ^ 37 }
    {
        looked_up(&self.pushes, s, scale)
    }

    /// Returns the sizes of the pushes of eight bins, in units of 2^-24, and 0 for bin [`BINS`]. A push is repulsive up
    /// to bin [`LAST_APART`], and attractive from the next on.
    ///
    /// ```rust
    /// assert_eq!(Table::new().push_sizes(u32x8::splat(288)), u64x8::splat(12_876_994));
    /// ```
    ///
    /// Promise: each number is the absolute value of its bin's entry; the bin gives the entry's sign.
    #[inline(always)]
    pub fn push_sizes(&self, bins: u32x8) -> u64x8
        requires { (k : ℕ) → k < 8 → slice_index bins k ≤ BINS }
        ensures size { (k : ℕ) → k < 8 → slice_index result k < 2 ^ 37 }
        ensures apart { (k : ℕ) → k < 8 → slice_index bins k ≤ LAST_APART
            → cell push_entry (slice_index bins k) ≡ pos (slice_index result k) }
        ensures together { (k : ℕ) → k < 8 → LAST_APART < slice_index bins k
            → cell push_entry (slice_index bins k) ≡ neg_ℤ (pos (slice_index result k)) }
    {
        each_of(&self.push_sizes, bins)
    }

    /// Returns the energy of a pair at squared distance `s` (square ring units) times its weight, in units of 2^-24 ε
    /// and rounded toward zero; 0 out of reach.
    ///
    /// ```rust
    /// // 1.5 sigma apart, with sigma 2^24 ring units
    /// assert_eq!(Table::new().energy(25_165_824 * 25_165_824, &scale, Weight::WHOLE), -5_349_132);
    /// ```
    ///
    /// Promise: the result is the weight times the entry of the pair's bin (product rounded toward zero), or 0 beyond the cutoff.
    #[inline]
    pub fn energy(&self, s: u64, scale: &Scale, weight: Weight) -> i64
        ensures value { result ≡ weighted_energy weight (energy_at scale.now s) }
        ensures size { unsigned_abs result < 2 ^ 45 }
    {
        weighted(looked_up(&self.energies, s, scale), weight)
    }

    /// Returns the sizes of the energies of eight bins, in units of 2^-24 ε, and 0 for bin [`BINS`]. An energy is
    /// positive up to bin [`LAST_POSITIVE`], and negative from the next on.
    ///
    /// ```rust
    /// assert_eq!(Table::new().energy_sizes(u32x8::splat(288)), u64x8::splat(5_349_132));
    /// ```
    #[inline(always)]
    pub fn energy_sizes(&self, bins: u32x8) -> u64x8
        requires { (k : ℕ) → k < 8 → slice_index bins k ≤ BINS }
        ensures size { (k : ℕ) → k < 8 → slice_index result k < 2 ^ 37 }
        ensures positive { (k : ℕ) → k < 8 → slice_index bins k ≤ LAST_POSITIVE
            → cell energy_entry (slice_index bins k) ≡ pos (slice_index result k) }
        ensures negative { (k : ℕ) → k < 8 → LAST_POSITIVE < slice_index bins k
            → cell energy_entry (slice_index bins k) ≡ neg_ℤ (pos (slice_index result k)) }
    {
        each_of(&self.energy_sizes, bins)
    }
}

/// Multiplies an entry by a weight in 256ths, and rounds toward zero.
#[inline]
fn weighted(entry: i64, weight: Weight) -> i64
    requires { unsigned_abs entry < 2 ^ 37 }
    ensures value { result ≡ weighted_energy weight entry }
    ensures size { unsigned_abs result < 2 ^ 45 }
{
    entry * i64::from(weight.parts()) / 256
}

/// Returns the cells of eight bins.
#[inline(always)]
fn each_of(cells: &[u64; CELLS], bins: u32x8) -> u64x8
    requires { (k : ℕ) → k < 8 → slice_index bins k ≤ BINS }
    ensures { (k : ℕ) → k < 8 → slice_index result k ≡ slice_index cells.now (slice_index bins k) }
{
    u64x8::from_array([
        cells[bins[0] as usize],
        cells[bins[1] as usize],
        cells[bins[2] as usize],
        cells[bins[3] as usize],
        cells[bins[4] as usize],
        cells[bins[5] as usize],
        cells[bins[6] as usize],
        cells[bins[7] as usize],
    ])
}

// Returns the cell of a pair at squared distance `s`, and 0 out of reach.
#[inline]
fn looked_up(cells: &[i64; BINS], s: u64, scale: &Scale) -> i64
    requires { AreSmall cells.now }
    ensures value { (entry_of : ℕ → ℤ) → HasEntries entry_of cells.now
        → result ≡ table_value entry_of scale.now s }
    ensures size { unsigned_abs result < 2 ^ 37 }
{
    match scale.bin_within_reach(s) {
        Some(bin) => cells[bin],
        None => 0,
    }
}
