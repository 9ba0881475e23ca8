//! Pushes and energies of eight pairs at a time, in lanes.
ghost use Rattle.std.specs.Prelude.{◌≡◌, ◌≤◌, ◌<◌, ◌*◌, ◌/◌, ◌%◌, ◌^◌, ℕ, min, nat_lt, unsigned_abs, slice_index, slice_index_or, pos};
ghost use Rattle.std.specs.Int.{cast_signed, w32};
ghost use Rattle.lj_ring.specs.declared.coordinates.Place.{Place};
ghost use Rattle.lj_ring.specs.Ring.{ring_difference};
ghost use Rattle.lj_task.specs.Pushes.{push, energy};
ghost use Rattle.lj_tile.specs.Lanes.{AreApartBy, IsPush, signed_push};
ghost use Rattle.lj_tile.specs.Energies.{signed_number};

use lj_ring::lanes::{u32_lanes, u64_lanes};
use lj_ring::{Class, Scale, Weight};
use lj_table::{LAST_APART, LAST_POSITIVE, Table};
use std::simd::prelude::*;

/// Half the ring: a difference of this or more is an image below 0.
const HALF: u32 = 1 << 31;

/// Eight places, images or pushes: their coordinates axis by axis, modulo 2^32.
#[derive(Clone, Copy, Drop)]
pub(crate) struct Eight {
    pub(crate) x: u32x8,
    pub(crate) y: u32x8,
    pub(crate) z: u32x8,
}

/// Returns the pushes of eight pairs; `images` has the differences of their places on the ring.
#[inline(always)]
pub(crate) fn pushes(images: &Eight, scale: &Scale, table: &Table) -> Eight
    ensures { (k : ℕ) (p q : Place) → k < 8 → AreApartBy images.now k p q → IsPush result k (push scale.now p q) }
{
    let x = lengths(images.x);
    let y = lengths(images.y);
    let z = lengths(images.z);
    let bins = scale.bins(x, y, z);
    let factors = multiplied(table.push_sizes(bins), scale.step_factor());
    Eight {
        x: signed_pushes(along(factors, x), images.x, bins),
        y: signed_pushes(along(factors, y), images.y, bins),
        z: signed_pushes(along(factors, z), images.z, bins),
    }
}

/// Returns the energies of eight pairs times the weight of their class, each rounded toward zero; `images` has the
/// differences of their places on the ring.
#[inline(always)]
pub(crate) fn energies(images: &Eight, class: &Class, table: &Table) -> [i64; 8]
    ensures value { (k : ℕ) (p q : Place) → k < 8 → AreApartBy images.now k p q
        → slice_index_or result k (pos 0) ≡ energy class.now p q }
    ensures size { (k : ℕ) → k < 8 → unsigned_abs (slice_index_or result k (pos 0)) < 2 ^ 45 }
{
    let bins = class
        .scale
        .bins(lengths(images.x), lengths(images.y), lengths(images.z));
    signed_energies(weighted(table.energy_sizes(bins), class.weight), bins)
}

/// Multiplies sizes of energies by a weight in 256ths, and rounds down.
#[inline(always)]
fn weighted(sizes: u64x8, weight: Weight) -> u64x8
    requires { (k : ℕ) → k < 8 → slice_index sizes k < 2 ^ 37 }
    ensures value { (k : ℕ) → k < 8 → slice_index result k ≡ slice_index sizes k * weight / 256 }
    ensures size { (k : ℕ) → k < 8 → slice_index result k < 2 ^ 45 }
{
    u64_lanes::shr(multiplied(sizes, weight.parts()), 8)
}

/// Returns the energies of these sizes, negative in the bins behind [`LAST_POSITIVE`].
#[inline(always)]
fn signed_energies(sizes: u64x8, bins: u32x8) -> [i64; 8]
    requires { (k : ℕ) → k < 8 → slice_index sizes k < 2 ^ 45 }
    ensures { (k : ℕ) → k < 8 → slice_index_or result k (pos 0)
        ≡ signed_number (nat_lt LAST_POSITIVE (slice_index bins k)) (slice_index sizes k) }
{
    let (sizes, bins) = (sizes.to_array(), bins.to_array());
    let mut energies = [0; 8];
    for k in 0..8 {
        energies[k] = signed_energy(sizes[k], bins[k] > LAST_POSITIVE);
    }
    energies
}

/// Returns the number of this size, negative or not.
#[inline(always)]
fn signed_energy(size: u64, negative: bool) -> i64
    requires { size < 2 ^ 45 }
    ensures { result ≡ signed_number negative size }
{
    let size = size as i64;
    if negative { -size } else { size }
}

/// Returns the lengths of images.
#[inline(always)]
fn lengths(images: u32x8) -> u32x8
    ensures { (k : ℕ) → k < 8
        → slice_index result k ≡ unsigned_abs (cast_signed w32 (slice_index images k)) }
{
    u32_lanes::min(images, opposites(images))
}

/// Multiplies numbers below 2^37 by the step factor, through the products of their halves.
#[inline(always)]
fn multiplied(sizes: u64x8, step_factor: u32) -> u64x8
    requires small { (k : ℕ) → k < 8 → slice_index sizes k < 2 ^ 37 }
    requires few { step_factor ≤ 2 ^ 24 }
    ensures value { (k : ℕ) → k < 8 → slice_index result k ≡ slice_index sizes k * step_factor }
    ensures size { (k : ℕ) → k < 8 → slice_index result k < 2 ^ 61 }
{
    let step_factor = u64_lanes::low_half(u64_lanes::splat(u64::from(step_factor)));
    let lower = u64_lanes::mul(u64_lanes::low_half(sizes), step_factor);
    let upper = u64_lanes::mul(u64_lanes::high_half(sizes), step_factor);
    u64_lanes::add(lower, u64_lanes::shl(upper, 32))
}

/// Returns `factor * length / 2^56`, modulo 2^32.
#[inline(always)]
fn along(factors: u64x8, lengths: u32x8) -> u32x8
    requires { (k : ℕ) → k < 8 → slice_index factors k < 2 ^ 61 }
    ensures { (k : ℕ) → k < 8
        → slice_index result k ≡ slice_index factors k * slice_index lengths k / 2 ^ 56 % 2 ^ 32 }
{
    let lengths = u32_lanes::cast_u64(lengths);
    let upper = u64_lanes::mul(u64_lanes::high_half(factors), lengths);
    let lower = u64_lanes::mul(u64_lanes::low_half(factors), lengths);
    let product = u64_lanes::add(upper, u64_lanes::high_half(lower));
    u64_lanes::cast_u32(u64_lanes::low_half(u64_lanes::shr(product, 24)))
}

/// Returns the pushes of these sizes: along the images where they are repulsive, and against them where they are
/// attractive.
#[inline(always)]
fn signed_pushes(sizes: u32x8, images: u32x8, bins: u32x8) -> u32x8
    ensures { (k : ℕ) → k < 8 → slice_index result k
        ≡ signed_push (nat_lt LAST_APART (slice_index bins k)) (slice_index images k) (slice_index sizes k) }
{
    let opposites = opposites(sizes);
    let negative = images.simd_ge(u32x8::splat(HALF));
    let together = bins.simd_gt(u32x8::splat(LAST_APART));
    (negative ^ together).select(opposites, sizes)
}

#[inline(always)]
fn opposites(v: u32x8) -> u32x8
    ensures { (k : ℕ) → k < 8 → slice_index result k ≡ ring_difference 0 (slice_index v k) }
{
    u32_lanes::sub(u32_lanes::splat(0), v)
}
