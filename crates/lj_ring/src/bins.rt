//! Bins of squared distance for eight pairs at once without a division, and the numbers that a scale stores for it.
ghost use Rattle.std.specs.Prelude.{ℕ, ◌≡◌, ◌≤◌, ◌<◌, ◌+◌, ◌-◌, ◌*◌, ◌/◌, ◌%◌, ◌^◌, slice_index};
ghost use Rattle.lj_ring.specs.declared.scales.TheConstants.{MIN_SIGMA, CUTOFF_HALVES, BINS_TO_SQUARE};
ghost use Rattle.lj_ring.specs.Kept as kept;
ghost use Rattle.lj_ring.specs.LaneArithmetic.{lane_square};

use crate::lanes::{u32_lanes, u64_lanes};
use crate::scales::CUTOFF_HALVES;
use std::simd::prelude::*;

/// Returns the least length beyond the cutoff, in ring units.
pub(crate) fn cut_of(sigma: u32) -> u32
    requires { CUTOFF_HALVES * sigma < 2 ^ 32 }
    ensures value { result ≡ kept.cut_of sigma }
    ensures most { result ≤ 2 ^ 31 }
{
    (CUTOFF_HALVES * u64::from(sigma) / 2 + 1) as u32
}

/// Returns how many bits `3 * cut²` has beyond 32.
pub(crate) fn shift_of(sigma: u32) -> u64
    requires { CUTOFF_HALVES * sigma < 2 ^ 32 }
    ensures value { result ≡ kept.shift_of sigma }
    ensures most { result ≤ 32 }
{
    let cut = u64::from(cut_of(sigma));
    u64::from(32u32.saturating_sub((3 * (cut * cut)).leading_zeros()))
}

/// Returns `floor(2^(58 + shift) / sigma²)`, which is below 2^32.
pub(crate) fn reciprocal_of(sigma: u32, shift: u64) -> u64
    requires least { MIN_SIGMA ≤ sigma }
    requires most { CUTOFF_HALVES * sigma < 2 ^ 32 }
    requires shift { shift ≡ kept.shift_of sigma }
    ensures { result ≡ kept.reciprocal_of sigma }
{
    ((1u128 << (58 + shift)) / (u128::from(sigma) * u128::from(sigma))) as u64
}

/// Returns the squared distances of eight pairs by the lengths of their images along the axes, with `cut` for longer ones.
#[inline(always)]
pub(crate) fn squares_cut_off(x: u32x8, y: u32x8, z: u32x8, cut: u32) -> u64x8
    requires { cut ≤ 2 ^ 31 }
    ensures { (k : ℕ) → k < 8
        → slice_index result k ≡ kept.cut_sum cut (slice_index x k) (slice_index y k) (slice_index z k) }
{
    let cut = u32_lanes::splat(cut);
    let x = squares(u32_lanes::min(x, cut));
    let y = squares(u32_lanes::min(y, cut));
    let z = squares(u32_lanes::min(z, cut));
    u64_lanes::add(u64_lanes::add(x, y), z)
}

/// Returns the squares, in wider lanes.
#[inline(always)]
fn squares(v: u32x8) -> u64x8
    ensures { (k : ℕ) → k < 8 → slice_index result k ≡ lane_square v k }
{
    let wide = u32_lanes::cast_u64(v);
    u64_lanes::mul(wide, wide)
}

/// Returns `128 s / sigma_square` in each lane: a guess that is right or one too small, then a correction. The
/// remainder of the guess is below `2 sigma_square`, so it is exact modulo 2^64.
#[inline(always)]
pub(crate) fn quotients(squared: u64x8, sigma_square: u64, shift: u64, reciprocal: u64) -> u64x8
    requires shift { shift ≤ 32 }
    requires small { (k : ℕ) → k < 8 → slice_index squared k < 2 ^ (32 + shift) }
    requires some { 0 < sigma_square }
    requires few { sigma_square < 2 ^ 60 }
    requires reciprocal { reciprocal ≡ 2 ^ (58 + shift) / sigma_square }
    requires fits { reciprocal < 2 ^ 32 }
    ensures value { (k : ℕ) → k < 8
        → slice_index result k ≡ BINS_TO_SQUARE * slice_index squared k / sigma_square }
    ensures within { (k : ℕ) → k < 8 → slice_index result k ≤ 2 ^ 13 }
{
    let guess = guesses(squared, shift, reciprocal);
    let rest = u64_lanes::sub(u64_lanes::shl(squared, 7), multiples(guess, sigma_square));
    let beyond = u64_lanes::sub(u64_lanes::splat(sigma_square - 1), rest);
    u64_lanes::add(guess, u64_lanes::shr(beyond, 63))
}

#[inline(always)]
fn guesses(squared: u64x8, shift: u64, reciprocal: u64) -> u64x8
    requires shift { shift ≤ 32 }
    requires small { (k : ℕ) → k < 8 → slice_index squared k < 2 ^ (32 + shift) }
    requires fits { reciprocal < 2 ^ 32 }
    ensures { (k : ℕ) → k < 8
        → slice_index result k ≡ slice_index squared k / 2 ^ shift * reciprocal / 2 ^ 51 }
{
    let scaled = u64_lanes::low_half(u64_lanes::shr(squared, shift));
    let reciprocal = u64_lanes::low_half(u64_lanes::splat(reciprocal));
    u64_lanes::shr(u64_lanes::mul(scaled, reciprocal), 51)
}

/// Multiplies the lanes by a number modulo 2^64, by its upper and its lower half.
#[inline(always)]
fn multiples(v: u64x8, number: u64) -> u64x8
    ensures { (k : ℕ) → k < 8 → slice_index result k ≡ slice_index v k * number % 2 ^ 64 }
{
    let number = u64_lanes::splat(number);
    let upper = u64_lanes::mul(v, u64_lanes::high_half(number));
    let lower = u64_lanes::mul(v, u64_lanes::low_half(number));
    u64_lanes::add(lower, u64_lanes::shl(upper, 32))
}
