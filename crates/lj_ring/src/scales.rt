//! The edge of the box, and the scale of a simulation.
ghost use Rattle.std.specs.Prelude.{ℕ, ◌≡◌, ◌≤◌, ◌<◌, ◌+◌, ◌*◌, ◌/◌, ◌^◌, ◌⊎◌, ◌↔◌, IsTrue, IsFalse, IfSome, MatchOption};
ghost use Rattle.std.specs.Prelude.{SomeIff, unsigned_abs, nat_lt, true, false, slice_index};
ghost use Rattle.lj_ring.specs.Bins.{near_bin};
ghost use Rattle.lj_ring.specs.LaneArithmetic.{lane_square};
ghost use Rattle.lj_ring.specs.Places.{units_of};
ghost use Rattle.lj_ring.specs.Scale.{is_edge, is_sigma, is_step_factor, scale_of, bin, is_in_cutoff, least_scale, IsScale};

use crate::bins::{cut_of, quotients, reciprocal_of, shift_of, squares_cut_off};
use crate::lanes::{u32_lanes, u64_lanes};
use lj_fixed::{MAX_NANO, Nano};
use std::fmt;
use std::marker::Model;
use std::simd::prelude::*;
use thiserror::Error;

/// Minimum edge of a box, in nano (10^-9 of the length unit).
const MIN_EDGE: u64 = 1_000_000;

/// Maximum edge of a box, in nano (10^-9 of the length unit).
const MAX_EDGE: u64 = MAX_NANO;

/// Minimum sigma, in ring units.
const MIN_SIGMA: u32 = 65_536;

/// Maximum step factor, in units of 2^-32.
const MAX_STEP_FACTOR: u32 = 1 << 24;

/// The cutoff in halves of sigma: no pair interacts from 2.5 sigma on.
pub const CUTOFF_HALVES: u64 = 5;

/// The number of bins of squared distance to sigma².
const BINS_TO_SQUARE: u64 = 128;

/// The number of bins of squared distance within the cutoff: 128 * 2.5².
pub const BINS: usize = (BINS_TO_SQUARE * CUTOFF_HALVES * CUTOFF_HALVES / 4) as usize;

/// The smallest bin with its own entries. Smaller bins use the same entries.
pub const MIN_BIN: u16 = 64;

/// The edge of the cubic box, 10^6 to 10^15 nano (billionths of a file unit).
#[derive(Clone, Copy, PartialEq, Eq, Debug)]
pub struct Edge {
    nano: u64,
}

impl Model for Edge {
    ghost use Rattle.std.specs.Prelude.{ℕ, ◌≤◌};
    ghost use Rattle.lj_ring.specs.declared.scales.TheConstants.{MIN_EDGE, MAX_EDGE};

    ghost Value = { ℕ };

    ghost view = { λ e. e.nano };

    ghost invariant = { λ e. (MIN_EDGE ≤ e.nano) × (e.nano ≤ MAX_EDGE) };

    ghost inverse = { λ n. record { nano = n } };
}

impl Edge {
    /// Returns the length of the edge in nano.
    ///
    /// ```rust
    /// let scale = Scale::new(parse_nano(b"256")?, parse_nano(b"1")?, 1)?;
    /// assert_eq!(scale.edge().nano(), 256_000_000_000);
    /// ```
    #[inline]
    pub fn nano(&self) -> u64
        ensures value { result ≡ self.now }
        ensures least { MIN_EDGE ≤ result }
        ensures most { result ≤ MAX_EDGE }
    {
        self.nano
    }

    /// Makes an edge of this length, if it fits.
    fn new(length: Nano) -> Option<Edge>
        ensures { SomeIff result (IsTrue (is_edge length)) (unsigned_abs length) }
    {
        let nano = u64::try_from(length.get()).ok()?;
        if MIN_EDGE <= nano && nano <= MAX_EDGE {
            Some(Edge { nano })
        } else {
            None
        }
    }
}

/// The reason why a scale is refused: the first of the three that does not fit.
#[derive(Clone, Copy, PartialEq, Eq, Debug, Error)]
pub enum ScaleFault {
    /// The edge is not 10^6 to 10^15 nano.
    Edge,
    /// Sigma is below 2^-16 of the edge, or a fifth of it or more.
    Sigma,
    /// The step factor is not 1 to 2^24.
    StepFactor,
}

impl fmt::Display for ScaleFault {
    ghost use Rattle.std.specs.Prelude.{Some};
    ghost use Rattle.lj_ring.specs.FaultTexts.{fault_text};

    ghost output = { λ fault. Some (fault_text fault) };

    fn fmt<W: fmt::Write>(&self, f: &mut fmt::Formatter<W>) -> fmt::Result {
        f.write_str(match self {
            ScaleFault::Edge => "the edge is not 10^6 to 10^15 nano",
            ScaleFault::Sigma => "sigma is below 2^-16 of the edge, or a fifth of it or more",
            ScaleFault::StepFactor => "the step factor is not 1 to 2^24",
        })
    }
}

/// The scale of a simulation: the edge of its box, sigma in ring units, and the step factor dt² ε / (m σ²) in units of
/// 2^-32. It also stores numbers derived from sigma for the loop over pairs.
#[derive(Clone, Copy, PartialEq, Eq, Debug)]
pub struct Scale {
    edge: Edge,
    sigma: u32,
    step_factor: u32,
    sigma_square: u64,
    /// The first squared distance out of reach, the square of the cutoff: `ceil(25 sigma² / 4)`.
    reach: u64,
    /// `ceil(2^95 / sigma²)`, to find a bin without a division.
    inverse: u64,
    /// The least length beyond the cutoff, `floor(5 sigma / 2) + 1`: a pair with an image as long does not interact.
    cut: u32,
    /// How many bits `3 * cut²` has beyond 32.
    shift: u64,
    /// `floor(2^(58 + shift) / sigma²)`, below 2^32, to find bins in lanes.
    reciprocal: u64,
}

impl Model for Scale {
    ghost use Rattle.lj_ring.specs.Scale.{Scale};

    ghost Value = { Scale };

    ghost use Rattle.lj_ring.specs.Kept.{scale_of_kept, IsKept, kept_of, kept_of-units};

    ghost view = { scale_of_kept };

    ghost invariant = { IsKept };

    ghost inverse = { kept_of };

    ghost inverse_ok = { kept_of-units };
}

impl Scale {
    /// Makes the scale of an edge and a sigma in nano, and a step factor `h` in units of 2^-32, 1 to 2^24.
    /// The edge is tested first, then sigma, then the step factor.
    ///
    /// ```rust
    /// let (four, one) = (parse_nano(b"4")?, parse_nano(b"1")?);
    /// assert_eq!(Scale::new(parse_nano(b"256")?, one, 131_072)?.step_factor(), 131_072);
    /// assert_eq!(Scale::new(four, one, 131_072), Err(ScaleFault::Sigma));
    /// ```
    ///
    /// Promise: the result is the scale, or the first fault in edge, sigma or step factor.
    pub fn new(edge: Nano, sigma: Nano, h: u64) -> Result<Scale, ScaleFault>
        ensures { result ≡ scale_of edge sigma h }
    {
        let Some(edge) = Edge::new(edge) else {
            return Err(ScaleFault::Edge);
        };
        let Some(sigma) = sigma_in_units(sigma, &edge) else {
            return Err(ScaleFault::Sigma);
        };
        let Some(step_factor) = checked_step_factor(h) else {
            return Err(ScaleFault::StepFactor);
        };
        Ok(Scale::of(edge, sigma, step_factor))
    }

    /// Returns the scale of the greatest box, with the least sigma and the least step factor.
    ///
    /// ```rust
    /// assert_eq!(Scale::least().edge().nano(), 1_000_000_000_000_000);
    /// ```
    pub fn least() -> Scale
        ensures { result ≡ least_scale }
    {
        Scale::of(Edge { nano: MAX_EDGE }, MIN_SIGMA, 1)
    }

    /// Returns whether the other scale is equal: its edge, its sigma and its step factor.
    #[inline]
    pub(crate) fn is(&self, other: &Scale) -> bool
        ensures { IsTrue result ↔ (self.now ≡ other.now) }
    {
        (self.edge == other.edge)
            & (self.sigma == other.sigma)
            & (self.step_factor == other.step_factor)
    }

    /// Returns the edge of the box.
    ///
    /// ```rust
    /// let scale = Scale::new(parse_nano(b"256")?, parse_nano(b"1")?, 1)?;
    /// assert_eq!(scale.edge().nano(), 256_000_000_000);
    /// ```
    pub fn edge(&self) -> Edge
        ensures { result ≡ self.now.edge }
    {
        self.edge
    }

    /// Returns the step factor in units of 2^-32. No pair that interacts lies half the box apart.
    ///
    /// ```rust
    /// let scale = Scale::new(parse_nano(b"256")?, parse_nano(b"1")?, 131_072)?;
    /// assert_eq!(scale.step_factor(), 131_072);
    /// ```
    #[inline]
    pub fn step_factor(&self) -> u32
        ensures value { result ≡ self.now.step_factor }
        ensures most { result ≤ MAX_STEP_FACTOR }
        ensures near { IsScale self.now }
    {
        self.step_factor
    }

    /// Returns the least squared distance out of reach, in square ring units: a pair interacts below it and not from it on.
    ///
    /// ```rust
    /// let scale = Scale::new(parse_nano(b"256")?, parse_nano(b"1")?, 1)?;
    /// assert_eq!(scale.reach(), 41_943_040 * 41_943_040); // 2.5 sigma
    /// ```
    ///
    /// Promise: a pair is within the cutoff if and only if its squared distance is below the result.
    #[inline]
    pub fn reach(&self) -> u64
        ensures value { (s : ℕ) → is_in_cutoff self.now s ≡ nat_lt s result }
        ensures most { result ≤ 2 ^ 62 }
    {
        self.reach
    }

    /// Returns the bins of eight pairs whose images have these lengths along the axes, in ring units; [`BINS`] for a
    /// pair that does not interact.
    ///
    /// ```rust
    /// let scale = Scale::new(parse_nano(b"256")?, parse_nano(b"1")?, 1)?;
    /// let (x, zero) = (u32x8::splat(25_165_824), u32x8::splat(0)); // 1.5 sigma apart along x
    /// assert_eq!(scale.bins(x, zero, zero), u32x8::splat(288));
    /// ```
    ///
    /// Promise: for each pair the result is the bin of its squared distance, or 800 beyond the cutoff.
    #[inline(always)]
    pub fn bins(&self, x: u32x8, y: u32x8, z: u32x8) -> u32x8
        ensures value { (k : ℕ) → k < 8 → slice_index result k
            ≡ near_bin self.now (lane_square x k + lane_square y k + lane_square z k) }
        ensures within { (k : ℕ) → k < 8 → slice_index result k ≤ BINS }
    {
        let squared = squares_cut_off(x, y, z, self.cut);
        let quotients = quotients(squared, self.sigma_square, self.shift, self.reciprocal);
        u32_lanes::min(
            u64_lanes::cast_u32(quotients),
            u32_lanes::splat(BINS as u32),
        )
    }

    /// Returns the bin, below [`BINS`], of a pair at squared distance `s`, or None if it does not interact.
    ///
    /// ```rust
    /// let scale = Scale::new(parse_nano(b"256")?, parse_nano(b"1")?, 1)?;
    /// assert_eq!(scale.bin_within_reach(25_165_824 * 25_165_824), Some(288)); // 1.5 sigma
    /// assert_eq!(scale.bin_within_reach(41_943_040 * 41_943_040), None); // 2.5 sigma
    /// ```
    #[inline]
    pub fn bin_within_reach(&self, s: u64) -> Option<usize>
        ensures reach { MatchOption result (is_in_cutoff self.now s ≡ false)
            (λ _. is_in_cutoff self.now s ≡ true) }
        ensures value { IfSome result (λ k. k ≡ bin self.now s) }
        ensures within { IfSome result (λ k. k < BINS) }
    {
        if s < self.reach {
            Some(quotient(s, self.sigma_square, self.inverse))
        } else {
            None
        }
    }

    fn of(edge: Edge, sigma: u32, step_factor: u32) -> Scale
        requires sigma_least { MIN_SIGMA ≤ sigma }
        requires sigma_most { CUTOFF_HALVES * sigma < 2 ^ 32 }
        requires step_factor_most { step_factor ≤ MAX_STEP_FACTOR }
        ensures { result ≡ record { edge = edge; sigma = sigma; step_factor = step_factor } }
    {
        let sigma_square = u64::from(sigma) * u64::from(sigma);
        let inverse = (1u128 << 95).div_ceil(u128::from(sigma_square)) as u64;
        let shift = shift_of(sigma);
        Scale {
            edge,
            sigma,
            step_factor,
            sigma_square,
            reach: (CUTOFF_HALVES * CUTOFF_HALVES * sigma_square).div_ceil(4),
            inverse,
            cut: cut_of(sigma),
            shift,
            reciprocal: reciprocal_of(sigma, shift),
        }
    }
}

/// Returns sigma in ring units, if it fits.
fn sigma_in_units(sigma: Nano, edge: &Edge) -> Option<u32>
    ensures { SomeIff result (IsTrue (is_sigma (units_of edge.now sigma)))
        (unsigned_abs (units_of edge.now sigma)) }
{
    let sigma = sigma.get();
    if sigma < 0 {
        return None;
    }
    let units = (u128::from(sigma.unsigned_abs()) << 32) / u128::from(edge.nano());
    if u128::from(MIN_SIGMA) <= units && u128::from(CUTOFF_HALVES) * units < 1 << 32 {
        Some(units as u32)
    } else {
        None
    }
}

fn checked_step_factor(h: u64) -> Option<u32>
    ensures { SomeIff result (IsTrue (is_step_factor h)) h }
{
    if 1 <= h && h <= u64::from(MAX_STEP_FACTOR) {
        Some(h as u32)
    } else {
        None
    }
}

/// Returns `128 s / sigma_square`, by a guess that is mostly right, and else by the division.
#[inline]
fn quotient(s: u64, sigma_square: u64, inverse: u64) -> usize
    requires { BINS_TO_SQUARE * s < BINS * sigma_square }
    ensures value { result ≡ BINS_TO_SQUARE * s / sigma_square }
    ensures within { result < BINS }
{
    let guess = (u128::from(s) * u128::from(inverse)) >> 88;
    let scaled = u128::from(s) * u128::from(BINS_TO_SQUARE);
    let below = guess * u128::from(sigma_square);
    if below <= scaled && scaled - below < u128::from(sigma_square) {
        guess as usize
    } else {
        (scaled / u128::from(sigma_square)) as usize
    }
}
