//! A quick test of which places of a block may interact with a given place, in lanes.
ghost use Rattle.std.specs.Prelude.{◌≡◌, ◌≤◌, ◌<◌, ◌+◌, ◌-◌, ◌*◌, ◌/◌, ◌%◌, ◌^◌, ℕ, Bool, List, length, slice_index};
ghost use Rattle.std.specs.Prelude.{unsigned_abs, min, max, false};
ghost use Rattle.std.specs.Int.{bit_at};
ghost use Rattle.lj_ring.specs.declared.coordinates.Place.{Place};
ghost use Rattle.lj_ring.specs.Ring.{squared_distance, image, place_at};
ghost use Rattle.lj_ring.specs.Mix.{can_interact};
ghost use Rattle.lj_tile.specs.Grains.{grains, grains_apart, square_unit};

use lj_ring::lanes::{u16_lanes, u32_lanes};
use lj_ring::{Mix, Place};
use lj_task::BLOCK;
use std::simd::prelude::*;

/// The binary logarithm of the coarsest grain in ring units: 2^16 of these grains make the edge.
const COARSEST: u32 = 16;

/// The half width below which bounds on some axis are narrow, in coarsest grains: a quarter of the box.
const NARROW: u16 = 1 << 14;

/// The coordinates of a block's places, and the distance from which on no pair interacts. The cutoff is at least 1,024
/// grains, and below 2,048 unless the grain is the coarsest.
#[derive(Drop)]
pub(crate) struct Columns {
    /// The places in grains.
    fine: Lanes,
    /// The places in the coarsest grains.
    whole: Lanes,
    /// The binary logarithm of the grain, at most 16.
    grain: u32,
    /// A squared distance, in units of 2^16 square grains: no pair interacts from three units below it on.
    reach: u16,
    ghost reach_fits: { reach < 2 ^ 15 },
}

/// Coordinates of places, axis by axis, in grains round a ring of 2^16 of them. The lanes behind the last place repeat
/// the first one.
#[derive(Clone, Copy, Drop)]
struct Lanes {
    x: [u16; BLOCK],
    y: [u16; BLOCK],
    z: [u16; BLOCK],
}

/// A span of coordinates in coarsest grains: those at most `half` from `middle`, round the ring.
#[derive(Clone, Copy)]
struct Interval {
    middle: u16,
    half: u16,
}

/// The spans that contain some places, one on each axis.
#[derive(Clone, Copy)]
struct Bounds {
    x: Interval,
    y: Interval,
    z: Interval,
}

impl Columns {
    ghost use Rattle.lj_tile.specs.Near.{HasColumns};

    pub(crate) fn new(places: &[Place], mix: &Mix) -> Columns
        requires { length places.now ≤ BLOCK }
        ensures { HasColumns (can_interact mix.now) result places.now }
    {
        let reach = mix.reach();
        let grain = grain_of(reach);
        let fine = Lanes::new(places, grain);
        let whole = if grain < COARSEST {
            Lanes::new(places, COARSEST)
        } else {
            fine
        };
        Columns {
            fine,
            whole,
            grain,
            reach: coarse_reach(reach, grain),
        }
    }

    /// Returns a mask of the places: where a bit is 0, that place and `here` do not interact. A ring of fine grains is
    /// shorter than the box and confuses places that are whole turns of it apart, so the places left are tested in
    /// coarsest grains too.
    #[inline(always)]
    pub(crate) fn near(&self, here: &Place) -> u64
        requires { self.now.grain ≤ 16 }
        ensures { (interact : ℕ → Bool) (places : List Place) → HasColumns interact self.now places → (k : ℕ)
            → k < length places → bit_at result k ≡ 0
            → interact (squared_distance here.now (place_at places k)) ≡ false }
    {
        let near = self.fine.near(here, self.grain, self.reach);
        if self.grain == COARSEST || near == 0 {
            return near;
        }
        near & self.whole.within(here, span_of(self.grain))
    }

    /// Returns a mask of the places of another block: where a bit is 0, that place and none of these interact. Unless
    /// these places are narrow it makes no test, and sets each bit.
    #[inline(always)]
    pub(crate) fn rows_near(&self, rows: &[Place]) -> u64
        requires { length rows.now ≤ BLOCK }
        ensures { (interact : ℕ → Bool) (places : List Place) → HasColumns interact self.now places → (t : ℕ)
            → t < length rows.now → bit_at result t ≡ 0 → (k : ℕ) → k < length places
            → interact (squared_distance (place_at rows.now t) (place_at places k)) ≡ false }
    {
        if self.grain != COARSEST {
            return u64::MAX;
        }
        let bounds = self.fine.bounds();
        if bounds.x.half.min(bounds.y.half).min(bounds.z.half) >= NARROW {
            return u64::MAX;
        }
        Lanes::new(rows, COARSEST).near_bounds(&bounds, self.reach)
    }
}

impl Lanes {
    ghost use Rattle.lj_tile.specs.Near.{HasLanes, IsInside, IsLane};

    fn new(places: &[Place], grain: u32) -> Lanes
        requires few { length places.now ≤ BLOCK }
        requires grain { grain ≤ 16 }
        ensures { HasLanes grain result places.now }
    {
        let first = first_of(places);
        let mut x = [in_grains(first.x, grain); BLOCK];
        let mut y = [in_grains(first.y, grain); BLOCK];
        let mut z = [in_grains(first.z, grain); BLOCK];
        for (s, place) in places.iter().enumerate() {
            x[s] = in_grains(place.x, grain);
            y[s] = in_grains(place.y, grain);
            z[s] = in_grains(place.z, grain);
        }
        Lanes { x, y, z }
    }

    /// Returns a mask of the places: where a bit is 0, that place and `here` are at a squared distance of `reach - 3`
    /// or more, in units of 2^16 square grains.
    #[inline(always)]
    fn near(&self, here: &Place, grain: u32, reach: u16) -> u64
        requires grain { grain ≤ 16 }
        requires reach { reach < 2 ^ 15 }
        ensures { (k : ℕ) (there : Place) → k < BLOCK → bit_at result k ≡ 0 → IsLane grain self.now k there
            → reach * square_unit grain ≤ squared_distance here.now there + 3 * square_unit grain }
    {
        joined(
            self.near_part(0, here, grain, reach),
            self.near_part(16, here, grain, reach),
            self.near_part(32, here, grain, reach),
            self.near_part(48, here, grain, reach),
        )
    }

    /// Does the same for the sixteen places from `at` on.
    #[inline(always)]
    fn near_part(&self, at: usize, here: &Place, grain: u32, reach: u16) -> u64
        requires within { at + 16 ≤ BLOCK }
        requires grain { grain ≤ 16 }
        requires reach { reach < 2 ^ 15 }
        ensures { (k : ℕ) (there : Place) → k < 16 → bit_at result k ≡ 0 → IsLane grain self.now (at + k) there
            → reach * square_unit grain ≤ squared_distance here.now there + 3 * square_unit grain }
    {
        let x = coarse_squares(sixteen(&self.x, at), here.x, grain);
        let y = coarse_squares(sixteen(&self.y, at), here.y, grain);
        let z = coarse_squares(sixteen(&self.z, at), here.z, grain);
        below(x, y, z, reach)
    }

    /// Returns a mask of the places, which are in coarsest grains: where a bit is 0, that place and `here` are at least
    /// `span` grains apart.
    #[inline]
    fn within(&self, here: &Place, span: u16) -> u64
        requires { span < 2 ^ 15 }
        ensures { (k : ℕ) (there : Place) → k < BLOCK → bit_at result k ≡ 0 → IsLane 16 self.now k there
            → span * 2 ^ 16 * (span * 2 ^ 16) ≤ squared_distance here.now there }
    {
        joined(
            self.within_part(0, here, span),
            self.within_part(16, here, span),
            self.within_part(32, here, span),
            self.within_part(48, here, span),
        )
    }

    /// Does the same for the sixteen places from `at` on.
    #[inline(always)]
    fn within_part(&self, at: usize, here: &Place, span: u16) -> u64
        requires within { at + 16 ≤ BLOCK }
        requires span { span < 2 ^ 15 }
        ensures { (k : ℕ) (there : Place) → k < 16 → bit_at result k ≡ 0 → IsLane 16 self.now (at + k) there
            → span * 2 ^ 16 * (span * 2 ^ 16) ≤ squared_distance here.now there }
    {
        let x = shifted(sixteen(&self.x, at), here.x, span);
        let y = shifted(sixteen(&self.y, at), here.y, span);
        let z = shifted(sixteen(&self.z, at), here.z, span);
        lt_bitmask(x, 2 * span + 1) & lt_bitmask(y, 2 * span + 1) & lt_bitmask(z, 2 * span + 1)
    }

    /// Returns the bounds of the places, which are in coarsest grains.
    #[inline(always)]
    fn bounds(&self) -> Bounds
        ensures { (k : ℕ) (there : Place) → k < BLOCK → IsLane 16 self.now k there → IsInside result there }
    {
        Bounds {
            x: interval_over(&self.x),
            y: interval_over(&self.y),
            z: interval_over(&self.z),
        }
    }

    /// Returns a mask of the places, which are in coarsest grains: where a bit is 0, that place and each place within
    /// the bounds are at a squared distance of `reach - 3` or more, in units of 2^16 square grains.
    #[inline(always)]
    fn near_bounds(&self, bounds: &Bounds, reach: u16) -> u64
        requires { reach < 2 ^ 15 }
        ensures { (k : ℕ) (here there : Place) → k < BLOCK → bit_at result k ≡ 0 → IsLane 16 self.now k here
            → IsInside bounds.now there → reach * square_unit 16 ≤ squared_distance here there + 3 * square_unit 16 }
    {
        joined(
            self.near_bounds_part(0, bounds, reach),
            self.near_bounds_part(16, bounds, reach),
            self.near_bounds_part(32, bounds, reach),
            self.near_bounds_part(48, bounds, reach),
        )
    }

    /// Does the same for the sixteen places from `at` on.
    #[inline(always)]
    fn near_bounds_part(&self, at: usize, bounds: &Bounds, reach: u16) -> u64
        requires within { at + 16 ≤ BLOCK }
        requires reach { reach < 2 ^ 15 }
        ensures { (k : ℕ) (here there : Place) → k < 16 → bit_at result k ≡ 0 → IsLane 16 self.now (at + k) here
            → IsInside bounds.now there → reach * square_unit 16 ≤ squared_distance here there + 3 * square_unit 16 }
    {
        let x = outside_squares(sixteen(&self.x, at), bounds.x);
        let y = outside_squares(sixteen(&self.y, at), bounds.y);
        let z = outside_squares(sixteen(&self.z, at), bounds.z);
        below(x, y, z, reach)
    }
}

/// Returns the first place, if there is one.
#[inline(always)]
fn first_of(places: &[Place]) -> Place
    ensures { 0 < length places.now → result ≡ place_at places.now 0 }
{
    match places.first() {
        Some(place) => *place,
        None => Place { x: 0, y: 0, z: 0 },
    }
}

/// Returns the binary logarithm of the grain for this squared reach.
fn grain_of(reach: u64) -> u32
    ensures most { result ≤ 16 }
    ensures few { result < 16 → reach < 2 ^ 22 * (2 ^ result * 2 ^ result) }
{
    let mut grain = COARSEST;
    while grain > 0 && reach >> grain >> grain < 1 << 20 {
        grain -= 1;
    }
    grain
}

/// Returns the squared distance `reach`, rounded up, in units of 2^16 square grains, plus three units: rounding to
/// grains adds less than that to a sum of squares.
fn coarse_reach(reach: u64, grain: u32) -> u16
    requires grain { grain ≤ 16 }
    requires fits { reach ≤ 2 ^ 30 * (2 ^ grain * 2 ^ grain) }
    ensures least { reach + 3 * square_unit grain ≤ result * square_unit grain }
    ensures most { result < 2 ^ 15 }
{
    let side = units_of(grain);
    (reach.div_ceil((side * side) << 16) + 3) as u16
}

/// Returns a length in coarsest grains of at least 2,048 grains.
fn span_of(grain: u32) -> u16
    requires { grain ≤ 16 }
    ensures longer { 2 ^ 11 * 2 ^ grain ≤ result * 2 ^ 16 }
    ensures few { result < 2 ^ 15 }
{
    (units_of(grain) >> 5) as u16 + 1
}

/// Returns the ring units of a grain.
#[inline]
fn units_of(grain: u32) -> u64
    requires { grain ≤ 16 }
    ensures value { result ≡ 2 ^ grain }
    ensures least { 1 ≤ result }
    ensures most { result ≤ 2 ^ 16 }
{
    1 << grain
}

/// Returns a coordinate in whole grains, round a ring of 2^16 of them.
#[inline(always)]
fn in_grains(coordinate: u32, grain: u32) -> u16
    requires { grain ≤ 16 }
    ensures value { result ≡ grains grain coordinate }
    ensures ring { coordinate < 2 ^ 32 }
{
    ((coordinate >> grain) % (1 << 16)) as u16
}

/// Returns the squares of the images between `here` and the coordinates `there`, given in grains, in whole units of
/// 2^16 square grains. Rounding makes them too great by less than one unit.
#[inline(always)]
fn coarse_squares(there: u16x16, here: u32, grain: u32) -> u16x16
    requires { grain ≤ 16 }
    ensures least { (k c : ℕ) → k < 16 → c < 2 ^ 32 → slice_index there k ≡ grains grain c
        → let size = unsigned_abs (image here c) in
        slice_index result k * square_unit grain < size * size + square_unit grain }
    ensures small { (k : ℕ) → k < 16 → slice_index result k ≤ 2 ^ 14 }
{
    square_units(u16_lanes::sub(there, u16_lanes::splat(in_grains(here, grain))))
}

/// Returns the squares of the distances of coordinates `here`, given in coarsest grains, from the span, in whole units
/// of 2^16 square grains. Rounding makes them too great by less than one unit.
#[inline(always)]
fn outside_squares(here: u16x16, interval: Interval) -> u16x16
    ensures least { (k a b : ℕ) → k < 16 → a < 2 ^ 32 → b < 2 ^ 32 → slice_index here k ≡ grains 16 a
        → grains_apart (grains 16 b) interval.middle ≤ interval.half
        → let size = unsigned_abs (image a b) in
        slice_index result k * square_unit 16 < size * size + square_unit 16 }
    ensures small { (k : ℕ) → k < 16 → slice_index result k ≤ 2 ^ 14 }
{
    let apart = u16_lanes::sub(here, u16_lanes::splat(interval.middle));
    let length = u16_lanes::min(apart, u16_lanes::sub(u16_lanes::splat(0), apart));
    square_units(u16_lanes::saturating_sub(length, u16_lanes::splat(interval.half)))
}

/// Returns the span of coordinates in grains, round the ring: from the least to the greatest image from the first one.
#[inline(always)]
fn interval_over(grains: &[u16; BLOCK]) -> Interval
    ensures { (k : ℕ) → k < BLOCK → grains_apart (slice_index grains.now k) result.middle ≤ result.half }
{
    let start = grains[0].wrapping_sub(1 << 15);
    let starts = u16_lanes::splat(start);
    let a = u16_lanes::sub(sixteen(grains, 0), starts);
    let b = u16_lanes::sub(sixteen(grains, 16), starts);
    let c = u16_lanes::sub(sixteen(grains, 32), starts);
    let d = u16_lanes::sub(sixteen(grains, 48), starts);
    let least = reduce_min(u16_lanes::min(u16_lanes::min(a, b), u16_lanes::min(c, d)));
    let greatest = reduce_max(u16_lanes::max(u16_lanes::max(a, b), u16_lanes::max(c, d)));
    let half = greatest.saturating_sub(least) / 2 + 1;
    Interval {
        middle: start.wrapping_add(least).wrapping_add(half),
        half,
    }
}

/// Returns the differences of coordinates, in coarsest grains, plus `span`. If one is above `2 * span`, the image is at
/// least `span` grains long.
#[inline(always)]
fn shifted(there: u16x16, here: u32, span: u16) -> u16x16
    requires { span < 2 ^ 15 }
    ensures { (k c : ℕ) → k < 16 → c < 2 ^ 32 → slice_index there k ≡ grains 16 c
        → 2 * span < slice_index result k → span * 2 ^ 16 ≤ unsigned_abs (image here c) }
{
    let here = u16_lanes::splat(in_grains(here, COARSEST));
    u16_lanes::add(u16_lanes::sub(there, here), u16_lanes::splat(span))
}

/// Returns the squares of differences in grains, the shorter way round, in whole units of 2^16 square grains. LLVM
/// turns these steps into one product of 16-bit lanes.
#[inline(always)]
fn square_units(v: u16x16) -> u16x16
    ensures { (k : ℕ) → k < 16 → let size = min (slice_index v k) (2 ^ 16 - slice_index v k) in
        slice_index result k ≡ size * size / 2 ^ 16 }
{
    let sizes = sign_extended(v);
    u32_lanes::cast_u16(u32_lanes::shr(u32_lanes::mul(sizes, sizes), 16))
}

/// Returns the lanes as signed numbers, modulo 2^32.
#[inline(always)]
fn sign_extended(v: u16x16) -> u32x16
    ensures { (k : ℕ) → k < 16 →
        slice_index result k ≡ ((slice_index v k + 2 ^ 15) % 2 ^ 16 + (2 ^ 32 - 2 ^ 15)) % 2 ^ 32 }
{
    let turned = u16_lanes::cast_u32(u16_lanes::add(v, u16_lanes::splat(1 << 15)));
    u32_lanes::sub(turned, u32_lanes::splat(1 << 15))
}

/// Sets bit k if the sum of lanes k is below `reach`: if lane k of `z` is less than `reach` minus the others. Signed
/// numbers are compared in one step on any processor.
#[inline(always)]
fn below(x: u16x16, y: u16x16, z: u16x16, reach: u16) -> u64
    requires reach { reach < 2 ^ 15 }
    requires small { (k : ℕ) → k < 16 → slice_index z k ≤ 2 ^ 14 }
    ensures { (k : ℕ) → k < 16 → bit_at result k ≡ 0
        → reach ≤ slice_index x k + slice_index y k + slice_index z k }
{
    u16_lanes::cast_i16(left(reach, x, y))
        .simd_gt(u16_lanes::cast_i16(z))
        .to_bitmask()
}

/// Subtracts two numbers from `reach`, to 0 at the least.
#[inline(always)]
fn left(reach: u16, x: u16x16, y: u16x16) -> u16x16
    ensures { (k : ℕ) → k < 16 → slice_index result k ≡ reach - slice_index x k - slice_index y k }
{
    u16_lanes::saturating_sub(u16_lanes::saturating_sub(u16_lanes::splat(reach), x), y)
}

/// Sets bit k if lane k is below `bound`.
#[inline(always)]
fn lt_bitmask(v: u16x16, bound: u16) -> u64
    ensures { (k : ℕ) → k < 16 → bit_at result k ≡ 0 → bound ≤ slice_index v k }
{
    v.simd_lt(u16x16::splat(bound)).to_bitmask()
}

/// Returns the sixteen numbers from `at` on.
#[inline(always)]
fn sixteen(numbers: &[u16; BLOCK], at: usize) -> u16x16
    requires { at + 16 ≤ BLOCK }
    ensures { (k : ℕ) → k < 16 → slice_index result k ≡ slice_index numbers.now (at + k) }
{
    u16x16::from_slice(&numbers[at..])
}

/// Joins the masks of four times sixteen places to one.
#[inline(always)]
fn joined(first: u64, second: u64, third: u64, fourth: u64) -> u64
    ensures first { (k : ℕ) → k < 16 → bit_at result k ≡ 0 → bit_at first k ≡ 0 }
    ensures second { (k : ℕ) → k < 16 → bit_at result (16 + k) ≡ 0 → bit_at second k ≡ 0 }
    ensures third { (k : ℕ) → k < 16 → bit_at result (32 + k) ≡ 0 → bit_at third k ≡ 0 }
    ensures fourth { (k : ℕ) → k < 16 → bit_at result (48 + k) ≡ 0 → bit_at fourth k ≡ 0 }
{
    first | second << 16 | third << 32 | fourth << 48
}

#[inline(always)]
fn reduce_min(v: u16x16) -> u16
    ensures { (k : ℕ) → k < 16 → result ≤ slice_index v k }
{
    let pair = min_of_4(min_of_8(min_of_16(v)));
    pair[0].min(pair[1])
}

#[inline(always)]
fn reduce_max(v: u16x16) -> u16
    ensures { (k : ℕ) → k < 16 → slice_index v k ≤ result }
{
    u16::MAX - reduce_min(u16_lanes::sub(u16_lanes::splat(u16::MAX), v))
}

/// Returns the lesser of lanes k and k + 8.
#[inline(always)]
fn min_of_16(v: u16x16) -> u16x8
    ensures { (k : ℕ) → k < 16 → slice_index result (k % 8) ≤ slice_index v k }
{
    v.extract::<0, 8>().simd_min(v.extract::<8, 8>())
}

#[inline(always)]
fn min_of_8(v: u16x8) -> u16x4
    ensures { (k : ℕ) → k < 8 → slice_index result (k % 4) ≤ slice_index v k }
{
    v.extract::<0, 4>().simd_min(v.extract::<4, 4>())
}

#[inline(always)]
fn min_of_4(v: u16x4) -> u16x2
    ensures { (k : ℕ) → k < 4 → slice_index result (k % 2) ≤ slice_index v k }
{
    v.extract::<0, 2>().simd_min(v.extract::<2, 2>())
}
