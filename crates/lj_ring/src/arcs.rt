//! The arcs of the ring that hold the atoms of a block, and the gap between two blocks.
ghost use Rattle.std.specs.Prelude.{ℕ, ◌≡◌, ◌≤◌, ◌<◌, ◌^◌, ◌*◌, length, unsigned_abs};
ghost use Rattle.lj_ring.specs.Arcs as arcs;
ghost use Rattle.lj_ring.specs.Ring.{IsOnRing, image, place_at};
ghost use Rattle.lj_ring.specs.Spans.{arc_over, span_reaching, spans_below, wider_spans};

use crate::coordinates::{self, Place};

/// An arc of the ring: `len` ring units from `start` on, both ends included.
#[derive(Clone, Copy, PartialEq, Eq, Debug)]
pub struct Arc {
    pub start: u32,
    pub len: u32,
}

/// The arcs that hold the atoms of a block, one on each axis.
#[derive(Clone, Copy, PartialEq, Eq, Debug)]
pub struct Arcs {
    pub x: Arc,
    pub y: Arc,
    pub z: Arc,
}

impl Arcs {
    /// Returns the arcs of one or more places: on each axis from the least to the greatest image of a coordinate from
    /// the first place's.
    ///
    /// ```rust
    /// let places = [Place { x: 5, y: 0, z: 0 }, Place { x: 4_294_967_290, y: 0, z: 0 }];
    /// assert_eq!(Arcs::of(&places).x, Arc { start: 4_294_967_290, len: 11 });
    /// ```
    ///
    /// Promise: the arc along each axis contains every given place.
    pub fn of(places: &[Place]) -> Arcs
        requires { 1 ≤ length places.now }
        ensures value { result ≡ arcs.arcs_of places.now }
        ensures on { arcs.AreOn result places.now }
        ensures on_ring { (i : ℕ) → i < length places.now → IsOnRing (place_at places.now i) }
    {
        let first = places[0];
        let spans = Spans::of(places, first);
        Arcs {
            x: spans.x.arc(first.x),
            y: spans.y.arc(first.y),
            z: spans.z.arc(first.z),
        }
    }

    /// Returns the squared gap of two blocks, in square ring units: the sum of the squares of the gaps of their arcs
    /// along each axis, at most 3 * 2^62.
    ///
    /// ```rust
    /// let one = Arcs::of(&[Place { x: 0, y: 0, z: 0 }, Place { x: 10, y: 0, z: 0 }]);
    /// let other = Arcs::of(&[Place { x: 13, y: 4, z: 0 }]);
    /// assert_eq!(one.squared_gap(&other), 25);
    /// ```
    #[inline]
    pub fn squared_gap(&self, other: &Arcs) -> u64
        ensures value { result ≡ arcs.squared_gap self.now other.now }
        ensures bound { result ≤ 3 * 2 ^ 62 }
    {
        squared(gap(&self.x, &other.x))
            + squared(gap(&self.y, &other.y))
            + squared(gap(&self.z, &other.z))
    }
}

/// Returns the gap between two arcs the shorter way round, in ring units: 0 where they meet, and at most 2^31.
///
/// ```rust
/// assert_eq!(gap(&Arc { start: 4_294_967_290, len: 10 }, &Arc { start: 9, len: 2 }), 5);
/// ```
///
/// Promise: the gap between two arcs is at most the distance between any coordinate on one arc and any coordinate on the other.
#[inline]
pub fn gap(a: &Arc, b: &Arc) -> u32
    ensures value { result ≡ arcs.gap a.now b.now }
    ensures least { (p q : ℕ) → p < 2 ^ 32 → q < 2 ^ 32 → arcs.IsOnArc a.now p → arcs.IsOnArc b.now q
        → result ≤ unsigned_abs (image p q) }
    ensures bound { result ≤ 2 ^ 31 }
{
    let after_a = b.start.wrapping_sub(a.start).saturating_sub(a.len);
    let after_b = a.start.wrapping_sub(b.start).saturating_sub(b.len);
    after_a.min(after_b)
}

#[inline]
fn squared(gap: u32) -> u64
    requires { gap ≤ 2 ^ 31 }
    ensures value { result ≡ gap * gap }
    ensures bound { result ≤ 2 ^ 62 }
{
    u64::from(gap) * u64::from(gap)
}

/// The least and the greatest of 0 and some images, in ring units.
#[derive(Clone, Copy)]
struct Span {
    least: i32,
    greatest: i32,
}

impl Span {
    /// Returns the span, widened to include the image of `to - from`.
    #[inline(always)]
    fn with(self, to: u32, from: u32) -> Span
        ensures { result ≡ span_reaching self to from }
    {
        let image = coordinates::image(to, from);
        Span {
            least: self.least.min(image),
            greatest: self.greatest.max(image),
        }
    }

    /// Returns the arc from `middle + least` to `middle + greatest`.
    fn arc(self, middle: u32) -> Arc
        ensures { result ≡ arc_over self middle }
    {
        Arc {
            start: middle.wrapping_add(self.least.cast_unsigned()),
            len: self.greatest.abs_diff(self.least),
        }
    }
}

/// The spans of the images of some places from the first one, one on each axis.
#[derive(Clone, Copy)]
struct Spans {
    x: Span,
    y: Span,
    z: Span,
}

impl Spans {
    fn of(places: &[Place], first: Place) -> Spans
        requires { first ≡ place_at places.now 0 }
        ensures value { result ≡ spans_below (length places.now) places.now }
        ensures on_ring { (i : ℕ) → i < length places.now → IsOnRing (place_at places.now i) }
    {
        let here = Span {
            least: 0,
            greatest: 0,
        };
        let mut spans = Spans {
            x: here,
            y: here,
            z: here,
        };
        for place in places {
            spans = spans.with(*place, first);
        }
        spans
    }

    #[inline(always)]
    fn with(self, place: Place, first: Place) -> Spans
        ensures value { result ≡ wider_spans self place first }
        ensures on_ring { IsOnRing place }
    {
        Spans {
            x: self.x.with(place.x, first.x),
            y: self.y.with(place.y, first.y),
            z: self.z.with(place.z, first.z),
        }
    }
}
