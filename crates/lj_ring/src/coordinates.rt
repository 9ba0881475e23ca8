//! Places on the ring, their images and squared distances, and the positions that they stand for.
ghost use Rattle.std.specs.Prelude.{◌≡◌, ◌≤◌, ◌^◌, ◌*◌};
ghost use Rattle.lj_ring.specs.Places as places;
ghost use Rattle.lj_ring.specs.Ring as ring;

use crate::scales::Edge;
use lj_fixed::Nano;

/// The place of an atom: a coordinate on each axis, in ring units of 2^-32 of the box edge.
#[derive(Clone, Copy, PartialEq, Eq, Default, Debug)]
pub struct Place {
    pub x: u32,
    pub y: u32,
    pub z: u32,
}

/// Returns the least image of `to - from`, in ring units, -2^31 to 2^31 - 1: the difference round the ring nearest to 0.
///
/// ```rust
/// assert_eq!(image(4, 4_294_967_290), 10);
/// ```
///
/// Promise: the result is the difference of the two coordinates, taken the shorter way around the ring.
#[inline]
pub fn image(to: u32, from: u32) -> i32
    ensures value { result ≡ ring.image to from }
    ensures least { ring.IsLeastImage to from result }
{
    to.wrapping_sub(from).cast_signed()
}

/// Returns the square of an image, in square ring units.
#[inline]
fn square(image: i32) -> u64
    ensures value { result ≡ ring.square image }
    ensures bound { result ≤ 2 ^ 62 }
{
    let length = i64::from(image);
    (length * length).unsigned_abs()
}

/// Returns the squared distance of two places, in square ring units, at most 3 * 2^62.
///
/// ```rust
/// let (a, b) = (Place { x: 0, y: 3, z: 0 }, Place { x: 4_294_967_294, y: 0, z: 6 });
/// assert_eq!(dist2(&a, &b), 49);
/// ```
///
/// Promise: the result is the sum of the squares of the three images.
#[inline]
pub fn dist2(a: &Place, b: &Place) -> u64
    ensures value { result ≡ ring.squared_distance a.now b.now }
    ensures first { ring.IsOnRing a.now }
    ensures second { ring.IsOnRing b.now }
    ensures bound { result ≤ 3 * 2 ^ 62 }
{
    square(image(a.x, b.x)) + square(image(a.y, b.y)) + square(image(a.z, b.z))
}

/// Returns the coordinate of a position in nano: `floor(position * 2^32 / edge)` round the ring.
///
/// ```rust
/// let scale = Scale::new(parse_nano(b"256")?, parse_nano(b"1")?, 1)?;
/// assert_eq!(place_of(parse_nano(b"1.5")?, &scale.edge()), 25_165_824);
/// ```
///
/// Promise: the result is floor(position * 2^32 / edge), modulo 2^32.
pub fn place_of(position: Nano, edge: &Edge) -> u32
    ensures { result ≡ places.place_of edge.now position }
{
    let turns = i128::from(position.get()) * (1 << 32);
    turns
        .div_euclid(i128::from(edge.nano()))
        .rem_euclid(1 << 32) as u32
}

/// Returns the position of a coordinate in millionths of a file unit: `floor(place * edge / (2^32 * 1000))`.
///
/// ```rust
/// let scale = Scale::new(parse_nano(b"256")?, parse_nano(b"1")?, 1)?;
/// assert_eq!(micro_of(25_165_824, &scale.edge()), 1_500_000);
/// ```
///
/// Promise: the result is floor(place * edge / (2^32 * 1000)).
pub fn micro_of(place: u32, edge: &Edge) -> u64
    ensures { result ≡ places.micro_of edge.now place }
{
    let scaled = u128::from(place) * u128::from(edge.nano());
    (scaled / ((1 << 32) * 1000)) as u64
}
