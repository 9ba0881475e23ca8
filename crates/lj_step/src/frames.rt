//! Frames: the places of all atoms at one moment.
ghost use Rattle.std.specs.Prelude.{◌≡◌, length};
ghost use Rattle.lj_step.specs.MotionLaws.{IsFrameOnRing, IsOnRing};
ghost use Rattle.lj_step.specs.Motion as motion;

use lj_ring::Place;
use lj_task::Push;
use std::marker::Model;

/// Maximum number of atoms in a simulation.
pub const MAX_ATOMS: usize = 4096;

/// The places of all atoms at one moment, in the order of the file.
#[derive(Drop)]
pub struct Frame {
    places: Vec<Place>,
}

impl Model for Frame {
    ghost use Rattle.std.specs.Prelude.{List};
    ghost use Rattle.lj_ring.specs.declared.coordinates.Place.{Place};
    ghost use Rattle.lj_step.specs.MotionLaws.{IsFrameOnRing};

    ghost Value = { List Place };

    ghost view = { λ f. f.places.items };

    ghost invariant = { λ f. IsFrameOnRing f.places.items };
}

impl Frame {
    /// Makes a frame of these places. It takes no memory.
    ///
    /// ```rust
    /// let places = [Place { x: 0, y: 0, z: 0 }, Place { x: 25_165_824, y: 0, z: 0 }];
    /// let frame = Frame::new(Vec::from_slice(alloc, &places)?);
    /// assert_eq!(frame.count(), 2);
    /// ```
    pub fn new(places: Vec<Place>) -> Frame
        ensures { result ≡ places.items }
    {
        read_each(places.as_slice());
        Frame { places }
    }

    pub(crate) fn into_places(self) -> Vec<Place>
        ensures value { result.items ≡ self }
        ensures on_ring { IsFrameOnRing result.items }
    {
        self.places
    }

    /// Returns the number of atoms.
    ///
    /// ```rust
    /// assert_eq!(Frame::new(Vec::new(alloc)).count(), 0);
    /// ```
    pub fn count(&self) -> usize
        ensures { result ≡ length self.now }
    {
        self.places.as_slice().len()
    }
}

/// Reads each place, and does nothing with it: a coordinate that is read is known to be below 2^32.
fn read_each(places: &[Place])
    ensures { IsFrameOnRing places.now }
{
    for place in places {
        read(*place);
    }
}

#[inline(always)]
fn read(_place: Place)
    ensures { IsOnRing _place }
{}

/// Two frames one step apart.
///
/// ```rust
/// // two atoms at rest: both frames are the same
/// let places = [Place { x: 0, y: 0, z: 0 }, Place { x: 25_165_824, y: 0, z: 0 }];
/// let (prev, cur) = (Vec::from_slice(alloc, &places)?, Vec::from_slice(alloc, &places)?);
/// let frames = Frames { prev: Frame::new(prev), cur: Frame::new(cur) };
/// ```
#[derive(Drop)]
pub struct Frames {
    pub prev: Frame,
    pub cur: Frame,
}

/// Writes the places of a frame over those of another.
pub(crate) fn overwrite(to: &mut Vec<Place>, from: &[Place])
    requires { length to.old.items ≡ length from.now }
    ensures { to.new.items ≡ from.now }
{
    to.as_mut_slice().copy_from_slice(from);
}

/// Returns the next place of an atom by the Störmer-Verlet step, from its places before and now and the push on it.
pub(crate) fn next_place(prev: Place, cur: Place, push: Push) -> Place
    ensures { result ≡ motion.next_place prev cur push }
{
    Place {
        x: next_coordinate(prev.x, cur.x, push.x),
        y: next_coordinate(prev.y, cur.y, push.y),
        z: next_coordinate(prev.z, cur.z, push.z),
    }
}

/// Returns `2 cur - prev + push` on the ring.
#[inline]
fn next_coordinate(prev: u32, cur: u32, push: u32) -> u32
    ensures { result ≡ motion.next_coordinate prev cur push }
{
    cur.wrapping_add(cur).wrapping_sub(prev).wrapping_add(push)
}
