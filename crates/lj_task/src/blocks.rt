//! Blocks of places of atoms.
ghost use Rattle.std.specs.Prelude.{◌≡◌, ◌≤◌, ◌↔◌, ◌+◌, ◌*◌, ◌&&◌, ◌∷◌, [], drop, length, IsTrue};
ghost use Rattle.lj_task.specs.Block.{is_same_place, are_same_places, are_same_lanes, has_none};

use arrayvec::ArrayVec;
use lj_ring::Place;
use std::marker::Model;
use std::simd::prelude::*;

/// Maximum number of atoms in a block.
pub const BLOCK: usize = 64;

/// Maximum number of blocks of a simulation. A task names its two blocks by numbers below it.
pub const MAX_BLOCKS: usize = 64;

/// A block of places of atoms that stand next to each other in the file, at most `BLOCK`. Bit `t` of `species_bits` is 1 if
/// the atom at place `t` is of the second species.
#[derive(PartialEq, Eq, Debug, Drop)]
pub struct Block {
    places: ArrayVec<Place, BLOCK>,
    species_bits: u64,
}

impl Model for Block {
    ghost use Rattle.lj_task.specs.Block.{Block};

    ghost Value = { Block };

    ghost view = { λ b. record { places = b.places.items; species_bits = b.species_bits } };

    ghost inverse = { λ sites. record { places = record { items = sites.places }; species_bits = sites.species_bits } };
}

impl Block {
    /// Makes a block of these places; the bits of `species_bits` mark those of the second species.
    ///
    /// ```rust
    /// // two atoms, the later one of the second species
    /// let block = Block::new(&[Place { x: 0, y: 0, z: 0 }, Place { x: 25_165_824, y: 0, z: 0 }], 0b10);
    /// assert_eq!((block.places().len(), block.species_bits()), (2, 0b10));
    /// ```
    pub fn new(places: &[Place], species_bits: u64) -> Block
        requires { length places.now ≤ BLOCK }
        ensures { result ≡ record { places = places.now; species_bits = species_bits } }
    {
        let mut block = Block {
            places: ArrayVec::new(),
            species_bits,
        };
        let _fits = block.places.try_extend_from_slice(places);
        block
    }

    /// Returns the places, in order.
    ///
    /// ```rust
    /// let block = Block::new(&[Place { x: 1, y: 2, z: 3 }], 0);
    /// assert_eq!(block.places()[0], Place { x: 1, y: 2, z: 3 });
    /// ```
    #[inline]
    pub fn places(&self) -> &[Place]
        ensures value { result.now ≡ self.now.places }
        ensures most { length result.now ≤ BLOCK }
    {
        self.places.as_slice()
    }

    /// Returns which places are of atoms of the second species, bit by bit.
    ///
    /// ```rust
    /// let block = Block::new(&[Place { x: 1, y: 2, z: 3 }; 3], 0b101);
    /// assert_eq!(block.species_bits(), 0b101);
    /// ```
    #[inline]
    pub fn species_bits(&self) -> u64
        ensures { result ≡ self.now.species_bits }
    {
        self.species_bits
    }

    /// Returns an equal block.
    ///
    /// ```rust
    /// let block = Block::new(&[Place { x: 1, y: 2, z: 3 }], 1);
    /// assert!(block.copy().is(&block));
    /// ```
    pub fn copy(&self) -> Block
        ensures { result ≡ self.now }
    {
        Block::new(self.places(), self.species_bits())
    }

    /// Returns the block by reference.
    ///
    /// ```rust
    /// let block = Block::new(&[Place { x: 1, y: 2, z: 3 }], 1);
    /// assert_eq!(block.by_ref().places, block.places());
    /// ```
    #[inline]
    pub fn by_ref(&self) -> BlockRef<'_>
        ensures { result ≡ self.now }
    {
        BlockRef::new(self.places(), self.species_bits())
    }

    /// Makes this block equal to one that is given by reference.
    ///
    /// ```rust
    /// let mut block = Block::new(&[Place { x: 0, y: 0, z: 0 }; 2], 0);
    /// block.remake(&Block::new(&[Place { x: 1, y: 2, z: 3 }], 1).by_ref());
    /// assert!(block.is(&Block::new(&[Place { x: 1, y: 2, z: 3 }], 1)));
    /// ```
    pub fn remake(&mut self, block: &BlockRef<'_>)
        requires { length block.now.places ≤ BLOCK }
        ensures { self.new ≡ block.now }
    {
        if self.places.len() == block.places.len() {
            self.places.as_mut_slice().copy_from_slice(block.places);
        } else {
            self.places.clear();
            let _fits = self.places.try_extend_from_slice(block.places);
        }
        self.species_bits = block.species_bits;
    }

    /// Writes to each cache line, of 64 bytes: puts every fifth place to x = 0, and all atoms to the first species.
    pub(crate) fn touch(&mut self)
        ensures { length self.new.places ≡ length self.old.places }
    {
        let places = self.places.as_mut_slice();
        for line in 0..places.len().div_ceil(5) {
            places[5 * line].x = 0;
        }
        self.species_bits = 0;
    }

    /// Returns whether the other block is equal.
    ///
    /// ```rust
    /// let block = Block::new(&[Place { x: 1, y: 2, z: 3 }], 0);
    /// assert!(block.is(&Block::new(&[Place { x: 1, y: 2, z: 3 }], 0)));
    /// assert!(!block.is(&Block::new(&[Place { x: 1, y: 2, z: 4 }], 0)));
    /// ```
    pub fn is(&self, other: &Block) -> bool
        ensures { IsTrue result ↔ (self.now ≡ other.now) }
    {
        let block = self.by_ref();
        block.fits(&other.by_ref()) && block.has_places(other.places())
    }
}

/// A block by reference to its places, which may lie in a frame.
#[derive(Drop)]
pub struct BlockRef<'a> {
    pub species_bits: u64,
    pub places: &'a [Place],
}

impl<'a> Model for BlockRef<'a> {
    ghost use Rattle.lj_task.specs.Block.{Block};

    ghost Value = { Block };

    ghost view = { λ b. record { places = b.places.now; species_bits = b.species_bits } };
}

impl<'a> BlockRef<'a> {
    /// Returns the block of these places; the bits of `species_bits` mark those of the second species.
    ///
    /// ```rust
    /// let block = BlockRef::new(&[Place { x: 1, y: 2, z: 3 }], 0b1);
    /// assert_eq!((block.places.len(), block.species_bits), (1, 0b1));
    /// ```
    #[inline]
    pub fn new(places: &'a [Place], species_bits: u64) -> BlockRef<'a>
        ensures { result ≡ record { places = places.now; species_bits = species_bits } }
    {
        BlockRef {
            places,
            species_bits,
        }
    }

    /// Returns a copy of the block.
    pub(crate) fn to_block(&self) -> Block
        requires { length self.now.places ≤ BLOCK }
        ensures { result ≡ self.now }
    {
        Block::new(self.places, self.species_bits)
    }

    /// Returns the places, in order.
    ///
    /// ```rust
    /// let places = [Place { x: 1, y: 2, z: 3 }];
    /// assert_eq!(BlockRef::new(&places, 0).places()[0].z, 3);
    /// ```
    #[inline]
    pub fn places(&self) -> &'a [Place]
        ensures value { result.now ≡ self.now.places }
    {
        self.places
    }

    /// Returns which places are of atoms of the second species, bit by bit.
    ///
    /// ```rust
    /// let places = [Place { x: 1, y: 2, z: 3 }; 3];
    /// assert_eq!(BlockRef::new(&places, 0b101).species_bits(), 0b101);
    /// ```
    #[inline]
    pub fn species_bits(&self) -> u64
        ensures { result ≡ self.now.species_bits }
    {
        self.species_bits
    }

    /// Returns whether this block has as many places as the other, and its species. It reads no place.
    #[inline]
    pub(crate) fn fits(&self, other: &BlockRef<'_>) -> bool
        ensures { IsTrue result ↔ ((length self.now.places ≡ length other.now.places)
            × (self.now.species_bits ≡ other.now.species_bits)) }
    {
        (self.places.len() == other.places.len()) & (self.species_bits == other.species_bits)
    }

    /// Returns whether the places of this block are these, of which there are as many.
    #[inline]
    #[tactic(auto, using(crate::proofs::SameLemmas::places_Decides))]
    pub(crate) fn has_places(&self, places: &[Place]) -> bool
        requires { length self.now.places ≡ length places.now }
        ensures { IsTrue result ↔ (self.now.places ≡ places.now) }
    {
        is_same_list(self.places, places)
    }
}

/// Returns whether two lists of one length have the same places. It compares all of them, several at once.
#[inline]
fn is_same_list(a: &[Place], b: &[Place]) -> bool
    requires { length a.now ≡ length b.now }
    ensures { result ≡ are_same_places a.now b.now }
{
    let fours = a.len() / 4;
    is_same_in_fours(a, b, fours) & is_same_from(a, b, 4 * fours)
}

/// Returns whether the first `4 * fours` places of two lists are the same. It gathers the differences in lanes, and
/// tests them once at the end.
#[inline]
fn is_same_in_fours(a: &[Place], b: &[Place], fours: usize) -> bool
    requires count { length a.now ≡ length b.now }
    requires enough { 4 * fours ≤ length a.now }
    ensures { (result && are_same_places (drop (4 * fours) a.now) (drop (4 * fours) b.now))
        ≡ are_same_places a.now b.now }
{
    let mut differences = u32x4::splat(0);
    for group in 0..fours {
        differences = either(differences, differences_of_four(a, b, 4 * group));
    }
    has_none(differences)
}

/// Returns the bits in which the coordinates of four places, from `from` on, differ, in lanes.
#[inline(always)]
fn differences_of_four(a: &[Place], b: &[Place], from: usize) -> u32x4
    requires count { length a.now ≡ length b.now }
    requires enough { from + 4 ≤ length a.now }
    ensures { (has_none result && are_same_places (drop (from + 4) a.now) (drop (from + 4) b.now))
        ≡ are_same_places (drop from a.now) (drop from b.now) }
{
    let first = differences(
        first_lanes(&a[from], &a[from + 1]),
        first_lanes(&b[from], &b[from + 1]),
    );
    let middle = differences(
        middle_lanes(&a[from + 1], &a[from + 2]),
        middle_lanes(&b[from + 1], &b[from + 2]),
    );
    let last = differences(
        last_lanes(&a[from + 2], &a[from + 3]),
        last_lanes(&b[from + 2], &b[from + 3]),
    );
    either(either(first, middle), last)
}

/// Returns the first four coordinates of four places, in their order in memory.
#[inline(always)]
fn first_lanes(first: &Place, second: &Place) -> u32x4
    ensures { result ≡ first.now.x ∷ first.now.y ∷ first.now.z ∷ second.now.x ∷ [] }
{
    u32x4::from_array([first.x, first.y, first.z, second.x])
}

/// Returns the middle four coordinates of four places, in their order in memory.
#[inline(always)]
fn middle_lanes(second: &Place, third: &Place) -> u32x4
    ensures { result ≡ second.now.y ∷ second.now.z ∷ third.now.x ∷ third.now.y ∷ [] }
{
    u32x4::from_array([second.y, second.z, third.x, third.y])
}

/// Returns the last four coordinates of four places, in their order in memory.
#[inline(always)]
fn last_lanes(third: &Place, fourth: &Place) -> u32x4
    ensures { result ≡ third.now.z ∷ fourth.now.x ∷ fourth.now.y ∷ fourth.now.z ∷ [] }
{
    u32x4::from_array([third.z, fourth.x, fourth.y, fourth.z])
}

/// Returns the bits in which two vectors differ.
#[inline(always)]
fn differences(a: u32x4, b: u32x4) -> u32x4
    ensures { has_none result ≡ are_same_lanes a b }
{
    a ^ b
}

/// Returns the bits that are set in one of two vectors, or in both.
#[inline(always)]
fn either(a: u32x4, b: u32x4) -> u32x4
    ensures { has_none result ≡ (has_none a && has_none b) }
{
    a | b
}

/// Returns whether no bit is set.
#[inline]
fn has_none(v: u32x4) -> bool
    ensures { result ≡ has_none v }
{
    let [first, second, third, fourth] = v.to_array();
    (first | second | third | fourth) == 0
}

/// Returns whether the places of two lists are the same from `from` on.
#[inline]
fn is_same_from(a: &[Place], b: &[Place], from: usize) -> bool
    requires count { length a.now ≡ length b.now }
    requires within { from ≤ length a.now }
    ensures { result ≡ are_same_places (drop from a.now) (drop from b.now) }
{
    let mut same = true;
    for i in from..a.len() {
        same &= is_same(&a[i], &b[i]);
    }
    same
}

#[inline]
fn is_same(a: &Place, b: &Place) -> bool
    ensures { result ≡ is_same_place a.now b.now }
{
    (a.x == b.x) & (a.y == b.y) & (a.z == b.z)
}
