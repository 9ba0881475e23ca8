//! A list of the near pairs of a task, a few rows long.
ghost use Rattle.std.specs.Prelude.{◌≡◌, ◌≤◌, ◌<◌, ◌+◌, ◌++◌, ◌*◌, ◌-◌, ◌^◌, ◌%◌, [], length, take, drop, slice_index_or, slice_set};
ghost use Rattle.std.specs.Prelude.{bit_and};
ghost use Rattle.std.specs.Int.{trailing_zeros, w64};
ghost use Rattle.lj_tile.specs.Pairs.{row_pairs};

use lj_task::BLOCK;
use std::marker::Model;
use std::simd::prelude::*;

/// The length from which on a list is summed before the next row is appended.
pub(crate) const FULL: usize = 64;

/// The capacity of a list: the pairs of a list that is not full, those of one row, and eight behind the last.
const ROOM: usize = FULL + BLOCK + 8;

/// Pairs of places, one of each block: `BLOCK` times the first plus the second. What follows the last is unspecified.
#[derive(Drop)]
pub(crate) struct NearPairs {
    count: usize,
    pairs: [u16; ROOM],
}

impl Model for NearPairs {
    ghost use Rattle.std.specs.Prelude.{List, ℕ, take};

    ghost Value = { List ℕ };

    ghost view = { λ n. take n.count n.pairs };

    ghost use Rattle.std.specs.Prelude.{◌<◌, ◌+◌};
    ghost use Rattle.lj_tile.specs.declared.near_pairs.TheConstants.{FULL};
    ghost use Rattle.lj_task.specs.declared.blocks.TheConstants.{BLOCK};

    ghost invariant = { λ n. n.count < FULL + BLOCK };
}

impl NearPairs {
    /// Makes an empty list.
    #[inline(always)]
    pub(crate) fn new() -> NearPairs
        ensures { result ≡ [] }
    {
        NearPairs {
            count: 0,
            pairs: [0; ROOM],
        }
    }

    /// Returns how many pairs there are.
    #[inline(always)]
    pub(crate) fn len(&self) -> usize
        ensures value { result ≡ length self.now }
        ensures few { result < FULL + BLOCK }
    {
        self.count
    }

    /// Returns pair `i`.
    #[inline(always)]
    pub(crate) fn at(&self, i: usize) -> u16
        requires within { i < length self.now }
        requires few { i < FULL + BLOCK }
        ensures { result ≡ slice_index_or self.now i 0 }
    {
        self.pairs[i]
    }

    /// Appends the pairs of place `t` of the first block with a set of places of the second. It writes two at a time,
    /// and so maybe one behind the last.
    #[inline(always)]
    pub(crate) fn append(&mut self, t: usize, set: u64)
        requires room { length self.old < FULL }
        requires row { t < BLOCK }
        ensures { self.new ≡ self.old ++ row_pairs t set }
    {
        let row = (BLOCK * t) as u16;
        let from = self.count;
        let end = from + set.count_ones() as usize;
        let mut rest = put(&mut self.pairs, from, row, set);
        rest = put(&mut self.pairs, from + 1, row, rest);
        let mut at = from + 2;
        while at < end {
            rest = put(&mut self.pairs, at, row, rest);
            rest = put(&mut self.pairs, at + 1, row, rest);
            at += 2;
        }
        self.count = end;
    }

    /// Drops the pairs before `from`, which leaves fewer than eight.
    #[inline(always)]
    pub(crate) fn keep_from(&mut self, from: usize)
        requires within { from ≤ length self.old }
        requires left { length self.old < from + 8 }
        requires few { length self.old < FULL + BLOCK }
        ensures { self.new ≡ drop from self.old }
    {
        let left = eight_from(&self.pairs, from);
        left.copy_to_slice(&mut self.pairs);
        self.count -= from;
    }
}

/// Returns eight pairs from `from` on.
#[inline(always)]
fn eight_from(pairs: &[u16; ROOM], from: usize) -> u16x8
    requires { from + 8 ≤ ROOM }
    ensures { result ≡ take 8 (drop from pairs.now) }
{
    u16x8::from_slice(&pairs[from..])
}

/// Writes the pair of the least member of `rest`, and returns the other members.
#[inline(always)]
fn put(pairs: &mut [u16; ROOM], at: usize, row: u16, rest: u64) -> u64
    requires room { at < ROOM }
    requires fits { row ≤ BLOCK * BLOCK }
    ensures written { pairs.new ≡ slice_set pairs.old at (row + trailing_zeros w64 rest % BLOCK) }
    ensures others { result ≡ bit_and rest ((rest + (2 ^ 64 - 1)) % 2 ^ 64) }
{
    pairs[at] = row + (rest.trailing_zeros() % 64) as u16;
    rest & rest.wrapping_sub(1)
}
