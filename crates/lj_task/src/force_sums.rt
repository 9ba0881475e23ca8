//! The sums of the pushes on the places of two blocks.
ghost use Rattle.std.specs.Prelude.{◌≡◌, ◌≤◌, ◌<◌, length, slice_index_or, take, replicate};
ghost use Rattle.lj_task.specs.Pushes.{no_push};

use crate::blocks::BLOCK;
use crate::pushes::Push;

/// The sums of the pushes on the places of the first block of a task, and on those of the second: ring units along each axis,
/// modulo 2^32.
#[derive(Clone, Copy, Debug)]
pub struct ForceSums {
    pub first: [Push; BLOCK],
    pub second: [Push; BLOCK],
}

impl ForceSums {
    /// Makes sums without a push on any place.
    ///
    /// ```rust
    /// assert_eq!(ForceSums::none().first[63], Push::NONE);
    /// ```
    pub fn none() -> ForceSums
        ensures first { result.first ≡ replicate BLOCK no_push }
        ensures second { result.second ≡ replicate BLOCK no_push }
    {
        ForceSums {
            first: [Push::NONE; BLOCK],
            second: [Push::NONE; BLOCK],
        }
    }

    /// Returns how many places of each block have sums: 64. Another crate knows the length of both arrays once it has called this.
    ///
    /// ```rust
    /// assert_eq!(ForceSums::none().room(), 64);
    /// ```
    #[inline]
    pub fn room(&self) -> usize
        ensures value { result ≡ BLOCK }
        ensures first { length self.now.first ≡ BLOCK }
        ensures second { length self.now.second ≡ BLOCK }
    {
        BLOCK
    }

    /// Returns the sum of the pushes on place `t` of the first block.
    pub(crate) fn first_at(&self, t: usize) -> Push
        requires { t < BLOCK }
        ensures { result ≡ slice_index_or self.now.first t no_push }
    {
        self.first[t]
    }

    /// Returns the sum of the pushes on place `s` of the second block.
    pub(crate) fn second_at(&self, s: usize) -> Push
        requires { s < BLOCK }
        ensures { result ≡ slice_index_or self.now.second s no_push }
    {
        self.second[s]
    }

    /// Returns the sums for the first `count` places of the first block.
    #[inline]
    pub(crate) fn first_sums(&self, count: usize) -> &[Push]
        requires { count ≤ BLOCK }
        ensures count { length result.now ≡ count }
        ensures value { result.now ≡ take count self.now.first }
    {
        &self.first[..count]
    }

    /// Returns the sums for the first `count` places of the second block.
    #[inline]
    pub(crate) fn second_sums(&self, count: usize) -> &[Push]
        requires { count ≤ BLOCK }
        ensures count { length result.now ≡ count }
        ensures value { result.now ≡ take count self.now.second }
    {
        &self.second[..count]
    }
}
