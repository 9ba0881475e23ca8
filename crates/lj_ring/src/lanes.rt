//! Arithmetic of unsigned numbers in lanes, in the words of `std::simd`: a module for each width of a lane, and in it one
//! function for each operation, at any number of lanes. Each contract says what a lane of the result is.
ghost use Rattle.std.specs.Prelude.{ℕ, ◌≡◌, ◌<◌, ◌+◌, ◌-◌, ◌*◌, ◌/◌, ◌%◌, ◌^◌, min, max, pos, slice_index, slice_index_or};
ghost use Rattle.lj_ring.specs.LaneArithmetic.{wrapping_add, wrapping_sub, wrapping_mul};

/// Arithmetic of 16-bit numbers in lanes.
pub mod u16_lanes {
    use std::simd::prelude::*;

    /// Returns lanes that all have one number.
    ///
    /// ```rust
    /// assert_eq!(u16_lanes::splat::<2>(7).to_array(), [7, 7]);
    /// ```
    #[inline(always)]
    pub fn splat<const N: usize>(number: u16) -> Simd<u16, N>
        ensures { (k : ℕ) → k < N → slice_index result k ≡ number }
    {
        Simd::<u16, N>::splat(number)
    }

    /// Returns the sums, modulo 2^16.
    ///
    /// ```rust
    /// assert_eq!(u16_lanes::add(Simd::from_array([1, 65_535]), Simd::from_array([2, 2])).to_array(), [3, 1]);
    /// ```
    #[inline(always)]
    pub fn add<const N: usize>(a: Simd<u16, N>, b: Simd<u16, N>) -> Simd<u16, N>
        ensures { (k : ℕ) → k < N
            → slice_index result k ≡ wrapping_add 16 (slice_index a.entry k) (slice_index b.entry k) }
    {
        a + b
    }

    /// Returns the differences, modulo 2^16.
    ///
    /// ```rust
    /// assert_eq!(u16_lanes::sub(Simd::from_array([5, 1]), Simd::from_array([2, 2])).to_array(), [3, 65_535]);
    /// ```
    #[inline(always)]
    pub fn sub<const N: usize>(a: Simd<u16, N>, b: Simd<u16, N>) -> Simd<u16, N>
        ensures { (k : ℕ) → k < N
            → slice_index result k ≡ wrapping_sub 16 (slice_index a.entry k) (slice_index b.entry k) }
    {
        a - b
    }

    /// Returns the differences, and 0 where the second number is greater.
    ///
    /// ```rust
    /// assert_eq!(u16_lanes::saturating_sub(Simd::from_array([5, 1]), Simd::from_array([2, 2])).to_array(), [3, 0]);
    /// ```
    #[inline(always)]
    pub fn saturating_sub<const N: usize>(a: Simd<u16, N>, b: Simd<u16, N>) -> Simd<u16, N>
        ensures { (k : ℕ) → k < N → slice_index result k ≡ slice_index a.entry k - slice_index b.entry k }
    {
        a.saturating_sub(b)
    }

    /// Returns the lesser of two lanes.
    ///
    /// ```rust
    /// assert_eq!(u16_lanes::min(Simd::from_array([5, 1]), Simd::from_array([2, 2])).to_array(), [2, 1]);
    /// ```
    #[inline(always)]
    pub fn min<const N: usize>(a: Simd<u16, N>, b: Simd<u16, N>) -> Simd<u16, N>
        ensures { (k : ℕ) → k < N → slice_index result k ≡ min (slice_index a.entry k) (slice_index b.entry k) }
    {
        a.simd_min(b)
    }

    /// Returns the greater of two lanes.
    ///
    /// ```rust
    /// assert_eq!(u16_lanes::max(Simd::from_array([5, 1]), Simd::from_array([2, 2])).to_array(), [5, 2]);
    /// ```
    #[inline(always)]
    pub fn max<const N: usize>(a: Simd<u16, N>, b: Simd<u16, N>) -> Simd<u16, N>
        ensures { (k : ℕ) → k < N → slice_index result k ≡ max (slice_index a.entry k) (slice_index b.entry k) }
    {
        a.simd_max(b)
    }

    /// Returns the same numbers in lanes of 32 bits.
    ///
    /// ```rust
    /// assert_eq!(u16_lanes::cast_u32(Simd::from_array([5, 65_535])).to_array(), [5, 65_535]);
    /// ```
    #[inline(always)]
    pub fn cast_u32<const N: usize>(v: Simd<u16, N>) -> Simd<u32, N>
        ensures { (k : ℕ) → k < N → slice_index result k ≡ slice_index v.entry k }
    {
        v.cast::<u32>()
    }

    /// Returns the same numbers, which fit, as numbers with a sign.
    ///
    /// ```rust
    /// assert_eq!(u16_lanes::cast_i16(Simd::from_array([5, 32_767])).to_array(), [5, 32_767]);
    /// ```
    #[inline(always)]
    pub fn cast_i16<const N: usize>(v: Simd<u16, N>) -> Simd<i16, N>
        requires { (k : ℕ) → k < N → slice_index v k < 2 ^ 15 }
        ensures { (k : ℕ) → k < N → slice_index_or result k (pos 0) ≡ pos (slice_index v.entry k) }
    {
        v.cast::<i16>()
    }
}

/// Arithmetic of 32-bit numbers in lanes.
pub mod u32_lanes {
    use std::simd::prelude::*;

    /// Returns lanes that all have one number.
    ///
    /// ```rust
    /// assert_eq!(u32_lanes::splat::<2>(7).to_array(), [7, 7]);
    /// ```
    #[inline(always)]
    pub fn splat<const N: usize>(number: u32) -> Simd<u32, N>
        ensures { (k : ℕ) → k < N → slice_index result k ≡ number }
    {
        Simd::<u32, N>::splat(number)
    }

    /// Returns the differences, modulo 2^32.
    ///
    /// ```rust
    /// assert_eq!(u32_lanes::sub(Simd::from_array([5, 1]), Simd::from_array([2, 2])).to_array(), [3, 4_294_967_295]);
    /// ```
    #[inline(always)]
    pub fn sub<const N: usize>(a: Simd<u32, N>, b: Simd<u32, N>) -> Simd<u32, N>
        ensures { (k : ℕ) → k < N
            → slice_index result k ≡ wrapping_sub 32 (slice_index a.entry k) (slice_index b.entry k) }
    {
        a - b
    }

    /// Returns the products, modulo 2^32.
    ///
    /// ```rust
    /// assert_eq!(u32_lanes::mul(Simd::from_array([5, 65_536]), Simd::from_array([2, 65_537])).to_array(), [10, 65_536]);
    /// ```
    #[inline(always)]
    pub fn mul<const N: usize>(a: Simd<u32, N>, b: Simd<u32, N>) -> Simd<u32, N>
        ensures { (k : ℕ) → k < N
            → slice_index result k ≡ wrapping_mul 32 (slice_index a.entry k) (slice_index b.entry k) }
    {
        a * b
    }

    /// Shifts each lane to the right.
    ///
    /// ```rust
    /// assert_eq!(u32_lanes::shr(Simd::from_array([5, 65_536]), 2).to_array(), [1, 16_384]);
    /// ```
    #[inline(always)]
    pub fn shr<const N: usize>(v: Simd<u32, N>, by: u32) -> Simd<u32, N>
        requires { by < 32 }
        ensures { (k : ℕ) → k < N → slice_index result k ≡ slice_index v.entry k / 2 ^ by }
    {
        v >> Simd::<u32, N>::splat(by)
    }

    /// Returns the lesser of two lanes.
    ///
    /// ```rust
    /// assert_eq!(u32_lanes::min(Simd::from_array([5, 1]), Simd::from_array([2, 2])).to_array(), [2, 1]);
    /// ```
    #[inline(always)]
    pub fn min<const N: usize>(a: Simd<u32, N>, b: Simd<u32, N>) -> Simd<u32, N>
        ensures { (k : ℕ) → k < N → slice_index result k ≡ min (slice_index a.entry k) (slice_index b.entry k) }
    {
        a.simd_min(b)
    }

    /// Returns the same numbers in lanes of 64 bits.
    ///
    /// ```rust
    /// assert_eq!(u32_lanes::cast_u64(Simd::from_array([5, 4_294_967_295])).to_array(), [5, 4_294_967_295]);
    /// ```
    #[inline(always)]
    pub fn cast_u64<const N: usize>(v: Simd<u32, N>) -> Simd<u64, N>
        ensures value { (k : ℕ) → k < N → slice_index result k ≡ slice_index v.entry k }
        ensures small { (k : ℕ) → k < N → slice_index v.entry k < 2 ^ 32 }
    {
        v.cast::<u64>()
    }

    /// Returns the same numbers, which fit, in lanes of 16 bits.
    ///
    /// ```rust
    /// assert_eq!(u32_lanes::cast_u16(Simd::from_array([5, 65_535])).to_array(), [5, 65_535]);
    /// ```
    #[inline(always)]
    pub fn cast_u16<const N: usize>(v: Simd<u32, N>) -> Simd<u16, N>
        requires { (k : ℕ) → k < N → slice_index v k < 2 ^ 16 }
        ensures { (k : ℕ) → k < N → slice_index result k ≡ slice_index v.entry k }
    {
        v.cast::<u16>()
    }
}

/// Arithmetic of 64-bit numbers in lanes.
pub mod u64_lanes {
    use std::simd::prelude::*;

    /// Returns lanes that all have one number.
    ///
    /// ```rust
    /// assert_eq!(u64_lanes::splat::<2>(7).to_array(), [7, 7]);
    /// ```
    #[inline(always)]
    pub fn splat<const N: usize>(number: u64) -> Simd<u64, N>
        ensures { (k : ℕ) → k < N → slice_index result k ≡ number }
    {
        Simd::<u64, N>::splat(number)
    }

    /// Returns the sums, modulo 2^64.
    ///
    /// ```rust
    /// assert_eq!(u64_lanes::add(Simd::from_array([1, u64::MAX]), Simd::from_array([2, 2])).to_array(), [3, 1]);
    /// ```
    #[inline(always)]
    pub fn add<const N: usize>(a: Simd<u64, N>, b: Simd<u64, N>) -> Simd<u64, N>
        ensures { (k : ℕ) → k < N
            → slice_index result k ≡ wrapping_add 64 (slice_index a.entry k) (slice_index b.entry k) }
    {
        a + b
    }

    /// Returns the differences, modulo 2^64.
    ///
    /// ```rust
    /// assert_eq!(u64_lanes::sub(Simd::from_array([5, 1]), Simd::from_array([2, 2])).to_array(), [3, u64::MAX]);
    /// ```
    #[inline(always)]
    pub fn sub<const N: usize>(a: Simd<u64, N>, b: Simd<u64, N>) -> Simd<u64, N>
        ensures { (k : ℕ) → k < N
            → slice_index result k ≡ wrapping_sub 64 (slice_index a.entry k) (slice_index b.entry k) }
    {
        a - b
    }

    /// Returns the products, modulo 2^64.
    ///
    /// ```rust
    /// let (a, b) = (Simd::from_array([5, 4_294_967_296]), Simd::from_array([2, 4_294_967_297]));
    /// assert_eq!(u64_lanes::mul(a, b).to_array(), [10, 4_294_967_296]);
    /// ```
    #[inline(always)]
    pub fn mul<const N: usize>(a: Simd<u64, N>, b: Simd<u64, N>) -> Simd<u64, N>
        ensures { (k : ℕ) → k < N
            → slice_index result k ≡ wrapping_mul 64 (slice_index a.entry k) (slice_index b.entry k) }
    {
        a * b
    }

    /// Shifts each lane to the left.
    ///
    /// ```rust
    /// assert_eq!(u64_lanes::shl(Simd::from_array([5, u64::MAX]), 32).to_array(), [21_474_836_480, 18_446_744_069_414_584_320]);
    /// ```
    #[inline(always)]
    pub fn shl<const N: usize>(v: Simd<u64, N>, by: u64) -> Simd<u64, N>
        requires { by < 64 }
        ensures { (k : ℕ) → k < N → slice_index result k ≡ wrapping_mul 64 (slice_index v.entry k) (2 ^ by) }
    {
        v << Simd::<u64, N>::splat(by)
    }

    /// Shifts each lane to the right.
    ///
    /// ```rust
    /// assert_eq!(u64_lanes::shr(Simd::from_array([5, 4_294_967_296]), 2).to_array(), [1, 1_073_741_824]);
    /// ```
    #[inline(always)]
    pub fn shr<const N: usize>(v: Simd<u64, N>, by: u64) -> Simd<u64, N>
        requires { by < 64 }
        ensures { (k : ℕ) → k < N → slice_index result k ≡ slice_index v.entry k / 2 ^ by }
    {
        v >> Simd::<u64, N>::splat(by)
    }

    /// Returns the lower 32 bits of each lane.
    ///
    /// ```rust
    /// assert_eq!(u64_lanes::low_half(Simd::from_array([5, 4_294_967_299])).to_array(), [5, 3]);
    /// ```
    #[inline(always)]
    pub fn low_half<const N: usize>(v: Simd<u64, N>) -> Simd<u64, N>
        ensures { (k : ℕ) → k < N → slice_index result k ≡ slice_index v.entry k % 2 ^ 32 }
    {
        v & Simd::<u64, N>::splat(0xffff_ffff)
    }

    /// Returns the upper 32 bits of each lane.
    ///
    /// ```rust
    /// assert_eq!(u64_lanes::high_half(Simd::from_array([5, 4_294_967_299])).to_array(), [0, 1]);
    /// ```
    #[inline(always)]
    pub fn high_half<const N: usize>(v: Simd<u64, N>) -> Simd<u64, N>
        ensures { (k : ℕ) → k < N → slice_index result k ≡ slice_index v.entry k / 2 ^ 32 }
    {
        shr(v, 32)
    }

    /// Returns the same numbers, which fit, in lanes of 32 bits.
    ///
    /// ```rust
    /// assert_eq!(u64_lanes::cast_u32(Simd::from_array([5, 4_294_967_295])).to_array(), [5, 4_294_967_295]);
    /// ```
    #[inline(always)]
    pub fn cast_u32<const N: usize>(v: Simd<u64, N>) -> Simd<u32, N>
        requires { (k : ℕ) → k < N → slice_index v k < 2 ^ 32 }
        ensures { (k : ℕ) → k < N → slice_index result k ≡ slice_index v.entry k }
    {
        v.cast::<u32>()
    }
}
