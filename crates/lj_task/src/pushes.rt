//! Pushes on atoms, and their sums.
ghost use Rattle.std.specs.Prelude.{◌≡◌};
ghost use Rattle.lj_task.specs.Pushes.{sum_of_pushes, opposite_push};

/// A push, or a sum of pushes, on an atom in one step: ring units along each axis, modulo 2^32.
#[derive(Clone, Copy, PartialEq, Eq, Debug)]
pub struct Push {
    pub x: u32,
    pub y: u32,
    pub z: u32,
}

impl Push {
    /// The push that is 0.
    pub const NONE: Push = Push { x: 0, y: 0, z: 0 };

    /// Returns the sum of two pushes.
    ///
    /// ```rust
    /// let there = Push { x: 4_294_966_707, y: 7, z: 0 };
    /// assert_eq!(Push { x: 589, y: 0, z: 0 }.plus(there), Push { x: 0, y: 7, z: 0 });
    /// ```
    #[inline]
    pub fn plus(self, other: Push) -> Push
        ensures { result ≡ sum_of_pushes self other }
    {
        Push {
            x: self.x.wrapping_add(other.x),
            y: self.y.wrapping_add(other.y),
            z: self.z.wrapping_add(other.z),
        }
    }

    /// Returns this push minus the other.
    ///
    /// ```rust
    /// assert_eq!(Push::NONE.minus(Push { x: 589, y: 0, z: 0 }), Push { x: 4_294_966_707, y: 0, z: 0 });
    /// ```
    #[inline]
    pub fn minus(self, other: Push) -> Push
        ensures { result ≡ sum_of_pushes self (opposite_push other) }
    {
        Push {
            x: self.x.wrapping_sub(other.x),
            y: self.y.wrapping_sub(other.y),
            z: self.z.wrapping_sub(other.z),
        }
    }
}
