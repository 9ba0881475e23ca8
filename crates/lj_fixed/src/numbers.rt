//! Numbers in billionths of a file unit.
ghost use Rattle.std.specs.Prelude.{◌≡◌, ◌≤◌, ◌^◌, ◌↔◌, IsSome, IfSome, unsigned_abs};
ghost use Rattle.lj_fixed.specs.Decimal.{signed_number};

use std::fmt;
use std::marker::Model;
use thiserror::Error;

/// Maximum absolute value of a [`Nano`]: a million file units.
pub const MAX_NANO: u64 = 1_000_000_000_000_000;

/// The reason why a decimal word is no [`Nano`].
#[derive(Clone, Copy, Debug, PartialEq, Eq, Error)]
pub enum NumberFault {
    /// Outside the grammar of decimal words.
    BadNumber,
    /// Beyond a million file units.
    OutOfRange,
}

impl fmt::Display for NumberFault {
    ghost use Rattle.std.specs.Prelude.{Some};
    ghost use Rattle.lj_fixed.specs.FaultTexts.{fault_text};

    ghost output = { λ fault. Some (fault_text fault) };

    fn fmt<W: fmt::Write>(&self, f: &mut fmt::Formatter<W>) -> fmt::Result {
        f.write_str(match self {
            NumberFault::BadNumber => "not a decimal number",
            NumberFault::OutOfRange => "a number beyond a million file units",
        })
    }
}

/// A number in billionths of a file unit, at most a million file units in size.
#[derive(Clone, Copy, Debug, PartialEq, Eq)]
pub struct Nano(i64);

impl Model for Nano {
    ghost use Rattle.std.specs.Prelude.{ℤ, ◌≤◌, unsigned_abs};
    ghost use Rattle.lj_fixed.specs.declared.numbers.TheConstants.{MAX_NANO};

    ghost Value = { ℤ };

    ghost view = { λ n. n.0 };

    ghost invariant = { λ n. unsigned_abs n.0 ≤ MAX_NANO };

    ghost inverse = { λ z. record { 0 = z } };
}

impl Nano {
    /// Makes a number of billionths, if its size is at most [`MAX_NANO`].
    ///
    /// ```rust
    /// assert_eq!(Nano::new(-250_000_000)?.get(), -250_000_000);
    /// assert_eq!(Nano::new(1_000_000_000_000_001), None);
    /// ```
    pub fn new(billionths: i64) -> Option<Nano>
        ensures within { IsSome result ↔ (unsigned_abs billionths ≤ MAX_NANO) }
        ensures value { IfSome result (λ nano. nano ≡ billionths) }
    {
        if billionths.unsigned_abs() <= MAX_NANO {
            Some(Nano(billionths))
        } else {
            None
        }
    }

    /// Returns the number of billionths.
    ///
    /// ```rust
    /// assert_eq!(parse_nano(b"-0.25")?.get(), -250_000_000);
    /// ```
    pub fn get(self) -> i64
        ensures value { result ≡ self }
        ensures within { unsigned_abs result ≤ MAX_NANO }
    {
        self.0
    }

    // Makes a number from a sign and a size.
    pub(crate) fn with_sign(negative: bool, size: u64) -> Nano
        requires { size ≤ MAX_NANO }
        ensures { result ≡ signed_number negative size }
    {
        let size = size as i64;
        Nano(if negative { -size } else { size })
    }
}
