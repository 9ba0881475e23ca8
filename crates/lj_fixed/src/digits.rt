//! The leading digits of a number, as many as a nano depends on.
ghost use Rattle.std.specs.Prelude.{◌≡◌, ℕ, ◌+◌, ◌*◌, ◌^◌, ◌<◌, ◌≤◌, MatchOption, length, take};
ghost use Rattle.std.specs.Char.{is_ascii_digit};
ghost use Rattle.std.specs.List.{prefix_len};
ghost use Rattle.std.specs.Str.Parse.{digits_value_after};
ghost use Rattle.lj_fixed.specs.Decimal.{rounded_quotient};
ghost use Rattle.lj_fixed.specs.WordParts.{Leads, number_within_limit};

use crate::numbers::MAX_NANO;

// The least number of eighteen digits: a significand of this size takes no more.
const FULL: u64 = 100_000_000_000_000_000;

const POWERS_OF_TEN: [u64; 20] = [
    1,
    10,
    100,
    1_000,
    10_000,
    100_000,
    1_000_000,
    10_000_000,
    100_000_000,
    1_000_000_000,
    10_000_000_000,
    100_000_000_000,
    1_000_000_000_000,
    10_000_000_000_000,
    100_000_000_000_000,
    1_000_000_000_000_000,
    10_000_000_000_000_000,
    100_000_000_000_000_000,
    1_000_000_000_000_000_000,
    10_000_000_000_000_000_000,
];

// Returns ten to a power, if it fits a `u64`.
fn power_of_ten(power: u32) -> Option<u64>
    ensures { MatchOption result (20 ≤ power) (λ value. value ≡ 10 ^ power) }
{
    POWERS_OF_TEN.get(power as usize).copied()
}

// Returns `number` times ten to a power; `None` only if that is above `MAX_NANO`.
fn raised(number: u64, power: u32) -> Option<u64>
    ensures { MatchOption result (MAX_NANO < number * 10 ^ power)
        (λ value. value ≡ number * 10 ^ power) }
{
    if number == 0 {
        return Some(0);
    }
    number.checked_mul(power_of_ten(power)?)
}

// Divides `number` by ten to a power above 0 and rounds halves up, by the first digit of the remainder.
fn lowered(number: u64, power: u32) -> u64
    requires power { 0 < power }
    requires number { number < 10 ^ 18 }
    ensures { result ≡ rounded_quotient number (10 ^ power) }
{
    match power_of_ten(power - 1) {
        Some(divisor) => (number / divisor + 5) / 10,
        None => 0,
    }
}

// The first eighteen digits of a number, and how many were dropped after them. If a dropped digit matters, the number
// is out of range.
#[derive(Clone, Copy)]
pub struct Significand {
    pub number: u64,
    pub dropped: u32,
    ghost short: { number < 10 ^ 18 },
}

impl Significand {
    pub fn zero() -> Significand
        ensures number { Leads result.number result.dropped 0 }
        ensures dropped { result.dropped ≡ 0 }
    {
        Significand {
            number: 0,
            dropped: 0,
        }
    }

    // Appends one digit.
    fn push(self, digit: u8) -> Significand
        requires digit { digit < 10 }
        requires dropped { self.dropped < 2 ^ 31 }
        ensures number { (n : ℕ) → Leads self.number self.dropped n
            → Leads result.number result.dropped (n * 10 + digit) }
        ensures dropped { result.dropped ≤ self.dropped + 1 }
    {
        if self.number < FULL {
            Significand {
                number: self.number * 10 + u64::from(digit),
                dropped: self.dropped,
            }
        } else {
            Significand {
                number: self.number,
                dropped: self.dropped + 1,
            }
        }
    }

    // Appends the digits at the front of `text`, and returns how many there are.
    pub fn read_on(self, text: &[u8]) -> (Significand, usize)
        requires { self.dropped + length text.now < 2 ^ 31 }
        ensures count { result.1 ≡ prefix_len is_ascii_digit text.now }
        ensures number { (n : ℕ) → Leads self.number self.dropped n
            → Leads result.0.number result.0.dropped (digits_value_after 10 n (take result.1 text.now)) }
        ensures dropped { result.0.dropped ≤ self.dropped + result.1 }
    {
        let mut significand = self;
        for (count, byte) in text.iter().enumerate() {
            if !byte.is_ascii_digit() {
                return (significand, count);
            }
            significand = significand.push(*byte - b'0');
        }
        (significand, text.len())
    }

    // Returns the number times 10^up over 10^down, rounded, if that is at most `MAX_NANO`.
    pub fn scaled(self, up: u32, down: u32) -> Option<u64>
        requires { self.dropped + up < 2 ^ 32 }
        ensures { (n : ℕ) → Leads self.number self.dropped n
            → result ≡ number_within_limit (rounded_quotient (n * 10 ^ up) (10 ^ down)) }
    {
        let up = up + self.dropped;
        let size = if up >= down {
            raised(self.number, up - down)?
        } else {
            lowered(self.number, down - up)
        };
        (size <= MAX_NANO).then_some(size)
    }
}
