//! Decimal words, read from left to right.
ghost use Rattle.std.specs.Prelude.{◌≡◌, ℕ, ◌++◌, ◌<◌, ◌≤◌, ◌^◌, ◌+◌, pos, negsuc, ◌≤ℤ◌, length, Some, None};
ghost use Rattle.std.specs.Prelude.{if◌then◌else◌, IfSome};
ghost use Rattle.std.specs.Str.Parse.{digits_value, digits_value_after, starts_with_minus, without_leading_sign};
ghost use Rattle.std.specs.Str.Parse.{signed_digits_value};
ghost use Rattle.lj_fixed.specs.declared.decimal_words.TheConstants.{MAX_WORD_BYTES};
ghost use Rattle.lj_fixed.specs.Decimal.{Decimal, is_exponent_letter, is_short_number, is_exponent, exponent_of};
ghost use Rattle.lj_fixed.specs.Decimal.{decimal_of, nano_size, nano_of};
ghost use Rattle.lj_fixed.specs.WordParts.{Leads, number_within_limit, fraction_at, tail_at, whole_of, fraction_of, tail_of};
ghost use Rattle.lj_fixed.specs.WordParts.{is_exponent_start};

use crate::digits::Significand;
use crate::numbers::{Nano, NumberFault};

/// Maximum number of bytes in a decimal word.
const MAX_WORD_BYTES: usize = 40;

/// Maximum number of digits in an exponent.
const MAX_EXPONENT_DIGITS: usize = 3;

/// The decimal places of a billionth.
const NANO_PLACES: u32 = 9;

// The digits of a mantissa, their number, the number of those after the point, and the text that follows.
#[derive(Drop)]
struct Mantissa<'a> {
    significand: Significand,
    count: usize,
    behind: usize,
    tail: &'a [u8],
}

// A parsed decimal word.
#[derive(Clone, Copy)]
struct Numeral {
    negative: bool,
    significand: Significand,
    behind: u32,
    exponent: i32,
    ghost few_dropped: { significand.dropped ≤ MAX_WORD_BYTES },
    ghost few_behind: { behind ≤ MAX_WORD_BYTES },
    ghost lowest: { negsuc 998 ≤ℤ exponent },
    ghost highest: { exponent ≤ℤ pos 999 },
}

// Splits off a leading sign: returns true for a minus, and the text after the sign.
fn split_sign(text: &[u8]) -> (bool, &[u8])
    ensures negative { result.0 ≡ starts_with_minus text.now }
    ensures rest { result.1.now ≡ without_leading_sign text.now }
{
    match text {
        [b'-', rest @ ..] => (true, rest),
        [b'+', rest @ ..] => (false, rest),
        _ => (false, text),
    }
}

// Reads the digits after a point, if `rest` begins with one: returns `whole` with them appended, their number, and the
// text after them.
fn read_fraction(whole: Significand, rest: &[u8]) -> (Significand, usize, &[u8])
    requires { whole.dropped + length rest.now < 2 ^ 31 }
    ensures number { (n : ℕ) → Leads whole.number whole.dropped n
        → Leads result.0.number result.0.dropped (digits_value_after 10 n (fraction_at rest.now)) }
    ensures behind { result.1 ≡ length (fraction_at rest.now) }
    ensures tail { result.2.now ≡ tail_at rest.now }
    ensures dropped { result.0.dropped ≤ whole.dropped + result.1 }
    ensures fits { result.1 ≤ length rest.now }
{
    match rest {
        [b'.', fraction @ ..] => {
            let (significand, behind) = whole.read_on(fraction);
            (significand, behind, &fraction[behind..])
        }
        _ => (whole, 0, rest),
    }
}

// Reads the digits at the front of a text, with at most one point before, among or after them.
fn read_mantissa(text: &[u8]) -> Mantissa<'_>
    requires { length text.now ≤ MAX_WORD_BYTES }
    ensures number { Leads result.significand.number result.significand.dropped
        (digits_value 10 (whole_of text.now ++ fraction_of text.now)) }
    ensures count { result.count ≡ length (whole_of text.now ++ fraction_of text.now) }
    ensures behind { result.behind ≡ length (fraction_of text.now) }
    ensures tail { result.tail.now ≡ tail_of text.now }
    ensures few_dropped { result.significand.dropped ≤ MAX_WORD_BYTES }
    ensures few_behind { result.behind ≤ MAX_WORD_BYTES }
{
    let (whole, count) = Significand::zero().read_on(text);
    let (significand, behind, tail) = read_fraction(whole, &text[count..]);
    Mantissa {
        significand,
        count: count + behind,
        behind,
        tail,
    }
}

// Reads a number of one to three digits; `None` for any other text.
fn read_short_number(digits: &[u8]) -> Option<u16>
    ensures value { result ≡ (if is_short_number digits.now
        then Some (digits_value 10 digits.now) else None) }
    ensures short { IfSome result (λ number. number < 1000) }
{
    if digits.is_empty() || digits.len() > MAX_EXPONENT_DIGITS {
        return None;
    }
    let (significand, count) = Significand::zero().read_on(digits);
    if count < digits.len() {
        return None;
    }
    Some(significand.number as u16)
}

// Reads an exponent without its letter: an optional sign and one to three digits.
fn read_power(text: &[u8]) -> Option<i32>
    ensures value { result ≡ (if is_exponent text.now
        then Some (signed_digits_value 10 text.now) else None) }
    ensures lowest { IfSome result (λ power. negsuc 998 ≤ℤ power) }
    ensures highest { IfSome result (λ power. power ≤ℤ pos 999) }
{
    let (negative, digits) = split_sign(text);
    let size = i32::from(read_short_number(digits)?);
    Some(if negative { -size } else { size })
}

fn is_exponent_letter(byte: u8) -> bool
    ensures { result ≡ is_exponent_letter byte }
{
    matches!(byte, b'e' | b'E' | b'd' | b'D')
}

// Reads the exponent in the text after the mantissa: 0 if that is empty, and `None` if it is not an exponent.
fn read_exponent(tail: &[u8]) -> Option<i32>
    ensures value { result ≡ (if is_exponent_start tail.now
        then exponent_of tail.now else None) }
    ensures lowest { IfSome result (λ exponent. negsuc 998 ≤ℤ exponent) }
    ensures highest { IfSome result (λ exponent. exponent ≤ℤ pos 999) }
{
    match tail {
        [] => Some(0),
        [letter, power @ ..] if is_exponent_letter(*letter) => read_power(power),
        _ => None,
    }
}

impl Numeral {
    ghost use Rattle.lj_fixed.specs.StandsFor.{StandsFor, AreAlike};

    fn read(word: &[u8]) -> Option<Numeral>
        ensures { AreAlike result (decimal_of word.now) }
    {
        if word.len() > MAX_WORD_BYTES {
            return None;
        }
        let (negative, text) = split_sign(word);
        let mantissa = read_mantissa(text);
        if mantissa.count == 0 {
            return None;
        }
        let exponent = read_exponent(mantissa.tail)?;
        Some(Numeral {
            negative,
            significand: mantissa.significand,
            behind: mantissa.behind as u32,
            exponent,
        })
    }

    // Returns the size in billionths, rounded, if that is at most `MAX_NANO`.
    fn nano_size(&self) -> Option<u64>
        ensures { (d : Decimal) → StandsFor self.now d → result ≡ number_within_limit (nano_size d) }
    {
        let places = self.exponent.unsigned_abs();
        if self.exponent < 0 {
            self.significand.scaled(NANO_PLACES, self.behind + places)
        } else {
            self.significand.scaled(places + NANO_PLACES, self.behind)
        }
    }
}

/// Reads a decimal word, and rounds it to billionths, halves away from zero.
///
/// # Errors
/// `BadNumber` if the word is outside the grammar, `OutOfRange` if its rounded size is above a million file units.
///
/// ```rust
/// assert_eq!(parse_nano(b"15D-1")?.get(), 1_500_000_000);
/// ```
///
/// Promise: if the word has an error, the result is this error; otherwise it is the word's value times 10^9, rounded to a whole
/// number (halves away from zero).
pub fn parse_nano(word: &[u8]) -> Result<Nano, NumberFault>
    ensures { result ≡ nano_of word.now }
{
    let numeral = Numeral::read(word).ok_or(NumberFault::BadNumber)?;
    let size = numeral.nano_size().ok_or(NumberFault::OutOfRange)?;
    Ok(Nano::with_sign(numeral.negative, size))
}
