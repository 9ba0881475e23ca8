//! Coordinates as decimals, written two digits at a time.
ghost use Rattle.std.specs.Prelude.{◌≡◌, ◌+◌, ◌*◌, ◌^◌, ◌<◌, ◌≤◌, ◌++◌, length, codes};
ghost use Rattle.std.specs.Fmt.{decimal};
ghost use Rattle.arrayvec.specs.ArrayVec.{array_vec_len};
ghost use Rattle.lj_fixed.specs.Millionths.{last_digits, millionths};

use arrayvec::ArrayVec;
use lj_fixed::{MAX_MICRO_BYTES, micro_text};

/// Maximum number of bytes in a coordinate, including the blank before it.
pub const MAX_COORDINATE_BYTES: usize = 1 + MAX_MICRO_BYTES;

const MILLION: u64 = 1_000_000;

// The least number of millionths whose whole part has more than four digits.
const LONG_MICROS: u64 = 10_000 * MILLION;

// The two digits of each number below 100, in order.
static PAIRS: [u8; 200] =
    *b"00010203040506070809101112131415161718192021222324252627282930313233343536373839404142434445464748495051525354555657585960616263646566676869707172737475767778798081828384858687888990919293949596979899";

/// Appends a text, for which there is room.
pub(crate) fn push_text<const CAP: usize>(line: &mut ArrayVec<u8, CAP>, text: &[u8])
    requires { array_vec_len line.old + length text.now ≤ CAP }
    ensures text { line.new.items ≡ line.old.items ++ text.now }
    ensures count { array_vec_len line.new ≡ array_vec_len line.old + length text.now }
{
    let _fits = line.try_extend_from_slice(text);
}

// Appends two digits, a zero in front included.
#[inline]
fn push_pair<const CAP: usize>(line: &mut ArrayVec<u8, CAP>, number: u32)
    requires number { number < 100 }
    requires room { array_vec_len line.old + 2 ≤ CAP }
    ensures text { line.new.items ≡ line.old.items ++ last_digits 2 number }
    ensures count { array_vec_len line.new ≡ array_vec_len line.old + 2 }
{
    let from = 2 * number as usize;
    let (tens, ones) = (PAIRS[from], PAIRS[from + 1]);
    line.push(tens);
    line.push(ones);
}

// Appends a number of one or two digits.
#[inline]
fn push_short<const CAP: usize>(line: &mut ArrayVec<u8, CAP>, number: u32)
    requires number { number < 100 }
    requires room { array_vec_len line.old + 2 ≤ CAP }
    ensures text { line.new.items ≡ line.old.items ++ decimal number }
    ensures count { array_vec_len line.new ≤ array_vec_len line.old + 2 }
{
    if number < 10 {
        line.push(b'0' + number as u8);
    } else {
        push_pair(line, number);
    }
}

// Appends a number of at most four digits.
#[inline]
fn push_whole<const CAP: usize>(line: &mut ArrayVec<u8, CAP>, number: u32)
    requires number { number < 10000 }
    requires room { array_vec_len line.old + 4 ≤ CAP }
    ensures text { line.new.items ≡ line.old.items ++ decimal number }
    ensures count { array_vec_len line.new ≤ array_vec_len line.old + 4 }
{
    if number < 100 {
        push_short(line, number);
    } else {
        push_short(line, number / 100);
        push_pair(line, number % 100);
    }
}

// Appends six digits, zeros in front included.
#[inline]
fn push_six_digits<const CAP: usize>(line: &mut ArrayVec<u8, CAP>, number: u32)
    requires number { number < 10 ^ 6 }
    requires room { array_vec_len line.old + 6 ≤ CAP }
    ensures text { line.new.items ≡ line.old.items ++ last_digits 6 number }
    ensures count { array_vec_len line.new ≡ array_vec_len line.old + 6 }
{
    push_pair(line, number / 10_000);
    push_pair(line, number / 100 % 100);
    push_pair(line, number % 100);
}

// Appends a coordinate whose whole part has at most four digits.
#[inline]
#[tactic(auto, unfolding(lj_fixed::specs::Millionths::millionths))]
fn push_micros<const CAP: usize>(line: &mut ArrayVec<u8, CAP>, micros: u64)
    requires short { micros < 10 ^ 10 }
    requires room { array_vec_len line.old + 11 ≤ CAP }
    ensures text { line.new.items ≡ line.old.items ++ millionths micros }
    ensures count { array_vec_len line.new ≤ array_vec_len line.old + 11 }
{
    push_whole(line, (micros / MILLION) as u32);
    line.push(b'.');
    push_six_digits(line, (micros % MILLION) as u32);
}

// Appends a coordinate of any length.
#[cold]
#[inline(never)]
fn push_long_micros<const CAP: usize>(line: &mut ArrayVec<u8, CAP>, micros: u64)
    requires { array_vec_len line.old + MAX_MICRO_BYTES ≤ CAP }
    ensures text { line.new.items ≡ line.old.items ++ millionths micros }
    ensures count { array_vec_len line.new ≤ array_vec_len line.old + MAX_MICRO_BYTES }
{
    push_text(line, micro_text(micros).as_str().as_bytes());
}

/// Appends one blank and a coordinate, which is given in millionths of a file unit.
#[inline]
pub(crate) fn push_coordinate<const CAP: usize>(line: &mut ArrayVec<u8, CAP>, micros: u64)
    requires { array_vec_len line.old + MAX_COORDINATE_BYTES ≤ CAP }
    ensures text { line.new.items ≡ line.old.items ++ codes " " ++ millionths micros }
    ensures count { array_vec_len line.new ≤ array_vec_len line.old + MAX_COORDINATE_BYTES }
{
    line.push(b' ');
    if micros < LONG_MICROS {
        push_micros(line, micros);
    } else {
        push_long_micros(line, micros);
    }
}
