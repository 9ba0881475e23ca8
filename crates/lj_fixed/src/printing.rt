//! Millionths of a file unit as text.
ghost use Rattle.std.specs.Prelude.{◌≡◌, ◌+◌, ◌++◌, ◌<◌, ◌≤◌, ◌^◌};
ghost use Rattle.arrayvec.specs.ArrayString.{array_string_len};
ghost use Rattle.lj_fixed.specs.Millionths.{last_digits, millionths};

use arrayvec::ArrayString;
use itoa::Buffer;

/// Maximum number of bytes in the text of a number with six decimals.
pub const MAX_MICRO_BYTES: usize = 32;

const MILLION: u64 = 1_000_000;

// Appends six digits, zeros in front included.
fn push_six_digits(text: &mut ArrayString<MAX_MICRO_BYTES>, number: u64)
    requires number { number < 10 ^ 6 }
    requires room { array_string_len text.old + 6 ≤ MAX_MICRO_BYTES }
    ensures { text.new.bytes ≡ text.old.bytes ++ last_digits 6 number }
{
    for power in [100_000, 10_000, 1_000, 100, 10, 1] {
        text.push(char::from(b'0' + (number / power % 10) as u8));
    }
}

/// Prints a number of millionths as a decimal: the whole part, a point and six decimals.
///
/// ```rust
/// assert_eq!(micro_text(1_499_894).as_str(), "1.499894");
/// ```
///
/// Promise: the text is the given number divided by 10^6, in decimal with six digits after the point.
#[tactic(auto, unfolding(crate::specs::Millionths::millionths))]
pub fn micro_text(micros: u64) -> ArrayString<MAX_MICRO_BYTES>
    ensures { result.bytes ≡ millionths micros }
{
    let mut text = ArrayString::new();
    text.push_str(Buffer::new().format(micros / MILLION));
    text.push('.');
    push_six_digits(&mut text, micros % MILLION);
    text
}
