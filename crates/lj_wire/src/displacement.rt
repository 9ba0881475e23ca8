//! Displacements as words.
ghost use Rattle.std.specs.Prelude.{◌≡◌};
ghost use Rattle.lj_wire.specs.Displacements.{displacement_of, integer_of};

use lj_fixed::parse_number;

/// Parses an optional `-` and 1 to 19 digits with a value from -2^31 to 2^31 - 1; `None` for any other word.
pub(crate) fn parse_displacement(word: &[u8]) -> Option<i32>
    ensures { result ≡ displacement_of word.now }
{
    i32::try_from(parse_integer(word)?).ok()
}

// Parses an optional `-` and 1 to 19 digits.
fn parse_integer(word: &[u8]) -> Option<i128>
    ensures { result ≡ integer_of word.now }
{
    match word {
        [b'-', digits @ ..] => Some(-i128::from(parse_number(digits)?)),
        _ => Some(i128::from(parse_number(word)?)),
    }
}
