//! Parsing of whole numbers.
ghost use Rattle.std.specs.Prelude.{◌≡◌, IsTrue};
ghost use Rattle.std.specs.List.{list_all};
ghost use Rattle.std.specs.Char.{is_ascii_digit};
ghost use Rattle.std.specs.Str.Parse.{digits_value};
ghost use Rattle.lj_fixed.specs.Numbers.{is_number, number_of};

/// Maximum number of digits in a whole number. Any 19 digits fit a `u64`.
const MAX_DIGITS: usize = 19;

/// Parses a word of 1 to 19 digits; `None` for any other word.
///
/// ```rust
/// assert_eq!(parse_number(b"4096"), Some(4_096));
/// assert_eq!(parse_number(b"+1"), None);
/// ```
///
/// Promise: if the word consists of 1 to 19 digits, the result is its value; otherwise it is `None`.
#[tactic(auto, unfolding(crate::specs::Numbers::number_of))]
pub fn parse_number(word: &[u8]) -> Option<u64>
    ensures { result ≡ number_of word.now }
{
    is_number(word).then(|| digits_value(word))
}

fn is_number(word: &[u8]) -> bool
    ensures { result ≡ is_number word.now }
{
    1 <= word.len() && word.len() <= MAX_DIGITS && all_digits(word)
}

fn all_digits(word: &[u8]) -> bool
    ensures { result ≡ list_all is_ascii_digit word.now }
{
    word.iter().all(u8::is_ascii_digit)
}

// Returns the value of digits in base ten.
fn digits_value(digits: &[u8]) -> u64
    requires { IsTrue (is_number digits.now) }
    ensures { result ≡ digits_value 10 digits.now }
{
    let mut value = 0;
    for digit in digits {
        value = value * 10 + u64::from(*digit - b'0');
    }
    value
}
