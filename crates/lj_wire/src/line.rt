//! Lines of a stream.
ghost use Rattle.std.specs.Prelude.{◌≡◌, ◌++◌, ◌∷◌, MatchOption};
ghost use Rattle.lj_wire.specs.Commands.{is_over, words_in};
ghost use Rattle.lj_wire.specs.Streams.{LacksLineFeed};

use crate::line_limits::MAX_LINE_BYTES;
use bstr::ByteSlice;
use lj_base::{Words, without_return};

/// Returns the first line of `stream` without its line feed, and what follows the line feed; `None` where there is no line feed.
pub fn split_line(stream: &[u8]) -> Option<(&[u8], &[u8])>
    ensures { MatchOption result (LacksLineFeed stream.now)
        (λ p. (stream.now ≡ p.0.now ++ 10 ∷ p.1.now) × LacksLineFeed p.0.now) }
{
    let end = stream.find_byte(b'\n')?;
    let (line, rest) = stream.split_at(end);
    Some((line, &rest[1..]))
}

/// Returns whether a line has more bytes than a command may have.
pub(crate) fn is_over(line: &[u8]) -> bool
    ensures { result ≡ is_over line.now }
{
    line.len() > MAX_LINE_BYTES
}

/// Returns the words of a line, without a carriage return at its end.
pub(crate) fn words_in(line: &[u8]) -> Words<'_>
    ensures { result ≡ words_in line.now }
{
    Words::new(without_return(line))
}
