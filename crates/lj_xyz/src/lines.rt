//! The lines of a text.
ghost use Rattle.std.specs.Prelude.{◌≡◌, ◌+◌, ◌-◌, ◌<◌, ◌^◌, [], ◌∷◌, length, MatchOption};
ghost use Rattle.lj_xyz.specs.Lines.{lines_of};

use bstr::ByteSlice;
use lj_base::without_return;

/// The lines of a text that are left to read, and how many were read.
#[derive(Drop)]
pub struct Lines<'a> {
    pub rest: &'a [u8],
    pub taken: u64,
    ghost fits: { taken + length rest.now < 2 ^ 64 - 1 },
}

impl<'a> Lines<'a> {
    ghost use Rattle.lj_xyz.specs.Reading.{unread_lines};
    ghost use Rattle.lj_xyz.specs.Cursor.{left_of};

    pub fn new(text: &'a [u8]) -> Lines<'a>
        ensures { left_of result ≡ unread_lines (lines_of text.now) }
    {
        Lines {
            rest: text,
            taken: 0,
        }
    }

    /// Takes the next line, without its end, if one is left.
    pub fn next_line(&mut self) -> Option<&'a [u8]>
        ensures line { MatchOption result
            ((lines_of self.old.rest.now ≡ [])
            × (self.new.taken ≡ self.old.taken)
            × (self.new.rest.now ≡ self.old.rest.now))
            (λ line. (lines_of self.old.rest.now ≡ line.now ∷ lines_of self.new.rest.now)
            × (self.new.taken ≡ self.old.taken + 1)) }
    {
        let (line, rest) = split_line(self.rest)?;
        self.rest = rest;
        self.taken += 1;
        Some(line)
    }
}

/// Splits a text into its first line, without its end, and the text after it.
fn split_line(text: &[u8]) -> Option<(&[u8], &[u8])>
    ensures line { MatchOption result
        (lines_of text.now ≡ [])
        (λ p. lines_of text.now ≡ p.0.now ∷ lines_of p.1.now) }
    ensures shorter { MatchOption result (length text.now ≡ 0) (λ p. length p.1.now < length text.now) }
{
    if text.is_empty() {
        return None;
    }
    match text.find_byte(b'\n') {
        None => Some((without_return(text), &text[text.len()..])),
        Some(end) => Some((without_return(&text[..end]), &text[end + 1..])),
    }
}
