//! The words of a line.
ghost use Rattle.std.specs.Prelude.{◌≡◌, ◌≢◌, ◌≤◌, [], ◌∷◌, length, not, MatchOption};
ghost use Rattle.std.specs.List.{position_or_len};
ghost use Rattle.std.specs.Str.Lines.{strip_carriage_return};
ghost use Rattle.lj_base.specs.Words.{is_blank, words_of};

use std::marker::Model;

/// The words of a line that are left to read. A word is a longest run of bytes that are neither space nor tab.
#[derive(Drop)]
pub struct Words<'a> {
    rest: &'a [u8],
}

impl<'a> Model for Words<'a> {
    ghost use Rattle.std.specs.Prelude.{List, ℕ};
    ghost use Rattle.lj_base.specs.Words.{words_of};

    ghost Value = { List (List ℕ) };

    ghost view = { λ words. words_of words.rest.now };
}

impl<'a> Words<'a> {
    /// Returns the words of `line`.
    pub fn new(line: &'a [u8]) -> Self
        ensures { result ≡ words_of line.now }
    {
        Words { rest: line }
    }

    /// Returns an equal iterator.
    pub fn copy(&self) -> Words<'a>
        ensures { result ≡ self.now }
    {
        Words { rest: self.rest }
    }

    /// Returns `None` if a word is left.
    pub fn end(mut self) -> Option<()>
        ensures { MatchOption result (self.entry ≢ []) (λ _. self.entry ≡ []) }
    {
        match self.next() {
            None => Some(()),
            Some(_) => None,
        }
    }
}

impl<'a> Iterator for Words<'a> {
    ghost use Rattle.std.specs.Iterator.{YieldsFirstRef, item_count};

    type Item = &'a [u8];

    ghost next_gives = { YieldsFirstRef (λ words. words) };

    ghost remaining = { item_count (λ words. words) };

    fn next(&mut self) -> Option<&'a [u8]> {
        let (word, rest) = split_word(self.rest)?;
        self.rest = rest;
        Some(word)
    }
}

/// Returns a line without the carriage return at its end, if it has one.
pub fn without_return(line: &[u8]) -> &[u8]
    ensures { result.now ≡ strip_carriage_return line.now }
{
    match line {
        [line @ .., b'\r'] => line,
        _ => line,
    }
}

fn is_blank(byte: u8) -> bool
    ensures { result ≡ is_blank byte }
{
    byte == b' ' || byte == b'\t'
}

// Returns how many bytes come before the first blank.
fn word_len(line: &[u8]) -> usize
    ensures value { result ≡ position_or_len is_blank line.now }
    ensures within { result ≤ length line.now }
{
    line.iter()
        .position(|byte| is_blank(*byte))
        .unwrap_or(line.len())
}

// Returns how many blanks are in front.
fn blanks_len(line: &[u8]) -> usize
    ensures value { result ≡ position_or_len (λ byte. not (is_blank byte)) line.now }
    ensures within { result ≤ length line.now }
{
    line.iter()
        .position(|byte| !is_blank(*byte))
        .unwrap_or(line.len())
}

/// Splits a line into its first word and the text after it; `None` if it has no word.
pub fn split_word(line: &[u8]) -> Option<(&[u8], &[u8])>
    ensures { MatchOption result
        (words_of line.now ≡ [])
        (λ p. words_of line.now ≡ p.0.now ∷ words_of p.1.now) }
{
    let line = &line[blanks_len(line)..];
    if line.is_empty() {
        return None;
    }
    Some(line.split_at(word_len(line)))
}
