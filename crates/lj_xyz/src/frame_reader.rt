//! The frames of a text, read from its first line to its last.
ghost use Rattle.std.specs.Prelude.{◌≡◌, [], ◌∷◌, length, Ok, Err, IfOk, IsTrue};
ghost use Rattle.std.specs.Option.{option_copied};
ghost use Rattle.lj_xyz.specs.declared.xyz_fault.XyzFault.{XyzFault};
ghost use Rattle.lj_xyz.specs.Lines.{lines_of};
ghost use Rattle.lj_xyz.specs.Symbols.{is_of_species};
ghost use Rattle.lj_xyz.specs.Atoms.{is_count, atom_count_of, symbol_or_kind, row_of, row_of_four};
ghost use Rattle.lj_xyz.specs.Bodies.{IsReading, admits, missing, rest, pair};
ghost use Rattle.lj_xyz.specs.Reading.{ReadsAs, ReadsExactlyAs, count_or_fault, head_in, behind_comment, opening_in, next_row};
ghost use Rattle.lj_xyz.specs.Reading.{rows_in, frame_in, reading};
ghost use Rattle.lj_xyz.specs.Cursor.{left_of};

use crate::atom_row::{AtomRow, FramePair, Rows};
use crate::lines::Lines;
use crate::symbol::Symbol;
use crate::symbol_pair::SymbolPair;
use crate::xyz_fault::{XyzError, XyzFault, XyzKind};
use lj_base::split_word;
use lj_fixed::{parse_nano, parse_number};
use std::alloc::Global;

/// Maximum number of atoms in a frame.
pub const MAX_FRAME_ATOMS: usize = 4096;

/// The frame that is read: the first, or the second, which must have as many atoms as the first.
#[derive(Clone, Copy)]
pub enum Position {
    First,
    Second(usize),
}

impl Position {
    fn admits(self, count: usize) -> bool
        ensures { result ≡ admits self count }
    {
        match self {
            Position::First => true,
            Position::Second(atoms) => count == atoms,
        }
    }

    fn missing(self) -> XyzKind
        ensures { result ≡ missing self }
    {
        match self {
            Position::First => XyzKind::Count,
            Position::Second(_) => XyzKind::Pair,
        }
    }
}

fn is_count(number: u64) -> bool
    ensures { result ≡ is_count number }
{
    1 <= number && number <= MAX_FRAME_ATOMS as u64
}

fn count_of(word: &[u8]) -> Option<usize>
    ensures { result ≡ atom_count_of word.now }
{
    let number = parse_number(word)?;
    is_count(number).then_some(number as usize)
}

fn is_of_species(symbol: &Symbol, symbols: Option<&SymbolPair>) -> bool
    ensures { result ≡ is_of_species (option_copied symbols.entry) symbol.now }
{
    match symbols {
        Some(pair) => pair.has(symbol),
        None => true,
    }
}

// Parses a word as a symbol, one of the two if they are given.
fn symbol_of(word: &[u8], symbols: Option<&SymbolPair>) -> Result<Symbol, XyzKind>
    ensures { result ≡ symbol_or_kind (option_copied symbols.entry) word.now }
{
    let symbol = Symbol::new(word).ok_or(XyzKind::Symbol)?;
    if !is_of_species(&symbol, symbols) {
        return Err(XyzKind::Species);
    }
    Ok(symbol)
}

// Parses the line of an atom.
#[tactic(auto, unfolding(crate::specs::Atoms::row_of))]
fn row_of(line: &[u8], symbols: Option<&SymbolPair>) -> Result<AtomRow, XyzKind>
    ensures { result ≡ row_of (option_copied symbols.entry) line.now }
{
    let (word, line) = split_word(line).ok_or(XyzKind::Short)?;
    let (x, line) = split_word(line).ok_or(XyzKind::Short)?;
    let (y, line) = split_word(line).ok_or(XyzKind::Short)?;
    let (z, _others) = split_word(line).ok_or(XyzKind::Short)?;
    row_of_four(word, x, y, z, symbols)
}

#[tactic(auto, unfolding(crate::specs::Atoms::row_of_four))]
fn row_of_four(
    word: &[u8],
    x: &[u8],
    y: &[u8],
    z: &[u8],
    symbols: Option<&SymbolPair>,
) -> Result<AtomRow, XyzKind>
    ensures { result ≡ row_of_four (option_copied symbols.entry) word.now x.now y.now z.now }
{
    let symbol = symbol_of(word, symbols)?;
    let x = parse_nano(x)?;
    let y = parse_nano(y)?;
    let z = parse_nano(z)?;
    Ok(AtomRow { symbol, x, y, z })
}

// Parses the first word of the count line, which is line number `line`, as the number of atoms.
fn count_or_fault(position: Position, line: u64, word: &[u8]) -> Result<usize, XyzFault>
    ensures { result ≡ count_or_fault position line (atom_count_of word.now) }
{
    let Some(count) = count_of(word) else {
        return Err(XyzFault {
            kind: XyzKind::Count,
            line,
        });
    };
    if !position.admits(count) {
        return Err(XyzFault {
            kind: XyzKind::Pair,
            line,
        });
    }
    Ok(count)
}

// Skips the lines without a word, and reads the count line.
fn read_head(lines: &mut Lines, position: Position) -> Result<usize, XyzFault>
    ensures { ReadsExactlyAs (λ count. (count, left_of lines.new)) result
        (head_in position lines.old.taken (lines_of lines.old.rest.now)) }
{
    while let Some(line) = lines.next_line() {
        if let Some((word, _others)) = split_word(line) {
            return count_or_fault(position, lines.taken, word);
        }
    }
    Err(XyzFault {
        kind: position.missing(),
        line: lines.taken + 1,
    })
}

#[tactic(auto, unfolding(crate::specs::Reading::behind_comment))]
fn pass_comment(lines: &mut Lines) -> Result<(), XyzFault>
    ensures { ReadsExactlyAs (λ _. left_of lines.new) result
        (behind_comment lines.old.taken (lines_of lines.old.rest.now)) }
{
    match lines.next_line() {
        Some(_comment) => Ok(()),
        None => Err(XyzFault {
            kind: XyzKind::Short,
            line: lines.taken + 1,
        }),
    }
}

#[tactic(auto, unfolding(crate::specs::Reading::next_row))]
fn read_row(lines: &mut Lines, symbols: Option<&SymbolPair>) -> Result<AtomRow, XyzFault>
    ensures { ReadsExactlyAs (λ row. (row, left_of lines.new)) result
        (next_row (option_copied symbols.entry) lines.old.taken (lines_of lines.old.rest.now)) }
{
    let Some(line) = lines.next_line() else {
        return Err(XyzFault {
            kind: XyzKind::Short,
            line: lines.taken + 1,
        });
    };
    match row_of(line, symbols) {
        Ok(row) => Ok(row),
        Err(kind) => Err(XyzFault {
            kind,
            line: lines.taken,
        }),
    }
}

// Reads the count line and the comment line of a frame, and returns the number of its atoms.
fn read_opening(lines: &mut Lines, position: Position) -> Result<usize, XyzFault>
    ensures { ReadsExactlyAs (λ atoms. (atoms, left_of lines.new)) result
        (opening_in position (left_of lines.old)) }
{
    let atoms = read_head(lines, position)?;
    pass_comment(lines)?;
    Ok(atoms)
}

// Reads the atom lines of a frame. If there is no memory for the rows it returns at once, and reads none of the lines.
fn read_rows(
    alloc: Global,
    lines: &mut Lines,
    atoms: usize,
    symbols: Option<&SymbolPair>,
) -> Result<Rows, XyzError>
    ensures { ReadsAs (λ rows. (rows, left_of lines.new)) result
        (rows_in (option_copied symbols.entry) atoms (left_of lines.old)) }
{
    let mut rows = Vec::with_capacity(alloc, atoms)?;
    for _ in 0..atoms {
        let row = read_row(lines, symbols)?;
        rows.push(row)?;
    }
    Ok(Rows::new(rows))
}

#[tactic(auto, unfolding(crate::specs::Reading::frame_in))]
fn read_frame(
    alloc: Global,
    lines: &mut Lines,
    position: Position,
    symbols: Option<&SymbolPair>,
) -> Result<Rows, XyzError>
    ensures { ReadsAs (λ rows. (rows, left_of lines.new)) result
        (frame_in (option_copied symbols.entry) position (left_of lines.old)) }
{
    let atoms = read_opening(lines, position)?;
    read_rows(alloc, lines, atoms, symbols)
}

fn first_frame(alloc: Global, text: &[u8], symbols: Option<&SymbolPair>) -> Result<Rows, XyzError>
    ensures { ReadsAs (λ rows. rows ∷ []) result
        (reading (option_copied symbols.entry) rest (lines_of text.now)) }
{
    let mut lines = Lines::new(text);
    read_frame(alloc, &mut lines, Position::First, symbols)
}

// Reads the first two frames of a text, the second with atoms of any species.
fn first_two_frames(
    alloc: Global,
    text: &[u8],
    symbols: Option<&SymbolPair>,
) -> Result<FramePair, XyzError>
    ensures { ReadsAs (λ frames. frames.first ∷ frames.second ∷ []) result
        (reading (option_copied symbols.entry) pair (lines_of text.now)) }
{
    let mut lines = Lines::new(text);
    let first = read_frame(alloc, &mut lines, Position::First, symbols)?;
    let second = read_frame(alloc, &mut lines, Position::Second(first.len()), None)?;
    Ok(FramePair { first, second })
}

/// Reads the first frame of a text, and nothing after it. If two symbols are given, each atom must have one of them.
///
/// # Errors
/// The first fault in reading order, or `Memory` if there is none for the rows. Their lines are not read then.
///
/// ```rust
/// let rows = read_rest(alloc, b"2\ndimer\nAr 0 0 0\nAr 1.5 0 0\n", None)?;
/// assert_eq!(rows.len(), 2);
/// assert_eq!(rows.as_slice()[1].x.get(), 1_500_000_000);
/// ```
///
/// Promise: the result is one of three: the text's first frame; the text's first fault in reading order; or an out-of-memory fault.
pub fn read_rest(alloc: Global, text: &[u8], symbols: Option<&SymbolPair>) -> Result<Rows, XyzError>
    ensures frame { IfOk result (λ rows.
        IsReading (option_copied symbols.entry) rest (lines_of text.now) (Ok (rows ∷ []))) }
    ensures fault { (fault : XyzFault) → result ≡ Err (XyzError.Fault fault) →
        IsReading (option_copied symbols.entry) rest (lines_of text.now) (Err fault) }
    ensures count { IfOk result (λ rows. IsTrue (is_count (length rows))) }

    // The same as an equation, if there was memory.
    ensures exact { ReadsAs (λ rows. rows ∷ []) result
        (reading (option_copied symbols.entry) rest (lines_of text.now)) }
{
    first_frame(alloc, text, symbols)
}

/// Reads the first two frames of a text, which must have the same number of atoms, and nothing after them. If two
/// symbols are given, each atom of the first frame must have one of them; the second frame can have any symbols.
///
/// # Errors
/// The first fault in reading order, or `Memory` if there is none for the rows of a frame. Their lines are not read then.
///
/// ```rust
/// let frames = read_pair(alloc, b"1\nearlier\nH 0 0 0\n1\nlater\nH 0 0 0.25\n", None)?;
/// assert_eq!(frames.second.len(), 1);
/// assert_eq!(frames.second.as_slice()[0].z.get(), 250_000_000);
/// ```
///
/// Promise: the result is one of three: the text's first two frames, with equal atom counts; the text's first fault in reading
/// order; or an out-of-memory fault.
pub fn read_pair(
    alloc: Global,
    text: &[u8],
    symbols: Option<&SymbolPair>,
) -> Result<FramePair, XyzError>
    ensures frames { IfOk result (λ frames.
        IsReading (option_copied symbols.entry) pair (lines_of text.now)
        (Ok (frames.first ∷ frames.second ∷ []))) }
    ensures fault { (fault : XyzFault) → result ≡ Err (XyzError.Fault fault) →
        IsReading (option_copied symbols.entry) pair (lines_of text.now) (Err fault) }
    ensures count { IfOk result (λ frames. IsTrue (is_count (length frames.first))) }
    ensures same_count { IfOk result (λ frames. length frames.second ≡ length frames.first) }

    // The same as an equation, if there was memory.
    ensures exact { ReadsAs (λ frames. frames.first ∷ frames.second ∷ []) result
        (reading (option_copied symbols.entry) pair (lines_of text.now)) }
{
    first_two_frames(alloc, text, symbols)
}
