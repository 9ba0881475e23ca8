//! The text of a frame, line by line.
ghost use Rattle.std.specs.Prelude.{◌≡◌, ◌+◌, ◌≤◌, ◌++◌};
ghost use Rattle.arrayvec.specs.ArrayVec.{array_vec_len};
ghost use Rattle.lj_xyz.specs.FrameTexts.{count_text, comment_text, atom_text};

use crate::coordinate::{MAX_COORDINATE_BYTES, push_coordinate, push_text};
use crate::symbol::{MAX_SYMBOL_BYTES, Symbol};
use arrayvec::ArrayVec;
use itoa::Buffer;

/// Maximum number of bytes in a line of a frame. The longest line has a symbol and three coordinates, each after a blank.
pub const MAX_LINE_BYTES: usize = MAX_SYMBOL_BYTES + 3 * MAX_COORDINATE_BYTES;

/// A line of a frame, without its line feed.
pub type FrameLine = ArrayVec<u8, MAX_LINE_BYTES>;

/// Returns the line with the number of atoms.
///
/// ```rust
/// assert_eq!(count_line(4_096).as_slice(), b"4096".as_slice());
/// ```
pub fn count_line(atoms: usize) -> FrameLine
    ensures { result.items ≡ count_text atoms }
{
    let mut line = FrameLine::new();
    push_text(&mut line, Buffer::new().format(atoms).as_bytes());
    line
}

/// Returns the comment line: `step` and the number of the step.
///
/// ```rust
/// assert_eq!(comment_line(-12).as_slice(), b"step -12".as_slice());
/// ```
pub fn comment_line(step: i64) -> FrameLine
    ensures { result.items ≡ comment_text step }
{
    let mut line = FrameLine::new();
    push_text(&mut line, b"step ");
    push_text(&mut line, Buffer::new().format(step).as_bytes());
    line
}

/// Returns the line of an atom: its symbol, and its coordinates in millionths of a file unit.
///
/// ```rust
/// let argon = Symbol::new(b"Ar")?;
/// assert_eq!(atom_line(&argon, 105, 0, 0).as_slice(), b"Ar 0.000105 0.000000 0.000000".as_slice());
/// ```
pub fn atom_line(symbol: &Symbol, x: u64, y: u64, z: u64) -> FrameLine
    ensures { result.items ≡ atom_text symbol.now x y z }
{
    let mut line = FrameLine::new();
    push_atom_line(&mut line, symbol, x, y, z);
    line
}

/// Appends the line of an atom: its symbol, and its coordinates in millionths of a file unit.
///
/// ```rust
/// let mut text = ArrayVec::<u8, MAX_LINE_BYTES>::new();
/// push_atom_line(&mut text, &Symbol::new(b"Ar")?, 1_499_894, 105, 0);
/// assert_eq!(text.as_slice(), b"Ar 1.499894 0.000105 0.000000".as_slice());
/// ```
pub fn push_atom_line<const CAP: usize>(
    line: &mut ArrayVec<u8, CAP>,
    symbol: &Symbol,
    x: u64,
    y: u64,
    z: u64,
)
    requires { array_vec_len line.old + MAX_LINE_BYTES ≤ CAP }
    ensures text { line.new.items ≡ line.old.items ++ atom_text symbol.now x y z }
    ensures count { array_vec_len line.new ≤ array_vec_len line.old + MAX_LINE_BYTES }
{
    push_text(line, symbol.as_bytes());
    push_coordinate(line, x);
    push_coordinate(line, y);
    push_coordinate(line, z);
}
