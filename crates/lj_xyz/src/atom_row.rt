//! Atoms as they are read from a file.
ghost use Rattle.std.specs.Prelude.{◌≡◌, ◌==◌, length};

use crate::symbol::Symbol;
use lj_fixed::Nano;
use std::marker::Model;

/// An atom of a frame: its symbol and its coordinates in nano.
#[derive(Debug, Drop)]
pub struct AtomRow {
    pub symbol: Symbol,
    pub x: Nano,
    pub y: Nano,
    pub z: Nano,
}

/// The atoms of a frame, in the order of the file.
#[derive(Debug, Drop)]
pub struct Rows {
    rows: Vec<AtomRow>,
}

/// The first two frames of a file, with the same number of atoms.
#[derive(Debug, Drop)]
pub struct FramePair {
    pub first: Rows,
    pub second: Rows,
}

impl Model for Rows {
    ghost use Rattle.std.specs.Prelude.{List};
    ghost use Rattle.lj_xyz.specs.declared.atom_row.AtomRow.{AtomRow};

    ghost Value = { List AtomRow };

    ghost view = { λ r. r.rows.items };
}

impl Rows {
    pub(crate) fn new(rows: Vec<AtomRow>) -> Rows
        ensures { result ≡ rows.items }
    {
        Rows { rows }
    }

    /// ```rust
    /// let rows = read_rest(alloc, b"2\ndimer\nAr 0 0 0\nAr 1.5 0 0\n", None)?;
    /// assert_eq!(rows.len(), 2);
    /// ```
    pub fn len(&self) -> usize
        ensures rows { result ≡ length self.now }
    {
        self.rows.len()
    }

    /// ```rust
    /// let rows = read_rest(alloc, b"2\ndimer\nAr 0 0 0\nAr 1.5 0 0\n", None)?;
    /// assert!(!rows.is_empty());
    /// ```
    pub fn is_empty(&self) -> bool
        ensures { result ≡ (length self.now == 0) }
    {
        self.rows.is_empty()
    }

    /// ```rust
    /// let rows = read_rest(alloc, b"2\ndimer\nAr 0 0 0\nAr 1.5 0 0\n", None)?;
    /// assert_eq!(rows.len(), 2);
    /// assert_eq!(rows.as_slice()[1].x.get(), 1_500_000_000);
    /// ```
    pub fn as_slice(&self) -> &[AtomRow]
        ensures { result.now ≡ self.now }
    {
        self.rows.as_slice()
    }

    /// ```rust
    /// let rows = read_rest(alloc, b"2\ndimer\nAr 0 0 0\nAr 1.5 0 0\n", None)?;
    /// assert_eq!(rows.into_vec().len(), 2);
    /// ```
    pub fn into_vec(self) -> Vec<AtomRow>
        ensures { result.items ≡ self }
    {
        let Rows { rows } = self;
        rows
    }
}
