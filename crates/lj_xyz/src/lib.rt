//! Reads frames of atoms from XYZ text, and writes frames as XYZ text.
#![tactic(auto)]

mod atom_row;
mod coordinate;
mod frame_reader;
mod lines;
mod reading_laws;
mod symbol;
mod symbol_pair;
mod writer;
mod xyz_fault;

pub use atom_row::{AtomRow, FramePair, Rows};
pub use frame_reader::{MAX_FRAME_ATOMS, read_pair, read_rest};
pub use reading_laws::one_reading;
pub use symbol::Symbol;
pub use symbol_pair::SymbolPair;
pub use writer::{FrameLine, MAX_LINE_BYTES, atom_line, comment_line, count_line, push_atom_line};
pub use xyz_fault::{XyzError, XyzFault, XyzKind};
