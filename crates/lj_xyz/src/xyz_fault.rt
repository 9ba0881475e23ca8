//! Faults of bodies, with their lines.
ghost use Rattle.std.specs.Prelude.{◌≡◌};
ghost use Rattle.lj_fixed.specs.declared.numbers.NumberFault.{NumberFault};
ghost use Rattle.lj_xyz.specs.declared.xyz_fault.XyzError.TheVariants.{Fault, Memory};
ghost use Rattle.lj_xyz.specs.Kinds.{number_fault_kind};

use lj_fixed::NumberFault;
use std::alloc::{AllocError, AllocFailed};
use std::fmt;
use thiserror::Error;

/// The kind of a fault of a body.
#[derive(Clone, Copy, Debug, PartialEq, Eq, Error)]
pub enum XyzKind {
    /// The first frame does not begin with an atom count from 1 to 4096.
    Count,
    /// The comment line or an atom line is missing, or an atom line has fewer than four words.
    Short,
    /// The first word of an atom line is not a symbol.
    Symbol,
    /// An atom of the first frame has neither of the two symbols.
    Species,
    /// A coordinate is not a decimal number.
    Number,
    /// A coordinate is below -1000000 or above 1000000.
    Range,
    /// The second frame is missing, or has a different number of atoms.
    Pair,
}

impl fmt::Display for XyzKind {
    ghost use Rattle.std.specs.Prelude.{Some};
    ghost use Rattle.lj_xyz.specs.FaultTexts.{kind_text};

    ghost output = { λ kind. Some (kind_text kind) };

    fn fmt<W: fmt::Write>(&self, f: &mut fmt::Formatter<W>) -> fmt::Result {
        f.write_str(match self {
            XyzKind::Count => "no number of atoms",
            XyzKind::Short => "a line is missing or too short",
            XyzKind::Symbol => "not a symbol",
            XyzKind::Species => "a symbol of neither species",
            XyzKind::Number => "not a decimal number",
            XyzKind::Range => "a coordinate out of range",
            XyzKind::Pair => "no second frame of as many atoms",
        })
    }
}

impl From<NumberFault> for XyzKind {
    ghost from_gives = { λ fault kind. kind ≡ number_fault_kind fault };

    fn from(fault: NumberFault) -> XyzKind {
        match fault {
            NumberFault::BadNumber => XyzKind::Number,
            NumberFault::OutOfRange => XyzKind::Range,
        }
    }
}

/// The first fault of a body in reading order, and its line, counted from 1.
#[derive(Clone, Copy, Debug, PartialEq, Eq, Error)]
pub struct XyzFault {
    pub kind: XyzKind,
    pub line: u64,
}

impl fmt::Display for XyzFault {
    ghost use Rattle.std.specs.Prelude.{Some};
    ghost use Rattle.lj_xyz.specs.FaultTexts.{fault_text};

    ghost output = { λ fault. Some (fault_text fault) };

    fn fmt<W: fmt::Write>(&self, f: &mut fmt::Formatter<W>) -> fmt::Result {
        write!(f, "line {}: {}", self.line, self.kind)
    }
}

/// The reason why no frame was read.
#[derive(Debug, Drop, Error)]
pub enum XyzError {
    Fault(XyzFault),
    /// There was no memory for the rows of a frame. What follows was not read.
    Memory,
}

impl fmt::Display for XyzError {
    ghost use Rattle.std.specs.Prelude.{Some};
    ghost use Rattle.lj_xyz.specs.FaultTexts.{error_text};

    ghost output = { λ error. Some (error_text error) };

    fn fmt<W: fmt::Write>(&self, f: &mut fmt::Formatter<W>) -> fmt::Result {
        match self {
            XyzError::Fault(fault) => write!(f, "{fault}"),
            XyzError::Memory => f.write_str("out of memory"),
        }
    }
}

impl From<XyzFault> for XyzError {
    ghost from_gives = { λ fault error. error ≡ Fault fault };

    fn from(fault: XyzFault) -> XyzError {
        XyzError::Fault(fault)
    }
}

impl From<AllocError> for XyzError {
    ghost from_gives = { λ _ error. error ≡ Memory };

    fn from(_error: AllocError) -> XyzError {
        XyzError::Memory
    }
}

impl<T: Drop> From<AllocFailed<T>> for XyzError {
    ghost from_gives = { λ _ error. error ≡ Memory };

    fn from(_failed: AllocFailed<T>) -> XyzError {
        XyzError::Memory
    }
}
