//! Refusals, each with its number and its name.
ghost use Rattle.std.specs.Prelude.{◌≡◌};
ghost use Rattle.lj_session.specs.Refusals.{refusal_number, refusal_name, xyz_number, xyz_name};

use lj_xyz::{XyzFault, XyzKind};
use std::fmt;

/// The reason why an item is refused. A refusal changes nothing.
#[derive(Clone, Copy, Debug, PartialEq, Eq)]
pub enum Refusal {
    /// The first line is not a HELLO with a user's name and token.
    Denied,
    /// A line has more than 256 bytes.
    Line,
    /// A line has no word, the wrong number of words or a word of the wrong form; or LOADMIX has the same symbol twice.
    Syntax,
    /// A LOAD or LOADMIX line lacks a count at its end.
    Body,
    /// 65,536 bytes came without a line feed.
    Long,
    /// The first word is not a command.
    Command,
    /// A million items of the connection were answered.
    Enough,
    /// No session has this name.
    NoSession,
    /// A session has this name already.
    Exists,
    /// Nothing is saved under this name.
    NoBranch,
    /// Something is saved under this name already.
    BranchExists,
    /// The session has no atom with this number.
    NoAtom,
    /// The quota of sessions is used up.
    QuotaSessions,
    /// The quota of atoms would be exceeded.
    QuotaAtoms,
    /// The quota of saved simulations, over all sessions, is used up.
    QuotaBranches,
    /// More than a million steps are asked for, or the absolute value of the step number would exceed 10^12.
    StepRange,
    /// The first fault of a body.
    Xyz(XyzFault),
    /// The edge is not a decimal number from 0.001 to 1000000.
    Edge,
    /// Sigma is not a decimal number, or is out of range for this edge.
    Sigma,
    /// The step factor h is not a whole number from 1 to 16777216.
    StepFactor,
    /// The energy weight of a class is not a whole number from 1 to 65536.
    Weight,
    /// There is not enough memory for the command.
    Memory,
}

impl Refusal {
    /// Returns the number, 1 to 90.
    pub fn number(self) -> u8
        ensures { result ≡ refusal_number self }
    {
        match self {
            Refusal::Denied => 1,
            Refusal::Line => 2,
            Refusal::Syntax => 3,
            Refusal::Body => 4,
            Refusal::Long => 5,
            Refusal::Command => 6,
            Refusal::Enough => 8,
            Refusal::NoSession => 10,
            Refusal::Exists => 11,
            Refusal::NoBranch => 12,
            Refusal::BranchExists => 13,
            Refusal::NoAtom => 14,
            Refusal::QuotaSessions => 20,
            Refusal::QuotaAtoms => 21,
            Refusal::QuotaBranches => 22,
            Refusal::StepRange => 23,
            Refusal::Xyz(fault) => xyz_number(fault.kind),
            Refusal::Edge => 36,
            Refusal::Sigma => 37,
            Refusal::StepFactor => 38,
            Refusal::Weight => 40,
            Refusal::Memory => 90,
        }
    }

    /// Returns the name, in capitals.
    pub fn name(self) -> &'static str
        ensures { result.now ≡ refusal_name self }
    {
        match self {
            Refusal::Denied => "DENIED",
            Refusal::Line => "LINE",
            Refusal::Syntax => "SYNTAX",
            Refusal::Body => "BODY",
            Refusal::Long => "LONG",
            Refusal::Command => "COMMAND",
            Refusal::Enough => "ENOUGH",
            Refusal::NoSession => "NO_SESSION",
            Refusal::Exists => "EXISTS",
            Refusal::NoBranch => "NO_BRANCH",
            Refusal::BranchExists => "BRANCH_EXISTS",
            Refusal::NoAtom => "NO_ATOM",
            Refusal::QuotaSessions => "QUOTA_SESSIONS",
            Refusal::QuotaAtoms => "QUOTA_ATOMS",
            Refusal::QuotaBranches => "QUOTA_BRANCHES",
            Refusal::StepRange => "STEP_RANGE",
            Refusal::Xyz(fault) => xyz_name(fault.kind),
            Refusal::Edge => "EDGE",
            Refusal::Sigma => "SIGMA",
            Refusal::StepFactor => "STEP_FACTOR",
            Refusal::Weight => "WEIGHT",
            Refusal::Memory => "MEMORY",
        }
    }
}

fn xyz_number(kind: XyzKind) -> u8
    ensures { result ≡ xyz_number kind }
{
    match kind {
        XyzKind::Count => 30,
        XyzKind::Short => 31,
        XyzKind::Symbol => 32,
        XyzKind::Number => 33,
        XyzKind::Range => 34,
        XyzKind::Pair => 35,
        XyzKind::Species => 39,
    }
}

fn xyz_name(kind: XyzKind) -> &'static str
    ensures { result.now ≡ xyz_name kind }
{
    match kind {
        XyzKind::Count => "XYZ_COUNT",
        XyzKind::Short => "XYZ_SHORT",
        XyzKind::Symbol => "XYZ_SYMBOL",
        XyzKind::Number => "XYZ_NUMBER",
        XyzKind::Range => "XYZ_RANGE",
        XyzKind::Pair => "XYZ_PAIR",
        XyzKind::Species => "XYZ_SPECIES",
    }
}

impl fmt::Display for Refusal {
    ghost use Rattle.std.specs.Prelude.{Some};
    ghost use Rattle.lj_session.specs.Refusals.{refusal_text};

    ghost output = { λ refusal. Some (refusal_text refusal) };

    fn fmt<W: fmt::Write>(&self, f: &mut fmt::Formatter<W>) -> fmt::Result {
        let number = self.number();
        let name = self.name();
        match self {
            Refusal::Xyz(fault) => {
                write!(
                    f,
                    "ERR {}{} {name} line {}",
                    number / 10,
                    number % 10,
                    fault.line
                )
            }
            _ => write!(f, "ERR {}{} {name}", number / 10, number % 10),
        }
    }
}
