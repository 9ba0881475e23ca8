//! Texts that are read line by line, and the faults of those that cannot be read.
ghost use Rattle.std.specs.Prelude.{◌≡◌, ◌≤◌, ◌<◌, ◌+◌, length, IfOk};
ghost use Rattle.lj_program.specs.declared.input.text.LineFault.TheVariants.{Memory as NoMemory};
ghost use Rattle.lj_program.specs.declared.input.text.TextFault.TheVariants.{Memory};

use lj_wire::split_line;
use std::alloc::{AllocError, AllocFailed};

/// Why a text cannot be read.
#[derive(Clone, Copy)]
pub enum TextFault {
    /// The number of the first bad line, counted from 1 with the lines of bodies.
    Line(u64),
    /// Out of memory for its contents.
    Memory,
}

/// Why a line is refused.
#[derive(Clone, Copy)]
pub enum LineFault {
    /// It has the wrong form for its place.
    Form,
    /// Out of memory for its contents.
    Memory,
}

impl LineFault {
    /// Returns the fault of a text whose line begins after these bytes.
    fn after(self, before: &[u8]) -> TextFault
        ensures { self ≡ NoMemory → result ≡ Memory }
    {
        match self {
            LineFault::Form => TextFault::Line(line_after(before)),
            LineFault::Memory => TextFault::Memory,
        }
    }
}

impl From<AllocError> for LineFault {
    ghost from_gives = { λ _ result. result ≡ NoMemory };

    fn from(_error: AllocError) -> LineFault {
        LineFault::Memory
    }
}

impl<T: Drop> From<AllocFailed<T>> for LineFault {
    ghost from_gives = { λ _ result. result ≡ NoMemory };

    fn from(_failed: AllocFailed<T>) -> LineFault {
        LineFault::Memory
    }
}

/// A value that is read from a text, line by line.
pub trait FromLines {
    /// Reads the first line of some bytes, with the body that it announces, and returns how many bytes these
    /// are.
    fn read(&mut self, bytes: &[u8]) -> Result<usize, LineFault>
        requires { 1 ≤ length bytes.now }
        ensures bound { IfOk result (λ taken. taken ≤ length bytes.now) }
        ensures some { IfOk result (λ taken. 0 < taken) };
}

/// Reads all lines of a text.
///
/// # Errors
/// The number of the first bad line, or out of memory.
pub fn read_lines<T: FromLines>(draft: &mut T, bytes: &[u8]) -> Result<(), TextFault> {
    let mut at = 0;
    while at < bytes.len() {
        let (before, rest) = bytes.split_at(at);
        match draft.read(rest) {
            Ok(taken) => at += taken,
            Err(fault) => return Err(fault.after(before)),
        }
    }
    Ok(())
}

/// Returns the number of the line that begins after these bytes.
fn line_after(before: &[u8]) -> u64
    ensures { result ≤ length before.now + 1 }
{
    before.iter().filter(|byte| **byte == b'\n').count() as u64 + 1
}

/// Returns the fault of a text without a user: the number after that of its last line, which may end without a line feed.
pub fn without_user(bytes: &[u8]) -> TextFault {
    TextFault::Line(match bytes.last() {
        Some(b'\n') | None => line_after(bytes),
        Some(_) => line_after(bytes) + 1,
    })
}

/// Returns the first line of some bytes, without its line feed, and what follows it. The last line may have no line feed.
pub fn first_line(bytes: &[u8]) -> (&[u8], &[u8])
    requires { 1 ≤ length bytes.now }
    ensures { length result.1.now < length bytes.now }
{
    match split_line(bytes) {
        Some(parts) => parts,
        None => bytes.split_at(bytes.len()),
    }
}
