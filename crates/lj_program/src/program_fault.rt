//! The faults of the program, their messages, and its exit status.
ghost use Rattle.std.specs.Prelude.{◌≡◌};
ghost use Rattle.lj_program.specs.Outcomes.{status_of, fault_of_replay, replay_fault_of, users_fault_of};
ghost use Rattle.lj_program.specs.declared.program_fault.ProgramFault.TheVariants.{Memory, Write};
ghost use Rattle.lj_program.specs.declared.program_fault.ReplayFault.TheVariants.{Memory as NoMemory, Write as WriteFailed};

use crate::input::{TextFault, UsersFault};
use lj_base::OutOfMemory;
use lj_wire::WriteFault;
use std::alloc::AllocError;
use thiserror::Error;

/// Why the program failed.
#[derive(Clone, Copy, Debug, Error)]
pub enum ProgramFault<'a> {
    /// The input could not be read.
    #[error("read fault")]
    Read,
    /// The output could not be written or flushed.
    #[error("write fault")]
    Write,
    /// The address cannot be listened on.
    #[error("cannot listen")]
    Listen,
    /// A file of this name could not be read.
    #[error("cannot read {0}")]
    Unreadable(&'a str),
    /// The first bad line of a schedule, counted from 1 with the lines of bodies.
    #[error("schedule line {0}")]
    ScheduleLine(u64),
    /// The first bad line of the users, counted from 1.
    #[error("users line {0}")]
    UsersLine(u64),
    /// Out of memory, or no thread for a worker.
    #[error("no memory")]
    Memory,
}

/// Why a schedule was not replayed.
#[derive(Clone, Copy, Debug)]
pub enum ReplayFault {
    /// The first line that is bad, counted from 1 with the lines of bodies. Nothing was written.
    Line(u64),
    /// Out of memory. Nothing was written.
    Memory,
    /// The output could not be written.
    Write,
}

impl ProgramFault<'_> {
    /// Returns the fault for users that cannot be read.
    pub fn of_users(fault: UsersFault) -> Self
        ensures { result ≡ users_fault_of fault }
    {
        match fault {
            UsersFault::Line(number) => ProgramFault::UsersLine(number),
            UsersFault::Memory => ProgramFault::Memory,
        }
    }

    /// Returns the exit status of the program, 1 to 3.
    pub fn status(self) -> u8
        ensures { result ≡ status_of self.entry }
    {
        match self {
            ProgramFault::Read | ProgramFault::Write | ProgramFault::Listen => 1,
            ProgramFault::Unreadable(_)
            | ProgramFault::ScheduleLine(_)
            | ProgramFault::UsersLine(_) => 2,
            ProgramFault::Memory => 3,
        }
    }
}

impl From<AllocError> for ProgramFault<'_> {
    ghost from_gives = { λ _ result. result ≡ Memory };

    fn from(_error: AllocError) -> Self {
        ProgramFault::Memory
    }
}

impl From<OutOfMemory> for ProgramFault<'_> {
    ghost from_gives = { λ _ result. result ≡ Memory };

    fn from(_error: OutOfMemory) -> Self {
        ProgramFault::Memory
    }
}

impl From<WriteFault> for ProgramFault<'_> {
    ghost from_gives = { λ _ result. result ≡ Write };

    fn from(_fault: WriteFault) -> Self {
        ProgramFault::Write
    }
}

impl From<ReplayFault> for ProgramFault<'_> {
    ghost from_gives = { λ fault result. result ≡ fault_of_replay fault };

    fn from(fault: ReplayFault) -> Self {
        match fault {
            ReplayFault::Line(number) => ProgramFault::ScheduleLine(number),
            ReplayFault::Memory => ProgramFault::Memory,
            ReplayFault::Write => ProgramFault::Write,
        }
    }
}

impl From<TextFault> for ReplayFault {
    ghost from_gives = { λ fault result. result ≡ replay_fault_of fault };

    fn from(fault: TextFault) -> ReplayFault {
        match fault {
            TextFault::Line(number) => ReplayFault::Line(number),
            TextFault::Memory => ReplayFault::Memory,
        }
    }
}

impl From<AllocError> for ReplayFault {
    ghost from_gives = { λ _ result. result ≡ NoMemory };

    fn from(_error: AllocError) -> ReplayFault {
        ReplayFault::Memory
    }
}

impl From<OutOfMemory> for ReplayFault {
    ghost from_gives = { λ _ result. result ≡ NoMemory };

    fn from(_error: OutOfMemory) -> ReplayFault {
        ReplayFault::Memory
    }
}

impl From<WriteFault> for ReplayFault {
    ghost from_gives = { λ _ result. result ≡ WriteFailed };

    fn from(_fault: WriteFault) -> ReplayFault {
        ReplayFault::Write
    }
}
