//! Faults of saving and restoring.
ghost use Rattle.std.specs.Prelude.{◌≡◌};
ghost use Rattle.lj_branch.specs.declared.branch_faults.SaveFault.TheVariants.{Memory};

use std::alloc::AllocError;
use std::fmt;
use thiserror::Error;

/// The reason why a simulation was not saved.
#[derive(Clone, Copy, PartialEq, Eq, Debug, Error)]
pub enum SaveFault {
    Exists,
    Memory,
}

impl fmt::Display for SaveFault {
    ghost use Rattle.std.specs.Prelude.{Some};
    ghost use Rattle.lj_branch.specs.FaultTexts.{save_text};

    ghost output = { λ fault. Some (save_text fault) };

    fn fmt<W: fmt::Write>(&self, f: &mut fmt::Formatter<W>) -> fmt::Result {
        f.write_str(match self {
            SaveFault::Exists => "a simulation is saved under this name already",
            SaveFault::Memory => "out of memory",
        })
    }
}

impl From<AllocError> for SaveFault {
    ghost from_gives = { λ _ fault. fault ≡ Memory };

    fn from(_error: AllocError) -> SaveFault {
        SaveFault::Memory
    }
}

/// The fault that no simulation is saved under the name.
#[derive(Clone, Copy, PartialEq, Eq, Debug, Error)]
pub struct NoBranch;

impl fmt::Display for NoBranch {
    ghost use Rattle.std.specs.Prelude.{Some};
    ghost use Rattle.lj_branch.specs.FaultTexts.{no_branch_text};

    ghost output = { λ _. Some no_branch_text };

    fn fmt<W: fmt::Write>(&self, f: &mut fmt::Formatter<W>) -> fmt::Result {
        f.write_str("no simulation is saved under this name")
    }
}
