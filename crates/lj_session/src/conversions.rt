//! The faults of the crates below as refusals.
ghost use Rattle.std.specs.Prelude.{◌≡◌};
ghost use Rattle.lj_session.specs.declared.refusal.Refusal.TheVariants.{Memory, NoBranch as no_branch};
ghost use Rattle.lj_session.specs.Interactions.{scale_refusal, class_refusal, mix_refusal};
ghost use Rattle.lj_session.specs.Faults.{xyz_refusal, save_refusal, quota_refusal};

use crate::refusal::Refusal;
use lj_branch::{NoBranch, SaveFault};
use lj_quota::Over;
use lj_ring::{ClassFault, MixFault, ScaleFault};
use lj_xyz::XyzError;
use std::alloc::{AllocError, AllocFailed};

impl From<ScaleFault> for Refusal {
    ghost from_gives = { λ fault refusal. refusal ≡ scale_refusal fault };

    fn from(fault: ScaleFault) -> Refusal {
        match fault {
            ScaleFault::Edge => Refusal::Edge,
            ScaleFault::Sigma => Refusal::Sigma,
            ScaleFault::StepFactor => Refusal::StepFactor,
        }
    }
}

impl From<ClassFault> for Refusal {
    ghost from_gives = { λ fault refusal. refusal ≡ class_refusal fault };

    fn from(fault: ClassFault) -> Refusal {
        match fault {
            ClassFault::Scale(fault) => Refusal::from(fault),
            ClassFault::Weight => Refusal::Weight,
        }
    }
}

impl From<MixFault> for Refusal {
    ghost from_gives = { λ fault refusal. refusal ≡ mix_refusal fault };

    fn from(fault: MixFault) -> Refusal {
        Refusal::from(fault.fault)
    }
}

impl From<XyzError> for Refusal {
    ghost from_gives = { λ error refusal. refusal ≡ xyz_refusal error };

    fn from(error: XyzError) -> Refusal {
        match error {
            XyzError::Fault(fault) => Refusal::Xyz(fault),
            XyzError::Memory => Refusal::Memory,
        }
    }
}

impl From<SaveFault> for Refusal {
    ghost from_gives = { λ fault refusal. refusal ≡ save_refusal fault };

    fn from(fault: SaveFault) -> Refusal {
        match fault {
            SaveFault::Exists => Refusal::BranchExists,
            SaveFault::Memory => Refusal::Memory,
        }
    }
}

impl From<NoBranch> for Refusal {
    ghost from_gives = { λ _ refusal. refusal ≡ no_branch };

    fn from(_fault: NoBranch) -> Refusal {
        Refusal::NoBranch
    }
}

impl From<Over> for Refusal {
    ghost from_gives = { λ over refusal. refusal ≡ quota_refusal over };

    fn from(over: Over) -> Refusal {
        match over {
            Over::Sessions => Refusal::QuotaSessions,
            Over::Atoms => Refusal::QuotaAtoms,
            Over::Branches => Refusal::QuotaBranches,
        }
    }
}

impl From<AllocError> for Refusal {
    ghost from_gives = { λ _ refusal. refusal ≡ Memory };

    fn from(_error: AllocError) -> Refusal {
        Refusal::Memory
    }
}

impl<T: Drop> From<AllocFailed<T>> for Refusal {
    ghost from_gives = { λ _ refusal. refusal ≡ Memory };

    fn from(_failed: AllocFailed<T>) -> Refusal {
        Refusal::Memory
    }
}
