//! Branches: simulations saved under names, in order of saving.
#![tactic(auto)]

mod branch_faults;
mod branches;

pub use branch_faults::{NoBranch, SaveFault};
pub use branches::Branches;
