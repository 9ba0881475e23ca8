//! Computes a task: finds the pairs within the cutoff, and sums their pushes or energies, eight pairs at a time.
#![tactic(auto)]

mod computing;
mod energies;
mod near;
mod near_pairs;
mod pair_lanes;
mod pair_sums;
mod pairs;
mod species_rows;
mod sums;

pub use computing::{TableKernel, compute, compute_into, compute_sums};
pub use lj_task::{
    BLOCK, Block, BlockRef, Done, DoneRef, ForceSums, Kernel, Kind, Label, MAX_BLOCKS, Name, Push,
    SharedFrame, Sums, Task, TaskName, TaskNameRef, TaskRef,
};
pub use pairs::pair_push;
