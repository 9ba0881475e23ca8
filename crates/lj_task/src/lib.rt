//! The tasks that make up a step: their blocks, names and results, and the definition of a task's sums.
#![tactic(auto)]

mod blocks;
mod force_sums;
mod kernels;
mod pushes;
mod results;
mod shared_frames;
mod task_name;
mod tasks;

pub use blocks::{BLOCK, Block, BlockRef, MAX_BLOCKS};
pub use force_sums::ForceSums;
pub use kernels::Kernel;
pub use lj_base::{Label, Name};
pub use pushes::Push;
pub use results::{Done, DoneRef, Sums};
pub use shared_frames::SharedFrame;
pub use task_name::{Kind, TaskName, TaskNameRef};
pub use tasks::{Task, TaskRef};
