//! The simulation: two frames of atoms, reversible steps, and the tasks of each step.
#![tactic(auto)]

mod atoms;
mod cover;
mod frames;
mod measures;
pub mod motion_laws;
mod partial;
pub mod round_trip;
mod simulations;
mod snapshots;
mod step_frames;
mod tile_id;

pub use frames::{Frame, Frames, MAX_ATOMS};
pub use simulations::{Displacement, MAX_STEP, NotAwaited, Sim, Stray};
pub use snapshots::Snapshot;
