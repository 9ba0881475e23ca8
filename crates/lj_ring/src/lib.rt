//! The periodic box, with 2^32 units along each axis: coordinates, least images, the scale of a simulation, and mixtures of two
//! species.
#![tactic(auto)]

mod arcs;
mod bins;
mod coordinates;
pub mod lanes;
mod mixes;
mod scales;

pub use arcs::{Arc, Arcs, gap};
pub use coordinates::{Place, dist2, image, micro_of, place_of};
pub use mixes::{Class, ClassFault, Mix, MixFault, Species, Weight};
pub use scales::{BINS, CUTOFF_HALVES, Edge, MIN_BIN, Scale, ScaleFault};
