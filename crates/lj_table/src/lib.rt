//! The Lennard-Jones tables: the push and the energy of each bin of squared distances.
#![tactic(auto)]

mod table_entries;
mod tables;

pub use tables::{LAST_APART, LAST_POSITIVE, Table};
