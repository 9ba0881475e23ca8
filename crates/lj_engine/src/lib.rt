//! The engine, which answers a stream of commands over any pool.
#![tactic(auto)]

mod running;
mod served;
mod serving;
mod waiting;
mod writing;

pub use served::Served;
pub use serving::{serve, serve_lines};
