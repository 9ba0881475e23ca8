//! Exports the pools and the engine under one crate name.
#![tactic(auto)]

pub use lj_end::{
    Account, Gate, InlinePool, MAX_AHEAD, MAX_ENDS, MAX_OWED, MAX_POSTS, MAX_STRAYS, NotPosted,
    Pool, PoolEnd, Refused, Share, TaskList,
};
pub use lj_engine::{Served, serve, serve_lines};
pub use lj_lock::{LockEnd, LockPool, gather, work};
