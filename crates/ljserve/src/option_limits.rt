//! The limits of the options for a server.

/// Maximum number of worker threads of a server.
pub const MAX_WORKERS: u64 = lj_world::MAX_WORKERS as u64;

/// Maximum number of connections accepted before a server ends.
pub const MAX_ACCEPTED: u64 = 1_000_000;
