//! Limits of a world.

/// Maximum number of connections of a schedule. They are numbered from 1.
pub const MAX_CONNECTIONS: u8 = 64;

/// Maximum number of workers of a schedule. They are numbered from 1.
pub const MAX_WORKERS: u8 = 16;

/// Maximum number of tasks that one connection has posted and not fetched yet.
pub const MAX_POSTED: usize = 64;
