//! The limits of a user's quota, in a line of users or on the command line.

/// Maximum number of sessions in a quota.
pub const MAX_QUOTA_SESSIONS: u64 = 64;

/// Maximum number of atoms in a quota, over all sessions.
pub const MAX_QUOTA_ATOMS: u64 = 65_536;

/// Maximum number of saved simulations in a quota, all sessions together.
pub const MAX_QUOTA_BRANCHES: u64 = 256;
