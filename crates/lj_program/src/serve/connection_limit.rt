//! The limit of the open connections of a server.

use lj_end::MAX_ENDS;
use std::sync::atomic::{AtomicU64, Ordering};

/// Maximum number of connections that are open at once.
pub const MAX_OPEN_CONNECTIONS: u64 = MAX_ENDS as u64;

/// The count of open connections.
#[derive(Drop)]
pub struct ConnectionLimit {
    open: AtomicU64,
}

/// The permit of an open connection. Dropping it lets another one open.
pub struct ConnectionPermit<'a> {
    limit: &'a ConnectionLimit,
}

impl ConnectionLimit {
    /// Makes a limit with no connection open.
    pub fn new() -> ConnectionLimit {
        ConnectionLimit {
            open: AtomicU64::new(0),
        }
    }

    /// Returns a permit for one more connection, if fewer than `MAX_OPEN_CONNECTIONS` are open. Only one thread may ask at a
    /// time.
    pub fn permit(&self) -> Option<ConnectionPermit<'_>> {
        if self.open.load(Ordering::SeqCst) >= MAX_OPEN_CONNECTIONS {
            return None;
        }
        self.open.fetch_add(1, Ordering::SeqCst);
        Some(ConnectionPermit { limit: self })
    }
}

impl Drop for ConnectionPermit<'_> {
    fn drop(self) {
        let ConnectionPermit { limit } = self;
        limit.open.fetch_sub(1, Ordering::SeqCst);
    }
}
