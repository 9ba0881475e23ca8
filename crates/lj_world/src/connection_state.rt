//! The state of a connection.

use lj_session::Owner;

/// The state of a connection.
#[derive(Drop)]
pub(crate) enum ConnectionState {
    /// It waits until its ticket may enter.
    Waiting,
    /// It owns the state of its user.
    Inside(Owner),
    /// It has returned the state of its user.
    Gone,
}
