//! A worker pool behind one lock. Each worker runs in its own thread.
#![tactic(auto)]

mod end_boxes;
mod lock_link;
mod lock_pool;
mod pool_state;
mod working;

pub use lock_link::{LockEnd, LockLink};
pub use lock_pool::LockPool;
pub use pool_state::LockClosed;
pub use working::{gather, work};
