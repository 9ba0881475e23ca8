//! A pool of workers that keeps its open tasks in a lock-free queue.
#![tactic(auto)]

mod free_passes;
mod kept_boxes;
mod mailboxes;
mod no_room;
mod open_task;
mod pass;
mod poster;
mod queue_link;
mod queue_pool;
mod queue_worker;
mod result_list;
mod root_pass;
mod rule;
mod settled;
mod spares;

pub use free_passes::FreePasses;
pub use mailboxes::QueueClosed;
pub use open_task::OpenTask;
pub use pass::{PoolIdentity, PoolPass};
pub use queue_link::{QueueEnd, QueueLink};
pub use queue_pool::{CONNECTIONS, MAX_OPEN_TASKS, QueueBlank, QueuePool};
pub use queue_worker::{gather, work_queue};
pub use settled::Settled;
