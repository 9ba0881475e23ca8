//! The interface of a pool of workers: its ends (which post tasks and fetch results), the counts of its workers, and the rules for
//! waking threads.
#![tactic(auto)]

mod account;
mod gate;
mod inline;
mod linked_end;
mod locking;
mod pool;
mod share;
mod task_list;
mod waking;

pub use account::Account;
pub use gate::Gate;
pub use inline::InlinePool;
pub use linked_end::{Finish, LinkedEnd, PoolLink};
pub use locking::lock_soon;
pub use pool::{
    MAX_AHEAD, MAX_ENDS, MAX_OWED, MAX_POSTS, MAX_STRAYS, NotPosted, Pool, PoolEnd, Refused,
};
pub use share::{Share, merged, shares_of};
pub use task_list::TaskList;
pub use waking::{
    IdleWorkers, LOOKS, TASKS_AT_ONCE, UnsignalledPosts, WAIT_QUEUES, WaitQueues, wait_queue_of,
    wake,
};
