//! The world (one state machine of users, connections, workers and the book of tasks) and the laws of its runs.
#![tactic(auto)]

mod answers;
mod connection;
mod connection_state;
mod event;
mod holding;
mod machine;
mod run_laws;
mod texts;
mod transcript;
mod worker;
mod world;
mod world_limits;

pub use event::{ConnectionEvent, Event, WorkerEvent};
pub use run_laws::{
    agreeing_scripts_agree_in_texts, each_list_has_a_run, headline, others_change_nothing,
    refusals_leave_sessions, replies_are_first_texts, tickets_are_in_order,
    value_is_that_of_script,
};
pub use transcript::{Entry, ReplyText, Transcript};
pub use world::World;
pub use world_limits::{MAX_CONNECTIONS, MAX_POSTED, MAX_WORKERS};
