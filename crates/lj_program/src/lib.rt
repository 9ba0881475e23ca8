//! The functions of the program: they serve one user over a reader and a writer, serve many users over TCP, and replay a
//! schedule. It also has the parsers of users and of schedules.
#![tactic(auto)]

mod conversing;
mod input;
mod program_fault;
mod quota_limits;
mod replaying;
mod serve;

pub use conversing::{run, run_over};
pub use input::{TextFault, UsersFault, read_users};
pub use program_fault::{ProgramFault, ReplayFault};
pub use quota_limits::{MAX_QUOTA_ATOMS, MAX_QUOTA_BRANCHES, MAX_QUOTA_SESSIONS};
pub use replaying::replay;
pub use serve::{Kept, MAX_OPEN_CONNECTIONS, serve_on};
