//! Serves a connection from its first line to its end. A backend provides the users, the pool, the reader and the writer.
#![tactic(auto)]

mod backend;
mod lent;
mod shut;
mod visit_laws;
mod visiting;

pub use backend::{Backend, UserEnd};
pub use lent::{Lender, LentState, LentTicket};
pub use shut::{NoTicket, SeenClosed, Shut};
pub use visit_laws::{
    attended_is_answered, reached_is_answered_behind, visits_are_one_fold, visits_are_one_prefix,
};
pub use visiting::{Visited, visit};
