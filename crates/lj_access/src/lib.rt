//! The directory of users: it lends a user's state to one connection at a time, in the order of the tickets.
#![tactic(auto)]

mod directory;
mod given_up;
mod ticket;
mod user;
mod user_row;

pub use directory::{Directory, MAX_USERS};
pub use given_up::GivenUp;
pub use ticket::{Denied, NotEntered, Ticket};
pub use user::{User, is_named};
pub use user_row::MAX_TICKETS;
