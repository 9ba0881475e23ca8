//! Carries out a user's commands on the user's sessions, and returns each reply.
#![tactic(auto)]

mod body;
mod command;
mod conversions;
mod interactions;
mod live_session;
mod owner;
mod owner_laws;
mod parsed_load;
mod refusal;
mod reply;
mod species_bits;
mod state;
mod tile_cursor;

pub use body::{Body, LoadBody};
pub use command::{Command, Load, Mode};
pub use interactions::{ClassNumbers, Interactions};
pub use lj_base::Name;
pub use owner::{Begin, Owner};
pub use owner_laws::{
    accept_keeps_user, begun_waits_alike, listed_is_there, posted_keeps_user, restart_keeps_user,
};
pub use refusal::Refusal;
pub use reply::Reply;
pub use state::UserState;
pub use tile_cursor::TileCursor;
