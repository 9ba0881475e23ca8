//! Texts that are read line by line, and the users in them.
mod text;
mod user_lines;

pub use text::{FromLines, LineFault, TextFault, first_line, read_lines, without_user};
pub use user_lines::{Users, UsersFault, read_users};
