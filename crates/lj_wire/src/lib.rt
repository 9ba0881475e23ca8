//! The protocol: divides the input into items, and writes replies.
#![tactic(auto)]

mod asked;
mod command_line;
mod displacement;
mod held_writing;
mod hello;
mod item;
mod line;
mod line_limits;
mod put;
mod reader;
mod reading;
mod replies;
mod source_and_sink;
mod stream_laws;
mod verb;

pub use asked::{Asked, Reads, Writes};
pub use held_writing::HeldWriting;
pub use hello::Hello;
pub use item::{Fault, Item};
pub use line::split_line;
pub use line_limits::{LONG_LINE_BYTES, MAX_BODY_BYTES, MAX_ITEMS, MAX_LINE_BYTES};
pub use put::put_all;
pub use reader::{LineReader, Phase, handed_are_all, handed_come_first, lost_is_marked};
pub use reading::{LineReading, parse_command, read_line};
pub use replies::{
    Line, MAX_REPLY_LINE_BYTES, last_line, listed_session, put_line_at, put_refusal_line,
    put_reply_line, put_welcome_line, reply_line,
};
pub use source_and_sink::{
    CountedReading, CountedWriting, ReadFault, Reading, Sink, Source, WriteFault, Writing,
};
pub use stream_laws::{
    alike_is_told, body_is_bounded, body_missing_is_marked, commands_are_items, lines_are_the_text,
    mark_is_told, one_splitting, some_splitting, state_is_reached_alone, waiting_goes_on,
};
pub use verb::is_load;
