//! Names, labels, tokens, the words of a line, and the error of a refused allocation.
#![tactic(auto)]

mod names;
mod out_of_memory;
mod tokens;
mod words;

pub use names::{Label, MAX_NAME_BYTES, Name};
pub use out_of_memory::OutOfMemory;
pub use tokens::{TOKEN_BYTES, Token};
pub use words::{Words, split_word, without_return};
