//! Parses whole numbers and decimal numbers (in units of 10^-9), and prints numbers with six decimals.
#![tactic(auto)]

mod decimal_words;
mod digits;
mod numbers;
mod printing;
mod whole;

pub use decimal_words::parse_nano;
pub use numbers::{MAX_NANO, Nano, NumberFault};
pub use printing::{MAX_MICRO_BYTES, micro_text};
pub use whole::parse_number;
