//! The book: a table of tasks, each of which is open, handed out or done.
#![tactic(auto)]

mod book;
mod book_entry;
mod book_faults;
mod book_of;
mod box_book;
pub mod box_laws;
mod counts;
mod key_states;
mod lent_task;
mod task_box;

pub use book::{Book, Key};
pub use book_entry::MAX_ENTRIES;
pub use book_faults::{Full, NoRoom, NotOut};
pub use box_book::BoxBook;
pub use counts::Counts;
pub use lent_task::{Lent, LentDone, LentTask};
pub use task_box::{DoneBox, TaskBox};
