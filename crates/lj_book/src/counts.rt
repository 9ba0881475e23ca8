//! Counts of a book.

/// The counts of a book's tasks, results and entries.
#[derive(Clone, Copy, PartialEq, Eq, Debug)]
pub struct Counts {
    /// Tasks that were ever posted.
    pub posted: u64,
    /// Results that were ever given.
    pub given: u64,
    /// Results that were ever fetched.
    pub fetched: u64,
    /// Entries that were ever withdrawn.
    pub withdrawn: u64,
    /// Entries that are in the book now.
    pub entries: u64,
}
