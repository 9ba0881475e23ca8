//! The phase of a reader.

/// The phase of a reader of lines.
#[derive(Clone, Copy, Debug, PartialEq, Eq)]
pub enum Phase {
    /// The next item may come.
    Open,
    /// No item comes: one that ends the connection was handed out, or the input has ended.
    Over,
    /// A read has failed.
    Failed,
}
