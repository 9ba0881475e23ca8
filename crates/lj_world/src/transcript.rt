//! The replies of a world.
ghost use Rattle.std.specs.Prelude.{◌≡◌};

use std::marker::Model;

/// The text of a reply: its lines, each with its line feed.
#[derive(Debug, Drop)]
pub struct ReplyText {
    bytes: Vec<u8>,
}

impl Model for ReplyText {
    ghost use Rattle.std.specs.Prelude.{List, ℕ};

    ghost Value = { List ℕ };

    ghost view = { λ text. text.bytes.items };
}

impl ReplyText {
    /// Makes a text of these bytes.
    pub fn new(bytes: Vec<u8>) -> ReplyText
        ensures { result ≡ bytes.items }
    {
        ReplyText { bytes }
    }

    /// Returns its bytes.
    pub fn as_bytes(&self) -> &[u8]
        ensures { result.now ≡ self.now }
    {
        self.bytes.as_slice()
    }
}

/// A reply: the numbers of the user and of the connection that receive it, and its text.
#[derive(Debug, Drop)]
pub struct Entry {
    pub user: u8,
    pub connection: u8,
    pub text: ReplyText,
}

/// The replies of a run, in order.
#[derive(Debug, Drop)]
pub struct Transcript {
    entries: Vec<Entry>,
}

impl Model for Transcript {
    ghost use Rattle.std.specs.Prelude.{List};
    ghost use Rattle.lj_world.specs.declared.transcript.Entry.{Entry};

    ghost Value = { List Entry };

    ghost view = { λ transcript. transcript.entries.items };
}

impl Transcript {
    /// Makes a transcript of these replies.
    pub fn new(entries: Vec<Entry>) -> Transcript
        ensures { result ≡ entries.items }
    {
        Transcript { entries }
    }

    /// Returns the replies, in order.
    pub fn entries(&self) -> &[Entry]
        ensures { result.now ≡ self.now }
    {
        self.entries.as_slice()
    }
}
