//! Items of a stream of bytes.
ghost use Rattle.std.specs.Prelude.{◌≡◌, List, ℕ};
ghost use Rattle.lj_session.specs.declared.body.LoadBody.TheVariants.{Unread};
ghost use Rattle.lj_wire.specs.Items.{refusal_of, is_ending, with_body};
ghost use Rattle.lj_wire.specs.Commands.{item_with};

use lj_session::{Command, LoadBody, Refusal};

/// What is wrong with an item that is no command.
#[derive(Clone, Copy, Debug, PartialEq, Eq)]
pub enum Fault {
    /// A line of more than 256 and at most 65,535 bytes.
    Line,
    /// A line without a word, a wrong number of words, or a word of the wrong form.
    Syntax,
    /// The line of a load without a count.
    Body,
    /// 65,536 bytes without a line feed.
    Long,
    /// The first word is no command.
    Command,
    /// A million items came before.
    Enough,
}

/// An item of a stream.
#[derive(Debug, Drop)]
pub enum Item {
    Command(Command),
    /// The connection goes on after it.
    Bad(Fault),
    /// The connection ends with it.
    Last(Fault),
}

impl From<Fault> for Refusal {
    ghost from_gives = { λ fault refusal. refusal ≡ refusal_of fault };

    fn from(fault: Fault) -> Refusal {
        match fault {
            Fault::Line => Refusal::Line,
            Fault::Syntax => Refusal::Syntax,
            Fault::Body => Refusal::Body,
            Fault::Long => Refusal::Long,
            Fault::Command => Refusal::Command,
            Fault::Enough => Refusal::Enough,
        }
    }
}

impl Item {
    /// Returns whether the connection ends with this item.
    pub fn ends(&self) -> bool
        ensures { result ≡ is_ending self.now }
    {
        match self {
            Item::Command(Command::Bye) | Item::Last(_) => true,
            Item::Command(_) | Item::Bad(_) => false,
        }
    }

    /// Puts this body into the item if it is a load.
    pub(crate) fn put_body(&mut self, body: LoadBody)
        ensures value { self.new ≡ with_body self.old body }
    {
        if let Item::Command(Command::Load(load)) = self {
            load.body = body;
        }
    }

    /// Returns a load with this body, and any other item unchanged.
    pub fn with_body(self, body: LoadBody) -> Item
        ensures value { result ≡ with_body self body }
        ensures whole { (line : List ℕ) → self ≡ item_with line Unread → result ≡ item_with line body }
    {
        let mut item = self;
        item.put_body(body);
        item
    }
}
