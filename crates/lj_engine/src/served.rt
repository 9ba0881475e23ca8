//! How serving a stream of commands ends.
ghost use Rattle.std.specs.Prelude.{◌≡◌};
ghost use Rattle.lj_engine.specs.Endings.{served_of, ending_of};

use crate::running::Halt;
use lj_session::Command;
use lj_wire::Item;

/// Why serving has ended.
#[derive(Clone, Copy, PartialEq, Eq, Debug)]
pub enum Served {
    /// The input has ended.
    End,
    /// The last command was BYE.
    Bye,
    /// The last item was a fault that ends the connection.
    Ended,
    /// A read has failed.
    ReadFault,
    /// A write has failed, or took nothing.
    WriteFault,
    /// The pool is closed while a command waited, or while more tasks were owed than may be before the next command.
    PoolClosed,
    /// 4,096 results in a row were of no awaited tile, in the same cases.
    TooManyStrays,
}

impl From<Halt> for Served {
    ghost from_gives = { λ halt served. served ≡ served_of halt };

    fn from(halt: Halt) -> Served {
        match halt {
            Halt::PoolClosed => Served::PoolClosed,
            Halt::TooManyStrays => Served::TooManyStrays,
        }
    }
}

/// Returns how serving ends with an item, if it does.
pub(crate) fn ending_of(item: &Item) -> Option<Served>
    ensures { result ≡ ending_of item.now }
{
    match item {
        Item::Command(Command::Bye) => Some(Served::Bye),
        Item::Last(_) => Some(Served::Ended),
        Item::Command(_) | Item::Bad(_) => None,
    }
}
