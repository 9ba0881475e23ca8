//! The first words of commands.
ghost use Rattle.std.specs.Prelude.{◌≡◌};
ghost use Rattle.lj_wire.specs.Verbs.{has_body, is_load, verb_of};

/// The first word of a command.
#[derive(Clone, Copy)]
pub(crate) enum Verb {
    Load,
    LoadMix,
    Advance,
    Start,
    Reverse,
    Branch,
    Restore,
    Forget,
    Tug,
    Measure,
    Show,
    Dump,
    List,
    Unload,
    Bye,
}

impl Verb {
    /// Returns the verb that `word` spells, if any.
    pub fn parse(word: &[u8]) -> Option<Verb>
        ensures { result ≡ verb_of word.now }
    {
        let verb = match word {
            b"LOAD" => Verb::Load,
            b"LOADMIX" => Verb::LoadMix,
            b"ADVANCE" => Verb::Advance,
            b"START" => Verb::Start,
            b"REVERSE" => Verb::Reverse,
            b"BRANCH" => Verb::Branch,
            b"RESTORE" => Verb::Restore,
            b"FORGET" => Verb::Forget,
            b"TUG" => Verb::Tug,
            b"MEASURE" => Verb::Measure,
            b"SHOW" => Verb::Show,
            b"DUMP" => Verb::Dump,
            b"LIST" => Verb::List,
            b"DROP" => Verb::Unload,
            b"BYE" => Verb::Bye,
            _ => return None,
        };
        Some(verb)
    }

    /// Returns whether a body follows the line of the command.
    pub fn has_body(self) -> bool
        ensures { result ≡ has_body self }
    {
        matches!(self, Verb::Load | Verb::LoadMix)
    }
}

/// Returns whether a word is the verb of a load, LOAD or LOADMIX; the last word of such a line counts the bytes of a body.
pub fn is_load(word: &[u8]) -> bool
    ensures { result ≡ is_load word.now }
{
    match Verb::parse(word) {
        Some(verb) => verb.has_body(),
        None => false,
    }
}
