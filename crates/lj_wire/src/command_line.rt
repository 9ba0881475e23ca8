//! Parsing commands from their words.
ghost use Rattle.std.specs.Prelude.{◌≡◌, [], ◌∷◌, option_map};
ghost use Rattle.lj_session.specs.declared.body.LoadBody.TheVariants.{Unread};
ghost use Rattle.lj_session.specs.declared.command.Command.TheVariants as command;
ghost use Rattle.lj_wire.specs.declared.item.Item.TheVariants as items;
ghost use Rattle.lj_wire.specs.Commands.{count_of, mode_of, name_and_number, one_name, two_names};
ghost use Rattle.lj_wire.specs.Commands.{bare_command, list_command, load_command, tug_command, verb_command};
ghost use Rattle.lj_wire.specs.Commands.{number_command};
ghost use Rattle.lj_wire.specs.Commands.{class_of_words, load_from, load_mix_of, load_of, mode_and_count, pair_of_words};

use crate::displacement::parse_displacement;
use crate::item::Item;
use crate::line_limits::MAX_BODY_BYTES;
use crate::verb::Verb;
use lj_base::{Name, Words};
use lj_fixed::{parse_nano, parse_number};
use lj_session::{ClassNumbers, Command, Interactions, Load, LoadBody, Mode};
use lj_xyz::{Symbol, SymbolPair};

/// Maximum number of digits in the byte count of a LOAD or LOADMIX.
const MAX_COUNT_DIGITS: usize = 7;

// Parses the count of a load: 1 to 7 digits, at most 1,048,576.
#[tactic(auto, unfolding(crate::specs::Commands::count_of))]
pub(crate) fn parse_count(word: &[u8]) -> Option<usize>
    ensures { result ≡ count_of word.now }
{
    let count = parse_number(word)?;
    if word.len() > MAX_COUNT_DIGITS || count > MAX_BODY_BYTES {
        return None;
    }
    Some(count as usize)
}

// Parses a command from its verb and the words after it. The body of a load is not read yet.
pub(crate) fn parse_words(verb: Verb, words: Words) -> Option<Command>
    ensures { result ≡ verb_command verb Unread words.entry }
{
    match verb {
        Verb::Load => parse_load(words),
        Verb::LoadMix => parse_load_mix(words),
        Verb::Advance => name_and_number(words).map(|(name, steps)| Command::Advance {
            name,
            steps,
        }),
        Verb::Start => name_and_number(words).map(|(name, steps)| Command::Start { name, steps }),
        Verb::Reverse => one_name(words).map(|name| Command::Reverse { name }),
        Verb::Branch => two_names(words).map(|(name, branch)| Command::Branch { name, branch }),
        Verb::Restore => two_names(words).map(|(name, branch)| Command::Restore { name, branch }),
        Verb::Forget => two_names(words).map(|(name, branch)| Command::Forget { name, branch }),
        Verb::Tug => parse_tug(words),
        Verb::Measure => one_name(words).map(|name| Command::Measure { name }),
        Verb::Show => name_and_number(words).map(|(name, atom)| Command::Show { name, atom }),
        Verb::Dump => one_name(words).map(|name| Command::Dump { name }),
        Verb::List => parse_list(words),
        Verb::Unload => one_name(words).map(|name| Command::Unload { name }),
        Verb::Bye => parse_bye(words),
    }
}

// Parses the words after SHOW into `item`; returns None where they are wrong. SHOW is the most frequent command, so it is built
// in place and never moved.
pub(crate) fn put_show(words: Words, item: &mut Item) -> Option<()>
    ensures { option_map (λ _. item.new) result
        ≡ option_map items.Command (number_command command.Show words.entry) }
{
    let (name, atom) = name_and_number(words)?;
    *item = Item::Command(Command::Show { name, atom });
    Some(())
}

fn one_name(mut words: Words) -> Option<Name>
    ensures { result ≡ one_name words.entry }
{
    let name = words.next()?;
    words.end()?;
    Name::parse(name)
}

fn two_names(mut words: Words) -> Option<(Name, Name)>
    ensures { result ≡ two_names words.entry }
{
    let name = words.next()?;
    let branch = words.next()?;
    words.end()?;
    Some((Name::parse(name)?, Name::parse(branch)?))
}

fn name_and_number(mut words: Words) -> Option<(Name, u64)>
    ensures { result ≡ name_and_number words.entry }
{
    let name = words.next()?;
    let number = words.next()?;
    words.end()?;
    Some((Name::parse(name)?, parse_number(number)?))
}

// Parses the words after LOAD: a name, three words of any form, the mode and the count.
fn parse_load(mut words: Words) -> Option<Command>
    ensures { result ≡ load_command Unread (load_of words.entry) }
{
    let name = words.next()?;
    let edge = words.next()?;
    let sigma = words.next()?;
    let step_factor = words.next()?;
    let mode = parse_end(words)?;
    let interactions = Interactions::Pure {
        sigma: parse_nano(sigma).ok(),
        step_factor: parse_number(step_factor),
    };
    parse_load_from(name, edge, interactions, mode)
}

// Parses the words after LOADMIX: a name, the edge, two symbols, three classes, the mode and the count.
fn parse_load_mix(mut words: Words) -> Option<Command>
    ensures { result ≡ load_command Unread (load_mix_of words.entry) }
{
    let name = words.next()?;
    let edge = words.next()?;
    let first = words.next()?;
    let second = words.next()?;
    let symbols = parse_symbols(first, second)?;
    let interactions = Interactions::Mixed {
        symbols,
        first: next_class(&mut words)?,
        unlike: next_class(&mut words)?,
        second: next_class(&mut words)?,
    };
    let mode = parse_end(words)?;
    parse_load_from(name, edge, interactions, mode)
}

// Takes the last two words of a load, its mode and its count, and returns the mode.
fn parse_end<'a>(mut words: Words<'a>) -> Option<&'a [u8]>
    ensures { option_map (λ mode. mode.now) result ≡ mode_and_count words.entry }
{
    let mode = words.next()?;
    let _count = words.next()?;
    words.end()?;
    Some(mode)
}

fn parse_load_from(
    name: &[u8],
    edge: &[u8],
    interactions: Interactions,
    mode: &[u8],
) -> Option<Command>
    ensures { result ≡ load_command Unread (load_from name.now edge.now interactions mode.now) }
{
    Some(Command::Load(Load {
        name: Name::parse(name)?,
        edge: parse_nano(edge).ok(),
        interactions,
        mode: parse_mode(mode)?,
        body: LoadBody::Unread,
    }))
}

fn parse_symbols(first: &[u8], second: &[u8]) -> Option<SymbolPair>
    ensures { result ≡ pair_of_words first.now second.now }
{
    SymbolPair::new(Symbol::new(first)?, Symbol::new(second)?)
}

// Takes the next three words as a class; they may be any words.
fn next_class(words: &mut Words) -> Option<ClassNumbers>
    ensures { option_map (λ class. (class, words.new)) result ≡ class_of_words words.old }
{
    let sigma = words.next()?;
    let step_factor = words.next()?;
    let weight = words.next()?;
    Some(ClassNumbers {
        sigma: parse_nano(sigma).ok(),
        step_factor: parse_number(step_factor),
        weight: parse_number(weight),
    })
}

fn parse_mode(word: &[u8]) -> Option<Mode>
    ensures { result ≡ mode_of word.now }
{
    match word {
        b"rest" => Some(Mode::Rest),
        b"pair" => Some(Mode::Pair),
        _ => None,
    }
}

// Parses the words after TUG: a name, an atom, and a displacement along each axis.
fn parse_tug(mut words: Words) -> Option<Command>
    ensures { result ≡ tug_command words.entry }
{
    let name = words.next()?;
    let atom = words.next()?;
    let x = words.next()?;
    let y = words.next()?;
    let z = words.next()?;
    words.end()?;
    tug_of(name, atom, x, y, z)
}

fn tug_of(name: &[u8], atom: &[u8], x: &[u8], y: &[u8], z: &[u8]) -> Option<Command>
    ensures { result ≡ tug_command (name.now ∷ atom.now ∷ x.now ∷ y.now ∷ z.now ∷ []) }
{
    Some(Command::Tug {
        name: Name::parse(name)?,
        atom: parse_number(atom)?,
        x: parse_displacement(x)?,
        y: parse_displacement(y)?,
        z: parse_displacement(z)?,
    })
}

fn parse_list(mut words: Words) -> Option<Command>
    ensures { result ≡ list_command words.entry }
{
    let Some(name) = words.next() else {
        return Some(Command::List);
    };
    words.end()?;
    Some(Command::ListBranches {
        name: Name::parse(name)?,
    })
}

fn parse_bye(words: Words) -> Option<Command>
    ensures { result ≡ bare_command command.Bye words.entry }
{
    words.end()?;
    Some(Command::Bye)
}
