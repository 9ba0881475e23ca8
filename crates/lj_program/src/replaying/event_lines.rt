//! Events, parsed from the lines of a schedule.
ghost use Rattle.std.specs.Prelude.{◌≡◌, ◌≤◌, IfSome};
ghost use Rattle.lj_fixed.specs.Numbers.{number_of};
ghost use Rattle.lj_session.specs.declared.body.LoadBody.TheVariants.{Lost};
ghost use Rattle.lj_wire.specs.Commands.{item_with};

use lj_base::{Name, Token, Words, split_word};
use lj_fixed::parse_number;
use lj_session::LoadBody;
use lj_wire::{Fault, Item, is_load, parse_command};
use lj_world::{ConnectionEvent, Event, MAX_CONNECTIONS, MAX_WORKERS, WorkerEvent};

/// Parses an event, except the arrival of an item, from its verb and the words after it.
pub fn parse_event(verb: &[u8], words: Words) -> Option<Event> {
    match verb {
        b"hello" => parse_hello(words),
        b"take" | b"compute" | b"give" | b"handback" => parse_worker_event(verb, words),
        _ => parse_connection_event(verb, words),
    }
}

/// Parses the HELLO of a new connection: its number, a name and a token.
fn parse_hello(mut words: Words) -> Option<Event> {
    let connection = parse_numbered(words.next()?, MAX_CONNECTIONS)?;
    let name = Name::parse(words.next()?)?;
    let token = Token::parse(words.next()?)?;
    words.end()?;
    Some(Event::Hello {
        connection,
        name,
        token,
    })
}

/// Parses an event at a connection.
fn parse_connection_event(verb: &[u8], mut words: Words) -> Option<Event> {
    let connection = parse_numbered(words.next()?, MAX_CONNECTIONS)?;
    let event = match verb {
        b"end" => ConnectionEvent::End,
        b"enter" => ConnectionEvent::Enter,
        b"next" => ConnectionEvent::Next,
        b"post" => ConnectionEvent::Post,
        b"fetch" => ConnectionEvent::Fetch {
            pick: parse_pick(words.next()?)?,
        },
        b"turn" => ConnectionEvent::Turn {
            session: parse_session(&mut words)?,
        },
        b"leave" => ConnectionEvent::Leave,
        _ => return None,
    };
    words.end()?;
    Some(Event::At { connection, event })
}

/// Takes the next word as a session; `Some(None)` if no word is left, None if the word is no name.
fn parse_session(words: &mut Words) -> Option<Option<Name>> {
    match words.next() {
        Some(word) => Some(Some(Name::parse(word)?)),
        None => Some(None),
    }
}

/// Parses an event at a worker.
fn parse_worker_event(verb: &[u8], mut words: Words) -> Option<Event> {
    let worker = parse_numbered(words.next()?, MAX_WORKERS)?;
    let event = match verb {
        b"take" => WorkerEvent::Take {
            pick: parse_pick(words.next()?)?,
        },
        b"compute" => WorkerEvent::Compute,
        b"give" => WorkerEvent::Give,
        b"handback" => WorkerEvent::HandBack,
        _ => return None,
    };
    words.end()?;
    Some(Event::By { worker, event })
}

/// Parses the arrival of an item: the connection, and the line of the item after one blank.
pub fn parse_arrival(words: &[u8]) -> Option<(u8, &[u8])> {
    let (connection, rest) = split_word(words)?;
    let (_blank, line) = rest.split_first()?;
    Some((parse_numbered(connection, MAX_CONNECTIONS)?, line))
}

/// Parses the arrival of a load whose body was lost for want of memory. None if another line follows the connection.
pub fn parse_loss(words: &[u8]) -> Option<Event> {
    let (connection, line) = parse_arrival(words)?;
    let event = ConnectionEvent::Arrive(lost_load(line)?);
    Some(Event::At { connection, event })
}

/// Returns the item of the line of a load with a count, its body lost for want of memory. None for another line.
fn lost_load(line: &[u8]) -> Option<Item>
    ensures lost { IfSome result (λ item. item ≡ item_with line.now Lost) }
{
    let (word, _) = split_word(line)?;
    let item = parse_command(line);
    if !is_load(word) || matches!(&item, Item::Bad(Fault::Line) | Item::Last(_)) {
        return None;
    }
    Some(item.with_body(LoadBody::Lost))
}

/// Returns the number in a word, as a pick.
fn parse_pick(word: &[u8]) -> Option<usize>
    ensures { result ≡ number_of word.now }
{
    Some(parse_number(word)? as usize)
}

/// Returns the number in a word, if it is from 1 to `most`.
fn parse_numbered(word: &[u8], most: u8) -> Option<u8>
    ensures least { IfSome result (λ number. 1 ≤ number) }
    ensures most { IfSome result (λ number. number ≤ most) }
{
    let number = parse_number(word)?;
    if number < 1 || number > u64::from(most) {
        return None;
    }
    Some(number as u8)
}
