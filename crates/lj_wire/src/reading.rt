//! Parsing a line: its item, and how many bytes of body follow it.
ghost use Rattle.std.specs.Prelude.{◌≡◌, Some, unwrap_or};
ghost use Rattle.lj_session.specs.declared.body.LoadBody.TheVariants.{Unread};
ghost use Rattle.lj_wire.specs.Commands.{body_len_announced, item_with, load_count, verb_command};
ghost use Rattle.lj_wire.specs.declared.item.Item.TheVariants.{Bad};
ghost use Rattle.lj_wire.specs.Commands.{counted_item, item_or_syntax, over_item, verb_body_len, verb_item};

use crate::command_line::{parse_count, parse_words, put_show};
use crate::item::{Fault, Item};
use crate::line::{is_over, words_in};
use crate::line_limits::LONG_LINE_BYTES;
use crate::verb::Verb;
use lj_base::Words;

/// A parsed line.
#[derive(Debug, Drop)]
pub struct LineReading {
    /// The item of the line. The body of a load is not read yet.
    pub item: Item,
    /// The number of bytes of body after the line: the count of a load, at most 1,048,576, else 0.
    pub body: usize,
}

/// Parses a line, given without its line feed.
pub fn read_line(line: &[u8]) -> LineReading
    ensures item { result.item ≡ item_with line.now Unread }
    ensures body { result.body ≡ body_len_announced line.now }
{
    let mut item = Item::Bad(Fault::Syntax);
    let body = read_line_into(line, &mut item);
    LineReading { item, body }
}

/// Puts the item that `read_line` would return into `item`, and returns the number of bytes of body after the line.
pub(crate) fn read_line_into(line: &[u8], item: &mut Item) -> usize
    ensures item { item.new ≡ item_with line.now Unread }
    ensures body { result ≡ body_len_announced line.now }
{
    if is_over(line) {
        put_over(line, item);
        return 0;
    }
    let mut words = words_in(line);
    let Some(word) = words.next() else {
        put_bad(Fault::Syntax, item);
        return 0;
    };
    match Verb::parse(word) {
        Some(verb) => read_command(verb, words, item),
        None => {
            put_bad(Fault::Command, item);
            0
        }
    }
}

/// Parses a line, given without its line feed. The body of a load is not read yet.
///
/// Promise: the result is the line's item: the command that the line's words form, or the line's fault.
pub fn parse_command(line: &[u8]) -> Item
    ensures { result ≡ item_with line.now Unread }
{
    read_line(line).item
}

// Puts a fault after which the connection goes on.
#[cold]
#[inline(never)]
fn put_bad(fault: Fault, item: &mut Item)
    ensures { item.new ≡ Bad fault }
{
    *item = Item::Bad(fault);
}

// Puts the item of a line that is too long for a command.
#[cold]
#[inline(never)]
fn put_over(line: &[u8], item: &mut Item)
    ensures { item.new ≡ over_item line.now }
{
    *item = if line.len() < LONG_LINE_BYTES {
        Item::Bad(Fault::Line)
    } else {
        Item::Last(Fault::Long)
    };
}

// Puts the item of a line, by its verb and the words after it, and returns the number of bytes of body after the line.
fn read_command(verb: Verb, words: Words, item: &mut Item) -> usize
    ensures item { item.new ≡ verb_item (Some verb) words.entry Unread }
    ensures body { result ≡ verb_body_len (Some verb) words.entry }
{
    if verb.has_body() {
        return read_load(verb, words, item);
    }
    put_command(verb, words, item);
    0
}

// Puts the command in the words, or a syntax fault.
fn put_command(verb: Verb, words: Words, item: &mut Item)
    ensures { item.new ≡ item_or_syntax (verb_command verb Unread words.entry) }
{
    match verb {
        Verb::Show => {
            if put_show(words, item).is_none() {
                put_bad(Fault::Syntax, item);
            }
        }
        _ => put_words(verb, words, item),
    }
}

// Puts the item of the line of a load, and returns its count, or 0 where it has none.
fn read_load(verb: Verb, words: Words, item: &mut Item) -> usize
    ensures item { item.new
        ≡ counted_item (load_count words.entry) (verb_command verb Unread words.entry) }
    ensures body { result ≡ unwrap_or (load_count words.entry) 0 }
{
    match last_count(words.copy()) {
        Some(body) => {
            put_words(verb, words, item);
            body
        }
        None => {
            *item = Item::Last(Fault::Body);
            0
        }
    }
}

// Does the same as `put_command`, for any verb. It is not inlined, so that `put_command` stays short for SHOW.
#[inline(never)]
fn put_words(verb: Verb, words: Words, item: &mut Item)
    ensures { item.new ≡ item_or_syntax (verb_command verb Unread words.entry) }
{
    *item = match parse_words(verb, words) {
        Some(command) => Item::Command(command),
        None => Item::Bad(Fault::Syntax),
    };
}

// Parses the count in the line of a load: the last word after the verb.
fn last_count(words: Words) -> Option<usize>
    ensures { result ≡ load_count words.entry }
{
    parse_count(words.last()?)
}
