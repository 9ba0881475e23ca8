//! The reader of a stream of lines and bodies.
ghost use Rattle.std.specs.Prelude.{◌≡◌, ◌↔◌, true, false, [], Ok, IfOk, IfSome, IfNone, OnErr};
ghost use Rattle.std.specs.Io.KnownBytes.{prepend_known};
ghost use Rattle.lj_wire.specs.declared.reader.phase.Phase.TheVariants.{Open};
ghost use Rattle.lj_wire.specs.Commands.{body_len_announced};
ghost use Rattle.lj_wire.specs.LineReader.{BeginsWithItem};
ghost use Rattle.lj_wire.specs.Verbs.{BeginsWithLetter};

mod buffer;
mod greeting;
mod items;
mod load_body;
mod phase;
mod reader_laws;
mod source_input;

use crate::hello::Hello;
use crate::item::{Fault, Item};
use crate::line::{split_line, words_in};
use crate::line_limits::MAX_ITEMS;
use crate::source_and_sink::{ReadFault, Source};
use crate::verb::is_load;
use greeting::read_hello;
use items::read_item;
pub use phase::Phase;
pub use reader_laws::{handed_are_all, handed_come_first, lost_is_marked};
use source_input::Input;
use std::alloc::Global;
use std::marker::Model;

/// A reader of the items of a stream, whatever pieces its bytes come in. Only the body of a load takes memory: bytes read ahead
/// stand in a buffer of fixed size, and those of a line too long for a command are only counted.
#[derive(Drop)]
pub struct LineReader<S: Source> {
    alloc: Global,
    input: Input<S>,
    items: u64,
    phase: Phase,
}

impl<S: Source> Model for LineReader<S> {
    ghost use Rattle.std.specs.Prelude.{◌≡◌, ◌+◌, ◌≤◌};
    ghost use Rattle.lj_wire.specs.declared.line_limits.TheConstants.{MAX_ITEMS};
    ghost use Rattle.lj_wire.specs.declared.reader.phase.Phase.TheVariants.{Open};
    ghost use Rattle.lj_wire.specs.Input.{bytes_untaken};
    ghost use Rattle.lj_wire.specs.LineReader.{LineReader};

    ghost Value = { LineReader };

    ghost view = { λ reader. record {
      left = bytes_untaken reader.input;
      held = reader.input.held;
      unread = reader.input.unread;
      errors = reader.input.errors;
      items = reader.items;
      phase = reader.phase;
    } };

    ghost invariant = { λ reader. (reader.items ≤ MAX_ITEMS + 1) × (reader.phase ≡ Open → reader.items ≤ MAX_ITEMS) };
}

impl<S: Source> LineReader<S> {
    ghost use Rattle.lj_wire.specs.LineReader.{HandsOutItem, HandsNone, HasFailed};
    ghost use Rattle.lj_wire.specs.Greetings.{Greets, GreetsNone, HasFailedEarly};

    /// Makes a reader of `source` that has read nothing.
    pub fn new(alloc: Global, source: S) -> Self
        ensures left { result.left ≡ S.remaining source }
        ensures held { result.held ≡ [] }
        ensures unread { result.unread ≡ S.remaining source }
        ensures errors { result.errors ≡ S.errors source }
        ensures items { result.items ≡ 0 }
        ensures phase { result.phase ≡ Open }
    {
        LineReader {
            alloc,
            input: Input::new(source),
            items: 0,
            phase: Phase::Open,
        }
    }

    /// Returns the next item; `None` where the input ended before a whole one came, or after an item that ends the connection.
    /// After `None` or a fault nothing more is read.
    pub fn next(&mut self) -> Result<Option<Item>, ReadFault>
        ensures item { IfOk result (λ item. IfSome item (HandsOutItem self.old self.new)) }
        ensures none { IfOk result (λ item. IfNone item (HandsNone self.old self.new)) }
        ensures fault { OnErr result (HasFailed self.old self.new) }
    {
        let mut item = Item::Bad(Fault::Syntax);
        Ok(self.next_into(&mut item)?.then_some(item))
    }

    /// Puts the item that `next` would return into `item`; returns false where there is none. Where a whole line
    /// is held that no body follows, it is the item, and nothing is read.
    pub fn next_into(&mut self, item: &mut Item) -> Result<bool, ReadFault>
        ensures item { IfOk result (λ some. some ≡ true → HandsOutItem self.old self.new item.new) }
        ensures none { IfOk result (λ some. some ≡ false → HandsNone self.old self.new) }
        ensures fault { OnErr result (HasFailed self.old self.new) }
        ensures at_once { self.old.phase ≡ Open → BeginsWithItem self.old.held → result ≡ Ok true }
    {
        match self.phase {
            Phase::Open => {}
            Phase::Over => return Ok(false),
            Phase::Failed => return Err(ReadFault),
        }
        if self.items == MAX_ITEMS {
            self.items += 1;
            self.phase = Phase::Over;
            *item = Item::Last(Fault::Enough);
            return Ok(true);
        }
        let read = read_item(self.alloc, &mut self.input, item);
        match &read {
            Ok(true) => {
                if item.ends() {
                    self.phase = Phase::Over;
                }
                self.items += 1;
                read
            }
            Ok(false) => {
                self.phase = Phase::Over;
                read
            }
            Err(ReadFault) => {
                self.phase = Phase::Failed;
                read
            }
        }
    }

    /// Reads the next line as the first one of a connection; it counts as no item. `None` where the input ended before a whole
    /// line came. After `None` or a fault nothing more is read.
    pub fn hello(&mut self) -> Result<Option<Hello>, ReadFault>
        ensures hello { IfOk result (λ hello. IfSome hello (Greets self.old self.new)) }
        ensures none { IfOk result (λ hello. IfNone hello (GreetsNone self.old self.new)) }
        ensures fault { OnErr result (HasFailedEarly self.old self.new) }
    {
        match self.phase {
            Phase::Open => {
                let hello = read_hello(&mut self.input);
                match &hello {
                    Ok(Some(_)) => {}
                    Ok(None) => self.phase = Phase::Over,
                    Err(ReadFault) => self.phase = Phase::Failed,
                }
                hello
            }
            Phase::Over => Ok(None),
            Phase::Failed => Err(ReadFault),
        }
    }

    /// Returns whether bytes were read that are in no item yet.
    pub fn holds_bytes(&self) -> bool
        ensures { result ≡ false ↔ (self.now.held ≡ []) }
    {
        !self.input.held().is_empty()
    }

    /// Returns whether the next item is among the bytes held: a whole line that no body follows. False for a load.
    pub fn holds_item(&self) -> bool
        ensures { result ≡ true → BeginsWithItem self.now.held }
    {
        begins_with_item(self.input.held())
    }

    /// Returns the source. Bytes read ahead are dropped.
    pub fn into_source(self) -> S
        ensures remaining { S.remaining result ≡ self.unread }
        ensures ahead { self.left ≡ prepend_known self.held self.unread }
        ensures errors { S.errors result ≡ self.errors }
    {
        let LineReader {
            alloc: _,
            input,
            items: _,
            phase: _,
        } = self;
        input.into_source()
    }
}

/// Returns whether bytes begin with a whole line that no body follows. False for a load.
fn begins_with_item(bytes: &[u8]) -> bool
    ensures { result ≡ true → BeginsWithItem bytes.now }
{
    match split_line(bytes) {
        Some((line, _)) => is_bare(line),
        None => false,
    }
}

/// Returns whether no body follows a line. False for a load.
fn is_bare(line: &[u8]) -> bool
    ensures { result ≡ true → body_len_announced line.now ≡ 0 }
{
    if begins_no_load(line) {
        return true;
    }
    match words_in(line).next() {
        Some(word) => !is_load(word),
        None => true,
    }
}

/// Returns true if the first letter of a line rules out a load. Some other lines that begin with no load give false too.
#[inline]
fn begins_no_load(line: &[u8]) -> bool
    ensures { result ≡ true → BeginsWithLetter line.now }
{
    matches!(line.first(), Some(b'A'..=b'K' | b'M'..=b'Z'))
}
