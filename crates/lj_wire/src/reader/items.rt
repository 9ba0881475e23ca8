//! Items read whole.
ghost use Rattle.std.specs.Prelude.{◌≡◌, Some, None, Ok, true, if◌then◌else◌, IfOk, OnErr};
ghost use Rattle.lj_wire.specs.LineReader.{BeginsWithItem};
ghost use Rattle.lj_wire.specs.Input.{CountsFault, ReadsFor};
ghost use Rattle.lj_wire.specs.ItemSteps.{may_take_body, FinishesItem, ReadsItem, TakesFewer, TakesNoItem};

use super::load_body::{pass, read_body};
use super::source_input::{Front, Input, SkippedLine};
use crate::item::{Fault, Item};
use crate::reading::read_line_into;
use crate::source_and_sink::{ReadFault, Source};
use lj_session::Command;
use std::alloc::Global;

/// Reads an item into `item`; returns false where the input ends before a whole one came.
pub(crate) fn read_item<S: Source>(
    alloc: Global,
    input: &mut Input<S>,
    item: &mut Item,
) -> Result<bool, ReadFault>
    ensures item { IfOk result (λ whole. ReadsItem input.old (if whole then Some item.new else None) input.new) }
    ensures part { OnErr result (TakesNoItem input.old input.new) }
    ensures errors { CountsFault result input.old input.new }
    ensures at_once { BeginsWithItem input.old.held → result ≡ Ok true }
{
    match input.find_line()? {
        Front::Line(count) => {
            let (line, _) = input.held().split_at(count);
            let body = read_line_into(line, item);
            input.take(count + 1);
            finish(alloc, input, item, body)
        }
        Front::Long => match input.skip_line()? {
            SkippedLine::Line => {
                *item = Item::Bad(Fault::Line);
                Ok(true)
            }
            SkippedLine::Long => {
                *item = Item::Last(Fault::Long);
                Ok(true)
            }
            SkippedLine::End => Ok(false),
        },
        Front::End => Ok(false),
    }
}

// Reads the body of `count` bytes after a line, and puts it into the item if that is a load. Returns false where the input ends
// before.
fn finish<S: Source>(
    alloc: Global,
    input: &mut Input<S>,
    item: &mut Item,
    count: usize,
) -> Result<bool, ReadFault>
    ensures item { IfOk result (λ whole.
        FinishesItem input.old item.old count (if whole then Some item.new else None) input.new) }
    ensures part { OnErr result (TakesFewer input.old input.new count) }
    ensures errors { CountsFault result input.old input.new }
    ensures reads_for { ReadsFor input.old input.new count }
{
    if !takes_body(item) {
        return pass(input, count);
    }
    match read_body(alloc, input, count)? {
        Some(body) => {
            item.put_body(body);
            Ok(true)
        }
        None => Ok(false),
    }
}

fn takes_body(item: &Item) -> bool
    ensures { result ≡ may_take_body item.now }
{
    matches!(item, Item::Command(Command::Load(_)))
}
