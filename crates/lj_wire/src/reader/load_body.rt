//! Reading bodies, and taking or skipping a number of bytes.
ghost use Rattle.std.specs.Prelude.{◌≡◌, ◌<◌, length, take, drop, min, IfOk, OnErr};
ghost use Rattle.lj_wire.specs.Input.{CountsFault, ReadsFor};
ghost use Rattle.lj_wire.specs.ItemSteps.{Fills, TakesFewer, PassesCount, ReadsBody};

use super::source_input::Input;
use crate::source_and_sink::{ReadFault, Source};
use lj_session::{Body, LoadBody};
use std::alloc::Global;

/// Reads a body of `count` bytes; where memory is refused, skips it and returns it as lost. `None` where the input ends before.
pub(crate) fn read_body<S: Source>(
    alloc: Global,
    input: &mut Input<S>,
    count: usize,
) -> Result<Option<LoadBody>, ReadFault>
    ensures body { IfOk result (λ body. ReadsBody input.old body count input.new) }
    ensures part { OnErr result (TakesFewer input.old input.new count) }
    ensures errors { CountsFault result input.old input.new }
    ensures reads_for { ReadsFor input.old input.new count }
{
    let mut bytes = Vec::new(alloc);
    if bytes.resize(count, 0).is_err() {
        return Ok(pass(input, count)?.then_some(LoadBody::Lost));
    }
    if !fill(input, bytes.as_mut_slice())? {
        return Ok(None);
    }
    Ok(Some(LoadBody::Read(Body::new(bytes))))
}

/// Fills `buf`. Returns false where the input ends before.
pub(crate) fn fill<S: Source>(input: &mut Input<S>, buf: &mut [u8]) -> Result<bool, ReadFault>
    ensures filled { IfOk result (λ filled. Fills input.old filled buf.new input.new) }
    ensures part { OnErr result (TakesFewer input.old input.new (length buf.new)) }
    ensures errors { CountsFault result input.old input.new }
    ensures reads_for { ReadsFor input.old input.new (length buf.new) }
{
    let mut at = copy_held(input, buf);
    while at < buf.len() {
        let count = input.read_into(&mut buf[at..])?;
        if count == 0 {
            return Ok(false);
        }
        at += count;
    }
    Ok(true)
}

// Copies held bytes into `buf` and takes them, and returns how many.
fn copy_held<S: Source>(input: &mut Input<S>, buf: &mut [u8]) -> usize
    ensures count { result ≡ min (length input.old.held) (length buf.new) }
    ensures copied { take result buf.new ≡ take result input.old.held }
    ensures taken { input.new ≡ record input.old { held = drop result input.old.held } }
{
    let count = input.held().len().min(buf.len());
    let (front, _) = input.held().split_at(count);
    buf[..count].copy_from_slice(front);
    input.take(count);
    count
}

/// Takes `count` bytes. Returns false where the input ends before.
pub(crate) fn pass<S: Source>(input: &mut Input<S>, count: usize) -> Result<bool, ReadFault>
    ensures passed { IfOk result (λ passed. PassesCount input.old passed count input.new) }
    ensures part { OnErr result (TakesFewer input.old input.new count) }
    ensures errors { CountsFault result input.old input.new }
    ensures reads_for { ReadsFor input.old input.new count }
{
    let mut left = count - take_held(input, count);
    while left > 0 {
        if input.read_more()? == 0 {
            return Ok(false);
        }
        left -= take_held(input, left);
    }
    Ok(true)
}

// Takes at most `most` of the held bytes, and returns how many.
fn take_held<S: Source>(input: &mut Input<S>, most: usize) -> usize
    ensures count { result ≡ min (length input.old.held) most }
    ensures taken { input.new ≡ record input.old { held = drop result input.old.held } }
{
    let count = input.held().len().min(most);
    input.take(count);
    count
}
