//! A stream of commands served over a pool.
ghost use Rattle.std.specs.Prelude.{◌≡◌, [], false, None, IfSome};
ghost use Rattle.lj_wire.specs.declared.reader.phase.Phase.TheVariants.{Open};
ghost use Rattle.lj_engine.specs.declared.served.Served.TheVariants as served;
ghost use Rattle.lj_engine.specs.Endings.{served_of};
ghost use Rattle.lj_engine.specs.Served.{ReturnsState, HasCause, Serves};
ghost use Rattle.lj_engine.specs.Waiting.{Flushes};

use crate::running::{Halt, answer, leaves_pending, work_ahead};
use crate::served::{Served, ending_of};
use crate::waiting::{flush_before_read, next_item};
use crate::writing::put_reply;
use lj_end::PoolEnd;
use lj_session::{Owner, UserState};
use lj_wire::{Fault, Item, Line, LineReader, ReadFault, Sink, Source, WriteFault};
use std::alloc::Global;

/// Serves a stream of commands from a user's state on, over a pool that owes nothing, and writes the replies to what it reads.
/// Returns the state, with the pending steps of its sessions, unless the pool was given up; how serving ended; and the reader.
/// The pool is asked for no other user.
///
/// Promise: with any pool, the replies to all items that were read are written (only a prefix if a write failed). The state
/// after the answered items is returned. If the pool is given up, the replies so far are written, and no state is returned.
pub fn serve<R: Source, W: Sink, P: PoolEnd>(
    alloc: Global,
    state: UserState,
    user: u8,
    reader: R,
    writer: &mut W,
    pool: &mut P,
) -> (Option<UserState>, Served, R)
    requires none_owed { (P.seen pool.old).owed ≡ [] }
    ensures dialogue { Serves result.1 state (R.remaining reader) (R.remaining result.2)
        (W.contents writer.old) (W.contents writer.new) (P.seen pool.old) (P.seen pool.new) result.0 }
    ensures cause { HasCause result.1 (R.remaining result.2) (R.errors reader) (R.errors result.2)
        (W.faults writer.old) (W.faults writer.new) (P.seen pool.old) (P.seen pool.new) }
    ensures flushed { Flushes result.1 (W.unflushed writer.old) (W.unflushed writer.new) }
    ensures handed_back { IfSome result.0 (ReturnsState state (P.seen pool.new)) }
    ensures counted { P.uncounted pool.old ≡ false → P.uncounted pool.new ≡ false }
    ensures own { P.for_others pool.new user ≡ P.for_others pool.old user }
{
    let mut lines = LineReader::new(alloc, reader);
    let (state, served) = serve_lines(state, user, &mut lines, writer, pool);
    (state, served, lines.into_source())
}

/// Answers the items of a reader that has handed out none, over a pool that owes nothing, from a user's state on. Returns the
/// state, unless the pool was given up. Flushes the writer before it waits for more input, and not after the last reply.
pub fn serve_lines<R: Source, W: Sink, P: PoolEnd>(
    state: UserState,
    user: u8,
    lines: &mut LineReader<R>,
    writer: &mut W,
    pool: &mut P,
) -> (Option<UserState>, Served)
    requires fresh { lines.old.items ≡ 0 }
    requires at_work { lines.old.phase ≡ Open }
    requires none_owed { (P.seen pool.old).owed ≡ [] }
    ensures dialogue { Serves result.1 state lines.old.left lines.new.left
        (W.contents writer.old) (W.contents writer.new) (P.seen pool.old) (P.seen pool.new) result.0 }
    ensures cause { HasCause result.1 lines.new.left lines.old.errors lines.new.errors
        (W.faults writer.old) (W.faults writer.new) (P.seen pool.old) (P.seen pool.new) }
    ensures all_read { result.1 ≡ served.ReadFault → lines.new.held ≡ [] }
    ensures flushed { Flushes result.1 (W.unflushed writer.old) (W.unflushed writer.new) }
    ensures handed_back { IfSome result.0 (ReturnsState state (P.seen pool.new)) }
    ensures counted { P.uncounted pool.old ≡ false → P.uncounted pool.new ≡ false }
    ensures own { P.for_others pool.new user ≡ P.for_others pool.old user }
{
    let mut owner = Owner::new(state, user);
    let mut line = Line::new();
    let mut item = Item::Bad(Fault::Syntax);
    let mut has_pending = true;
    'items: loop {
        has_pending = match work_ahead(&mut owner, pool, has_pending) {
            Ok(has_pending) => has_pending,
            Err(halt) => return given_up(owner, halt),
        };
        match next_item(lines, writer, &mut item) {
            Ok(true) => {}
            Ok(false) => return (Some(owner.into_state()), Served::End),
            Err(ReadFault) => return (Some(owner.into_state()), Served::ReadFault),
        }
        let ending = ending_of(&item);
        has_pending |= leaves_pending(&item);
        let reply = match answer(&mut owner, pool, &mut item) {
            Ok(reply) => reply,
            Err(halt) => return given_up(owner, halt),
        };
        if let Err(WriteFault) = put_reply(writer, &mut line, owner.state(), &reply) {
            return (Some(owner.into_state()), Served::WriteFault);
        }
        if let Some(served) = ending {
            return (Some(owner.into_state()), served);
        }
        if let Err(WriteFault) = flush_before_read(lines, writer) {
            return (Some(owner.into_state()), Served::WriteFault);
        }
    }
}

/// Returns how serving ends where the pool is given up, without the state.
fn given_up(owner: Owner, halt: Halt) -> (Option<UserState>, Served)
    ensures none { result.0 ≡ None }
    ensures served { result.1 ≡ served_of halt }
{
    owner.abandon();
    (None, Served::from(halt))
}
