//! Replies, written line by line.
ghost use Rattle.lj_session.specs.UserState.{user_of};
ghost use Rattle.lj_session.specs.Owner.{IsSettled};
ghost use Rattle.lj_wire.specs.ReplyTexts.{text};
ghost use Rattle.lj_engine.specs.Writing.{PutsText};

use lj_session::{Reply, UserState};
use lj_wire::{Line, Sink, WriteFault, last_line, listed_session, put_all, put_line_at};

/// Writes the lines of a reply, with the state after its command. Each line is built in `line`, and the session of the reply is
/// looked up once. After a fault the first bytes of them may have been written.
pub(crate) fn put_reply<W: Sink>(
    writer: &mut W,
    line: &mut Line,
    state: &UserState,
    reply: &Reply,
) -> Result<(), WriteFault>
    requires settled { IsSettled state.now reply.now }
    ensures { PutsText result (text (user_of state.now) reply.now)
        (W.contents writer.old) (W.contents writer.new) (W.faults writer.old) (W.faults writer.new) }
{
    let last = last_line(state, reply);
    let session = listed_session(state, reply);
    let mut k = 0;
    while let Some(()) = put_line_at(line, state, reply, session, k) {
        put_all(writer, line.as_slice())?;
        if k == last {
            break;
        }
        k += 1;
    }
    Ok(())
}
