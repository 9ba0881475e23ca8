//! The text of a reply.
ghost use Rattle.std.specs.Prelude.{◌≡◌, IfOk};
ghost use Rattle.lj_session.specs.UserState.{user_of};
ghost use Rattle.lj_session.specs.Owner.{IsSettled};
ghost use Rattle.lj_wire.specs.ReplyTexts.{text};

use crate::transcript::ReplyText;
use lj_session::{Reply, UserState};
use lj_wire::{last_line, reply_line};
use std::alloc::{AllocError, Global};

/// Makes the text of a reply, from the state after its command.
///
/// # Errors
/// Out of memory.
pub(crate) fn text_of(
    alloc: Global,
    state: &UserState,
    reply: &Reply,
) -> Result<ReplyText, AllocError>
    requires { IsSettled state.now reply.now }
    ensures { IfOk result (λ made. made ≡ text (user_of state.now) reply.now) }
{
    let mut bytes = Vec::new(alloc);
    let last = last_line(state, reply);
    let mut k = 0;
    while let Some(line) = reply_line(state, reply, k) {
        bytes.extend_from_slice(line.as_slice())?;
        if k == last {
            break;
        }
        k += 1;
    }
    Ok(ReplyText::new(bytes))
}
