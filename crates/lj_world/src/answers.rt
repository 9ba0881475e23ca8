//! Begins items and turns steps of an owner, and makes a text of each reply.
ghost use Rattle.std.specs.Prelude.{◌≡◌, None, true, IfOk, IfSome, IfNone, List, ℕ};
ghost use Rattle.lj_session.specs.UserState.{is_whole_in};
ghost use Rattle.lj_world.specs.OwnerReplies.{Begins, CanTurn, TurnsTo};

use crate::texts::text_of;
use crate::transcript::ReplyText;
use lj_base::Name;
use lj_session::{Begin, Owner, Reply};
use lj_wire::Item;
use std::alloc::{AllocError, Global};

/// Begins an item. Returns the text of the reply, or None if the item is a command that waits.
///
/// # Errors
/// Out of memory. The item has been begun then, and the text of its reply is lost.
pub(crate) fn begin(
    alloc: Global,
    owner: &mut Owner,
    item: Item,
) -> Result<Option<ReplyText>, AllocError>
    requires { owner.old.waiting ≡ None }
    ensures { IfOk result (λ text. Begins owner.old item text owner.new) }
{
    let reply = match item {
        Item::Command(command) => match owner.begin(command) {
            Begin::Answered(reply) => reply,
            Begin::Running => return Ok(None),
        },
        Item::Bad(fault) => Reply::Refused(fault.into()),
        Item::Last(fault) => Reply::Refused(fault.into()),
    };
    Ok(Some(text_of(alloc, owner.state(), &reply)?))
}

/// Finds the session to turn: the named one or, if none is named, the first that is ready. Returns None if its step
/// cannot be turned.
pub(crate) fn session_to_turn(owner: &Owner, session: Option<Name>) -> Option<Name>
    ensures some { IfSome result (CanTurn session owner.now) }
    ensures none { IfNone result ((name : List ℕ) → ¬ CanTurn session owner.now name) }
{
    let Some(name) = session else {
        return owner.ready_session();
    };
    if !owner.is_whole(&name) {
        return None;
    }
    Some(name)
}

/// Turns the step of a session whose results are all in. Returns the text of the reply if this was the last turn of the
/// pending command, else None.
///
/// # Errors
/// Out of memory. The step has been turned then, and the text of the reply is lost.
pub(crate) fn turn(
    alloc: Global,
    owner: &mut Owner,
    name: &Name,
) -> Result<Option<ReplyText>, AllocError>
    requires { is_whole_in owner.old.state name.now ≡ true }
    ensures { IfOk result (λ text. TurnsTo owner.old name.now text owner.new) }
{
    match owner.turn_session(name) {
        Some(reply) => Ok(Some(text_of(alloc, owner.state(), &reply)?)),
        None => Ok(None),
    }
}
