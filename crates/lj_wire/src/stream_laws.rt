//! Laws of streams and of answers: the contracts of functions with empty bodies.
ghost use Rattle.lj_session.specs.UserState.{user_of};
ghost use Rattle.lj_wire.specs.StreamLaws.{OneSplitting, SomeSplitting, MarkIsTold, AlikeIsTold, WaitingGoesOn};
ghost use Rattle.lj_wire.specs.StreamLaws.{BodyMissingIsMarked, BodyIsBounded, LinesAreTheText, CommandsAreItems};
ghost use Rattle.lj_wire.specs.StreamLaws.{IsReachedAlone};

use lj_session::UserState;

/// Promise: the split of a stream into items and a rest is unique.
pub fn one_splitting()
    ensures { OneSplitting }
{}

/// Promise: each stream can be split into items and a rest.
pub fn some_splitting()
    ensures { SomeSplitting }
{}

/// Promise: the text of an answer shows whether memory ran out.
pub fn mark_is_told()
    ensures { MarkIsTold }
{}

/// Two commands that are answered alike get the same text.
pub fn alike_is_told()
    ensures { AlikeIsTold }
{}

/// An item that waits for steps does not end the connection, and neither does what remains of it.
pub fn waiting_goes_on()
    ensures { WaitingGoesOn }
{}

/// A line whose body found no memory gets the reply of a line that is refused memory.
pub fn body_missing_is_marked()
    ensures { BodyMissingIsMarked }
{}

/// No line is followed by more than 1,048,576 bytes of body.
pub fn body_is_bounded()
    ensures { BodyIsBounded }
{}

/// Promise: the text of a reply is its lines, one after another.
pub fn lines_are_the_text()
    ensures { LinesAreTheText }
{}

/// Answering commands as items leaves the user that the commands leave.
pub fn commands_are_items()
    ensures { CommandsAreItems }
{}

/// Promise: this state, after all its pending steps, is reached from a user without sessions by some list of items with marks.
pub fn state_is_reached_alone(state: &UserState)
    ensures { IsReachedAlone (user_of state.now) }
{
    commands_are_items();
    state.len();
}
