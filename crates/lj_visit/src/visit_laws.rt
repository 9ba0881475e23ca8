//! Laws of visits: the contracts of functions with empty bodies.
ghost use Rattle.lj_visit.specs.VisitLaws.{AttendedIsAnswered, VisitsAreOneFold, ReachedIsAnsweredBehind, VisitsAreOnePrefix};

use lj_wire::commands_are_items;

/// Promise: after OK HELLO a user gets the replies to all items read. These replies are computed from the lent state. If a write
/// fails, the user gets a prefix of these replies, which ends within the reply to the last answered item.
pub fn attended_is_answered()
    ensures { AttendedIsAnswered }
{}

/// Promise: a user's successive visits have the same effect as one visit with all answered items.
pub fn visits_are_one_fold()
    ensures { VisitsAreOneFold }
{}

/// Promise: serving starts from a state that some list of items leads to. The answered items get the replies that they would
/// get after this list, with the same quota and no other users. If a write fails, the last reply is cut short.
pub fn reached_is_answered_behind()
    ensures { ReachedIsAnsweredBehind }
{
    commands_are_items();
}

/// Promise: together, a user's visits write a prefix of the replies that the user's items would get without other users.
/// This holds if, before the last visit, no write fails and the pool is not given up.
pub fn visits_are_one_prefix()
    ensures { VisitsAreOnePrefix }
{}
