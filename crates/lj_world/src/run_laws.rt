//! The laws of runs. Each is the contract of a function that computes nothing.
ghost use Rattle.lj_world.specs.RunLaws.{PendingCommandLaws, RepliesAreFirstTexts, AgreeingScriptsAgreeInTexts, Headline};
ghost use Rattle.lj_world.specs.RunLaws.{ValueIsThatOfScript, TicketsAreInOrder, OthersChangeNothing, EachListHasARun};
ghost use Rattle.lj_world.specs.RunLaws.{RefusalsLeaveSessions};

use lj_session::{accept_keeps_user, begun_waits_alike, posted_keeps_user, restart_keeps_user};
use lj_wire::{alike_is_told, mark_is_told, waiting_goes_on};

/// Gathers the laws of pending commands: each is answered at its last turn as it would be answered now, and nothing that
/// is done until then changes the value of the user.
fn pending_command_laws()
    ensures { PendingCommandLaws }
{
    restart_keeps_user();
    posted_keeps_user();
    accept_keeps_user();
    begun_waits_alike();
    alike_is_told();
    waiting_goes_on();
}

/// Promise: in every run a user gets one reply for each mark of the user's script. These are the first replies that the script gets
/// if there are no other users.
pub fn replies_are_first_texts()
    ensures { RepliesAreFirstTexts }
{
    mark_is_told();
    pending_command_laws();
}

/// Promise: if two scripts agree, the replies to one script are a prefix of the replies to the other. Each mark gets one reply.
pub fn agreeing_scripts_agree_in_texts()
    ensures { AgreeingScriptsAgreeInTexts }
{}

/// Promise: if a user's scripts in two lists of events agree, one of the user's two lists of replies is a prefix of the other.
/// Both lists are prefixes of the replies that this user's commands get if there are no other users.
pub fn headline()
    ensures { Headline }
{
    replies_are_first_texts();
    agreeing_scripts_agree_in_texts();
}

/// Promise: at each point of a run, the user's script so far gives the state that the user has after all pending steps. A
/// pending command is the next item of the script.
pub fn value_is_that_of_script()
    ensures { ValueIsThatOfScript }
{
    mark_is_told();
    pending_command_laws();
}

/// Promise: in every run a user's n-th granted HELLO, counted from 0, gets the user's ticket n.
pub fn tickets_are_in_order()
    ensures { TicketsAreInOrder }
{
    pending_command_laws();
}

/// Promise: events of other users change nothing for a user, and send the user no reply.
pub fn others_change_nothing()
    ensures { OthersChangeNothing }
{}

/// Promise: a refusal at NEXT changes no session, no pending step and no open step. A refusal at TURN completes the step of its
/// session, and changes nothing else.
pub fn refusals_leave_sessions()
    ensures { RefusalsLeaveSessions }
{}

/// Promise: every list of events can be run from every state of the machine.
pub fn each_list_has_a_run()
    ensures { EachListHasARun }
{}
