//! Laws of owners and of answers: functions that do nothing, whose contracts are the laws.
ghost use Rattle.lj_session.specs.OwnerLaws.{RestartKeepsUser, PostedKeepsUser, AcceptKeepsUser, BegunWaitsAlike};
ghost use Rattle.lj_session.specs.OwnerLaws.{ListedIsThere};

/// Shows that restarting each open step does not change the user.
pub fn restart_keeps_user()
    ensures { RestartKeepsUser }
{}

/// Shows that noting a task as posted does not change the user.
pub fn posted_keeps_user()
    ensures { PostedKeepsUser }
{}

/// Shows that accepting the result of a tile does not change the user.
pub fn accept_keeps_user()
    ensures { AcceptKeepsUser }
{}

/// Promise: waiting does not change the reply to a command. When a command begins and waits, no session changes, except that the
/// steps of an ADVANCE become pending.
pub fn begun_waits_alike()
    ensures { BegunWaitsAlike }
{}

/// Shows that a reply lists the atoms or the saved simulations of a session only if the user has it after the command.
pub fn listed_is_there()
    ensures { ListedIsThere }
{}
