//! ADVANCE, START and MEASURE: the pending steps of a session, which commands wait, and answers without a step.
ghost use Rattle.std.specs.Prelude.{◌≡◌, ◌<◌, Bool, false, true, Ok, IsSome, OnErr, position};
ghost use Rattle.std.specs.Option.{ForSome, option_copied};
ghost use Rattle.std.specs.Str.{bytes_eq};
ghost use Rattle.lj_task.specs.declared.task_name.Kind.TheVariants.{Energy};
ghost use Rattle.lj_session.specs.declared.command.Command.TheVariants as commands;
ghost use Rattle.lj_session.specs.Answers.{answer};
ghost use Rattle.lj_session.specs.Turns as definition;
ghost use Rattle.lj_session.specs.UserState as states;
ghost use Rattle.lj_session.specs.UserState.{HasWholeStep, MayAdvance, Performs, Reads, with_session_changed, live_session, loaded_names};
ghost use Rattle.lj_session.specs.UserState.{pending_in};
ghost use Rattle.lj_session.specs.UserState.{with_more_pending, turns_before, user_of};

use crate::command::Command;
use crate::live_session::LiveSession;
use crate::refusal::Refusal;
use crate::reply::Reply;
use crate::state::UserState;
use lj_base::Name;

impl Command {
    /// Returns the session that it waits for, until no step is pending there.
    #[tactic(auto, unfolding(crate::specs::Turns::waits_for))]
    pub(crate) fn waits_for(&self) -> Option<&Name>
        ensures { option_copied result ≡ definition.waits_for self.now }
    {
        match self {
            Command::Advance { name, .. }
            | Command::Reverse { name }
            | Command::Branch { name, .. }
            | Command::Restore { name, .. }
            | Command::Tug { name, .. }
            | Command::Measure { name }
            | Command::Show { name, .. }
            | Command::Dump { name }
            | Command::Unload { name } => Some(name),
            Command::Load(_)
            | Command::Start { .. }
            | Command::Forget { .. }
            | Command::List
            | Command::ListBranches { .. }
            | Command::Bye => None,
        }
    }
}

impl UserState {
    /// Returns the number of pending steps of the session of a name; 0 if there is none.
    pub(crate) fn pending(&self, name: &Name) -> u64
        ensures { result ≡ pending_in self.now name.now }
    {
        match self.find(name) {
            Some(session) => session.pending(),
            None => 0,
        }
    }

    /// Returns the number of pending steps of the session that a command waits for.
    pub(crate) fn steps_before(&self, command: &Command) -> u64
        ensures { result ≡ states.steps_before self.now command.now }
    {
        match command.waits_for() {
            Some(name) => self.pending(name),
            None => 0,
        }
    }

    /// Returns the index of the session that a command waits for, if there is one.
    pub(crate) fn index_waited_for(&self, command: &Command) -> Option<usize>
        ensures { result ≡ states.index_waited_for self.now command.now }
    {
        self.index_of(command.waits_for()?)
    }

    /// Returns whether a command waits for nothing and takes no step of its own. `index` is that of the session that it
    /// waits for.
    pub(crate) fn is_at_once(&self, command: &Command, index: Option<usize>) -> bool
        requires { index ≡ states.index_waited_for self.now command.now }
        ensures at_once { result ≡ true → turns_before self.now command.now ≡ 0 }
        ensures waits { result ≡ false → 0 < turns_before self.now command.now }
    {
        let Some(i) = index else {
            return true;
        };
        let session = self.at(i);
        if session.pending() > 0 {
            return false;
        }
        match command {
            Command::Advance { steps, .. } => *steps == 0 || !session.can_advance(*steps),
            Command::Measure { .. } => false,
            _ => true,
        }
    }

    /// Adds pending steps to a session, which may advance by them.
    pub(crate) fn add_pending(&mut self, name: &Name, steps: u64)
        requires session { IsSome (live_session self.old name.now) }
        requires near { ForSome (live_session self.old name.now) (MayAdvance steps) }
        ensures pending { self.new ≡ with_session_changed name.now (with_more_pending steps) self.old }
        ensures user { user_of self.new
            ≡ (answer (user_of self.old) (commands.Advance name.now steps) false).1 }
    {
        let Some(session) = self.sessions.get_mut(name) else {
            return;
        };
        session.add_pending(steps);
    }

    /// Adds pending steps to a session. The reply has the step number after all of them.
    pub(crate) fn start(&mut self, name: Name, steps: u64) -> Result<Reply, Refusal>
        ensures performs { Performs self.old (commands.Start name steps) result self.new }
        ensures quota { self.new.quota ≡ self.old.quota }
        ensures unchanged { OnErr result (self.new ≡ self.old) }
    {
        let Some(session) = self.sessions.get_mut(&name) else {
            return Err(Refusal::NoSession);
        };
        if !session.can_advance(steps) {
            return Err(Refusal::StepRange);
        }
        session.add_pending(steps);
        let step = session.target();
        Ok(Reply::Started { name, step })
    }

    /// Answers an ADVANCE that waits for nothing and takes no turn: it is by 0, or refused. `index` is that of the session.
    pub(crate) fn advance_at_once(
        &self,
        name: Name,
        index: Option<usize>,
        steps: u64,
    ) -> Result<Reply, Refusal>
        requires index { index ≡ position (bytes_eq name) (loaded_names self.now) }
        requires turns { definition.turns (user_of self.now) (commands.Advance name steps) ≡ 0 }
        ensures { Reads self.now (commands.Advance name steps) result }
    {
        let Some(session) = self.found(&name, index) else {
            return Err(Refusal::NoSession);
        };
        if !session.can_advance(steps) {
            return Err(Refusal::StepRange);
        }
        let step = session.target();
        Ok(Reply::Advanced { name, step })
    }

    /// Answers a MEASURE that takes no turn: it is refused.
    pub(crate) fn measure_at_once(&self, name: Name) -> Result<Reply, Refusal>
        requires { definition.turns (user_of self.now) (commands.Measure name) ≡ 0 }
        ensures { Reads self.now (commands.Measure name) result }
    {
        Err(Refusal::NoSession)
    }

    /// Returns the reply to a MEASURE, by the whole energy step of the session.
    pub(crate) fn measured(&self, name: Name) -> Reply
        requires session { IsSome (live_session self.now name) }
        requires settled { pending_in self.now name ≡ 0 }
        requires whole { ForSome (live_session self.now name) (HasWholeStep Energy) }
        ensures { Reads self.now (commands.Measure name) (Ok result) }
    {
        let session = self.session(&name);
        let sim = &session.sim;
        Reply::Measured {
            step: sim.step(),
            atoms: sim.count(),
            momentum: sim.momentum(),
            kinetic: sim.kinetic(),
            potential: sim.potential(),
            name,
        }
    }

    /// Returns the session of a name.
    fn session(&self, name: &Name) -> &LiveSession
        requires { IsSome (live_session self.now name.now) }
        ensures { live_session self.now name.now ≡ Some result.now }
    {
        self.find(name).unwrap()
    }
}
