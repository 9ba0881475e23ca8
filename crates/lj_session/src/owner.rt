//! The owner of a user's state: it begins commands, and hands out their steps as tasks that anyone may compute.
ghost use Rattle.std.specs.Prelude.{◌≡◌, ◌↔◌, ◌<◌, ◌+◌, ℕ, Bool, true, false, Some, None, IsOk, IsSome};
ghost use Rattle.std.specs.Prelude.{IfSome, IfErr, OnOk, OnErr, IfNone, is_some};
ghost use Rattle.std.specs.List.{IsDistinct};
ghost use Rattle.std.specs.Str.{bytes_eq};
ghost use Rattle.lj_session.specs.Answers.{AnswersAlike};
ghost use Rattle.lj_session.specs.UserState.{OthersKept, StepsFollow, is_measured};
ghost use Rattle.lj_session.specs.UserState.{is_whole_in, loaded_names, with_steps_restarted};
ghost use Rattle.lj_session.specs.UserState.{IsAtWork, index_waited_for, next_task, turns_before, user_of};
ghost use Rattle.lj_session.specs.Owner.{IsAnswered, IsAwaitedIn, IsLastTurn, IsSettled};
ghost use Rattle.lj_session.specs.Owner.{WaitsAlike};
ghost use Rattle.lj_session.specs.Owner.{state_begun, command_left};
ghost use Rattle.lj_session.specs.Owner.{user_in, owner_of_state, has_pending, is_busy, turns_left, is_waited_for};
ghost use Rattle.lj_session.specs.Owner.{Owner, label_of, next_task_of};
ghost use Rattle.lj_session.specs.Cursors.{IsAtFirst, IsPostedTo, owner_posted_to};
ghost use Rattle.lj_session.specs.Owner.{with_task_posted, with_task_in, ready_session, owner_turned};
ghost use Rattle.lj_session.specs.OwnerCalls.{AnswersAtOnce, AnswersAtTurn, WaitsForTurns, KeptByCommand, KeptByTurn};
ghost use Rattle.lj_session.specs.Begins.{IfAnswered, OnRunning, OnRefused, OnRefusal, reply_of};

use crate::command::Command;
use crate::refusal::Refusal;
use crate::reply::Reply;
use crate::state::UserState;
use crate::tile_cursor::TileCursor;
use lj_base::{Label, Name};
use lj_step::{NotAwaited, Stray};
use lj_task::{Done, DoneRef, Kind, Task, TaskRef};
use std::marker::Model;
use std::mem;

/// The outcome of beginning a command.
#[derive(Debug, Drop)]
pub enum Begin {
    /// It is answered.
    Answered(Reply),
    /// It waits for steps of its session, which are made by `next_task`, `accept` and `turn_session`.
    Running,
}

/// The owner of a user's state and of the waiting command. Each session with pending steps advances, tile by tile,
/// while other commands are answered. A command that needs the session after these steps waits until none is pending.
#[derive(Drop)]
pub struct Owner {
    state: UserState,
    user: u8,
    waiting: Option<Command>,
}

impl Model for Owner {
    ghost use Rattle.lj_session.specs.Owner.{Owner};

    ghost Value = { Owner };

    ghost use Rattle.lj_session.specs.KeptOwners.{owner_of_kept, IsOwner};

    ghost view = { owner_of_kept };

    ghost invariant = { IsOwner };
}

impl Owner {
    /// Returns the owner of a state. No command waits, and the step of each session with pending steps is restarted.
    /// The number of the user is part of the tasks' names.
    pub fn new(state: UserState, user: u8) -> Owner
        ensures value { result ≡ owner_of_state state user }
        ensures distinct { IsDistinct bytes_eq (loaded_names result.state) }
    {
        let mut state = state;
        state.restart_steps();
        Owner {
            state,
            user,
            waiting: None,
        }
    }

    /// Begins a command. It is answered at once if the session that it waits for has no pending steps and it takes none
    /// of its own; else it waits. START is always answered at once, with the step number at the end. Only LOAD, LOADMIX
    /// and BRANCH take memory.
    ///
    /// Promise: a command waits if pending steps, or steps of its own, come before its reply; waiting does not change the
    /// reply. Any other command is answered immediately; the reply and the user's next state are as defined. A refused command
    /// changes nothing, and no command changes any session but its own.
    pub fn begin(&mut self, command: Command) -> Begin
        requires idle { self.old.waiting ≡ None }
        ensures answered { IfAnswered result (AnswersAtOnce command self.old self.new) }
        ensures running { OnRunning result (WaitsForTurns command self.old self.new) }
        ensures unchanged { OnRefused result (self.new ≡ self.old) }
        ensures kept { KeptByCommand command self.old self.new }
    {
        let mut command = command;
        self.begin_from(&mut command)
    }

    /// Begins a command as `begin` does, in place, so that it is not moved. `command` is unspecified afterwards.
    pub fn begin_from(&mut self, command: &mut Command) -> Begin
        requires idle { self.old.waiting ≡ None }
        ensures answered { IfAnswered result (AnswersAtOnce command.old self.old self.new) }
        ensures running { OnRunning result (WaitsForTurns command.old self.old self.new) }
        ensures unchanged { OnRefused result (self.new ≡ self.old) }
        ensures kept { KeptByCommand command.old self.old self.new }
    {
        let index = self.state.index_waited_for(command);
        if self.state.is_at_once(command, index) {
            return Begin::Answered(answer(&mut self.state, command, index));
        }
        self.hold(command);
        Begin::Running
    }

    /// Returns the task of the first tile that is neither posted nor in, of the first session, in order of loading,
    /// that has one.
    pub fn next_task(&self) -> Option<Task>
        ensures { result ≡ next_task_of self.now }
    {
        let cursor = self.next_tile()?;
        let Some((task, _)) = self.task_past(&cursor, cursor.passed) else {
            return None;
        };
        Some(task.to_task())
    }

    /// Returns the cursor at the task that `next_task` returns.
    pub fn next_tile(&self) -> Option<TileCursor>
        ensures first { IfSome result (λ cursor. IsAtFirst cursor self.now) }
        ensures posted { IfSome result (λ cursor. IsPostedTo cursor cursor.passed self.now self.now) }
        ensures same { IfSome result (λ cursor. self.now ≡ owner_posted_to cursor cursor.passed self.now) }
        ensures none { IfNone result (next_task_of self.now ≡ None) }
    {
        let Some((session, _tile)) = self.state.next_tile() else {
            return None;
        };
        let passed = self.state.passed_at(session);
        let label = self.label(self.state.name_at(session).copy());
        Some(TileCursor {
            session,
            passed,
            label,
        })
    }

    /// Returns the next task past the first `from` tiles of the cursor's session, by reference, and the position after it.
    /// This task is the next one once all before the position are posted; it posts none.
    pub fn task_past<'a>(
        &'a self,
        cursor: &'a TileCursor,
        from: usize,
    ) -> Option<(TaskRef<'a>, usize)>
        ensures task { IfSome result (λ found. (later : Owner) → IsPostedTo cursor.now from self.now later
            → next_task_of later ≡ Some found.0) }
        ensures moved { IfSome result (λ found. (later : Owner) → IsPostedTo cursor.now from self.now later
            → IsPostedTo cursor.now found.1 self.now (with_task_posted later)) }
        ensures posted { IfSome result (λ found. (later : Owner) → IsPostedTo cursor.now from self.now later
            → later ≡ owner_posted_to cursor.now from self.now
            → with_task_posted later ≡ owner_posted_to cursor.now found.1 self.now) }
        ensures none { IfNone result ((later : Owner) → IsPostedTo cursor.now from self.now later
            → next_task later.state cursor.now.label ≡ None) }
    {
        self.state.task_past(cursor.session, from, &cursor.label)
    }

    /// Notes the tile of the task that `next_task` returns as posted.
    pub fn posted(&mut self)
        requires { IsSome (next_task_of self.old) }
        ensures noted { self.new ≡ with_task_posted self.old }
        ensures user { user_in self.new ≡ user_in self.old }
    {
        let Some(cursor) = self.next_tile() else {
            return;
        };
        let Some((_, next)) = self.task_past(&cursor, cursor.passed) else {
            return;
        };
        self.post_to(&cursor, next);
    }

    /// Notes the tasks of the cursor's session before a position as posted, all at once and without another search:
    /// those that `task_past` returned up to there.
    pub fn post_to(&mut self, cursor: &TileCursor, to: usize)
        requires first { IsPostedTo cursor.now cursor.now.passed self.old self.old }
        ensures noted { self.new ≡ owner_posted_to cursor.now to self.old }
        ensures user { user_in self.new ≡ user_in self.old }
    {
        self.state.post_to(cursor.session, to);
    }

    /// Accepts the result of a task that the step of a session awaits. Any other is handed back, and nothing has changed.
    ///
    /// Promise: a result is accepted if and only if its session's step waits for it. Otherwise the result is returned, and
    /// nothing changes.
    pub fn accept(&mut self, done: Done) -> Result<(), Stray>
        ensures accepted { IsOk result ↔ IsAwaitedIn self.old done }
        ensures taken { OnOk result (self.new ≡ with_task_in done self.old) }
        ensures user { user_in self.new ≡ user_in self.old }
        ensures stray { IfErr result (λ s. s.done ≡ done) }
        ensures unchanged { OnErr result (self.new ≡ self.old) }
    {
        match self.accept_from(&done.by_ref()) {
            Ok(()) => Ok(()),
            Err(NotAwaited) => Err(Stray { done }),
        }
    }

    /// Accepts a result by reference, as `accept` does, and copies nothing of it.
    pub fn accept_from(&mut self, done: &DoneRef<'_>) -> Result<(), NotAwaited>
        ensures accepted { IsOk result ↔ IsAwaitedIn self.old done.now }
        ensures taken { OnOk result (self.new ≡ with_task_in done.now self.old) }
        ensures user { user_in self.new ≡ user_in self.old }
        ensures unchanged { OnErr result (self.new ≡ self.old) }
    {
        let label = &done.task().name().label;
        if label.user != self.user {
            return Err(NotAwaited);
        }
        self.state.accept_from(label, done)
    }

    /// Returns whether some session has a step to make.
    pub fn is_busy(&self) -> bool
        ensures { result ≡ is_busy self.now }
    {
        for i in 0..self.state.len() {
            if self.has_pending(self.state.name_at(i)) {
                return true;
            }
        }
        false
    }

    /// Returns whether a session has a step to make whose tiles are all in.
    pub fn is_whole(&self, name: &Name) -> bool
        ensures value { result ≡ is_whole_in self.now.state name.now }
        ensures pending { result ≡ true → has_pending self.now name.now ≡ true }
    {
        self.state.is_whole(name)
    }

    /// Returns the first session, in order of loading, that has a step to make whose tiles are all in.
    pub fn ready_session(&self) -> Option<Name>
        ensures first { result ≡ ready_session self.now }
        ensures whole { IfSome result (λ name. is_whole_in self.now.state name ≡ true) }
        ensures pending { IfSome result (λ name. has_pending self.now name ≡ true) }
    {
        Some(self.state.first_whole()?.copy())
    }

    /// Turns the step of a session: one fewer is pending, and the next one is open if there is one. If the waiting
    /// command needs this session, it begins again: it is answered, begins its own steps, or waits on. No other session
    /// is changed. If the command is refused, the step is made and nothing else.
    ///
    /// Promise: the waiting command is answered exactly at the last turn that it needs; the reply and the user's next state are as
    /// defined. No other session changes.
    pub fn turn_session(&mut self, name: &Name) -> Option<Reply>
        requires { is_whole_in self.old.state name.now ≡ true }
        ensures last { IsSome result ↔ IsLastTurn name.now self.old }
        ensures answered { IfSome result (AnswersAtTurn name.now self.old self.new) }
        ensures turned { IfNone result (self.new ≡ owner_turned name.now self.old) }
        ensures alike { IfNone result (WaitsAlike self.old self.new) }
        ensures kept { KeptByTurn name.now self.old self.new }
    {
        if !self.is_waited_for(name) {
            self.state.finish_step(name);
            return None;
        }
        let command = self.waiting.take()?;
        if self.state.pending(name) == 0 {
            let reply = self.state.measured(name.copy());
            self.state.close_step(name);
            return Some(reply);
        }
        self.state.finish_step(name);
        match self.begin(command) {
            Begin::Answered(reply) => Some(reply),
            Begin::Running => None,
        }
    }

    /// Returns whether a command waits.
    pub fn is_waiting(&self) -> bool
        ensures value { result ≡ is_some self.now.waiting }
        ensures some { result ≡ true → 0 < turns_left self.now }
    {
        self.waiting.is_some()
    }

    /// Returns the number of its user.
    pub fn user(&self) -> u8
        ensures { result ≡ self.now.number }
    {
        self.user
    }

    /// Returns the state. Each session is as it was when its present step began.
    pub fn state(&self) -> &UserState
        ensures { result.now ≡ self.now.state }
    {
        &self.state
    }

    /// Returns the state, with the pending steps of its sessions. Open steps are restarted, so that no tile is posted
    /// or in.
    ///
    /// Promise: the returned state has the same sessions with the same pending steps; only open steps are restarted.
    pub fn into_state(self) -> UserState
        requires { self.waiting ≡ None }
        ensures state { result ≡ with_steps_restarted self.state }
        ensures user { user_of result ≡ user_in self }
    {
        let mut state = self.state;
        state.restart_steps();
        state
    }

    /// Drops the state and the waiting command.
    pub fn abandon(self) {}

    /// Stores a command that is not answered at once, and begins its own steps if no other is pending. It is kept out
    /// of line, so that `begin_from` is short for commands that are answered at once.
    #[inline(never)]
    fn hold(&mut self, command: &mut Command)
        requires idle { self.old.waiting ≡ None }
        requires waits { 0 < turns_before self.old.state command.old }
        ensures held { WaitsForTurns command.old self.old self.new }
        ensures kept { KeptByCommand command.old self.old self.new }
    {
        let command = mem::replace(command, Command::Bye);
        self.waiting = Some(take_up(&mut self.state, command));
    }

    /// Returns whether a session has a step to make.
    fn has_pending(&self, name: &Name) -> bool
        ensures { result ≡ has_pending self.now name.now }
    {
        self.state.pending(name) > 0 || self.is_measured(name)
    }

    /// Returns whether the waiting command measures this session.
    fn is_measured(&self, name: &Name) -> bool
        ensures { result ≡ is_measured self.now.waiting name.now }
    {
        match &self.waiting {
            Some(Command::Measure { name: session }) => session == name,
            _ => false,
        }
    }

    /// Returns whether the waiting command needs this session.
    fn is_waited_for(&self, name: &Name) -> bool
        ensures { result ≡ is_waited_for self.now.waiting name.now }
    {
        match &self.waiting {
            Some(command) => command.waits_for().is_some_and(|session| session == name),
            None => false,
        }
    }

    /// Returns the label of the tasks of a session.
    fn label(&self, session: Name) -> Label
        ensures { result ≡ label_of self.now session }
    {
        Label {
            user: self.user,
            session,
        }
    }
}

/// Answers a command in place that waits for nothing and takes no step of its own. `index` is that of the session that
/// it waits for.
fn answer(state: &mut UserState, command: &mut Command, index: Option<usize>) -> Reply
    requires index { index ≡ index_waited_for state.old command.old }
    requires at_once { turns_before state.old command.old ≡ 0 }
    requires at_work { IsAtWork None state.old }
    ensures answered { IsAnswered (user_of state.old) command.old result (user_of state.new) }
    ensures settled { IsSettled state.new result }
    ensures at_work { IsAtWork None state.new }
    ensures steps { StepsFollow command.old state.old state.new }
    ensures unchanged { OnRefusal result (state.new ≡ state.old) }
    ensures others { OthersKept command.old state.old state.new }
    ensures quota { state.new.quota ≡ state.old.quota }
{
    replied(state.perform_from(command, index))
}

/// Returns the reply to a command, or its refusal.
fn replied(outcome: Result<Reply, Refusal>) -> Reply
    ensures { result ≡ reply_of outcome }
{
    outcome.unwrap_or_else(Reply::Refused)
}

/// Begins the steps of a command if none is pending in its session. Returns the command that waits then.
fn take_up(state: &mut UserState, command: Command) -> Command
    requires at_work { IsAtWork None state.old }
    requires waits { 0 < turns_before state.old command }
    ensures left { result ≡ command_left command state.old }
    ensures begun { state.new ≡ state_begun command state.old }
    ensures alike { AnswersAlike (user_of state.new) result (user_of state.old) command }
    ensures at_work { IsAtWork (Some result) state.new }
    ensures turns { turns_before state.new result ≡ turns_before state.old command }
    ensures others { OthersKept command state.old state.new }
    ensures quota { state.new.quota ≡ state.old.quota }
{
    if state.steps_before(&command) > 0 {
        return command;
    }
    match &command {
        Command::Advance { name, steps } => {
            state.add_pending(name, *steps);
            Command::Advance {
                name: name.copy(),
                steps: 0,
            }
        }
        Command::Measure { name } => {
            state.open_step(name, Kind::Energy);
            Command::Measure { name: name.copy() }
        }
        _ => command,
    }
}
