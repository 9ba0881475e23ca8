//! The open steps of sessions.
ghost use Rattle.std.specs.Prelude.{◌≡◌, ◌↔◌, ◌<◌, ℕ, List, Some, None, true, false, IsOk, IsSome, OnOk};
ghost use Rattle.std.specs.Prelude.{OnErr, IfSome, IfNone, length, slice_get};
ghost use Rattle.std.specs.List.{IsDistinct, find};
ghost use Rattle.std.specs.Option.{ForSome, option_copied, option_map};
ghost use Rattle.std.specs.Str.{bytes_eq};
ghost use Rattle.lj_task.specs.declared.task_name.Kind.TheVariants.{Force};
ghost use Rattle.lj_step.specs.OpenSteps.{tile_number_of};
ghost use Rattle.lj_session.specs.UserState.{HasWholeStep, IsAwaited, user_of, live_session, loaded_names, pending_in, with_session_changed};
ghost use Rattle.lj_session.specs.UserState.{LiveSession, IsNextTile, first_with_task, live_session_at, with_passed, with_step, with_posted};
ghost use Rattle.lj_session.specs.UserState.{with_tile_in, with_no_step, with_step_finished, with_steps_restarted, is_whole_in};
ghost use Rattle.lj_session.specs.UserState as states;

use crate::state::UserState;
use lj_base::{Label, Name};
use lj_step::NotAwaited;
use lj_task::{DoneRef, Kind, TaskRef};

impl UserState {
    /// Opens a step of a kind in a session. No tile of it is posted or in.
    pub(crate) fn open_step(&mut self, name: &Name, kind: Kind)
        ensures opened { self.new ≡ with_session_changed name.now (with_step kind) self.old }
        ensures user { user_of self.new ≡ user_of self.old }
    {
        let Some(session) = self.sessions.get_mut(name) else {
            return;
        };
        session.open_step(kind);
    }

    /// Closes the open step of a session.
    pub(crate) fn close_step(&mut self, name: &Name)
        ensures closed { self.new ≡ with_session_changed name.now with_no_step self.old }
        ensures user { user_of self.new ≡ user_of self.old }
    {
        let Some(session) = self.sessions.get_mut(name) else {
            return;
        };
        session.close_step();
    }

    /// Restarts each step: a session with pending steps has one open, with no tile posted or in, and any other has none
    /// open.
    pub(crate) fn restart_steps(&mut self)
        ensures rested { self.new ≡ with_steps_restarted self.old }
        ensures user { user_of self.new ≡ user_of self.old }
        ensures distinct { IsDistinct bytes_eq (loaded_names self.new) }
    {
        for i in 0..self.sessions.len() {
            self.sessions.get_index_mut(i).unwrap().restart_step();
        }
    }

    /// Returns the first tile that is neither posted nor in of the first session, in order of loading, that has one:
    /// the index of the session, and the tile's position in the cover of its open step.
    pub(crate) fn next_tile(&self) -> Option<(usize, usize)>
        ensures some { IfSome result (λ next. IsNextTile self.now next.0 next.1) }
        ensures none { IfNone result ((user : ℕ) → first_with_task self.now user ≡ None) }
    {
        for i in 0..self.len() {
            if let Some(k) = self.at(i).next_tile() {
                return Some((i, k));
            }
        }
        None
    }

    /// Returns how many tiles of the i-th session were posted, or skipped because they were in.
    pub(crate) fn passed_at(&self, i: usize) -> usize
        requires { i < length self.now.sessions }
        ensures { option_map (λ session. session.passed) (live_session_at self.now i) ≡ Some result }
    {
        self.at(i).passed()
    }

    /// Returns the task of the next tile of the i-th session past the first `from`, by reference, and the position after
    /// it. There is none if there is no such session.
    pub(crate) fn task_past<'a>(
        &'a self,
        i: usize,
        from: usize,
        label: &'a Label,
    ) -> Option<(TaskRef<'a>, usize)>
        ensures task { IfSome result (λ found. (session : LiveSession) → live_session_at self.now i ≡ Some session
            → states.next_of label.now (Some (record session { passed = from })) ≡ Some found.0) }
        ensures passes { IfSome result (λ found. (session : LiveSession) → live_session_at self.now i ≡ Some session
            → with_posted (record session { passed = from }) ≡ record session { passed = found.1 }) }
        ensures none { IfNone result ((session : LiveSession) → live_session_at self.now i ≡ Some session
            → states.next_of label.now (Some (record session { passed = from })) ≡ None) }
    {
        let (_, session) = self.sessions.get_index(i)?;
        session.task_past(from, label)
    }

    /// Notes the tiles of the i-th session before a position of its cover as posted.
    pub(crate) fn post_to(&mut self, i: usize, to: usize)
        ensures posted { (name : List ℕ) → slice_get (loaded_names self.old) i ≡ Some name
            → self.new ≡ with_session_changed name (with_passed to) self.old }
        ensures user { user_of self.new ≡ user_of self.old }
    {
        let Some(session) = self.sessions.get_index_mut(i) else {
            return;
        };
        session.post_to(to);
    }

    /// Accepts the result of a tile that a session's open step awaits. Any other changes nothing.
    pub(crate) fn accept_from(
        &mut self,
        label: &Label,
        done: &DoneRef<'_>,
    ) -> Result<(), NotAwaited>
        ensures accepted { IsOk result ↔ IsAwaited self.old label.now done.now }
        ensures taken { OnOk result
            (self.new ≡ with_session_changed label.now.session
            (with_tile_in (tile_number_of done.now)) self.old) }
        ensures user { user_of self.new ≡ user_of self.old }
        ensures unchanged { OnErr result (self.new ≡ self.old) }
    {
        let Some(i) = self.index_of(&label.session) else {
            return Err(NotAwaited);
        };
        let session = self.sessions.get_index_mut(i).unwrap();
        session.sim.accept_from(label, done)
    }

    /// Returns whether a step is open in a session and all its tiles are in.
    pub(crate) fn is_whole(&self, name: &Name) -> bool
        ensures { result ≡ is_whole_in self.now name.now }
    {
        match self.find(name) {
            Some(session) => session.sim.is_whole(),
            None => false,
        }
    }

    /// Returns whether a step is open in the i-th session and all its tiles are in.
    fn is_whole_at(&self, i: usize) -> bool
        requires within { i < length self.now.sessions }
        requires distinct { IsDistinct bytes_eq (loaded_names self.now) }
        ensures { (name : List ℕ) → slice_get (loaded_names self.now) i ≡ Some name
            → result ≡ is_whole_in self.now name }
    {
        let session = self.at(i);
        session.sim.is_whole()
    }

    /// Returns the first session, in order of loading, that has an open step whose tiles are all in.
    pub(crate) fn first_whole(&self) -> Option<&Name>
        ensures { option_copied result ≡ find (is_whole_in self.now) (loaded_names self.now) }
    {
        for i in 0..self.len() {
            let name = self.name_at(i);
            if self.is_whole_at(i) {
                return Some(name);
            }
        }
        None
    }

    /// Turns a whole force step of a session: its motion advances by one step, one fewer is pending, and the next one
    /// is open if there is one.
    pub(crate) fn finish_step(&mut self, name: &Name)
        requires session { IsSome (live_session self.old name.now) }
        requires pending { 0 < pending_in self.old name.now }
        requires whole { ForSome (live_session self.old name.now) (HasWholeStep Force) }
        ensures passed { self.new ≡ with_session_changed name.now with_step_finished self.old }
        ensures user { user_of self.new ≡ user_of self.old }
    {
        let Some(session) = self.sessions.get_mut(name) else {
            return;
        };
        session.finish_step();
    }
}
