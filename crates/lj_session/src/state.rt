//! The state of a user: its sessions, and what each command does to them.
ghost use Rattle.std.specs.Prelude.{◌≡◌, ◌↔◌, ◌<◌, IsTrue, length, slice_get, position, option_map};
ghost use Rattle.std.specs.Prelude.{Some, Err, IfSome, OnErr, is_some};
ghost use Rattle.std.specs.List.{IsDistinct};
ghost use Rattle.std.specs.Option.{ForSome, option_copied};
ghost use Rattle.std.specs.Str.{bytes_eq};
ghost use Rattle.lj_ring.specs.Mix.{edge_of};
ghost use Rattle.lj_branch.specs.Named.{value_named};
ghost use Rattle.lj_session.specs.UserState.{Reached, Performs, empty_state, user_of, used_by, loaded_names, live_session};
ghost use Rattle.lj_session.specs.UserState.{live_session_at};
ghost use Rattle.lj_session.specs.UserState.{index_waited_for, settled_session, turns_before};

mod advancing;
mod loading;
mod moving;
mod saving;
mod showing;
mod stepping;

use crate::command::Command;
use crate::live_session::LiveSession;
use crate::refusal::Refusal;
use crate::reply::Reply;
use indexmap::IndexMap;
use lj_base::Name;
use lj_branch::Branches;
use lj_quota::{Quota, Used};
use lj_ring::Edge;
use lj_step::{Displacement, Sim};
use lj_xyz::Symbol;
use std::alloc::Global;
use std::marker::Model;
use std::mem;

/// A user's quota, how much of it is used, and the sessions by their names, in order of loading, with their pending steps.
///
/// Promise: this state, after all its pending steps, is reached from a user without sessions by some list of commands.
#[derive(Drop)]
pub struct UserState {
    quota: Quota,
    used: Used,
    sessions: IndexMap<Name, LiveSession>,
}

impl Model for UserState {
    ghost use Rattle.lj_session.specs.UserState.{UserState};

    ghost Value = { UserState };

    ghost use Rattle.lj_session.specs.Totals.{state_of_kept, IsState};

    ghost view = { state_of_kept };

    ghost invariant = { IsState };
}

impl UserState {
    /// Returns a state without sessions.
    pub fn new(alloc: Global, quota: Quota) -> UserState
        ensures { result ≡ empty_state quota }
    {
        UserState {
            quota,
            used: Used {
                sessions: 0,
                atoms: 0,
                branches: 0,
            },
            sessions: IndexMap::new(alloc),
        }
    }

    /// Returns how many sessions there are.
    pub fn len(&self) -> usize
        ensures value { result ≡ length self.now.sessions }
        ensures distinct { IsDistinct bytes_eq (loaded_names self.now) }
        ensures reached { Reached self.now }
    {
        self.sessions.len()
    }

    /// Returns whether there are no sessions.
    pub fn is_empty(&self) -> bool
        ensures { IsTrue result ↔ (length self.now.sessions ≡ 0) }
    {
        self.len() == 0
    }

    /// Returns how much of each part of the quota the user has used.
    pub fn used(&self) -> Used
        ensures { result ≡ used_by self.now }
    {
        self.used
    }

    /// Returns the index of a session in the order of loading; None where no session has the name. The name of the first session is
    /// compared before any is hashed, since most users have one session.
    pub fn index_of(&self, name: &Name) -> Option<usize>
        ensures { result ≡ position (bytes_eq name.now) (loaded_names self.now) }
    {
        match self.sessions.get_index(0) {
            Some((first, _)) if name == first => Some(0),
            _ => self.sessions.get_index_of(name),
        }
    }

    /// Returns the name of the i-th session, in order of loading.
    pub fn name_at(&self, i: usize) -> &Name
        requires { i < length self.now.sessions }
        ensures { slice_get (loaded_names self.now) i ≡ Some result.now }
    {
        self.sessions.get_index(i).unwrap().0
    }

    /// Returns the simulation of the i-th session, as it was when its present step began.
    pub fn sim_at(&self, i: usize) -> &Sim
        requires { i < length self.now.sessions }
        ensures { option_map (λ session. session.live) (live_session_at self.now i) ≡ Some result.now }
    {
        &self.at(i).sim
    }

    /// Returns the edge of the i-th session's box.
    pub fn edge_at(&self, i: usize) -> Edge
        requires { i < length self.now.sessions }
        ensures { option_map (λ session. edge_of session.live.composition.mix) (live_session_at self.now i)
            ≡ Some result }
    {
        self.sim_at(i).edge()
    }

    /// Returns the symbol of an atom of the i-th session.
    pub fn symbol_at(&self, i: usize, atom: usize) -> &Symbol
        requires session { i < length self.now.sessions }
        requires atom { ForSome (live_session_at self.now i) (λ session. atom < length session.live.sim.cur) }
        ensures { IfSome (live_session_at self.now i)
            (λ session. slice_get session.symbols atom ≡ Some result.now) }
    {
        self.at(i).symbol(atom)
    }

    /// Returns the saved simulations of the i-th session.
    pub fn branches_at(&self, i: usize) -> &Branches
        requires { i < length self.now.sessions }
        ensures { option_map (λ session. session.saved) (live_session_at self.now i) ≡ Some result.now }
    {
        &self.at(i).branches
    }

    /// Returns the step number of the i-th session after all its pending steps.
    pub fn target_at(&self, i: usize) -> i64
        requires { i < length self.now.sessions }
        ensures { option_map (λ session. (settled_session session).sim.step) (live_session_at self.now i)
            ≡ Some result }
    {
        self.at(i).target()
    }

    /// Returns the i-th session, in order of loading.
    fn at(&self, i: usize) -> &LiveSession
        requires { i < length self.now.sessions }
        ensures { live_session_at self.now i ≡ Some result.now }
    {
        self.sessions.get_index(i).unwrap().1
    }

    /// Returns the session of a name, if there is one.
    fn find(&self, name: &Name) -> Option<&LiveSession>
        ensures { option_copied result ≡ live_session self.now name.now }
    {
        self.sessions.get(name)
    }

    /// Returns the session of a name whose index was looked up, if there is one.
    fn found(&self, name: &Name, index: Option<usize>) -> Option<&LiveSession>
        requires { index ≡ position (bytes_eq name.now) (loaded_names self.now) }
        ensures { option_copied result ≡ live_session self.now name.now }
    {
        Some(self.at(index?))
    }

    /// Returns whether a session has the name.
    fn has(&self, name: &Name) -> bool
        ensures { result ≡ is_some (value_named name.now (user_of self.now).sessions) }
    {
        self.find(name).is_some()
    }

    /// Performs a command as `perform` does, in place. A SHOW, which comes most often, is only read; any other is moved
    /// out.
    pub(crate) fn perform_from(
        &mut self,
        command: &mut Command,
        index: Option<usize>,
    ) -> Result<Reply, Refusal>
        requires index { index ≡ index_waited_for self.old command.old }
        requires at_once { turns_before self.old command.old ≡ 0 }
        ensures performs { Performs self.old command.old result self.new }
        ensures quota { self.new.quota ≡ self.old.quota }
        ensures unchanged { OnErr result (self.new ≡ self.old) }
    {
        if let Command::Show { name, atom } = command {
            return self.show(name.copy(), index, *atom);
        }
        self.perform_taken(command, index)
    }

    /// Moves a command out and performs it. It is kept out of line, so that `perform_from` is short for SHOW.
    #[inline(never)]
    fn perform_taken(
        &mut self,
        command: &mut Command,
        index: Option<usize>,
    ) -> Result<Reply, Refusal>
        requires index { index ≡ index_waited_for self.old command.old }
        requires at_once { turns_before self.old command.old ≡ 0 }
        ensures performs { Performs self.old command.old result self.new }
        ensures quota { self.new.quota ≡ self.old.quota }
        ensures unchanged { OnErr result (self.new ≡ self.old) }
    {
        self.perform(mem::replace(command, Command::Bye), index)
    }

    /// Performs a command that waits for nothing and takes no step of its own. `index` is that of the session that it
    /// waits for: SHOW, DUMP and ADVANCE read the session by it.
    ///
    /// # Errors
    /// The command's first refusal. Nothing has changed then. `Memory` comes only from LOAD, LOADMIX and BRANCH.
    fn perform(&mut self, command: Command, index: Option<usize>) -> Result<Reply, Refusal>
        requires index { index ≡ index_waited_for self.old command }
        requires at_once { turns_before self.old command ≡ 0 }
        ensures performs { Performs self.old command result self.new }
        ensures quota { self.new.quota ≡ self.old.quota }
        ensures unchanged { OnErr result (self.new ≡ self.old) }
    {
        match command {
            Command::Load(load) => self.load(load),
            Command::Advance { name, steps } => self.advance_at_once(name, index, steps),
            Command::Start { name, steps } => self.start(name, steps),
            Command::Reverse { name } => self.reverse(name),
            Command::Branch { name, branch } => self.branch(name, branch),
            Command::Restore { name, branch } => self.restore(name, branch),
            Command::Forget { name, branch } => self.forget(name, branch),
            Command::Tug {
                name,
                atom,
                x,
                y,
                z,
            } => self.tug(name, atom, Displacement { x, y, z }),
            Command::Measure { name } => self.measure_at_once(name),
            Command::Show { name, atom } => self.show(name, index, atom),
            Command::Dump { name } => self.dump(name, index),
            Command::List => Ok(Reply::Listed),
            Command::ListBranches { name } => self.list_branches(name),
            Command::Unload { name } => self.unload(name),
            Command::Bye => Ok(Reply::Bye),
        }
    }
}
