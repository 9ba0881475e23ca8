//! A world: its machine, and runs over lists of events.
ghost use Rattle.std.specs.Prelude.{◌≡◌, ◌↔◌, ◌≤◌, length, IsTrue, IsFalse, IsErr, IfOk};
ghost use Rattle.std.specs.List.{IsDistinct};
ghost use Rattle.std.specs.Str.{bytes_eq};
ghost use Rattle.lj_access.specs.UserLists.{user_names};
ghost use Rattle.lj_world.specs.Machine.{initial_machine};
ghost use Rattle.lj_world.specs.Runs.{Step, IsTranscript};
ghost use Rattle.lj_world.specs.Picked.{FollowsPick, IsPickedTranscript};
ghost use Rattle.lj_world.specs.RunLaws.{AgreesWithEveryRun};

use crate::event::Event;
use crate::machine::Machine;
use crate::run_laws::headline;
use crate::transcript::{Entry, Transcript};
use lj_access::{MAX_USERS, User};
use lj_base::OutOfMemory;
use std::alloc::Global;
use std::marker::Model;

/// Users, connections, workers and the book of tasks: one state machine, which takes one event after the other. A world
/// that has run out of memory is lost: it takes no further step.
#[derive(Drop)]
pub struct World {
    machine: Machine,
    lost: bool,
}

impl Model for World {
    ghost use Rattle.lj_world.specs.World.{World};

    ghost Value = { World };

    ghost view = { λ world. record { state = world.machine; lost = world.lost } };
}

impl World {
    /// Creates the world of these users: nobody is connected, and no worker holds anything.
    ///
    /// # Errors
    /// Out of memory.
    pub fn new(alloc: Global, users: Vec<User>) -> Result<World, OutOfMemory>
        requires some { 1 ≤ length users.items }
        requires most { length users.items ≤ MAX_USERS }
        requires distinct { IsDistinct bytes_eq (user_names users.items) }
        ensures state { IfOk result (λ world. world.state ≡ initial_machine users.items) }
        ensures whole { IfOk result (λ world. IsFalse world.lost) }
    {
        Ok(World {
            machine: Machine::new(alloc, users)?,
            lost: false,
        })
    }

    /// Takes one event: it happens, or it is not possible and nothing changes. Returns the reply, if any. The pick of the
    /// event decides which task is taken, and which result is fetched.
    ///
    /// # Errors
    /// Out of memory, at this step or at an earlier one: a lost world takes no further step.
    ///
    /// Promise: every event is one step of the state machine. An event that is not possible changes nothing. An event's pick
    /// decides which task is taken or which result is fetched.
    pub fn step(&mut self, event: Event) -> Result<Option<Entry>, OutOfMemory>
        ensures step { IfOk result (λ reply. Step self.old.state event reply self.new.state) }
        ensures picked { IfOk result (λ _. FollowsPick self.old.state event self.new.state) }
        ensures lost { IsTrue self.new.lost ↔ IsErr result }
        ensures no_more { IsTrue self.old.lost → IsErr result }
        ensures unchanged { IsTrue self.old.lost → self.new ≡ self.old }
    {
        if self.lost {
            return Err(OutOfMemory);
        }
        match self.machine.step(event) {
            Ok(reply) => Ok(reply),
            Err(_) => {
                self.lost = true;
                Err(OutOfMemory)
            }
        }
    }

    /// Runs a world of these users over these events, and returns the replies. For every user, and every other run in
    /// which the user's script agrees with the one here, one list of the replies to the user is a prefix of the other,
    /// and both are prefixes of the replies that the user's commands get when they are answered alone.
    ///
    /// # Errors
    /// Out of memory.
    ///
    /// Promise: a run of the machine with these users and these events gives the transcript. The headline theorem holds for
    /// this run paired with any other run.
    pub fn run(
        alloc: Global,
        users: Vec<User>,
        events: Vec<Event>,
    ) -> Result<Transcript, OutOfMemory>
        requires some { 1 ≤ length users.items }
        requires most { length users.items ≤ MAX_USERS }
        requires distinct { IsDistinct bytes_eq (user_names users.items) }
        ensures run { IfOk result (λ transcript. IsTranscript users.items events.items transcript) }
        ensures picked { IfOk result (λ transcript. IsPickedTranscript users.items events.items transcript) }
        ensures headline { IfOk result (λ transcript. AgreesWithEveryRun users.items events.items transcript) }
    {
        let mut world = World::new(alloc, users)?;
        let mut entries = Vec::new(alloc);
        for event in events {
            if let Some(entry) = world.step(event)? {
                entries.push(entry)?;
            }
        }
        headline();
        Ok(Transcript::new(entries))
    }
}
