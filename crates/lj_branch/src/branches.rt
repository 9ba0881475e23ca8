//! The list of saved simulations.
ghost use Rattle.std.specs.Prelude.{◌≡◌, ◌↔◌, ◌<◌, ◌++◌, ◌∷◌, [], length, slice_get, Some, IsTrue, IsSome, IfSome};
ghost use Rattle.std.specs.Prelude.{IsOk, OnOk, OnErr, IsErrOf, option_map};
ghost use Rattle.std.specs.List.{IsDistinct};
ghost use Rattle.std.specs.Option.{ForSome};
ghost use Rattle.std.specs.Str.{bytes_eq};
ghost use Rattle.lj_step.specs.OpenSteps.{with_step_closed};
ghost use Rattle.lj_branch.specs.Named.{value_named, with_value, without_value};
ghost use Rattle.lj_branch.specs.Saved.{saved_names, step_numbers};
ghost use Rattle.lj_branch.specs.declared.branch_faults.SaveFault.TheVariants.{Exists};

use crate::branch_faults::{NoBranch, SaveFault};
use indexmap::IndexMap;
use lj_base::Name;
use lj_step::{Sim, Snapshot};
use std::alloc::Global;
use std::marker::Model;

/// Simulations saved under names, in order of saving. Each is a copy, independent of the simulation that was saved.
#[derive(Drop)]
pub struct Branches {
    saved: IndexMap<Name, Snapshot>,
}

impl Model for Branches {
    ghost use Rattle.std.specs.Prelude.{List, ℕ};
    ghost use Rattle.lj_step.specs.Motion.{Simulation};

    ghost Value = { List (List ℕ × Simulation) };

    ghost view = { λ b. b.saved.entries };
}

impl Branches {
    /// Makes an empty list. Only `save` takes memory.
    pub fn new(alloc: Global) -> Branches
        ensures { result ≡ [] }
    {
        Branches {
            saved: IndexMap::new(alloc),
        }
    }

    /// Saves a copy of a simulation under a new name, at the end of the list.
    ///
    /// # Errors
    /// `Exists` if the name is taken, else `Memory` if there is none for the copy. Nothing is saved then.
    ///
    /// Promise: a saved simulation is added unchanged and under its name, at the end of the list. A save that is refused
    /// changes nothing.
    pub fn save(&mut self, name: Name, sim: &Sim) -> Result<(), SaveFault>
        ensures exists { IsErrOf result Exists ↔ IsSome (value_named name self.old) }
        ensures saved { OnOk result (self.new ≡ with_value name sim.now.sim self.old) }
        ensures last { OnOk result (self.new ≡ self.old ++ (name, sim.now.sim) ∷ []) }
        ensures unchanged { OnErr result (self.new ≡ self.old) }
    {
        if self.saved.contains_key(&name) {
            return Err(SaveFault::Exists);
        }
        let copy = sim.snapshot()?;
        match self.saved.insert(name, copy) {
            Ok(_) => Ok(()),
            Err(_) => Err(SaveFault::Memory),
        }
    }

    /// Sets a simulation to the one saved under a name, which stays saved, and closes an open step.
    ///
    /// # Errors
    /// `NoBranch` if nothing is saved under it. The simulation is unchanged then.
    ///
    /// Promise: if a simulation was saved under the name, it is restored. Otherwise nothing changes.
    pub fn restore_into(&self, name: &Name, sim: &mut Sim) -> Result<(), NoBranch>
        requires { ForSome (value_named name.now self.now) (λ s. length s.cur ≡ length sim.old.sim.cur) }
        ensures found { IsOk result ↔ IsSome (value_named name.now self.now) }
        ensures restored { OnOk result
            (IfSome (value_named name.now self.now) (λ s. sim.new ≡ with_step_closed sim.old s)) }
        ensures unchanged { OnErr result (sim.new ≡ sim.old) }
    {
        let copy = self.saved.get(name).ok_or(NoBranch)?;
        sim.restore(copy);
        Ok(())
    }

    /// Removes a name and the simulation saved under it. The others keep their order.
    ///
    /// # Errors
    /// `NoBranch` if nothing is saved under it. Nothing has changed then.
    pub fn forget(&mut self, name: &Name) -> Result<(), NoBranch>
        ensures found { IsOk result ↔ IsSome (value_named name.now self.old) }
        ensures taken { OnOk result (self.new ≡ without_value name.now self.old) }
        ensures unchanged { OnErr result (self.new ≡ self.old) }
    {
        self.saved.shift_remove(name).ok_or(NoBranch)?;
        Ok(())
    }

    /// Returns how many atoms the simulation saved under a name has; None if there is none.
    pub fn count_of(&self, name: &Name) -> Option<usize>
        ensures { result ≡ option_map (λ s. length s.cur) (value_named name.now self.now) }
    {
        Some(self.saved.get(name)?.count())
    }

    /// Returns how many simulations are saved.
    pub fn len(&self) -> usize
        ensures value { result ≡ length self.now }
        ensures distinct { IsDistinct bytes_eq (saved_names self.now) }
    {
        self.saved.len()
    }

    /// Returns whether nothing is saved.
    pub fn is_empty(&self) -> bool
        ensures { IsTrue result ↔ (self.now ≡ []) }
    {
        self.saved.is_empty()
    }

    /// Returns the i-th name, in order of saving.
    pub fn name_at(&self, i: usize) -> &Name
        requires { i < length self.now }
        ensures { slice_get (saved_names self.now) i ≡ Some result.now }
    {
        self.saved.get_index(i).unwrap().0
    }

    /// Returns the step number of the i-th saved simulation, in order of saving.
    pub fn step_at(&self, i: usize) -> i64
        requires { i < length self.now }
        ensures { slice_get (step_numbers self.now) i ≡ Some result }
    {
        self.saved.get_index(i).unwrap().1.step()
    }
}
