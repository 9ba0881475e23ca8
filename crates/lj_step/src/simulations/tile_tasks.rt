//! The tiles of the open step: their tasks, and results that are taken in.
ghost use Rattle.std.specs.Prelude.{◌≡◌, ◌<◌, ◌↔◌, ◌*◌, length, IfErr, IfSome, IsOk, IsTrue, OnErr, OnOk, Some, None, true, false};
ghost use Rattle.lj_step.specs.OpenSteps as steps;
ghost use Rattle.lj_step.specs.TileTasks.{HasTileValue, IsCovered};

use crate::cover;
use crate::simulations::{NotAwaited, Sim, Stray};
use crate::tile_id::TileId;
use lj_base::Label;
use lj_ring::Place;
use lj_task::{BLOCK, BlockRef, Done, DoneRef, Kind, Task, TaskNameRef, TaskRef};

impl Sim {
    /// Returns how many tiles the open step has; 0 if no step is open.
    ///
    /// ```rust
    /// // `sim` as in the example of `new`
    /// assert_eq!(sim.tiles(), 0);
    /// sim.open_step(Kind::Energy);
    /// assert_eq!(sim.tiles(), 1);
    /// ```
    pub fn tiles(&self) -> usize
        ensures value { result ≡ steps.tiles_of self.now }
        ensures cover { IsCovered self.now }
    {
        match self.partial.kind {
            Some(_) => self.partial.tiles.len(),
            None => 0,
        }
    }

    /// Returns the task of the i-th tile of the open step's cover; None past the last one, and if no step is open.
    ///
    /// ```rust
    /// // `sim` as in the example of `new`; `label` is any
    /// sim.open_step(Kind::Energy);
    /// assert_eq!(sim.task(0, &label).unwrap().name().kind, Kind::Energy);
    /// assert!(sim.task(1, &label).is_none());
    /// ```
    pub fn task(&self, i: usize, label: &Label) -> Option<Task>
        ensures value { result ≡ steps.task_at self.now label.now i }
        ensures tile { IfSome result (HasTileValue self.now i) }
    {
        let task = self.task_ref(i, label)?;
        Some(task.to_task())
    }

    /// Returns the task that `task` returns, by reference to the places of the frame, and copies none.
    ///
    /// ```rust
    /// // `sim` as in the example of `new`, with a force step open; `label` is any
    /// assert_eq!(sim.task_ref(0, &label).unwrap().to_task().name().kind, Kind::Force);
    /// assert!(sim.task_ref(1, &label).is_none());
    /// ```
    pub fn task_ref<'a>(&'a self, i: usize, label: &'a Label) -> Option<TaskRef<'a>>
        ensures value { result ≡ steps.task_at self.now label.now i }
        ensures tile { IfSome result (HasTileValue self.now i) }
    {
        let Some(kind) = self.partial.kind else {
            return None;
        };
        let Some(tile) = self.partial.tiles.as_slice().get(i) else {
            return None;
        };
        Some(self.tile_task(label, kind, *tile))
    }

    /// Returns whether the open step still awaits the i-th tile of its cover.
    ///
    /// ```rust
    /// // `sim` as in the example of `new`, with a step open, and `done` the result of its one tile under `label`
    /// assert!(sim.is_tile_awaited(0));
    /// assert!(sim.accept(&label, done).is_ok());
    /// assert!(!sim.is_tile_awaited(0));
    /// ```
    pub fn is_tile_awaited(&self, i: usize) -> bool
        ensures { result ≡ steps.is_tile_awaited self.now i }
    {
        let Some(_) = self.partial.kind else {
            return false;
        };
        let Some(tile) = self.partial.tiles.as_slice().get(i) else {
            return false;
        };
        self.partial.awaited[tile.number()]
    }

    /// Accepts the result of a tile that the open step awaits.
    ///
    /// # Errors
    /// `Stray`, with the result, if no step is open, its task is not one of the open step's, or that tile is already
    /// in. Nothing has changed then.
    ///
    /// ```rust
    /// // `sim` as in the example of `new`, with a step open; `label` is any
    /// let done = compute(sim.task(0, &label).unwrap(), &Table::new());
    /// assert!(sim.accept(&label, done.copy()).is_ok());
    /// assert!(sim.accept(&label, done).is_err());
    /// ```
    ///
    /// Promise: a result is accepted if and only if the open step waits for its task. Otherwise the result is returned, and
    /// nothing changes.
    pub fn accept(&mut self, label: &Label, done: Done) -> Result<(), Stray>
        ensures accepted { IsOk result ↔ steps.IsAwaitedTask self.old label.now done }
        ensures kind { steps.kind_of self.new.part ≡ steps.kind_of self.old.part }
        ensures taken { OnOk result
            (self.new ≡ record self.old {
              part = steps.with_tile
                  (steps.tile_number_of done) self.old.part;
            }) }
        ensures stray { IfErr result (λ s. s.done ≡ done) }
        ensures unchanged { OnErr result (self.new ≡ self.old) }
    {
        match self.accept_from(label, &done.by_ref()) {
            Ok(()) => Ok(()),
            Err(NotAwaited) => Err(Stray { done }),
        }
    }

    /// Accepts a result by reference, as `accept` does, and copies nothing of it.
    ///
    /// ```rust
    /// // `sim` as in the example of `new`, with a step open, and `done` the result of its one tile under `label`
    /// assert_eq!(sim.accept_from(&label, &done.by_ref()), Ok(()));
    /// assert_eq!(sim.accept_from(&label, &done.by_ref()), Err(NotAwaited));
    /// ```
    pub fn accept_from(&mut self, label: &Label, done: &DoneRef<'_>) -> Result<(), NotAwaited>
        ensures accepted { IsOk result ↔ steps.IsAwaitedTask self.old label.now done.now }
        ensures kind { steps.kind_of self.new.part ≡ steps.kind_of self.old.part }
        ensures taken { OnOk result
            (self.new ≡ record self.old {
              part = steps.with_tile
                  (steps.tile_number_of done.now) self.old.part;
            }) }
        ensures unchanged { OnErr result (self.new ≡ self.old) }
    {
        if !self.is_awaited(label, done.task()) {
            return Err(NotAwaited);
        }
        self.partial.add(done);
        Ok(())
    }

    /// Returns whether this is the task of a tile that the open step awaits.
    fn is_awaited(&self, label: &Label, task: &Task) -> bool
        ensures { IsTrue result ↔ steps.IsAwaitedTask self.now label.now task.now }
    {
        let Some(kind) = self.partial.kind else {
            return false;
        };
        let tile = TileId::of_task(task);
        match self.partial.awaited.as_slice().get(tile.number()) {
            Some(true) => self.is_task_of(task, label, kind, tile),
            _ => false,
        }
    }

    /// Returns whether this is the task of a tile of the present step. It copies no places.
    fn is_task_of(&self, task: &Task, label: &Label, kind: Kind, tile: TileId) -> bool
        requires tile { steps.is_tile self.now.composition self.now.sim.cur tile ≡ true }
        requires within { tile < BLOCK * steps.blocks (length self.now.sim.cur) }
        ensures { IsTrue result ↔ (task.now ≡ steps.tile_task self.now label.now kind tile) }
    {
        task.is_of(&self.tile_task(label, kind, tile))
    }

    /// Returns the task of a tile of the present step, by reference to the places of the frame. It shares the frame if that is
    /// written for tasks to share.
    #[inline]
    fn tile_task<'a>(&'a self, label: &'a Label, kind: Kind, tile: TileId) -> TaskRef<'a>
        requires tile { steps.is_tile self.now.composition self.now.sim.cur tile ≡ true }
        requires within { tile < BLOCK * steps.blocks (length self.now.sim.cur) }
        ensures { result ≡ steps.tile_task self.now label.now kind tile }
    {
        if !self.shared.is_written {
            return self.task_over(self.cur.as_slice(), label, kind, tile);
        }
        let frame = &self.shared.present;
        self.task_over(frame.places(), label, kind, tile)
            .sharing(frame)
    }

    /// Returns the task of a tile of the present step, by reference to places, which are those of the frame.
    #[inline]
    fn task_over<'a>(
        &'a self,
        places: &'a [Place],
        label: &'a Label,
        kind: Kind,
        tile: TileId,
    ) -> TaskRef<'a>
        requires frame { places.now ≡ self.now.sim.cur }
        requires tile { steps.is_tile self.now.composition self.now.sim.cur tile ≡ true }
        requires within { tile < BLOCK * steps.blocks (length self.now.sim.cur) }
        ensures { result ≡ steps.tile_task self.now label.now kind tile }
    {
        let (first, second) = (tile.first(), tile.second());
        TaskRef::new(
            self.name_of(label, kind, tile),
            self.atoms.mix(),
            BlockRef::new(cover::block(places, first), self.atoms.species_bits(first)),
            BlockRef::new(
                cover::block(places, second),
                self.atoms.species_bits(second),
            ),
        )
    }

    /// Returns the name of the task of a tile of the present step.
    fn name_of<'a>(&self, label: &'a Label, kind: Kind, tile: TileId) -> TaskNameRef<'a>
        requires { tile < BLOCK * steps.blocks (length self.now.sim.cur) }
        ensures { result ≡ (steps.tile_task self.now label.now kind tile).name }
    {
        let (first, second) = (tile.first() as u8, tile.second() as u8);
        TaskNameRef::new(label, self.step, kind, first, second)
    }
}
