//! The boxes that a pass keeps for the tasks that it posts next.
ghost use Rattle.std.specs.Prelude.{◌≡◌, ◌+◌, IfNone, OnErr, OnOk, OnSome};

use arrayvec::ArrayVec;
use lj_book::TaskBox;
use std::marker::Model;

/// Maximum number of boxes that a pass keeps for posting tasks.
pub const MAX_SPARE_BOXES: usize = 16;

/// Boxes for the next tasks of a pass, last in, first out. It allocates no memory. Contracts see how many there are.
#[derive(Drop)]
pub(crate) struct KeptBoxes {
    places: ArrayVec<Option<TaskBox>, MAX_SPARE_BOXES>,
}

impl Model for KeptBoxes {
    ghost use Rattle.std.specs.Prelude.{◌≡◌, ℕ, is_some, length, true};
    ghost use Rattle.std.specs.List.{All};

    ghost Value = { ℕ };

    ghost view = { λ kept. length kept.places.items };

    ghost invariant = { λ kept. All (λ place. is_some place ≡ true) kept.places.items };
}

impl KeptBoxes {
    /// Makes it without boxes.
    pub(crate) fn new() -> KeptBoxes
        ensures { result ≡ 0 }
    {
        KeptBoxes {
            places: ArrayVec::new(),
        }
    }

    /// Takes the box that was added last.
    pub(crate) fn pop(&mut self) -> Option<TaskBox>
        ensures some { OnSome result (self.old ≡ self.new + 1) }
        ensures none { IfNone result (self.old ≡ 0) }
        ensures unchanged { IfNone result (self.new ≡ self.old) }
    {
        self.places.pop().flatten()
    }

    /// Adds a box.
    ///
    /// # Errors
    /// The box, where there is no place for it.
    pub(crate) fn push(&mut self, spare: TaskBox) -> Result<(), TaskBox>
        ensures kept { OnOk result (self.new ≡ self.old + 1) }
        ensures full { OnErr result (self.old ≡ MAX_SPARE_BOXES) }
        ensures unchanged { OnErr result (self.new ≡ self.old) }
    {
        if self.places.is_full() {
            return Err(spare);
        }
        self.places.push(Some(spare));
        Ok(())
    }
}
