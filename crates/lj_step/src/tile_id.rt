//! Tiles by their two blocks.
ghost use Rattle.std.specs.Prelude.{◌≡◌, ◌<◌, ◌*◌};
ghost use Rattle.lj_step.specs.OpenSteps as steps;

use lj_task::{BLOCK, MAX_BLOCKS, Task};
use std::marker::Model;

/// A tile by its two blocks. Contracts see its number.
#[derive(Clone, Copy)]
pub(crate) struct TileId {
    first: u8,
    second: u8,
}

impl Model for TileId {
    ghost use Rattle.std.specs.Prelude.{ℕ, ◌<◌};
    ghost use Rattle.lj_task.specs.declared.blocks.TheConstants.{MAX_BLOCKS};
    ghost use Rattle.lj_step.specs.OpenSteps.{tile_number, first_block, second_block};

    ghost Value = { ℕ };

    ghost view = { λ t. tile_number t.first t.second };

    ghost invariant = { λ t. t.second < MAX_BLOCKS };

    ghost inverse = { λ k. record { first = first_block k; second = second_block k } };

    ghost use Rattle.lj_step.specs.TileIds.{blocks_of-number};

    ghost inverse_ok = { blocks_of-number };
}

impl TileId {
    /// Returns the tile of a number.
    pub fn of_number(number: usize) -> TileId
        requires { number < BLOCK * MAX_BLOCKS }
        ensures { result ≡ number }
    {
        TileId {
            first: (number / BLOCK) as u8,
            second: (number % BLOCK) as u8,
        }
    }

    /// Returns the tile of a task, by its name.
    pub fn of_task(task: &Task) -> TileId
        ensures { result ≡ steps.tile_number_of task.now }
    {
        let name = task.name();
        TileId {
            first: name.bi,
            second: name.bj,
        }
    }

    /// Returns its number.
    pub fn number(self) -> usize
        ensures { result ≡ self }
    {
        BLOCK * self.first() + self.second()
    }

    /// Returns its first block.
    pub fn first(self) -> usize
        ensures { result ≡ steps.first_block self }
    {
        usize::from(self.first)
    }

    /// Returns its second block.
    pub fn second(self) -> usize
        ensures { result ≡ steps.second_block self }
    {
        usize::from(self.second)
    }
}
