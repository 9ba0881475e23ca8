//! The composition of a simulation: its mixture, and the bits of the atoms of the second species.
ghost use Rattle.std.specs.Prelude.{◌≡◌};
ghost use Rattle.lj_step.specs.Sets.{number_of_bits, species_bits_in};

use lj_ring::Mix;
use std::marker::Model;

/// The mixture of some atoms, and for each block of 64 the bits of those of the second species.
#[derive(Drop)]
pub(crate) struct Atoms {
    mix: Mix,
    species_bits: Vec<u64>,
}

impl Model for Atoms {
    ghost use Rattle.lj_task.specs.Species.{Composition};
    ghost use Rattle.lj_step.specs.Sets.{number_of_bits};

    ghost Value = { Composition };

    ghost view = { λ a. record { mix = a.mix; species_bits = number_of_bits a.species_bits.items } };
}

impl Atoms {
    pub fn new(mix: Mix, species_bits: Vec<u64>) -> Atoms
        ensures { result ≡ record { mix = mix; species_bits = number_of_bits species_bits.items } }
    {
        Atoms { mix, species_bits }
    }

    pub fn mix(&self) -> &Mix
        ensures { result.now ≡ self.now.mix }
    {
        &self.mix
    }

    /// Returns which atoms of a block are of the second species, bit by bit.
    pub fn species_bits(&self, block: usize) -> u64
        ensures { result ≡ species_bits_in self.now.species_bits block }
    {
        self.species_bits.get(block).copied().unwrap_or(0)
    }
}
