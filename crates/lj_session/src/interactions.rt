//! The species of a load's atoms and how they interact, by the words of the load.
ghost use Rattle.std.specs.Prelude.{◌≡◌};
ghost use Rattle.std.specs.Option.{option_copied};
ghost use Rattle.lj_session.specs.Interactions.{load_reply, mix_of_interactions, nano_or_zero, numbers_of, symbols_of};

use crate::refusal::Refusal;
use crate::reply::Reply;
use lj_base::Name;
use lj_fixed::Nano;
use lj_ring::{Mix, Scale};
use lj_xyz::SymbolPair;

/// The numbers of a class of pairs. Each is `None` if its word does not parse.
#[derive(Clone, Copy, Debug)]
pub struct ClassNumbers {
    /// In nano.
    pub sigma: Option<Nano>,
    /// In units of 2^-32.
    pub step_factor: Option<u64>,
    /// In 256ths.
    pub weight: Option<u64>,
}

/// The species of a load's atoms and how they interact. Each number is `None` if its word does not parse.
#[derive(Debug, Drop)]
pub enum Interactions {
    /// One species, under any symbols: LOAD.
    Pure {
        /// In nano.
        sigma: Option<Nano>,
        /// In units of 2^-32.
        step_factor: Option<u64>,
    },
    /// Two species, each under its symbol: LOADMIX. The classes are those of two atoms of the first species, of one of
    /// each, and of two of the second.
    Mixed {
        symbols: SymbolPair,
        first: ClassNumbers,
        unlike: ClassNumbers,
        second: ClassNumbers,
    },
}

impl ClassNumbers {
    /// Returns sigma, step factor and weight, with 0, which is out of range, for a word that does not parse.
    fn numbers(&self) -> (Nano, u64, u64)
        ensures { result ≡ numbers_of self.now }
    {
        (
            or_zero(self.sigma),
            self.step_factor.unwrap_or(0),
            self.weight.unwrap_or(0),
        )
    }
}

impl Interactions {
    /// Makes the mixture of a box of this edge.
    ///
    /// # Errors
    /// The first of edge, and of sigma, step factor and weight of each class in turn, that is out of range.
    pub(crate) fn mix(&self, edge: Option<Nano>) -> Result<Mix, Refusal>
        ensures { result ≡ mix_of_interactions (nano_or_zero edge) self.now }
    {
        let edge = or_zero(edge);
        match self {
            Interactions::Pure { sigma, step_factor } => {
                let scale = Scale::new(edge, or_zero(*sigma), step_factor.unwrap_or(0))?;
                Ok(Mix::one(scale))
            }
            Interactions::Mixed {
                first,
                unlike,
                second,
                ..
            } => {
                let classes = [first.numbers(), unlike.numbers(), second.numbers()];
                Ok(Mix::new(classes, edge)?)
            }
        }
    }

    /// Returns the symbols that the atoms of the first frame must have; `None` if they can have any.
    pub(crate) fn symbols(&self) -> Option<&SymbolPair>
        ensures { option_copied result ≡ symbols_of self.now }
    {
        match self {
            Interactions::Pure { .. } => None,
            Interactions::Mixed { symbols, .. } => Some(symbols),
        }
    }

    /// Returns the reply once `atoms` atoms are loaded.
    pub(crate) fn loaded(&self, name: Name, atoms: usize) -> Reply
        ensures { result ≡ load_reply self.now name atoms }
    {
        match self {
            Interactions::Pure { .. } => Reply::Loaded { name, atoms },
            Interactions::Mixed { .. } => Reply::LoadedMix { name, atoms },
        }
    }
}

/// Returns the number, or 0, which is neither an edge nor a sigma, for a word that does not parse.
fn or_zero(nano: Option<Nano>) -> Nano
    ensures { result ≡ nano_or_zero nano }
{
    nano.unwrap_or(Nano::new(0).unwrap())
}
