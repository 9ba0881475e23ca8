//! Mixtures of two species of atoms.
ghost use Rattle.std.specs.Prelude.{ℕ, ℤ, ◌≡◌, ◌≤◌, ◌^◌, ◌↔◌, ◌∷◌, [], IsTrue, SomeIff, nat_lt};
ghost use Rattle.lj_ring.specs.Mix as mixtures;
ghost use Rattle.lj_ring.specs.Mix.{class_of, edge_of, can_interact, is_weight, mixture_of, IsMixture};

use crate::scales::{Edge, Scale, ScaleFault};
use lj_fixed::Nano;
use std::fmt;
use std::marker::Model;
use thiserror::Error;

/// Maximum energy weight of a class of pairs, in units of 1/256.
const MAX_WEIGHT: u32 = 65_536;

/// The weight of energies that leaves them as they are, in 256ths.
const WHOLE_WEIGHT: u32 = 256;

/// The species of an atom, one of two.
#[derive(Clone, Copy, PartialEq, Eq, Debug)]
pub enum Species {
    First,
    Second,
}

/// The weight of the energies of a class, in 256ths: 1 to 65,536.
#[derive(Clone, Copy, PartialEq, Eq, Debug)]
pub struct Weight {
    parts: u32,
}

impl Model for Weight {
    ghost use Rattle.std.specs.Prelude.{ℕ, IsTrue};
    ghost use Rattle.lj_ring.specs.declared.mixes.TheConstants.{MAX_WEIGHT};

    ghost Value = { ℕ };

    ghost view = { λ w. w.parts };

    ghost use Rattle.std.specs.Prelude.{◌≤◌};

    ghost invariant = { λ w. w.parts ≤ MAX_WEIGHT };

    ghost inverse = { λ n. record { parts = n } };
}

impl Weight {
    /// The weight that leaves energies as they are.
    pub const WHOLE: Weight = Weight {
        parts: WHOLE_WEIGHT,
    };

    /// Makes a weight of `parts` 256ths; `None` unless they are 1 to 65,536.
    ///
    /// ```rust
    /// assert_eq!(Weight::new(512)?.parts(), 512);
    /// assert_eq!(Weight::new(0), None);
    /// ```
    pub fn new(parts: u64) -> Option<Weight>
        ensures { SomeIff result (IsTrue (is_weight parts)) parts }
    {
        if 1 <= parts && parts <= u64::from(MAX_WEIGHT) {
            Some(Weight {
                parts: parts as u32,
            })
        } else {
            None
        }
    }

    /// Returns the weight in 256ths.
    ///
    /// ```rust
    /// assert_eq!(Weight::WHOLE.parts(), 256);
    /// ```
    #[inline]
    pub fn parts(&self) -> u32
        ensures value { result ≡ self.now }
        ensures most { result ≤ MAX_WEIGHT }
    {
        self.parts
    }
}

/// The interaction of two atoms of given species: the scale of the pair, and the weight of its energies.
#[derive(Clone, Copy, PartialEq, Eq, Debug)]
pub struct Class {
    pub scale: Scale,
    pub weight: Weight,
}

impl Class {
    /// Returns whether the other class is equal.
    #[inline]
    fn is(&self, other: &Class) -> bool
        ensures { IsTrue result ↔ (self.now ≡ other.now) }
    {
        self.scale.is(&other.scale) & (self.weight == other.weight)
    }
}

/// The reason why a class is refused: the first number of it that does not fit.
#[derive(Clone, Copy, PartialEq, Eq, Debug, Error)]
pub enum ClassFault {
    /// The scale: its edge, sigma or step factor does not fit.
    Scale(ScaleFault),
    /// The weight is not 1 to 65,536.
    Weight,
}

impl From<ScaleFault> for ClassFault {
    ghost use Rattle.std.specs.Prelude.{◌≡◌};
    ghost use Rattle.lj_ring.specs.declared.mixes.ClassFault.TheVariants as faults;

    ghost from_gives = { λ fault class_fault. class_fault ≡ faults.Scale fault };

    fn from(fault: ScaleFault) -> ClassFault {
        ClassFault::Scale(fault)
    }
}

impl fmt::Display for ClassFault {
    ghost use Rattle.std.specs.Prelude.{Some};
    ghost use Rattle.lj_ring.specs.FaultTexts.{class_fault_text};

    ghost output = { λ fault. Some (class_fault_text fault) };

    fn fmt<W: fmt::Write>(&self, f: &mut fmt::Formatter<W>) -> fmt::Result {
        match self {
            ClassFault::Scale(fault) => write!(f, "{fault}"),
            ClassFault::Weight => f.write_str("the weight is not 1 to 65536"),
        }
    }
}

/// The reason why a mixture is refused: its first class that does not fit, counted from 1 as in LOADMIX, and the fault.
#[derive(Clone, Copy, PartialEq, Eq, Debug, Error)]
pub struct MixFault {
    pub class: u8,
    pub fault: ClassFault,
}

impl fmt::Display for MixFault {
    ghost use Rattle.std.specs.Prelude.{Some};
    ghost use Rattle.lj_ring.specs.FaultTexts.{mix_fault_text};

    ghost output = { λ fault. Some (mix_fault_text fault) };

    fn fmt<W: fmt::Write>(&self, f: &mut fmt::Formatter<W>) -> fmt::Result {
        write!(f, "class {}: {}", self.class, self.fault)
    }
}

/// A mixture of two species of atoms in one box: the class of each pair of species.
#[derive(Clone, Copy, PartialEq, Eq, Debug)]
pub struct Mix {
    first: Class,
    unlike: Class,
    second: Class,
}

impl Model for Mix {
    ghost use Rattle.lj_ring.specs.Mix.{Mix};

    ghost Value = { Mix };

    ghost use Rattle.lj_ring.specs.Mix.{mixed, class_of};
    ghost use Rattle.lj_ring.specs.declared.mixes.Species.TheVariants.{First, Second};

    ghost view = { λ m. mixed m.first m.unlike m.second };

    ghost inverse = { λ m. record {
      first = class_of m First First;
      unlike = class_of m First Second;
      second = class_of m Second Second;
    } };
}

impl Mix {
    /// Makes the mixture of a box of this edge, in nano. Each class has a sigma in nano, a step factor in units of
    /// 2^-32, 1 to 2^24, and a weight in 256ths, 1 to 65,536. They are the classes of two atoms of the first species,
    /// of one of each, and of two of the second.
    ///
    /// # Errors
    /// The first class that does not fit, with the first of its edge, sigma, step factor and weight that does not.
    ///
    /// ```rust
    /// let (edge, one, half) = (parse_nano(b"256")?, parse_nano(b"1")?, parse_nano(b"0.5")?);
    /// let mix = Mix::new([(one, 100, 256), (one, 200, 128), (half, 400, 512)], edge)?;
    /// assert_eq!(mix.class(Species::Second, Species::Second).scale.step_factor(), 400);
    /// ```
    ///
    /// Promise: the result is the mixture, or the first fault of the first faulty class of pairs.
    pub fn new(classes: [(Nano, u64, u64); 3], edge: Nano) -> Result<Mix, MixFault>
        ensures { (first unlike second : ℤ × ℕ × ℕ) → classes ≡ first ∷ unlike ∷ second ∷ [] →
            result ≡ mixture_of edge first unlike second }
    {
        let [first, unlike, second] = classes;
        Ok(Mix {
            first: class_at(1, edge, first)?,
            unlike: class_at(2, edge, unlike)?,
            second: class_at(3, edge, second)?,
        })
    }

    /// Returns the mixture in which all atoms are alike: one class of the whole weight.
    ///
    /// ```rust
    /// let mix = Mix::one(Scale::new(parse_nano(b"256")?, parse_nano(b"1")?, 1)?);
    /// assert_eq!(mix.class(Species::First, Species::Second).weight, Weight::WHOLE);
    /// ```
    pub fn one(scale: Scale) -> Mix
        ensures { result ≡ mixtures.pure_mix scale }
    {
        Mix {
            first: whole_class(&scale),
            unlike: whole_class(&scale),
            second: whole_class(&scale),
        }
    }

    /// Returns the edge of the box.
    ///
    /// ```rust
    /// let mix = Mix::one(Scale::new(parse_nano(b"256")?, parse_nano(b"1")?, 1)?);
    /// assert_eq!(mix.edge().nano(), 256_000_000_000);
    /// ```
    pub fn edge(&self) -> Edge
        ensures { result ≡ edge_of self.now }
    {
        self.first.scale.edge()
    }

    /// Returns whether the other mixture is equal, without a branch.
    ///
    /// ```rust
    /// let (edge, one) = (parse_nano(b"256")?, parse_nano(b"1")?);
    /// let mix = Mix::new([(one, 100, 256), (one, 100, 128), (one, 100, 512)], edge)?;
    /// assert!(mix.is(&Mix::new([(one, 100, 256), (one, 100, 128), (one, 100, 512)], edge)?));
    /// assert!(!mix.is(&Mix::new([(one, 100, 256), (one, 100, 128), (one, 100, 511)], edge)?));
    /// ```
    #[inline]
    pub fn is(&self, other: &Mix) -> bool
        ensures { IsTrue result ↔ (self.now ≡ other.now) }
    {
        self.first.is(&other.first) & self.unlike.is(&other.unlike) & self.second.is(&other.second)
    }

    /// Returns the class of two atoms by their species, in either order.
    ///
    /// ```rust
    /// let (edge, one) = (parse_nano(b"256")?, parse_nano(b"1")?);
    /// let mix = Mix::new([(one, 100, 256), (one, 100, 128), (one, 100, 512)], edge)?;
    /// assert_eq!(mix.class(Species::Second, Species::First).weight.parts(), 128);
    /// ```
    ///
    /// Promise: the class of a pair follows from the species of its two atoms, in either order.
    #[inline]
    pub fn class(&self, one: Species, other: Species) -> &Class
        ensures value { result.now ≡ class_of self.now one other }
        ensures symmetric { class_of self.now other one ≡ class_of self.now one other }
    {
        match (one, other) {
            (Species::First, Species::First) => &self.first,
            (Species::Second, Species::Second) => &self.second,
            _ => &self.unlike,
        }
    }

    /// Returns the least squared distance out of reach of all pairs, in square ring units: that of the class of the
    /// greatest sigma. No pair that interacts lies half the box apart.
    ///
    /// ```rust
    /// let (edge, one, two) = (parse_nano(b"256")?, parse_nano(b"1")?, parse_nano(b"2")?);
    /// let mix = Mix::new([(one, 100, 256), (one, 100, 256), (two, 100, 256)], edge)?;
    /// assert_eq!(mix.reach(), 83_886_080 * 83_886_080); // 2.5 times the greatest sigma
    /// ```
    ///
    /// Promise: at least one class of pairs interacts if and only if the squared distance is below the result.
    #[inline]
    pub fn reach(&self) -> u64
        ensures value { (s : ℕ) → can_interact self.now s ≡ nat_lt s result }
        ensures most { result ≤ 2 ^ 62 }
        ensures near { IsMixture self.now }
    {
        let like = self.first.scale.reach().max(self.second.scale.reach());
        like.max(self.unlike.scale.reach())
    }
}

/// Returns the class of a scale whose energies have the whole weight.
fn whole_class(scale: &Scale) -> Class
    ensures { result ≡ mixtures.whole_class scale.now }
{
    Class {
        scale: *scale,
        weight: Weight::WHOLE,
    }
}

/// Makes the class of an edge and of a sigma, a step factor and a weight; a fault gets the number of the class.
fn class_at(class: u8, edge: Nano, numbers: (Nano, u64, u64)) -> Result<Class, MixFault>
    ensures { result ≡ mixtures.class_at class (mixtures.class_of_numbers edge numbers) }
{
    let (sigma, h, parts) = numbers;
    class_from(edge, sigma, h, parts).map_err(|fault| MixFault { class, fault })
}

/// Makes the class of a box of this edge from a sigma in nano, a step factor in units of 2^-32 and a weight in 256ths,
/// or returns the first of these that does not fit.
fn class_from(edge: Nano, sigma: Nano, h: u64, parts: u64) -> Result<Class, ClassFault>
    ensures { result ≡ mixtures.class_of_numbers edge (sigma, h, parts) }
{
    let scale = Scale::new(edge, sigma, h)?;
    let weight = Weight::new(parts).ok_or(ClassFault::Weight)?;
    Ok(Class { scale, weight })
}
