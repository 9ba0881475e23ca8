//! Laws of reading.
ghost use Rattle.std.specs.Prelude.{◌≡◌, ℕ, List, Option, Result};
ghost use Rattle.lj_xyz.specs.declared.xyz_fault.XyzFault.{XyzFault};
ghost use Rattle.lj_xyz.specs.declared.atom_row.AtomRow.{AtomRow};
ghost use Rattle.lj_xyz.specs.Bodies.{Mode, IsReading};
ghost use Rattle.lj_xyz.specs.Reading.{reading};
ghost use Rattle.lj_xyz.specs.Symbols.{SymbolPair};

/// Promise: for given species and a given mode each body has exactly one answer: the result of reading its lines in order.
pub fn one_reading()
    ensures one { (symbols : Option SymbolPair) (mode : Mode) (lines : List (List ℕ))
        (a b : Result (List (List AtomRow)) XyzFault) →
        IsReading symbols mode lines a → IsReading symbols mode lines b → a ≡ b }
    ensures given { (symbols : Option SymbolPair) (mode : Mode) (lines : List (List ℕ)) →
        IsReading symbols mode lines (reading symbols mode lines) }
{}
