//! The symbols of two species of atoms.
ghost use Rattle.std.specs.Prelude.{◌≡◌};
ghost use Rattle.lj_xyz.specs.Symbols.{IsSymbolPair, pair_of, is_second, is_of_pair};

use crate::symbol::Symbol;
use std::marker::Model;

/// Two different symbols, those of the two species of a mixture. It takes no memory.
#[derive(Debug, Drop)]
pub struct SymbolPair {
    first: Symbol,
    second: Symbol,
}

impl Model for SymbolPair {
    ghost use Rattle.lj_xyz.specs.Symbols as symbols;

    ghost Value = { symbols.SymbolPair };

    ghost view = { λ pair. record { first = pair.first; second = pair.second } };

    ghost invariant = { λ pair. symbols.IsSymbolPair (record { first = pair.first; second = pair.second }) };
}

impl SymbolPair {
    /// Makes a pair of two symbols, if they differ.
    ///
    /// ```rust
    /// assert!(SymbolPair::new(Symbol::new(b"Na")?, Symbol::new(b"Cl")?).is_some());
    /// assert!(SymbolPair::new(Symbol::new(b"Na")?, Symbol::new(b"Na")?).is_none());
    /// ```
    pub fn new(first: Symbol, second: Symbol) -> Option<SymbolPair>
        ensures { result ≡ pair_of first second }
    {
        if first.as_bytes() == second.as_bytes() {
            return None;
        }
        Some(SymbolPair { first, second })
    }

    /// Returns the symbol of the first species.
    ///
    /// ```rust
    /// let pair = SymbolPair::new(Symbol::new(b"Na")?, Symbol::new(b"Cl")?)?;
    /// assert_eq!(pair.first().as_bytes(), b"Na".as_slice());
    /// ```
    pub fn first(&self) -> &Symbol
        ensures value { result.now ≡ self.now.first }
        ensures pair { IsSymbolPair self.now }
    {
        &self.first
    }

    /// Returns the symbol of the second species.
    ///
    /// ```rust
    /// let pair = SymbolPair::new(Symbol::new(b"Na")?, Symbol::new(b"Cl")?)?;
    /// assert_eq!(pair.second().as_bytes(), b"Cl".as_slice());
    /// ```
    pub fn second(&self) -> &Symbol
        ensures value { result.now ≡ self.now.second }
        ensures pair { IsSymbolPair self.now }
    {
        &self.second
    }

    /// Returns whether a symbol is one of the two.
    ///
    /// ```rust
    /// let pair = SymbolPair::new(Symbol::new(b"Na")?, Symbol::new(b"Cl")?)?;
    /// assert!(pair.has(&Symbol::new(b"Na")?));
    /// assert!(!pair.has(&Symbol::new(b"Ar")?));
    /// ```
    pub fn has(&self, symbol: &Symbol) -> bool
        ensures { result ≡ is_of_pair self.now symbol.now }
    {
        *symbol == self.first || self.is_second(symbol)
    }

    /// Returns whether a symbol is the second one.
    ///
    /// ```rust
    /// let pair = SymbolPair::new(Symbol::new(b"Na")?, Symbol::new(b"Cl")?)?;
    /// assert!(pair.is_second(&Symbol::new(b"Cl")?));
    /// ```
    pub fn is_second(&self, symbol: &Symbol) -> bool
        ensures { result ≡ is_second self.now symbol.now }
    {
        *symbol == self.second
    }

    /// Returns an equal pair.
    ///
    /// ```rust
    /// let pair = SymbolPair::new(Symbol::new(b"Na")?, Symbol::new(b"Cl")?)?;
    /// assert_eq!(pair.copy().second().as_bytes(), b"Cl".as_slice());
    /// ```
    pub fn copy(&self) -> SymbolPair
        ensures { result ≡ self.now }
    {
        SymbolPair {
            first: self.first.copy(),
            second: self.second.copy(),
        }
    }
}
