//! Symbols of atoms.
ghost use Rattle.std.specs.Prelude.{IsTrue, SomeIff, ◌≡◌, nat_eq};
ghost use Rattle.std.specs.Char.{is_ascii_graphic};
ghost use Rattle.std.specs.Cmp.{partial_equiv_from_equiv};
ghost use Rattle.std.specs.Cmp.Lexicographic.{pointwise, nat_list_eq_equiv};
ghost use Rattle.std.specs.List.{list_all};
ghost use Rattle.lj_xyz.specs.Symbols.{is_symbol};

use arrayvec::ArrayVec;
use std::marker::Model;

/// Maximum number of bytes in a symbol.
pub const MAX_SYMBOL_BYTES: usize = 16;

/// The symbol of an atom: 1 to 16 bytes, each in 0x21 to 0x7E.
#[derive(Debug, Drop)]
pub struct Symbol {
    bytes: ArrayVec<u8, MAX_SYMBOL_BYTES>,
}

impl Model for Symbol {
    ghost use Rattle.std.specs.Prelude.{List, ℕ, IsTrue};
    ghost use Rattle.lj_xyz.specs.Symbols.{is_symbol};

    ghost Value = { List ℕ };

    ghost view = { λ s. s.bytes.items };

    ghost invariant = { λ s. IsTrue (is_symbol s.bytes.items) };
}

// Returns whether a word is a symbol.
fn is_symbol(word: &[u8]) -> bool
    ensures { result ≡ is_symbol word.now }
{
    !word.is_empty() && word.len() <= MAX_SYMBOL_BYTES && all_graphic(word)
}

fn all_graphic(word: &[u8]) -> bool
    ensures { result ≡ list_all is_ascii_graphic word.now }
{
    word.iter().all(u8::is_ascii_graphic)
}

impl Symbol {
    /// Makes a symbol of a word, if it is one.
    ///
    /// ```rust
    /// assert!(Symbol::new(b"Ar").is_some());
    /// assert!(Symbol::new(b"two words").is_none());
    /// ```
    pub fn new(word: &[u8]) -> Option<Symbol>
        ensures { SomeIff result (IsTrue (is_symbol word.now)) word.now }
    {
        if !is_symbol(word) {
            return None;
        }
        let mut bytes = ArrayVec::new();
        let _fits = bytes.try_extend_from_slice(word);
        Some(Symbol { bytes })
    }

    /// ```rust
    /// assert_eq!(Symbol::new(b"Ar")?.as_bytes(), b"Ar".as_slice());
    /// ```
    pub fn as_bytes(&self) -> &[u8]
        ensures value { result.now ≡ self.now }
        ensures symbol { IsTrue (is_symbol self.now) }
    {
        self.bytes.as_slice()
    }

    /// Returns an equal symbol.
    pub(crate) fn copy(&self) -> Symbol
        ensures { result ≡ self.now }
    {
        let mut bytes = ArrayVec::new();
        let _fits = bytes.try_extend_from_slice(self.as_bytes());
        Symbol { bytes }
    }
}

impl PartialEq for Symbol {
    ghost eq = { pointwise nat_eq };

    ghost laws = { partial_equiv_from_equiv nat_list_eq_equiv };

    fn eq(&self, other: &Self) -> bool {
        self.as_bytes() == other.as_bytes()
    }
}

impl Eq for Symbol {
    ghost laws = { nat_list_eq_equiv };
}
