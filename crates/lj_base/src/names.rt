//! Names, and labels of sessions.
ghost use Rattle.std.specs.Prelude.{◌≡◌, ◌≤◌, length, nat_eq, Some};
ghost use Rattle.std.specs.List.{list_all};
ghost use Rattle.std.specs.Cmp.{partial_equiv_from_equiv};
ghost use Rattle.std.specs.Cmp.Lexicographic.{pointwise, nat_list_eq_equiv, bytes_decides};
ghost use Rattle.std.specs.Hash as fed;
ghost use Rattle.std.specs.Hash.{same_Alike};
ghost use Rattle.lj_base.specs.Names.{blank_name, is_name_byte, is_name, IsName, name_of};

use arrayvec::ArrayString;
use std::hash::{Hash, Hasher};
use std::marker::Model;
use std::{fmt, str};

/// Maximum number of bytes in a name.
pub const MAX_NAME_BYTES: usize = 16;

/// The name of a user, a session or a saved simulation: 1 to 16 letters, digits, `_` and `-`.
#[derive(Debug, Drop)]
pub struct Name {
    text: ArrayString<MAX_NAME_BYTES>,
}

impl Model for Name {
    ghost use Rattle.std.specs.Prelude.{List, ℕ};
    ghost use Rattle.lj_base.specs.Names.{IsName};

    ghost Value = { List ℕ };

    ghost view = { λ name. name.text.bytes };

    ghost invariant = { λ name. IsName name.text.bytes };
}

impl Name {
    /// Parses a name; `None` if `word` is not one.
    ///
    /// Promise: if the word is a name, the result is this name; otherwise it is `None`.
    pub fn parse(word: &[u8]) -> Option<Name>
        ensures { result ≡ name_of word.now }
    {
        if !is_name(word) {
            return None;
        }
        let text = str::from_utf8(word).unwrap();
        let text = ArrayString::from(text).unwrap();
        Some(Name { text })
    }

    /// Returns the name `_`.
    pub fn blank() -> Name
        ensures { result ≡ blank_name }
    {
        Name {
            text: ArrayString::from("_").unwrap(),
        }
    }

    /// Returns the bytes of the name.
    pub fn as_bytes(&self) -> &[u8]
        ensures value { result.now ≡ self.now }
        ensures name { IsName result.now }
        ensures some { 1 ≤ length result.now }
        ensures most { length result.now ≤ MAX_NAME_BYTES }
    {
        self.as_str().as_bytes()
    }

    /// Returns the text of the name.
    pub fn as_str(&self) -> &str
        ensures value { result.now ≡ self.now }
        ensures name { IsName result.now }
        ensures some { 1 ≤ length result.now }
        ensures most { length result.now ≤ MAX_NAME_BYTES }
    {
        self.text.as_str()
    }

    /// Returns an equal name.
    pub fn copy(&self) -> Name
        ensures { result ≡ self.now }
    {
        Name { text: self.text }
    }

    /// Makes this name equal to the other.
    pub fn copy_from(&mut self, other: &Name)
        ensures { self.new ≡ other.now }
    {
        self.text = other.text;
    }
}

fn is_name(word: &[u8]) -> bool
    ensures { result ≡ is_name word.now }
{
    1 <= word.len() && word.len() <= MAX_NAME_BYTES && all_name_bytes(word)
}

fn all_name_bytes(word: &[u8]) -> bool
    ensures { result ≡ list_all is_name_byte word.now }
{
    word.iter().all(|byte| is_name_byte(*byte))
}

fn is_name_byte(byte: u8) -> bool
    ensures { result ≡ is_name_byte byte }
{
    byte.is_ascii_alphanumeric() || byte == b'_' || byte == b'-'
}

impl PartialEq for Name {
    ghost eq = { pointwise nat_eq };

    ghost laws = { partial_equiv_from_equiv nat_list_eq_equiv };

    fn eq(&self, other: &Self) -> bool {
        self.text == other.text
    }
}

impl Eq for Name {
    ghost laws = { nat_list_eq_equiv };
}

impl Hash for Name {
    ghost hash_input = { λ name. fed.str name };

    ghost respects_eq = { (same_Alike fed.str bytes_decides).fed };

    fn hash<H: Hasher>(&self, state: &mut H) {
        self.text.hash(state);
    }
}

impl fmt::Display for Name {
    ghost output = { λ name. Some name };

    fn fmt<W: fmt::Write>(&self, f: &mut fmt::Formatter<W>) -> fmt::Result {
        write!(f, "{}", self.text)
    }
}

/// The label of a session: the number of its user, and its name.
#[derive(PartialEq, Eq, Debug, Drop)]
pub struct Label {
    pub user: u8,
    pub session: Name,
}

impl Label {
    /// Returns an equal label.
    pub fn copy(&self) -> Label
        ensures { result ≡ self.now }
    {
        Label {
            user: self.user,
            session: self.session.copy(),
        }
    }

    /// Makes this label equal to the other.
    pub fn copy_from(&mut self, other: &Label)
        ensures { self.new ≡ other.now }
    {
        self.user = other.user;
        self.session.copy_from(&other.session);
    }
}
