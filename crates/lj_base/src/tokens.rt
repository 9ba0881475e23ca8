//! Tokens: the secrets that admit users.
ghost use Rattle.std.specs.Prelude.{◌≡◌, Some, codes};
ghost use Rattle.std.specs.List.{list_all};
ghost use Rattle.std.specs.Char.{is_ascii_alphanumeric};
ghost use Rattle.std.specs.Str.{bytes_eq};
ghost use Rattle.lj_base.specs.Tokens.{is_token, token_of};

use std::fmt;
use std::marker::Model;

/// The number of bytes in a token.
pub const TOKEN_BYTES: usize = 32;

/// The secret that admits a user: exactly 32 ASCII letters or digits. It is never printed.
#[derive(Drop)]
pub struct Token {
    bytes: [u8; TOKEN_BYTES],
}

impl Model for Token {
    ghost use Rattle.std.specs.Prelude.{List, ℕ};
    ghost use Rattle.lj_base.specs.Tokens.{IsToken};

    ghost Value = { List ℕ };

    ghost view = { λ token. token.bytes };

    ghost invariant = { λ token. IsToken token.bytes };
}

impl Token {
    /// Returns `word` as a token, if it is one.
    pub fn parse(word: &[u8]) -> Option<Token>
        ensures { result ≡ token_of word.now }
    {
        if !is_token(word) {
            return None;
        }
        let mut bytes = [0; TOKEN_BYTES];
        bytes.copy_from_slice(word);
        Some(Token { bytes })
    }

    /// Returns the bytes.
    pub fn as_bytes(&self) -> &[u8]
        ensures { result.now ≡ self.now }
    {
        &self.bytes
    }

    /// Returns whether `word` is this token.
    pub fn is(&self, word: &[u8]) -> bool
        ensures { result ≡ bytes_eq self.now word.now }
    {
        is_same(&self.bytes, word)
    }
}

fn is_token(word: &[u8]) -> bool
    ensures { result ≡ is_token word.now }
{
    word.len() == TOKEN_BYTES && all_alphanumeric(word)
}

fn all_alphanumeric(word: &[u8]) -> bool
    ensures { result ≡ list_all is_ascii_alphanumeric word.now }
{
    word.iter().all(|byte| byte.is_ascii_alphanumeric())
}

// Compares all bytes, so that the time it takes does not reveal how many of them are right.
fn is_same(bytes: &[u8], word: &[u8]) -> bool
    ensures { result ≡ bytes_eq bytes.now word.now }
{
    if bytes.len() != word.len() {
        return false;
    }
    let mut same = true;
    for i in 0..bytes.len() {
        same &= bytes[i] == word[i];
    }
    same
}

impl fmt::Debug for Token {
    ghost debug_output = { λ _. Some (codes "Token") };

    fn fmt<W: fmt::Write>(&self, f: &mut fmt::Formatter<W>) -> fmt::Result {
        f.write_str("Token")
    }
}
