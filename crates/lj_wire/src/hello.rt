//! The first line of a connection, with the name and the token of its user.
ghost use Rattle.std.specs.Prelude.{◌≡◌};
ghost use Rattle.lj_wire.specs.Greetings.{hello_asked, greeting, hello_of};

use crate::line::{is_over, words_in};
use lj_base::{Name, Token, Words};

/// What the first line of a connection says.
#[derive(Debug, Drop)]
pub enum Hello {
    /// HELLO name token
    Asked { name: Name, token: Token },
    /// Any other line.
    Other,
}

/// Parses a first line, given without its line feed.
pub(crate) fn parse_hello(line: &[u8]) -> Hello
    ensures { result ≡ hello_of line.now }
{
    if is_over(line) {
        return Hello::Other;
    }
    greeting(words_in(line)).unwrap_or(Hello::Other)
}

fn greeting(mut words: Words) -> Option<Hello>
    ensures { result ≡ greeting words.entry }
{
    let word = words.next()?;
    if word != b"HELLO".as_slice() {
        return None;
    }
    asked(words)
}

// Parses the words after HELLO: a name and a token.
fn asked(mut words: Words) -> Option<Hello>
    ensures { result ≡ hello_asked words.entry }
{
    let name = words.next()?;
    let token = words.next()?;
    words.end()?;
    Some(Hello::Asked {
        name: Name::parse(name)?,
        token: Token::parse(token)?,
    })
}
