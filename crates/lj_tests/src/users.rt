//! Two users, A and B, with one token.
ghost use Rattle.std.specs.Prelude.{◌≡◌, ◌≤◌, length, false, OnOk, IfOk};
ghost use Rattle.std.specs.List.{IsDistinct, list_any};
ghost use Rattle.std.specs.Str.{bytes_eq};
ghost use Rattle.lj_access.specs.UserLists.{user_names};

use lj_access::{MAX_USERS, User, is_named};
use lj_base::{Name, TOKEN_BYTES, Token};
use lj_quota::Quota;
use std::alloc::{AllocError, AllocGlobal};
use std::process::Abort;

/// Their names, of one letter each.
pub const USERS: [&str; 2] = ["A", "B"];

/// The token of both.
pub const SECRET: [u8; TOKEN_BYTES] = [b'0'; TOKEN_BYTES];

pub fn name(rt: &impl Abort, word: &str) -> Name {
    Name::parse(word.as_bytes()).expect(rt, "a name")
}

pub fn token(rt: &impl Abort) -> Token {
    Token::parse(&SECRET).expect(rt, "a token")
}

fn user(rt: &impl Abort, word: &str) -> User {
    User {
        name: name(rt, word),
        token: token(rt),
        quota: Quota {
            sessions: 4,
            atoms: 100,
            branches: 4,
        },
    }
}

/// Adds a user whose name is new.
fn add(users: &mut Vec<User>, user: User) -> Result<(), AllocError>
    requires fresh { list_any (λ other. bytes_eq user.name other.name) users.old.items ≡ false }
    requires distinct { IsDistinct bytes_eq (user_names users.old.items) }
    ensures { OnOk result (IsDistinct bytes_eq (user_names users.new.items)) }
{
    users.push(user)?;
    Ok(())
}

/// Makes the users.
pub fn users(rt: &(impl Abort + AllocGlobal)) -> Result<Vec<User>, AllocError>
    ensures some { IfOk result (λ users. 1 ≤ length users.items) }
    ensures most { IfOk result (λ users. length users.items ≤ MAX_USERS) }
    ensures distinct { IfOk result (λ users. IsDistinct bytes_eq (user_names users.items)) }
{
    let mut users = Vec::new(rt.alloc());
    for word in &USERS {
        let user = user(rt, word);
        assert!(rt; !is_named(&users, &user.name));
        add(&mut users, user)?;
    }
    assert!(rt; 1 <= users.len() && users.len() <= MAX_USERS);
    Ok(users)
}
