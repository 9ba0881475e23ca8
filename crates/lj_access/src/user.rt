//! Users.
ghost use Rattle.std.specs.Prelude.{◌≡◌};
ghost use Rattle.std.specs.List.{list_any};
ghost use Rattle.std.specs.Str.{bytes_eq};

use lj_base::{Name, Token};
use lj_quota::Quota;

/// A user, with the quota of the user's state.
#[derive(Debug, Drop)]
pub struct User {
    pub name: Name,
    pub token: Token,
    pub quota: Quota,
}

/// Returns whether one of these users has this name.
pub fn is_named(users: &[User], name: &Name) -> bool
    ensures { result ≡ list_any (λ user. bytes_eq name.now user.name) users.now }
{
    users.iter().any(|user| *name == user.name)
}
