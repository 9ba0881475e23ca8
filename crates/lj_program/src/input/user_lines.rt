//! Users, read from the lines of a file.
ghost use Rattle.std.specs.Prelude.{◌≡◌, ◌↔◌, ◌≤◌, [], length, Some, IsTrue, IfOk, IfSome, OnErr};
ghost use Rattle.lj_fixed.specs.Numbers.{number_of};
ghost use Rattle.lj_program.specs.NamedUsers.{AreUsers, SaysUser};

use crate::input::text::{FromLines, LineFault, TextFault, first_line, read_lines, without_user};
use crate::quota_limits::{MAX_QUOTA_ATOMS, MAX_QUOTA_BRANCHES, MAX_QUOTA_SESSIONS};
use lj_access::{MAX_USERS, User, is_named};
use lj_base::{Name, Token, Words, split_word};
use lj_fixed::parse_number;
use lj_quota::Quota;
use std::alloc::Global;
use std::marker::Model;

/// Why the users of a server cannot be read: `Line` is the first bad line, counted from 1, or the one after the last line if
/// there is no user.
pub type UsersFault = TextFault;

/// Reads the users of a server: a line for each, with a name, a token, and the limits of sessions, atoms and branches. Lines
/// without a word, and lines that begin with `#`, are skipped.
///
/// # Errors
/// The first bad line, or out of memory.
///
/// Promise: there are 1 to 64 users, each with a different name.
pub fn read_users(alloc: Global, bytes: &[u8]) -> Result<Vec<User>, UsersFault>
    ensures users { IfOk result (λ users. AreUsers users.items) }
    ensures some { IfOk result (λ users. 1 ≤ length users.items) }
{
    let mut users = Users::new(alloc);
    read_lines(&mut users, bytes)?;
    if users.is_empty() {
        return Err(without_user(bytes));
    }
    Ok(users.into_vec())
}

/// Users with different names, at most `MAX_USERS`.
#[derive(Drop)]
pub struct Users {
    users: Vec<User>,
}

impl Model for Users {
    ghost use Rattle.std.specs.Prelude.{List};
    ghost use Rattle.lj_access.specs.declared.user.User as declared;
    ghost use Rattle.lj_program.specs.NamedUsers as named;

    ghost Value = { List declared.User };

    ghost view = { λ users. users.users.items };

    ghost invariant = { λ users. named.AreUsers users.users.items };
}

impl Users {
    /// Makes a list without users.
    pub fn new(alloc: Global) -> Users
        ensures { result ≡ [] }
    {
        Users {
            users: Vec::new(alloc),
        }
    }

    /// Returns whether there are none.
    pub fn is_empty(&self) -> bool
        ensures { IsTrue result ↔ (self.now ≡ []) }
    {
        self.users.is_empty()
    }

    /// Adds the user in a line, unless the line has no word or begins with `#`.
    fn read_line(&mut self, line: &[u8]) -> Result<(), LineFault> {
        if line.starts_with(b"#") || split_word(line).is_none() {
            return Ok(());
        }
        self.add(Words::new(line))
    }

    /// Adds the user in these words: a name that no user has yet, a token, and the limits of sessions, atoms and branches.
    ///
    /// # Errors
    /// `Form` if the words are no user, the name is taken, or there are `MAX_USERS` already; `Memory`. Nothing changes then.
    pub fn add(&mut self, words: Words) -> Result<(), LineFault>
        ensures { OnErr result (self.new ≡ self.old) }
    {
        let user = parse_user(words).ok_or(LineFault::Form)?;
        if self.users.len() >= MAX_USERS || is_named(&self.users, &user.name) {
            return Err(LineFault::Form);
        }
        self.users.push(user)?;
        Ok(())
    }

    /// Returns the users, in the order in which they were added.
    pub fn into_vec(self) -> Vec<User>
        ensures value { result.items ≡ self }
        ensures users { AreUsers result.items }
    {
        let Users { users } = self;
        users
    }
}

impl FromLines for Users {
    fn read(&mut self, bytes: &[u8]) -> Result<usize, LineFault> {
        let (line, after) = first_line(bytes);
        self.read_line(line)?;
        Ok(bytes.len() - after.len())
    }
}

/// Returns the user that five words say.
fn parse_user(mut words: Words) -> Option<User>
    ensures { IfSome result (SaysUser words.entry) }
{
    let user = User {
        name: Name::parse(words.next()?)?,
        token: Token::parse(words.next()?)?,
        quota: Quota {
            sessions: parse_limited(words.next()?, MAX_QUOTA_SESSIONS)?,
            atoms: parse_limited(words.next()?, MAX_QUOTA_ATOMS)?,
            branches: parse_limited(words.next()?, MAX_QUOTA_BRANCHES)?,
        },
    };
    words.end()?;
    Some(user)
}

/// Returns the number in a word, if it is at most `most`.
fn parse_limited(word: &[u8], most: u64) -> Option<u64>
    ensures value { IfSome result (λ number. number_of word.now ≡ Some number) }
    ensures most { IfSome result (λ number. number ≤ most) }
{
    parse_number(word).filter(|number| *number <= most)
}
