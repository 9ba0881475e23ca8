//! Quotas: how many sessions, atoms and saved simulations a user may have.
#![tactic(auto)]

ghost use Rattle.std.specs.Prelude.{◌≡◌, ◌↔◌, ◌≤◌, ◌<◌, ◌+◌, IsOk, IsErrOf, IfErr};
ghost use Rattle.lj_quota.specs.declared.Over.TheVariants.{Sessions, Atoms, Branches};

use std::fmt;
use thiserror::Error;

/// The limits on what a user may have.
#[derive(Clone, Copy, PartialEq, Eq, Debug)]
pub struct Quota {
    pub sessions: u64,
    /// Atoms of all sessions together.
    pub atoms: u64,
    /// Saved simulations of all sessions together.
    pub branches: u64,
}

impl Quota {
    /// The quota of a user for whom none is given.
    pub const USUAL: Quota = Quota {
        sessions: 8,
        atoms: 16_384,
        branches: 16,
    };
}

/// The sessions, atoms and saved simulations that a user has.
#[derive(Clone, Copy, PartialEq, Eq, Debug)]
pub struct Used {
    pub sessions: u64,
    /// Atoms of all sessions together.
    pub atoms: u64,
    /// Saved simulations of all sessions together.
    pub branches: u64,
}

/// The limit that a request would exceed.
#[derive(Clone, Copy, PartialEq, Eq, Debug, Error)]
pub enum Over {
    Sessions,
    Atoms,
    Branches,
}

impl fmt::Display for Over {
    ghost use Rattle.std.specs.Prelude.{Some};
    ghost use Rattle.lj_quota.specs.OverTexts.{over_text};

    ghost output = { λ over. Some (over_text over) };

    fn fmt<W: fmt::Write>(&self, f: &mut fmt::Formatter<W>) -> fmt::Result {
        f.write_str(match self {
            Over::Sessions => "the quota of sessions is used up",
            Over::Atoms => "the quota of atoms has no room for these",
            Over::Branches => "the quota of saved simulations is used up",
        })
    }
}

/// Checks that one more session, of this many atoms, stays within the quota. If both are over it, the error is `Sessions`.
///
/// Promise: the result is `Ok` if and only if one more session with this many atoms stays within the quota.
pub fn may_load(quota: &Quota, used: &Used, atoms: u64) -> Result<(), Over>
    ensures may { IsOk result
        ↔ ((used.now.sessions + 1 ≤ quota.now.sessions) × (used.now.atoms + atoms ≤ quota.now.atoms)) }
    ensures sessions { IsErrOf result Sessions ↔ (quota.now.sessions < used.now.sessions + 1) }
    ensures atoms { IsErrOf result Atoms
        ↔ ((used.now.sessions + 1 ≤ quota.now.sessions) × (quota.now.atoms < used.now.atoms + atoms)) }
{
    may_session(quota, used)?;
    may(used.atoms, atoms, quota.atoms, Over::Atoms)
}

/// Checks that one more session stays within the quota.
pub fn may_session(quota: &Quota, used: &Used) -> Result<(), Over>
    ensures may { IsOk result ↔ (used.now.sessions + 1 ≤ quota.now.sessions) }
    ensures over { IsErrOf result Sessions ↔ (quota.now.sessions < used.now.sessions + 1) }
{
    may(used.sessions, 1, quota.sessions, Over::Sessions)
}

/// Checks that one more saved simulation stays within the quota.
///
/// Promise: the result is `Ok` if and only if one more saved simulation stays within the quota.
pub fn may_branch(quota: &Quota, used: &Used) -> Result<(), Over>
    ensures may { IsOk result ↔ (used.now.branches + 1 ≤ quota.now.branches) }
    ensures over { IsErrOf result Branches ↔ (quota.now.branches < used.now.branches + 1) }
{
    may(used.branches, 1, quota.branches, Over::Branches)
}

// Checks that `used + new` is at most the limit. The sum may overflow a `u64`.
fn may(used: u64, new: u64, limit: u64, over: Over) -> Result<(), Over>
    ensures within { IsOk result ↔ (used + new ≤ limit) }
    ensures over { IfErr result (λ error. error ≡ over) }
{
    match used.checked_add(new) {
        Some(total) if total <= limit => Ok(()),
        _ => Err(over),
    }
}
