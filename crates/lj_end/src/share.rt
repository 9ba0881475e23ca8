//! A worker's share of the results that a pool was given.
ghost use Rattle.std.specs.Prelude.{◌≡◌, ◌<◌, ◌+◌, ◌-◌, ◌^◌, sum, vec_len, IfNone, IfOk, IfSome};
ghost use Rattle.std.specs.List.{All};

use std::alloc::{AllocError, Global};
use std::marker::Model;
use std::sync::ledger::{self, Book, Ledger};

/// The number of a worker's results that were accepted, with one part of a ledger. The amounts of all parts add up to the number
/// of all results.
#[derive(Drop)]
pub struct Share<L: Ledger> {
    part: ledger::Share<L>,
    count: u64,
}

impl<L: Ledger> Model for Share<L> {
    ghost use Rattle.std.specs.Prelude.{◌≡◌, ℕ};

    ghost Value = { ℕ };

    ghost view = { λ s. s.count };

    ghost invariant = { λ s. (s.part.parts ≡ 1) × (s.part.amount ≡ s.count) };
}

impl<L: Ledger> Share<L> {
    /// Makes a share of one part, to which nothing is credited yet.
    pub fn new(part: ledger::Share<L>) -> Share<L>
        requires one { part.parts ≡ 1 }
        requires nothing { part.amount ≡ 0 }
        ensures { result ≡ 0 }
    {
        Share { part, count: 0 }
    }

    /// Returns the number of its worker's results that were accepted.
    pub fn count(&self) -> u64
        ensures { result ≡ self.now }
    {
        self.count
    }

    /// Credits one more result, also in the book of all results.
    pub fn credit(&mut self, results: &mut Book<L>)
        requires { results.old.total < 2 ^ 64 - 1 }
        ensures credited { self.new ≡ self.old + 1 }
        ensures total { results.new.total ≡ results.old.total + 1 }
    {
        results.audit(&mut self.part);
        results.add(&mut self.part, 1);
        self.count += 1;
    }

    /// Returns its part of the ledger.
    pub fn into_part(self) -> ledger::Share<L>
        ensures one { result.parts ≡ 1 }
        ensures amount { result.amount ≡ self }
    {
        self.part
    }
}

/// Makes a share for each worker, to which nothing is credited yet.
///
/// # Errors
/// Out of memory.
pub fn shares_of<L: Ledger>(
    alloc: Global,
    all: ledger::Share<L>,
    workers: usize,
) -> Result<Vec<Share<L>>, AllocError>
    requires parts { all.parts ≡ workers }
    requires nothing { all.amount ≡ 0 }
    ensures one_each { IfOk result (λ shares. vec_len shares ≡ workers) }
    ensures nothing { IfOk result (λ shares. All (λ count. count ≡ 0) shares.items) }
{
    let mut all = all;
    let mut shares = Vec::with_capacity(alloc, workers)?;
    for _ in 0..workers {
        shares.push(Share::new(all.split_off(1, 0)))?;
    }
    Ok(shares)
}

/// Joins the parts of all shares; the amount is what was credited to all of them. None where there is no share.
pub fn merged<L: Ledger>(shares: Vec<Share<L>>) -> Option<ledger::Share<L>>
    ensures parts { IfSome result (λ all. all.parts ≡ vec_len shares) }
    ensures amount { IfSome result (λ all. all.amount ≡ sum shares.items) }
    ensures none { IfNone result (vec_len shares ≡ 0) }
{
    let mut shares = shares;
    let mut all = shares.pop()?.into_part();
    while let Some(share) = shares.pop() {
        all.merge(share.into_part());
    }
    Some(all)
}
