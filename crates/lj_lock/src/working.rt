//! The loop of a worker of a pool, and the sum of what all workers did.
ghost use Rattle.std.specs.Prelude.{◌≡◌, ◌≤◌, sum, vec_len};

use crate::lock_pool::LockPool;
use lj_end::{Gate, Share, merged};
use lj_table::Table;
use lj_tile::TableKernel;
use std::sync::Wait;
use std::sync::ledger::Ledger;

/// Computes tasks of the pool until it is closed, and hands back those that the gate sends back. Returns the share, credited with
/// each result that was accepted.
pub fn work<L: Ledger, G: Gate, R: Wait>(
    rt: &R,
    pool: &LockPool<L>,
    share: Share<L>,
    gate: &G,
    table: &Table,
) -> Share<L>
    ensures { share ≤ result }
{
    let kernel = TableKernel::new(table);
    let mut share = share;
    let mut taken = pool.take(rt);
    for _ in rt.forever() {
        let Some(lent) = taken else {
            break;
        };
        if gate.back(lent.task().name()) {
            taken = pool.hand_back(rt, lent);
        } else {
            gate.between(lent.task().name());
            taken = pool.exchange(rt, lent.compute(&kernel), &mut share);
        }
    }
    share
}

/// Returns the number of results accepted from all workers together, which is the number given to the book of the pool.
///
/// Promise: the result is the sum of the credits of all workers.
pub fn gather<L: Ledger, R: Wait>(rt: &R, pool: &LockPool<L>, shares: Vec<Share<L>>) -> u64
    requires { vec_len shares ≡ L.parts }
    ensures { result ≡ sum shares.items }
{
    match merged(shares) {
        Some(mut all) => pool.audited(rt, &mut all),
        None => 0,
    }
}
