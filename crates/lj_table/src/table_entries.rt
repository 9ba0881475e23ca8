//! The entries of single bins.
ghost use Rattle.std.specs.Prelude.{◌≡◌, ◌≤◌, ◌<◌, ◌^◌, ◌*◌, ◌+◌, pos, ◌-ℤ◌, ◌*ℤ◌, int_div, unsigned_abs};
ghost use Rattle.lj_table.specs.Entries as entries;

use lj_ring::{BINS, MIN_BIN};

/// Returns the push of bin `k`, [`MIN_BIN`] or more and below [`BINS`], in units of 2^-24: 24 (2 u^7 - u^4) where u is
/// (sigma/r)² at its centre.
pub fn push_entry(k: u16) -> i64
    requires from { MIN_BIN ≤ k }
    requires below { k < BINS }
    ensures value { result ≡ entries.push_entry k }
    ensures size { unsigned_abs result < 2 ^ 37 }
{
    let centre = centre_of(k);
    let cube = centre * centre * centre;
    signed_quotient(24 << 56, 1 << 25, cube, cube * cube * centre)
}

/// Returns the energy of bin `k`, [`MIN_BIN`] or more and below [`BINS`], in units of 2^-24 ε: 4 (u^6 - u^3) where u is
/// (sigma/r)² at its centre.
pub fn energy_entry(k: u16) -> i64
    requires from { MIN_BIN ≤ k }
    requires below { k < BINS }
    ensures value { result ≡ entries.energy_entry k }
    ensures size { unsigned_abs result < 2 ^ 37 }
{
    let centre = centre_of(k);
    let cube = centre * centre * centre;
    signed_quotient(1 << 50, 1 << 24, cube, cube * cube)
}

// Returns the centre of bin `k`, in 256ths of the square of sigma.
fn centre_of(k: u16) -> u128
    requires from { MIN_BIN ≤ k }
    requires below { k < BINS }
    ensures value { result ≡ entries.centre k }
    ensures least { 129 ≤ result }
    ensures most { result ≤ 1599 }
{
    u128::from(2 * k + 1)
}

// Returns `factor * (top - cube) / power`, toward zero.
fn signed_quotient(factor: u128, top: u128, cube: u128, power: u128) -> i64
    requires product { factor * (top + cube) < 2 ^ 128 }
    requires above { factor * top < 2 ^ 37 * power }
    requires under { factor * cube < 2 ^ 37 * power }
    ensures value { result ≡ int_div (pos factor *ℤ (pos top -ℤ pos cube)) (pos power) }
    ensures size { unsigned_abs result < 2 ^ 37 }
{
    if cube <= top {
        (factor * (top - cube) / power) as i64
    } else {
        -((factor * (cube - top) / power) as i64)
    }
}
