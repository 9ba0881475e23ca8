//! The push of a pair of atoms.
ghost use Rattle.std.specs.Prelude.{◌≡◌, ◌≤◌, ◌<◌, ◌^◌, pos, ◌*ℤ◌, int_div, unsigned_abs};
ghost use Rattle.lj_ring.specs.Ring.{ring_residue};
ghost use Rattle.lj_task.specs.Pushes as pushes;

use lj_ring::{Place, Scale, dist2, image};
use lj_table::Table;
use lj_task::Push;

/// Returns the push of the atom at `there` on the atom at `here`, which is the opposite of the push the other way, in
/// ring units modulo 2^32. It is 0 out of reach, where most pairs are.
///
/// ```rust
/// // 1.5 apart along x in a box of 256, with sigma 1 and step factor 131072
/// assert_eq!(pair_push(&table, &scale, &Place { x: 0, y: 0, z: 0 }, &Place { x: 25_165_824, y: 0, z: 0 }).x, 589);
/// ```
///
/// Promise: the result is the push as defined; the other atom gets the opposite push.
#[inline]
pub fn pair_push(table: &Table, scale: &Scale, here: &Place, there: &Place) -> Push
    ensures value { result ≡ pushes.push scale.now here.now there.now }
    ensures itself { here.now ≡ there.now → result ≡ pushes.no_push }
    ensures back { pushes.push scale.now there.now here.now ≡ pushes.opposite_push result }
{
    let entry = table.push(dist2(here, there), scale);
    if entry == 0 {
        return Push::NONE;
    }
    let factor = multiplied(entry, scale.step_factor());
    Push {
        x: push_along(factor, image(here.x, there.x)),
        y: push_along(factor, image(here.y, there.y)),
        z: push_along(factor, image(here.z, there.z)),
    }
}

/// Multiplies a table entry by the step factor.
#[inline]
fn multiplied(entry: i64, step_factor: u32) -> i64
    requires small_entry { unsigned_abs entry < 2 ^ 37 }
    requires small_step_factor { step_factor ≤ 2 ^ 24 }
    ensures value { result ≡ entry *ℤ pos step_factor }
    ensures size { unsigned_abs result < 2 ^ 61 }
{
    entry * i64::from(step_factor)
}

/// Returns `factor * image / 2^56`, toward zero, on the ring.
#[inline]
fn push_along(factor: i64, image: i32) -> u32
    requires { unsigned_abs factor < 2 ^ 61 }
    ensures { result ≡ ring_residue (int_div (factor *ℤ image) (pos (2 ^ 56))) }
{
    let push = (i128::from(factor) * i128::from(image) / (1 << 56)) as i64;
    (push.cast_unsigned() % (1 << 32)) as u32
}
