//! The momentum and the kinetic number of two frames.
ghost use Rattle.std.specs.Prelude.{◌≡◌, ◌≤◌, ◌<◌, ◌+◌, ◌*◌, ◌^◌, ◌+ℤ◌, unsigned_abs, length};
ghost use Rattle.lj_ring.specs.Ring.{image, squared_distance, sum_below, int_sum_below};
ghost use Rattle.lj_step.specs.declared.frames.TheConstants.{MAX_ATOMS};
ghost use Rattle.lj_step.specs.Motion.{place_at};

use lj_ring::{Place, dist2, image};

/// The momentum along each axis, in ring units per step, at most 2^43 in size.
#[derive(Clone, Copy, PartialEq, Eq, Debug)]
pub(crate) struct Momentum {
    pub x: i64,
    pub y: i64,
    pub z: i64,
}

/// Returns the sums of the images of `cur - prev` over all atoms.
pub(crate) fn momentum_of(prev: &[Place], cur: &[Place]) -> Momentum
    requires same { length prev.now ≡ length cur.now }
    requires most { length cur.now ≤ MAX_ATOMS }
    ensures x { result.x
        ≡ int_sum_below (length cur.now) (λ i. image (place_at cur.now i).x (place_at prev.now i).x) }
    ensures y { result.y
        ≡ int_sum_below (length cur.now) (λ i. image (place_at cur.now i).y (place_at prev.now i).y) }
    ensures z { result.z
        ≡ int_sum_below (length cur.now) (λ i. image (place_at cur.now i).z (place_at prev.now i).z) }
{
    let mut sum = Momentum { x: 0, y: 0, z: 0 };
    for i in 0..cur.len() {
        sum = Momentum {
            x: plus_image(sum.x, cur[i].x, prev[i].x),
            y: plus_image(sum.y, cur[i].y, prev[i].y),
            z: plus_image(sum.z, cur[i].z, prev[i].z),
        };
    }
    sum
}

/// Returns a sum plus one image.
#[inline]
fn plus_image(sum: i64, to: u32, from: u32) -> i64
    requires { unsigned_abs sum ≤ 2 ^ 44 }
    ensures value { result ≡ sum +ℤ image to from }
    ensures size { unsigned_abs result ≤ unsigned_abs sum + 2 ^ 31 }
{
    sum + i64::from(image(to, from))
}

/// Returns the sum of the squares of the images of `cur - prev` over all atoms and axes.
pub(crate) fn kinetic_of(prev: &[Place], cur: &[Place]) -> u128
    requires same { length prev.now ≡ length cur.now }
    requires most { length cur.now ≤ MAX_ATOMS }
    ensures { result ≡ sum_below (length cur.now) (λ i. squared_distance (place_at cur.now i) (place_at prev.now i)) }
{
    let mut sum = 0;
    for i in 0..cur.len() {
        sum += u128::from(dist2(&cur[i], &prev[i]));
    }
    sum
}
