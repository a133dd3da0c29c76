// One model's numbers, and the bounds that each of them is brought into.
ghost use Rattle.std.specs.Prelude.{◌≡◌, ◌≤◌, ◌*◌, pos, ◌≤ℤ◌, unsigned_abs};
ghost use Rattle.trk_base.specs.Limits.{plane_bound};
ghost use Rattle.trk_base.specs.Numbers.{IsBetween};
ghost use Rattle.fixed_imm.specs.Constants.{variance_bound};
ghost use Rattle.fixed_imm.specs.Bounds.{clamp_size, variance_within, covariance_bound, bounded, IsBounded};

use trk_base::{PLANE_BOUND, isqrt};

/// One model's estimate on an axis: a position, a velocity and their covariance matrix.
#[derive(Clone, Copy, Debug, PartialEq, Eq)]
pub struct Motion {
    /// Position in 1/64 m.
    pub p: i64,
    /// Velocity in 1/1024 m/s.
    pub v: i64,
    /// Variance of the position, in (1/64 m)².
    pub p11: i64,
    /// Covariance of position and velocity, in 1/64 m times 1/1024 m/s.
    pub p12: i64,
    /// Variance of the velocity, in (1/1024 m/s)².
    pub p22: i64,
}

// 1,024 m/s.
const VELOCITY_BOUND: i64 = 1_048_576;

// A standard deviation of 131,072 m, or of 8,192 m/s.
const VARIANCE_BOUND: i64 = 1 << 46;

// The number nearest to `x` whose size is at most `bound`.
fn nearest_within(x: i64, bound: i64) -> i64
    requires { pos 0 ≤ℤ bound }
    ensures value { result ≡ clamp_size x bound }
    ensures size { unsigned_abs result ≤ unsigned_abs bound }
{
    x.clamp(-bound, bound)
}

// The position nearest to `x` in the plane.
pub(crate) fn position_within(x: i64) -> i64
    ensures value { result ≡ clamp_size x (pos plane_bound) }
    ensures size { unsigned_abs result ≤ plane_bound }
{
    nearest_within(x, PLANE_BOUND)
}

// The variance nearest to `x`.
pub(crate) fn variance_within(x: i64) -> i64
    ensures value { result ≡ variance_within x }
    ensures range { IsBetween (pos 1) result (pos variance_bound) }
{
    x.clamp(1, VARIANCE_BOUND)
}

// The greatest covariance of these variances.
fn covariance_bound(a: i64, b: i64) -> i64
    requires first { IsBetween (pos 1) a (pos variance_bound) }
    requires second { IsBetween (pos 1) b (pos variance_bound) }
    ensures value { result ≡ covariance_bound a b }
    ensures square { unsigned_abs result * unsigned_abs result ≤ unsigned_abs a * unsigned_abs b }
{
    isqrt(a.unsigned_abs() as u128 * b.unsigned_abs() as u128) as i64
}

// The covariance of these variances nearest to `x`.
fn covariance_within(x: i64, a: i64, b: i64) -> i64
    requires first { IsBetween (pos 1) a (pos variance_bound) }
    requires second { IsBetween (pos 1) b (pos variance_bound) }
    ensures value { result ≡ clamp_size x (covariance_bound a b) }
    ensures square { unsigned_abs result * unsigned_abs result ≤ unsigned_abs a * unsigned_abs b }
{
    // The root takes long, and a covariance seldom needs it.
    let size = x.unsigned_abs() as u128;
    if size * size <= a.unsigned_abs() as u128 * b.unsigned_abs() as u128 {
        return x;
    }
    nearest_within(x, covariance_bound(a, b))
}

// A model with these values, each brought into its range.
pub(crate) fn bounded(p: i64, v: i64, p11: i64, p12: i64, p22: i64) -> Motion
    ensures value { result ≡ bounded p v p11 p12 p22 }
    ensures bounds { IsBounded result }
{
    let p11 = variance_within(p11);
    let p22 = variance_within(p22);
    Motion {
        p: position_within(p),
        v: nearest_within(v, VELOCITY_BOUND),
        p11,
        p12: covariance_within(p12, p11, p22),
        p22,
    }
}
