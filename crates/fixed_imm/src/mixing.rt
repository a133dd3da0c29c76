// Mixtures of two models.
ghost use Rattle.std.specs.Prelude.{◌≡◌, ◌≤◌, ◌<◌, ◌+◌, ◌^◌, pos, unsigned_abs};
ghost use Rattle.trk_base.specs.Numbers.{IsBetween};
ghost use Rattle.fixed_imm.specs.Bounds.{IsBounded};
ghost use Rattle.fixed_imm.specs.Mixing.{share, mean, covariance, mixed};

use crate::Motion;
use crate::dividing::quotient;
use crate::motion::bounded;
use crate::rounding::{round_shift, round_shift_wide};

// The part of `a + b` that `a` is, in 1/65,536.
pub(crate) fn share(a: u64, b: u64) -> i64
    requires some { 0 < a + b }
    requires first { a ≤ 2 ^ 32 }
    requires second { b ≤ 2 ^ 32 }
    ensures value { result ≡ share a b }
    ensures part { IsBetween (pos 0) result (pos 65536) }
{
    let sum = a + b;
    quotient(131_072 * a + sum, 2 * sum) as i64
}

// The mean of two values, where the first has the weight `g` in 1/65,536.
pub(crate) fn mean(g: i64, x0: i64, x1: i64) -> i64
    requires part { IsBetween (pos 0) g (pos 65536) }
    requires first { unsigned_abs x0 ≤ 2 ^ 28 }
    requires second { unsigned_abs x1 ≤ 2 ^ 28 }
    ensures { result ≡ mean g x0 x1 }
{
    x1 + round_shift(g * (x0 - x1), 16)
}

// The variance or covariance of a mixture, where the first model has the weight `g` in 1/65,536:
// that of both models by their weights, and the spread of their means.
pub(crate) fn covariance(g: i64, q0: i64, q1: i64, spread: i64) -> i64
    requires part { IsBetween (pos 0) g (pos 65536) }
    requires first { unsigned_abs q0 ≤ 2 ^ 46 }
    requires second { unsigned_abs q1 ≤ 2 ^ 46 }
    requires spread { unsigned_abs spread ≤ 2 ^ 60 }
    ensures { result ≡ covariance g q0 q1 spread }
{
    let rest = 65_536 - g;
    let inside = g * q0 + rest * q1;
    let between = (g * rest) as i128 * spread as i128;
    round_shift(inside, 16) + round_shift_wide(between, 32) as i64
}

// Two models mixed, where the first has the weight `g` in 1/65,536.
pub(crate) fn mixed(g: i64, a: &Motion, b: &Motion) -> Motion
    requires part { IsBetween (pos 0) g (pos 65536) }
    requires first { IsBounded a.now }
    requires second { IsBounded b.now }
    ensures value { result ≡ mixed g a.now b.now }
    ensures bounds { IsBounded result }
{
    let dp = a.p - b.p;
    let dv = a.v - b.v;
    bounded(
        mean(g, a.p, b.p),
        mean(g, a.v, b.v),
        covariance(g, a.p11, b.p11, dp * dp),
        covariance(g, a.p12, b.p12, dp * dv),
        covariance(g, a.p22, b.p22, dv * dv),
    )
}
