// The weights of both models.
ghost use Rattle.std.specs.Prelude.{◌≡◌, ◌≤◌, ◌<◌, ◌+◌, ◌/◌, ◌^◌, pos};
ghost use Rattle.trk_base.specs.Numbers.{IsBetween};
ghost use Rattle.fixed_imm.specs.Bounds.{weights, IsWeights};
ghost use Rattle.fixed_imm.specs.Correction.{posterior_weights};
ghost use Rattle.fixed_imm.specs.Filter.{predicted_weights};
ghost use Rattle.fixed_imm.specs.Mixing.{share};

use crate::dividing::near_quotient;
use crate::modes::STEADY;
use crate::rounding::round_shift;

// No model is less likely than this, in 1/65,536, and none more likely than what that leaves it.
const LEAST_WEIGHT: i64 = 64;

const GREATEST_WEIGHT: i64 = 65_472;

// Weights in 1/65,536, where the first is `x` as far as its range allows, and the second the rest.
fn weights(x: i64) -> (u32, u32)
    ensures value { result ≡ weights x }
    ensures range { IsWeights result }
{
    let first = x.clamp(LEAST_WEIGHT, GREATEST_WEIGHT) as u32;
    (first, 65_536 - first)
}

// The weights after a step of the Markov chain.
pub(crate) fn predicted_weights(m: (u32, u32)) -> (u32, u32)
    requires { IsWeights m }
    ensures value { result ≡ predicted_weights m }
    ensures range { IsWeights result }
{
    let first = STEADY.from_steady * u64::from(m.0) + STEADY.from_manoeuvre * u64::from(m.1);
    weights(round_shift(first as i64, 16))
}

// The weights after likelihoods `l`, from the weights `c` before.
pub(crate) fn posterior_weights(c: (u32, u32), l: (u64, u64)) -> (u32, u32)
    requires before { IsWeights c }
    requires first { l.0 ≤ 2 ^ 62 }
    requires second { l.1 ≤ 2 ^ 62 }
    ensures value { result ≡ posterior_weights c l }
    ensures range { IsWeights result }
{
    let n0 = u128::from(l.0) * u128::from(c.0);
    let n1 = u128::from(l.1) * u128::from(c.1);
    if n0 + n1 == 0 {
        return c;
    }
    weights(posterior_share(n0, n1))
}

// The part of `a + b` that `a` is, in 1/65,536.
fn posterior_share(a: u128, b: u128) -> i64
    requires some { 0 < a + b }
    requires first { a < 2 ^ 80 }
    requires second { b < 2 ^ 80 }
    ensures { result ≡ share a b }
{
    let sum = a + b;
    share_of(131_072 * a + sum, 2 * sum) as i64
}

// `a / b`, where it is no more than 65,536: the leading 64 of up to 98 digits are enough to guess it.
fn share_of(a: u128, b: u128) -> u128
    requires some { 0 < b }
    requires first { a < 2 ^ 98 }
    requires second { b < 2 ^ 82 }
    ensures { result ≡ a / b }
{
    let near = u128::from(near_quotient((a >> 34) as u64, (b >> 34) as u64));
    if near <= 65_536 && near * b <= a && a - near * b < b {
        near
    } else {
        a / b
    }
}
