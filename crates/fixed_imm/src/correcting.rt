// One predicted model, corrected by a measured position.
ghost use Rattle.std.specs.Prelude.{◌≡◌, ◌≤◌, ◌*◌, ◌^◌, pos, ◌≤ℤ◌, unsigned_abs};
ghost use Rattle.trk_base.specs.Numbers.{IsBetween};
ghost use Rattle.fixed_imm.specs.Bounds.{IsBounded, IsPosition, IsVariance};
ghost use Rattle.fixed_imm.specs.Correction.{raised, lowered, corrected, likelihood};
ghost use Rattle.fixed_imm.specs.Filter.{corrected_model, model_likelihood};

use crate::Motion;
use crate::dividing::{Divisor, quotient};
use crate::motion::bounded;
use trk_base::{exp2_lin, isqrt};

// 65,536 / (2 ln 2): what makes of e² / s the power of two of e^(-e² / 2s), in 1/65,536.
const EXPONENT_SCALE: i64 = 47_274;

// From this power on, in 1/65,536, a model is taken to be impossible: its likelihood is 0.
const IMPOSSIBLE_EXPONENT: i128 = 31 * 65_536;

// `x`, and what the gain `a / s` makes of `b`.
fn raised(x: i64, a: i64, b: i64, s: &Divisor) -> i64
    requires value { unsigned_abs x ≤ 2 ^ 46 }
    requires first { unsigned_abs a ≤ 2 ^ 46 }
    requires second { unsigned_abs b ≤ 2 ^ 46 }
    requires gain { unsigned_abs a * unsigned_abs b ≤ 2 ^ 52 * unsigned_abs s.now.by }
    ensures { result ≡ raised x a b s.now.by }
{
    x + s.round(a as i128 * b as i128) as i64
}

// `x` less what the gain `a / s` makes of `b`.
fn lowered(x: i64, a: i64, b: i64, s: &Divisor) -> i64
    requires value { unsigned_abs x ≤ 2 ^ 46 }
    requires first { unsigned_abs a ≤ 2 ^ 46 }
    requires second { unsigned_abs b ≤ 2 ^ 46 }
    requires gain { unsigned_abs a * unsigned_abs b ≤ 2 ^ 52 * unsigned_abs s.now.by }
    ensures { result ≡ lowered x a b s.now.by }
{
    x - s.round(a as i128 * b as i128) as i64
}

// The model after an innovation `e` with the variance `s`, which is no less than the model's own.
fn corrected(m: &Motion, e: i64, s: &Divisor) -> Motion
    requires bounds { IsBounded m.now }
    requires innovation { unsigned_abs e ≤ 2 ^ 29 }
    requires no_less { m.now.p11 ≤ℤ s.now.by }
    ensures value { result ≡ corrected m.now e s.now.by }
    ensures bounds { IsBounded result }
{
    bounded(
        raised(m.p, m.p11, e, s),
        raised(m.v, m.p12, e, s),
        lowered(m.p11, m.p11, m.p11, s),
        lowered(m.p12, m.p11, m.p12, s),
        lowered(m.p22, m.p12, m.p12, s),
    )
}

// How likely an innovation `e` with the variance `s` is: its Gaussian density, but for a factor
// that all have.
fn likelihood(e: i64, s: &Divisor) -> u64
    requires innovation { unsigned_abs e ≤ 2 ^ 29 }
    ensures value { result ≡ likelihood e s.now.by }
    ensures size { result ≤ 2 ^ 62 }
{
    let squared = (EXPONENT_SCALE * e) as i128 * e as i128;
    let exponent = s.round(squared).min(IMPOSSIBLE_EXPONENT);
    let power = exp2_lin(exponent as u64) as u64 * (1 << 32);
    quotient(power, isqrt(s.by as u128).max(1))
}

// The predicted model after a position `z` was measured with the variance `r`, and how likely that
// measurement was.
pub(crate) fn corrected_model(m: &Motion, z: i64, r: u64) -> (Motion, u64)
    requires bounds { IsBounded m.now }
    requires position { IsPosition z }
    requires variance { IsVariance r }
    ensures value { result.0 ≡ corrected_model m.now z r }
    ensures bounds { IsBounded result.0 }
    ensures likelihood { result.1 ≡ model_likelihood m.now z r }
    ensures size { result.1 ≤ 2 ^ 62 }
{
    let innovation = z - m.p;
    let variance = Divisor::new(m.p11 + r as i64);
    (
        corrected(m, innovation, &variance),
        likelihood(innovation, &variance),
    )
}
