// One model, some time later: a constant velocity, disturbed by white noise acceleration.
ghost use Rattle.std.specs.Prelude.{◌≡◌, ◌≤◌, ◌^◌, ℤ, pos, unsigned_abs};
ghost use Rattle.trk_base.specs.Limits.{plane_bound};
ghost use Rattle.trk_base.specs.Numbers.{IsBetween};
ghost use Rattle.fixed_imm.specs.Constants.{variance_bound};
ghost use Rattle.fixed_imm.specs.Bounds.{IsBounded};
ghost use Rattle.fixed_imm.specs.Prediction.{predicted_p, predicted_p11, predicted_p12, predicted_p22, predicted_motion};

use crate::Motion;
use crate::motion::{bounded, position_within, variance_within};
use crate::rounding::{round_narrow, round_shift, round_shift_wide};

fn predicted_p(d: i64, p: i64, v: i64) -> i64
    requires time { unsigned_abs d ≤ 7744 }
    requires first { unsigned_abs p ≤ 2 ^ 28 }
    requires second { unsigned_abs v ≤ 2 ^ 28 }
    ensures { result ≡ predicted_p d p v }
{
    p + round_shift(v * d, 11)
}

fn predicted_p11(q: i64, d: i64, p11: i64, p12: i64, p22: i64) -> i64
    requires noise { unsigned_abs q ≤ 524288 }
    requires time { unsigned_abs d ≤ 7744 }
    requires first { unsigned_abs p11 ≤ 2 ^ 46 }
    requires cross { unsigned_abs p12 ≤ 2 ^ 46 }
    requires last { unsigned_abs p22 ≤ 2 ^ 46 }
    ensures { result ≡ predicted_p11 q d p11 p12 p22 }
{
    let carried = (4_096 * d) as i128 * p12 as i128 + (d * d) as i128 * p22 as i128;
    p11 + round_shift_wide(carried, 22) as i64 + round_narrow(q * d.abs() * d * d, 12_582_912)
}

fn predicted_p12(q: i64, d: i64, p12: i64, p22: i64) -> i64
    requires noise { unsigned_abs q ≤ 524288 }
    requires time { unsigned_abs d ≤ 7744 }
    requires cross { unsigned_abs p12 ≤ 2 ^ 46 }
    requires last { unsigned_abs p22 ≤ 2 ^ 46 }
    ensures { result ≡ predicted_p12 q d p12 p22 }
{
    p12 + round_shift(d * p22, 11) + round_shift(q * d.abs() * d, 12)
}

fn predicted_p22(q: i64, d: i64, p22: i64) -> i64
    requires noise { unsigned_abs q ≤ 524288 }
    requires time { unsigned_abs d ≤ 7744 }
    requires last { unsigned_abs p22 ≤ 2 ^ 46 }
    ensures { result ≡ predicted_p22 q d p22 }
{
    p22 + q * d.abs()
}

// The model `d` units of 1/128 s later. The noise `q` is the variance that its velocity gains in
// one such unit, in (1/1024 m/s)².
pub(crate) fn predicted_motion(q: i64, d: i64, m: &Motion) -> Motion
    requires noise { unsigned_abs q ≤ 524288 }
    requires time { unsigned_abs d ≤ 7744 }
    requires bounds { IsBounded m.now }
    ensures value { result ≡ predicted_motion q d m.now }
    ensures bounds { IsBounded result }
{
    bounded(
        predicted_p(d, m.p, m.v),
        m.v,
        predicted_p11(q, d, m.p11, m.p12, m.p22),
        predicted_p12(q, d, m.p12, m.p22),
        predicted_p22(q, d, m.p22),
    )
}

// The position of that model alone, which doesn't depend on the noise.
pub(crate) fn predicted_position(d: i64, m: &Motion) -> i64
    requires time { unsigned_abs d ≤ 7744 }
    requires bounds { IsBounded m.now }
    ensures value { (q : ℤ) → result ≡ (predicted_motion q d m.now).p }
    ensures size { unsigned_abs result ≤ plane_bound }
{
    position_within(predicted_p(d, m.p, m.v))
}

// The variance of that position.
pub(crate) fn predicted_variance(q: i64, d: i64, m: &Motion) -> i64
    requires noise { unsigned_abs q ≤ 524288 }
    requires time { unsigned_abs d ≤ 7744 }
    requires bounds { IsBounded m.now }
    ensures value { result ≡ (predicted_motion q d m.now).p11 }
    ensures range { IsBetween (pos 1) result (pos variance_bound) }
{
    variance_within(predicted_p11(q, d, m.p11, m.p12, m.p22))
}
