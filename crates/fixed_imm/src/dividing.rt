// Divisions that take less time than the processor's own, which is some ten products long.
ghost use Rattle.std.specs.Prelude.{◌≡◌, ◌≤◌, ◌<◌, ◌-◌, ◌*◌, ◌/◌, ◌^◌, pos, ◌≤ℤ◌, unsigned_abs, IsTrue};
ghost use Rattle.std.specs.Int.{int_div_euclid};
ghost use Rattle.trk_base.specs.Numbers.{round, IsBetween};

use std::num::{nearest_u64_to_f64, saturating_f64_to_u64};
use trk_base::round_div;

// Near `a / b`: the quotient of the floating-point numbers next to them.
#[inline]
pub(crate) fn near_quotient(a: u64, b: u64) -> u64 {
    saturating_f64_to_u64(nearest_u64_to_f64(a) / nearest_u64_to_f64(b))
}

// Whether this is `a / b`.
#[inline]
fn is_quotient(quotient: u64, a: u64, b: u64) -> bool
    ensures { IsTrue result → quotient ≡ a / b }
{
    match quotient.checked_mul(b) {
        Some(product) => product <= a && a - product < b,
        None => false,
    }
}

// `a / b`. What is near it nearly always is it, and the rest shows it.
#[inline]
pub(crate) fn quotient(a: u64, b: u64) -> u64
    requires { 0 < b }
    ensures { result ≡ a / b }
{
    let near = near_quotient(a, b);
    if is_quotient(near, a, b) { near } else { a / b }
}

// A number to round quotients by, with what makes of each division a product.
#[derive(Clone, Copy)]
pub(crate) struct Divisor {
    // The number.
    pub by: i64,
    // Twice the number.
    twice: u64,
    // What 2^64 - 1 is by twice the number.
    reciprocal: u64,
    ghost low: { pos 1 ≤ℤ by },
    ghost high: { by ≤ℤ pos (2 ^ 47) },
    ghost doubled: { twice ≡ 2 * unsigned_abs by },
    ghost reciprocal_is: { reciprocal ≡ (2 ^ 64 - 1) / twice },
}

impl Divisor {
    // A divisor.
    #[inline]
    pub(crate) fn new(by: i64) -> Divisor
        requires { IsBetween (pos 1) by (pos (2 ^ 47)) }
        ensures { result.by ≡ by }
    {
        let twice = 2 * by as u64;
        Divisor {
            by,
            twice,
            reciprocal: quotient(u64::MAX, twice),
        }
    }

    // `a` by twice the number: what the reciprocal makes of it is that, or one less.
    #[inline]
    fn half_quotient(&self, a: u64) -> u64
        ensures { result ≡ a / self.now.twice }
    {
        let near = (u128::from(a) * u128::from(self.reciprocal) >> 64) as u64;
        if a - near * self.twice < self.twice {
            near
        } else {
            near + 1
        }
    }

    // `a` by twice the number, rounded down.
    #[inline]
    fn floor(&self, a: i64) -> i64
        requires { unsigned_abs a < 2 ^ 63 }
        ensures { result ≡ int_div_euclid a (pos self.now.twice) }
    {
        if a < 0 {
            -1 - self.half_quotient((-1 - a) as u64) as i64
        } else {
            self.half_quotient(a as u64) as i64
        }
    }

    // `a` by the number, rounded.
    #[inline]
    fn round_narrow(&self, a: i64) -> i64
        requires { unsigned_abs a ≤ 2 ^ 61 }
        ensures { result ≡ round a self.now.by }
    {
        self.floor(2 * a + self.by)
    }

    // `a` by the number, rounded, in 64 bits where `a` is small enough, as it nearly always is.
    #[inline]
    pub(crate) fn round(&self, a: i128) -> i128
        requires { unsigned_abs a ≤ 2 ^ 120 }
        ensures { result ≡ round a self.now.by }
    {
        if a.unsigned_abs() <= 1 << 61 {
            self.round_narrow(a as i64) as i128
        } else {
            round_div(a, self.by as i128)
        }
    }
}
