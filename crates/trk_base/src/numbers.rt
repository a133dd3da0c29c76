// Whole numbers: rounding, roots, and the piecewise linear power of two.
ghost use Rattle.std.specs.Prelude.{◌≡◌, ◌^◌, ◌<◌, ◌≤◌, ℕ, pos, ◌<ℤ◌, unsigned_abs, IsTrue};
ghost use Rattle.trk_base.specs.Numbers.{round, isqrt, IsRoot, exp2_lin};

use std::num::{nearest_u64_to_f64, saturating_f64_to_u64};

/// `a / b`, rounded to the nearest whole number, halves upwards: -1 / 2 is 0, and 1 / 2 is 1.
#[inline]
pub fn round_div(a: i128, b: i128) -> i128
    requires positive { pos 0 <ℤ b }
    requires small_divisor { b <ℤ pos (2 ^ 125) }
    requires small { unsigned_abs a < 2 ^ 125 }
    ensures { result ≡ round a b }
{
    (2 * a + b).div_euclid(2 * b)
}

/// The greatest whole number whose square is at most `n`.
#[inline]
pub fn isqrt(n: u128) -> u64
    ensures value { result ≡ isqrt n }
    ensures root { IsRoot n result }
{
    if n >> 64 == 0 {
        root_of_64(n as u64)
    } else {
        root_of_128(n)
    }
}

// The root of a number of 64 bits. That of the nearest floating-point number, which the processor
// finds faster than two divisions take, is nearly always the one, and its square shows it.
fn root_of_64(n: u64) -> u64
    ensures root { IsRoot n result }
    ensures small { result < 2 ^ 32 }
{
    let near = saturating_f64_to_u64(nearest_u64_to_f64(n).sqrt());
    if is_root(n, near) {
        near
    } else {
        root_by_steps(n)
    }
}

// Whether this is the root of a number.
fn is_root(n: u64, root: u64) -> bool
    ensures root { IsTrue result → IsRoot n root }
    ensures small { IsTrue result → root < 2 ^ 32 }
{
    root <= u64::from(u32::MAX) && root * root <= n && n - root * root <= 2 * root
}

// The root by Newton's method. It begins with the power of two next below the root: the first step
// from there takes no division, and three more are enough.
fn root_by_steps(n: u64) -> u64
    ensures root { IsRoot n result }
    ensures small { result < 2 ^ 32 }
{
    let half = (64 - n.leading_zeros()) / 2;
    let mut root = ((1 << half) + (n >> half)) / 2;
    while root * root > n {
        root = (root + n / root) / 2;
    }
    root
}

// The root of a larger number. The root of its 64 upper bits has half of the digits, so one or two
// steps of Newton's method are left.
fn root_of_128(n: u128) -> u64
    requires large { 2 ^ 64 ≤ n }
    ensures root { IsRoot n result }
{
    let half = (65 - n.leading_zeros()) / 2;
    let upper = root_of_64((n >> (2 * half)) as u64);
    let mut estimate = ((upper << half) + ((1 << half) - 1)) as u128;
    while estimate * estimate > n {
        estimate = (estimate + n / estimate) / 2;
    }
    estimate as u64
}

/// Two to the power of `-q / 65,536`, in units of 2^-30: exact at whole powers, and on the chord
/// between two of them elsewhere. It is 0 from the power -31 on.
#[inline]
pub fn exp2_lin(q: u64) -> u32
    ensures value { result ≡ exp2_lin q }
    ensures at_most_one { result ≤ 2 ^ 30 }

    // A greater argument gives no greater power.
    ensures falls { (p : ℕ) → p ≤ q → result ≤ exp2_lin p }
{
    let whole = q / 65_536;
    if whole >= 31 {
        return 0;
    }
    let part = q % 65_536;
    ((1u64 << 30 >> whole) - (((1u64 << 29 >> whole) * part) >> 16)) as u32
}
