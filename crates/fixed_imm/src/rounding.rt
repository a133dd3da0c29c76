// Rounded quotients, as `round_div` has them, in as few bits as their numbers need.
ghost use Rattle.std.specs.Prelude.{◌≡◌, ◌≤◌, ◌^◌, pos, unsigned_abs};
ghost use Rattle.trk_base.specs.Numbers.{round, IsBetween};

// `a` divided by 2 to the power of `digits`.
#[inline]
pub(crate) fn round_shift(a: i64, digits: u32) -> i64
    requires some { 1 ≤ digits }
    requires most { digits ≤ 32 }
    requires small { unsigned_abs a ≤ 2 ^ 62 }
    ensures { result ≡ round a (pos (2 ^ digits)) }
{
    (a + (1 << (digits - 1))) >> digits
}

// The same of a product of two numbers of 64 bits.
#[inline]
pub(crate) fn round_shift_wide(a: i128, digits: u32) -> i128
    requires some { 1 ≤ digits }
    requires most { digits ≤ 32 }
    requires small { unsigned_abs a ≤ 2 ^ 125 }
    ensures { result ≡ round a (pos (2 ^ digits)) }
{
    (a + (1 << (digits - 1))) >> digits
}

// `a / b`.
#[inline]
pub(crate) fn round_narrow(a: i64, b: i64) -> i64
    requires divisor { IsBetween (pos 1) b (pos (2 ^ 47)) }
    requires small { unsigned_abs a ≤ 2 ^ 61 }
    ensures { result ≡ round a b }
{
    (2 * a + b).div_euclid(2 * b)
}
