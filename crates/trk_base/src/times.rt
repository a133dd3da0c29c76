// Time in 1/128 s: days, slots, and times of day counted on over midnights.
ghost use Rattle.std.specs.Prelude.{◌≡◌, ◌^◌, ◌<◌, ℕ};
ghost use Rattle.trk_base.specs.Numbers.{slot_of, unwrapped, IsUnwrapped};

/// The units of time, of 1/128 s, in a day: an ASTERIX time of day (I048/140, I034/030) is below
/// it.
pub const DAY: u64 = 11_059_200;

/// The slot of a time in 1/128 s. A slot is half a second.
#[inline]
pub fn slot_of(time: u64) -> u64
    ensures { result ≡ slot_of time }
{
    time / 64
}

/// The time, counted on over midnights, that has the time of day `tod` and lies nearest to
/// `last`: not before half a day before it, and before half a day after it. Where that time would
/// be negative, it is 0. All are in 1/128 s.
///
/// An ASTERIX time of day (I048/140, I034/030) starts again from 0 at each midnight.
#[inline]
pub fn unwrap_tod(tod: u32, last: u64) -> u64
    requires in_day { tod < DAY }
    requires in_range { last < 2 ^ 40 }
    ensures value { result ≡ unwrapped tod last }
    ensures nearest { IsUnwrapped tod last result }
    ensures only { (time : ℕ) → IsUnwrapped tod last time → time ≡ result }
{
    let from = last + DAY / 2;
    let ahead = (u64::from(tod) + (DAY - from % DAY)) % DAY;
    (from + ahead).saturating_sub(DAY)
}
