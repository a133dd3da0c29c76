// What the octets of an item say, if it is one that this system writes. Of other octets a value
// means nothing: they aren't written of it.
ghost use Rattle.std.specs.Prelude.{◌≡◌, ◌<◌, ◌≤◌, ◌||◌, true, is_some};
ghost use Rattle.trk_base.specs.Ranges.{IsTimeOfDay, IsCode, IsAddress};
ghost use Rattle.asterix_frame.specs.Values.{from_three, signed};
ghost use Rattle.cat062_out.specs.Tracks.{IsPosition};
ghost use Rattle.cat062_out.specs.Reading.{time_in_day, number_of, position_of, velocity_of, code_of, address_of, level_of, status_bit, one_age, two_ages, ages_of, accuracy_of};

use crate::items::{Flag, MDS, PSR, SSR};
use asterix_frame::{has_bit, three_octets, two_octets};
use trk_base::DAY;

// The ages of I062/290: PSR, SSR and MDS.
pub(crate) type Ages = (Option<u8>, (Option<u8>, Option<u8>));

// I062/070.
pub(crate) fn time_in_day(time: Option<u32>) -> u32
    ensures value { result ≡ time_in_day time }
    ensures in_day { IsTimeOfDay result }
{
    match time {
        Some(time) if u64::from(time) < DAY => time,
        _ => 0,
    }
}

// I062/040.
pub(crate) fn number_of(octets: &[u8]) -> u16
    ensures { result ≡ number_of octets.now }
{
    two_octets(octets).unwrap_or(0)
}

// I062/100.
pub(crate) fn position_of(octets: &[u8]) -> (i32, i32)
    ensures value { result ≡ position_of octets.now }
    ensures in_range { IsPosition result.0 × IsPosition result.1 }
{
    match octets {
        [x2, x1, x0, y2, y1, y0] => (three_signed(*x2, *x1, *x0), three_signed(*y2, *y1, *y0)),
        _ => (0, 0),
    }
}

// A number in 24 bits, signed.
fn three_signed(high: u8, middle: u8, low: u8) -> i32
    ensures value { result ≡ signed 24 (from_three high middle low) }
    ensures in_range { IsPosition result }
{
    let number = u32::from_be_bytes([0, high, middle, low]) as i32;
    if number < 0x80_0000 {
        number
    } else {
        number - 0x100_0000
    }
}

// I062/185.
pub(crate) fn velocity_of(octets: &[u8]) -> (i16, i16)
    ensures { result ≡ velocity_of octets.now }
{
    match octets {
        [x1, x0, y1, y0] => (
            i16::from_be_bytes([*x1, *x0]),
            i16::from_be_bytes([*y1, *y0]),
        ),
        _ => (0, 0),
    }
}

// I062/060.
pub(crate) fn code_of(octets: &[u8]) -> Option<u16>
    ensures value { result ≡ code_of octets.now }
    ensures in_range { IsCode result }
{
    let code = two_octets(octets)?;
    (code < 0x1000).then_some(code)
}

// I062/380.
pub(crate) fn address_of(octets: &[u8]) -> Option<u32>
    ensures value { result ≡ address_of octets.now }
    ensures in_range { IsAddress result }
{
    let (_, address) = octets.split_first()?;
    three_octets(address)
}

// I062/136.
pub(crate) fn level_of(octets: &[u8]) -> Option<i16>
    ensures { result ≡ level_of octets.now }
{
    match octets {
        [high, low] => Some(i16::from_be_bytes([*high, *low])),
        _ => None,
    }
}

// Whether a flag of I062/080 is set.
pub(crate) fn has_flag(octets: &[u8], flag: Flag) -> bool
    requires some { 1 ≤ flag.bit }
    requires within { flag.bit ≤ 8 }
    ensures { result ≡ status_bit octets.now flag.octet flag.bit }
{
    octets
        .get(flag.octet)
        .is_some_and(|octet| has_bit(u16::from(*octet), flag.bit))
}

// I062/290.
pub(crate) fn ages_of(octets: &[u8]) -> Ages
    ensures value { result ≡ ages_of octets.now }
    ensures detected { (is_some result.0 || is_some result.1.0 || is_some result.1.1) ≡ true }
{
    match octets {
        [field, age] => one_age(*field, *age),
        [field, one, other] => two_ages(*field, *one, *other),
        [_, psr, ssr, mds] => (Some(*psr), (Some(*ssr), Some(*mds))),
        _ => (Some(0), (None, None)),
    }
}

fn one_age(field: u8, age: u8) -> Ages
    ensures value { result ≡ one_age field age }
    ensures detected { (is_some result.0 || is_some result.1.0 || is_some result.1.1) ≡ true }
{
    if field == PSR {
        (Some(age), (None, None))
    } else if field == SSR {
        (None, (Some(age), None))
    } else {
        (None, (None, Some(age)))
    }
}

fn two_ages(field: u8, one: u8, other: u8) -> Ages
    ensures value { result ≡ two_ages field one other }
    ensures detected { (is_some result.0 || is_some result.1.0 || is_some result.1.1) ≡ true }
{
    if field == PSR | SSR {
        (Some(one), (Some(other), None))
    } else if field == PSR | MDS {
        (Some(one), (None, Some(other)))
    } else {
        (None, (Some(one), Some(other)))
    }
}

// I062/500.
pub(crate) fn accuracy_of(octets: &[u8]) -> (u16, u16)
    ensures { result ≡ accuracy_of octets.now }
{
    match octets {
        [_, x1, x0, y1, y0] => (
            u16::from_be_bytes([*x1, *x0]),
            u16::from_be_bytes([*y1, *y0]),
        ),
        _ => (0, 0),
    }
}
