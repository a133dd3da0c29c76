// What the octets of one item say.
ghost use Rattle.std.specs.Prelude.{◌≡◌, ◌≤◌};
ghost use Rattle.std.specs.Option.{ForSome};
ghost use Rattle.trk_base.specs.Ranges.{IsTimeOfDay, IsCode, IsLevel, IsAddress};
ghost use Rattle.cat048_in.specs.Values.{is_doubtful, undoubted, below_day, kind_of, simulated_of, spi_of, monitor_of, test_of, polar_of, code_of, level_of, address_of};

use asterix_frame::{has_bit, three_octets, two_octets};
use trk_base::DAY;

// Bits of I048/020, as the standard counts them: 1 is the lowest of its octet.

// SIM, in the first octet: the report is simulated.
const SIMULATED: u32 = 5;
// SPI, in the first octet: special position identification.
const SPECIAL_POSITION: u32 = 3;
// RAB, in the first octet: the report is from the field monitor.
const FIELD_MONITOR: u32 = 2;
// TST, in the first extension: the report is of a test target.
const TEST_TARGET: u32 = 8;

// Bits of I048/070 and I048/090.

// V: the value isn't validated.
const NOT_VALIDATED: u32 = 16;
// G: the value is garbled.
const GARBLED: u32 = 15;

// Whether a code or a level isn't validated or is garbled.
fn is_doubtful(number: u16) -> bool
    ensures { result ≡ is_doubtful number }
{
    has_bit(number, NOT_VALIDATED) || has_bit(number, GARBLED)
}

// The number of a code or a level, unless it isn't validated or is garbled.
fn undoubted(octets: &[u8]) -> Option<u16>
    ensures { result ≡ undoubted octets.now }
{
    let number = two_octets(octets)?;
    if is_doubtful(number) {
        None
    } else {
        Some(number)
    }
}

// A time of day, where it is below a day. In a whole record it is.
pub(crate) fn below_day(time: Option<u32>) -> Option<u32>
    ensures value { result ≡ below_day time }
    ensures in_range { ForSome result IsTimeOfDay }
{
    time.filter(|time| u64::from(*time) < DAY)
}

// TYP, of I048/020.
pub(crate) fn kind_of(octets: &[u8]) -> Option<u8>
    ensures value { result ≡ kind_of octets.now }
    ensures in_range { ForSome result (λ k. k ≤ 7) }
{
    let first = octets.first()?;
    Some(first >> 5)
}

// SIM, of I048/020.
pub(crate) fn simulated_of(octets: &[u8]) -> bool
    ensures { result ≡ simulated_of octets.now }
{
    octets
        .first()
        .is_some_and(|first| has_bit(u16::from(*first), SIMULATED))
}

// SPI, of I048/020.
pub(crate) fn spi_of(octets: &[u8]) -> bool
    ensures { result ≡ spi_of octets.now }
{
    octets
        .first()
        .is_some_and(|first| has_bit(u16::from(*first), SPECIAL_POSITION))
}

// RAB, of I048/020.
pub(crate) fn monitor_of(octets: &[u8]) -> bool
    ensures { result ≡ monitor_of octets.now }
{
    octets
        .first()
        .is_some_and(|first| has_bit(u16::from(*first), FIELD_MONITOR))
}

// TST, of I048/020.
pub(crate) fn test_of(octets: &[u8]) -> bool
    ensures { result ≡ test_of octets.now }
{
    match octets {
        [_, extension, ..] => has_bit(u16::from(*extension), TEST_TARGET),
        _ => false,
    }
}

// RHO and THETA, of I048/040.
pub(crate) fn polar_of(octets: &[u8]) -> Option<(u16, u16)>
    ensures { result ≡ polar_of octets.now }
{
    match octets {
        [r1, r0, t1, t0] => Some((
            u16::from_be_bytes([*r1, *r0]),
            u16::from_be_bytes([*t1, *t0]),
        )),
        _ => None,
    }
}

// The code of I048/070, unless it isn't validated or is garbled.
pub(crate) fn code_of(octets: &[u8]) -> Option<u16>
    ensures value { result ≡ code_of octets.now }
    ensures in_range { IsCode result }
{
    let number = undoubted(octets)?;
    Some(number % 0x1000)
}

// The level of I048/090, unless it isn't validated or is garbled.
pub(crate) fn level_of(octets: &[u8]) -> Option<i16>
    ensures value { result ≡ level_of octets.now }
    ensures in_range { IsLevel result }
{
    let number = undoubted(octets)?;
    let level = (number % 0x4000) as i16;
    if level < 0x2000 {
        Some(level)
    } else {
        Some(level - 0x4000)
    }
}

// The address of I048/220.
pub(crate) fn address_of(octets: &[u8]) -> Option<u32>
    ensures value { result ≡ address_of octets.now }
    ensures in_range { IsAddress result }
{
    three_octets(octets)
}
