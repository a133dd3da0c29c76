// The octets of items.
ghost use Rattle.std.specs.Prelude.{◌≡◌, ◌<◌, ◌≤◌, ◌++◌, ◌^◌, take};
ghost use Rattle.asterix_frame.specs.Values.{big_endian};
ghost use Rattle.asterix_frame.specs.Encoding.{bit};
ghost use Rattle.cat062_out.specs.Tracks.{IsPosition};
ghost use Rattle.cat062_out.specs.TrackRecords.{is_old, three_signed, two_signed, address_octets, status_octets, ages_octets, accuracy_octets};

use crate::TrackLine;
use crate::items::{MDS, PSR, SSR};

// Bit 1 of an octet: another follows.
const FX: u8 = 0x01;

// I062/380: the primary field's bit of ADR, the address.
const ADR: u8 = 0x80;

// I062/500: the primary field's bit of APC, the accuracy of the position.
const APC: u8 = 0x80;

// The age in 1/4 s above which a track counts as not seen: 12 s.
const OLD_AGE: u8 = 48;

// A number below 2^24.
pub(crate) fn three_octets_of(number: u32) -> [u8; 3]
    requires { number < 2 ^ 24 }
    ensures { result ≡ big_endian 3 number }
{
    let [_, high, middle, low] = number.to_be_bytes();
    [high, middle, low]
}

// A number in 24 bits, signed.
fn three_signed(number: i32) -> [u8; 3]
    requires { IsPosition number }
    ensures { result ≡ three_signed number }
{
    let [_, high, middle, low] = number.to_be_bytes();
    [high, middle, low]
}

// I062/100.
pub(crate) fn position_octets(line: &TrackLine) -> [u8; 6]
    ensures { result ≡ three_signed line.now.x ++ three_signed line.now.y }
{
    let [x2, x1, x0] = three_signed(line.x);
    let [y2, y1, y0] = three_signed(line.y);
    [x2, x1, x0, y2, y1, y0]
}

// I062/185.
pub(crate) fn velocity_octets(line: &TrackLine) -> [u8; 4]
    ensures { result ≡ two_signed line.now.vx ++ two_signed line.now.vy }
{
    let [x1, x0] = line.vx.to_be_bytes();
    let [y1, y0] = line.vy.to_be_bytes();
    [x1, x0, y1, y0]
}

// I062/380, with the address alone.
#[tactic(auto, unfolding(asterix_frame::specs::Encoding::field_of, asterix_frame::specs::Encoding::field_octet))]
pub(crate) fn address_octets(address: u32) -> [u8; 4]
    requires { address < 2 ^ 24 }
    ensures { result ≡ address_octets address }
{
    let [_, high, middle, low] = address.to_be_bytes();
    [ADR, high, middle, low]
}

// I062/080.
pub(crate) fn status_octets(line: &TrackLine) -> [u8; 4]
    ensures { result ≡ status_octets line.now }
{
    [
        // MON and SPI
        128 * bit(line.mono) + 64 * bit(line.spi) + FX,
        // TSE and TSB
        64 * bit(line.ended) + 32 * bit(line.first) + FX,
        FX,
        // CST, PSR, SSR, MDS and ADS
        128 * bit(line.coast)
            + 64 * bit(is_old(line.psr))
            + 32 * bit(is_old(line.ssr))
            + 16 * bit(is_old(line.mds))
            + 8,
    ]
}

// Whether an age is above `OLD_AGE`, or isn't there.
fn is_old(age: Option<u8>) -> bool
    ensures { result ≡ is_old age }
{
    age.is_none_or(|age| age > OLD_AGE)
}

// A bit as a number.
fn bit(is_set: bool) -> u8
    ensures value { result ≡ bit is_set }
    ensures small { result ≤ 1 }
{
    u8::from(is_set)
}

// I062/290, and how many of the octets it has.
#[tactic(auto, unfolding(asterix_frame::specs::Encoding::field_of, asterix_frame::specs::Encoding::field_octet))]
pub(crate) fn ages_octets(line: &TrackLine) -> ([u8; 4], usize)
    ensures octets { take result.1 result.0 ≡ ages_octets line.now }
    ensures count { (1 ≤ result.1) × (result.1 ≤ 4) }
{
    match (line.psr, line.ssr, line.mds) {
        (None, None, None) => ([0, 0, 0, 0], 1),
        (Some(psr), None, None) => ([PSR, psr, 0, 0], 2),
        (None, Some(ssr), None) => ([SSR, ssr, 0, 0], 2),
        (None, None, Some(mds)) => ([MDS, mds, 0, 0], 2),
        (Some(psr), Some(ssr), None) => ([PSR | SSR, psr, ssr, 0], 3),
        (Some(psr), None, Some(mds)) => ([PSR | MDS, psr, mds, 0], 3),
        (None, Some(ssr), Some(mds)) => ([SSR | MDS, ssr, mds, 0], 3),
        (Some(psr), Some(ssr), Some(mds)) => ([PSR | SSR | MDS, psr, ssr, mds], 4),
    }
}

// I062/500, with the accuracy of the position alone.
#[tactic(auto, unfolding(asterix_frame::specs::Encoding::field_of, asterix_frame::specs::Encoding::field_octet))]
pub(crate) fn accuracy_octets(line: &TrackLine) -> [u8; 5]
    ensures { result ≡ accuracy_octets line.now }
{
    let [x1, x0] = line.sx.to_be_bytes();
    let [y1, y0] = line.sy.to_be_bytes();
    [APC, x1, x0, y1, y0]
}
