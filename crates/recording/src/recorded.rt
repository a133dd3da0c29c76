// The items of a recording, from the left.
ghost use Rattle.std.specs.Prelude.{◌≡◌, ◌<◌, ◌≤◌, ◌^◌, ◌++◌, ◌∷◌, length, unsigned_abs, None, IfOk, IfErr, IfSome, IfNone};
ghost use Rattle.std.specs.List.{flat_map};
ghost use Rattle.asterix_frame.specs.Values.{big_endian};
ghost use Rattle.recording.specs.Biases.{NumberEnds, signed_octets, slot_limit};
ghost use Rattle.recording.specs.declared.header.Header.{Header};
ghost use Rattle.recording.specs.Items.{IsItem, ItemsEnd, AreItems, item_octets};
ghost use Rattle.recording.specs.Readings.{HasHeader, magic};
ghost use Rattle.recording.specs.Answers.{item_of, items_of};

use crate::ending::Ending;
use crate::{Header, Item};
use plot_geometry::Bias;
use std::alloc::Global;
use trk_base::NoMemory;

/// The first octet of a tick.
pub(crate) const TICK: u8 = 1;
/// The first octet of a datagram.
pub(crate) const DATAGRAM: u8 = 2;
/// The first octet of a change of biases.
pub(crate) const BIAS: u8 = 3;
/// Slots are below this.
const SLOT_LIMIT: u64 = 1 << 34;
/// The greatest size of a gain, in 1/100,000.
const GAIN_SIZE: u16 = 10_000;
/// The greatest size of the bias of a range, in 1/128 NM, and of an azimuth, in 360/65,536 degrees.
const OFFSET_SIZE: u16 = 1_000;

/// The header that octets begin with, by its magic, and what follows the magic.
pub(crate) fn magic_of(octets: &[u8]) -> Option<(Header, &[u8])>
    ensures found { IfSome result (λ x. octets.now ≡ magic x.0 ++ x.1.now) }
    ensures none { IfNone result (HasHeader None octets.now) }
{
    match octets {
        [b'M', b'R', b'T', b'1', after @ ..] => Some((Header::First, after)),
        [b'M', b'R', b'T', b'2', after @ ..] => Some((Header::Second, after)),
        _ => None,
    }
}

/// The time in the five first octets, and what follows it.
pub(crate) fn first_time(octets: &[u8]) -> Option<(u64, &[u8])>
    ensures found { IfSome result (λ x. (x.0 < 2 ^ 40) × (octets.now ≡ big_endian 5 x.0 ++ x.1.now)) }
    ensures none { IfNone result (length octets.now < 5) }
{
    let [a, b, c, d, e, after @ ..] = octets else {
        return None;
    };
    Some((u64::from_be_bytes([0, 0, 0, *a, *b, *c, *d, *e]), after))
}

// The tick that the octets after the first begin with, and what follows it.
fn first_tick(octets: &[u8]) -> Result<(Item<'_>, &[u8]), Ending>
    ensures found { IfOk result (λ x. ((h : Header) → IsItem h (item_of x.0)) × (1 ∷ octets.now ≡ item_octets (item_of x.0) ++ x.1.now)) }
    ensures none { IfErr result (λ ending. (h : Header) → ItemsEnd h ending (1 ∷ octets.now)) }
{
    let Some((time, next)) = first_time(octets) else {
        return Err(Ending::Truncated);
    };
    Ok((Item::Tick(time), next))
}

// The datagram that the octets after the first begin with, and what follows it.
fn first_datagram(octets: &[u8]) -> Result<(Item<'_>, &[u8]), Ending>
    ensures found { IfOk result (λ x. ((h : Header) → IsItem h (item_of x.0)) × (2 ∷ octets.now ≡ item_octets (item_of x.0) ++ x.1.now)) }
    ensures none { IfErr result (λ ending. (h : Header) → ItemsEnd h ending (2 ∷ octets.now)) }
{
    let [feed, high, low, after @ ..] = octets else {
        return Err(Ending::Truncated);
    };
    let length = u16::from_be_bytes([*high, *low]) as usize;
    if after.len() < length {
        return Err(Ending::Truncated);
    }
    let (bytes, next) = after.split_at(length);
    Ok((Item::Datagram { feed: *feed, bytes }, next))
}

// The signed number in the two first octets, and what follows it.
fn first_signed(octets: &[u8]) -> Option<(i16, &[u8])>
    ensures found { IfSome result (λ x. octets.now ≡ signed_octets x.0 ++ x.1.now) }
    ensures none { IfNone result (length octets.now < 2) }
{
    let [high, low, next @ ..] = octets else {
        return None;
    };
    Some((i16::from_be_bytes([*high, *low]), next))
}

// The bias of at most this size that the octets begin with, and what follows it.
fn first_number(octets: &[u8], size: u16) -> Result<(i16, &[u8]), Ending>
    ensures found { IfOk result (λ x. (unsigned_abs x.0 ≤ size) × (octets.now ≡ signed_octets x.0 ++ x.1.now)) }
    ensures none { IfErr result (λ ending. NumberEnds size ending octets.now) }
{
    let Some((number, next)) = first_signed(octets) else {
        return Err(Ending::Truncated);
    };
    if number.unsigned_abs() > size {
        return Err(Ending::Other);
    }
    Ok((number, next))
}

// The radar and the slot that the octets after the first begin with, and what follows them.
fn first_slot(octets: &[u8]) -> Result<(u8, u64, &[u8]), Ending>
    ensures found { IfOk result (λ x. (x.1 < slot_limit) × (octets.now ≡ x.0 ∷ big_endian 5 x.1 ++ x.2.now)) }
    ensures none { IfErr result (λ ending. ItemsEnd Header.Second ending (3 ∷ octets.now)) }
{
    let [radar, after @ ..] = octets else {
        return Err(Ending::Truncated);
    };
    let Some((slot, next)) = first_time(after) else {
        return Err(Ending::Truncated);
    };
    if slot >= SLOT_LIMIT {
        return Err(Ending::Other);
    }
    Ok((*radar, slot, next))
}

// The change of biases that the octets after the first begin with, and what follows it.
fn first_bias(octets: &[u8]) -> Result<(Item<'_>, &[u8]), Ending>
    ensures found { IfOk result (λ x. IsItem Header.Second (item_of x.0) × (3 ∷ octets.now ≡ item_octets (item_of x.0) ++ x.1.now)) }
    ensures none { IfErr result (λ ending. ItemsEnd Header.Second ending (3 ∷ octets.now)) }
{
    let (radar, slot, after) = first_slot(octets)?;
    let (gain, after) = first_number(after, GAIN_SIZE)?;
    let (range, after) = first_number(after, OFFSET_SIZE)?;
    let (azimuth, next) = first_number(after, OFFSET_SIZE)?;
    let bias = Bias {
        gain,
        range,
        azimuth,
    };
    Ok((Item::Bias { radar, slot, bias }, next))
}

// The item that the octets begin with, and what follows it.
fn first_item(header: Header, octets: &[u8]) -> Result<(Item<'_>, &[u8]), Ending>
    requires { 0 < length octets.now }
    ensures found { IfOk result (λ x. IsItem header (item_of x.0) × (octets.now ≡ item_octets (item_of x.0) ++ x.1.now)) }
    ensures none { IfErr result (λ ending. ItemsEnd header ending octets.now) }
{
    match (header, octets) {
        (_, [TICK, after @ ..]) => first_tick(after),
        (_, [DATAGRAM, after @ ..]) => first_datagram(after),
        (Header::Second, [BIAS, after @ ..]) => first_bias(after),
        _ => Err(Ending::Other),
    }
}

/// The whole items that octets begin with, and how these end.
#[derive(Drop)]
pub(crate) struct Written<'a> {
    pub items: Vec<Item<'a>>,
    pub ending: Ending,
    /// Where the ending stands.
    pub offset: usize,
}

/// Reads items up to what begins none.
pub(crate) fn items_in(
    alloc: Global,
    header: Header,
    octets: &[u8],
) -> Result<Written<'_>, NoMemory>
    ensures items { IfOk result (λ w. AreItems header octets.now (items_of w.items.items) w.ending) }
    ensures offset { IfOk result (λ w. w.offset ≡ length (flat_map item_octets (items_of w.items.items))) }
{
    let mut items = Vec::new(alloc);
    let mut rest = octets;
    while !rest.is_empty() {
        match first_item(header, rest) {
            Ok((item, next)) => {
                items.push(item)?;
                rest = next;
            }
            Err(ending) => {
                return Ok(Written {
                    items,
                    ending,
                    offset: octets.len() - rest.len(),
                });
            }
        }
    }
    Ok(Written {
        items,
        ending: Ending::Nothing,
        offset: octets.len(),
    })
}
