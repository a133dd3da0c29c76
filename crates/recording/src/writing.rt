// Recordings as they are written.
ghost use Rattle.std.specs.Prelude.{◌≡◌, ◌<◌, ◌^◌, IfOk};
ghost use Rattle.recording.specs.Items.{IsItem, item_octets};
ghost use Rattle.recording.specs.Readings.{header_octets};
ghost use Rattle.recording.specs.Answers.{item_of};

use crate::recorded::{BIAS, DATAGRAM, TICK};
use crate::{Header, Item};
use std::alloc::Global;
use trk_base::NoMemory;

/// The first header, of a recording without changes of biases, that begins at a time in 1/128 s.
pub fn write_start(start: u64) -> [u8; 9]
    requires { start < 2 ^ 40 }
    ensures { result ≡ header_octets Header.First start }
{
    let [_, _, _, a, b, c, d, e] = start.to_be_bytes();
    [b'M', b'R', b'T', b'1', a, b, c, d, e]
}

/// The second header, of a recording that may have changes of biases, that begins at a time in
/// 1/128 s.
pub fn write_start_2(start: u64) -> [u8; 9]
    requires { start < 2 ^ 40 }
    ensures { result ≡ header_octets Header.Second start }
{
    let [_, _, _, a, b, c, d, e] = start.to_be_bytes();
    [b'M', b'R', b'T', b'2', a, b, c, d, e]
}

/// The octets of an item of a recording. A change of biases belongs after the second header alone.
pub fn write_item(alloc: Global, item: &Item<'_>) -> Result<Vec<u8>, NoMemory>
    requires { IsItem Header.Second (item_of item.now) }
    ensures { IfOk result (λ v. v.items ≡ item_octets (item_of item.now)) }
{
    match item {
        Item::Tick(time) => {
            let [_, _, _, a, b, c, d, e] = time.to_be_bytes();
            Ok(Vec::from_slice(alloc, &[TICK, a, b, c, d, e])?)
        }
        Item::Datagram { feed, bytes } => {
            let [high, low] = (bytes.len() as u16).to_be_bytes();
            let mut octets = Vec::with_capacity(alloc, 4 + bytes.len())?;
            octets.extend_from_slice(&[DATAGRAM, *feed, high, low])?;
            octets.extend_from_slice(bytes)?;
            Ok(octets)
        }
        Item::Bias { radar, slot, bias } => {
            let [_, _, _, a, b, c, d, e] = slot.to_be_bytes();
            let [g, h] = bias.gain.to_be_bytes();
            let [i, j] = bias.range.to_be_bytes();
            let [k, l] = bias.azimuth.to_be_bytes();
            let octets = [BIAS, *radar, a, b, c, d, e, g, h, i, j, k, l];
            Ok(Vec::from_slice(alloc, &octets)?)
        }
    }
}
