// What is read of an input.
ghost use Rattle.std.specs.Prelude.{◌≡◌, ◌<◌, ◌≤◌, ◌^◌, IfOk, length, Some};
ghost use Rattle.std.specs.List.{AllByRecursion};
ghost use Rattle.recording.specs.Items.{IsItem};
ghost use Rattle.recording.specs.Readings.{HasContents, HasHeader, IsReading, IsReadingOfPrefix};
ghost use Rattle.recording.specs.Answers.{items_of};

use crate::raw::read_raw;
use crate::recorded::{first_time, items_in, magic_of};
use crate::{Header, Item};
use std::alloc::Global;
use trk_base::NoMemory;

/// What an input is.
#[derive(Drop)]
pub struct Reading<'a> {
    /// The header that the input begins with; none in the raw form.
    pub header: Option<Header>,
    /// The time it starts at, in 1/128 s; 0 where it has none.
    pub start: u64,
    /// The items before the first fault, in order.
    pub items: Vec<Item<'a>>,
    /// The offset of the first fault, if there is one.
    pub fault: Option<usize>,
}

/// Reads an input: a recording, where it begins with `MRT1` or `MRT2`, or else the raw form.
///
/// In a recording the fault is the first octet of the first item that is truncated, begins with an
/// octet that no item begins with, or is a change of biases with a slot at or above 2^34 or a bias
/// out of its range. Changes of biases come after `MRT2` alone. A header that is truncated is a
/// fault at offset 4, and the start is then 0. In the raw form the fault is the first octet of the
/// first block whose head isn't whole, whose length is below 3, or whose length reaches past the
/// end.
pub fn read_recording(alloc: Global, bytes: &[u8]) -> Result<Reading<'_>, NoMemory>
    ensures reads { IfOk result (λ r. IsReading bytes.now r.header r.start (items_of r.items.items) r.fault) }
    ensures header { IfOk result (λ r. HasHeader r.header bytes.now) }
    ensures start_fits { IfOk result (λ r. r.start < 2 ^ 40) }
    ensures items_fit { IfOk result (λ r. AllByRecursion (IsItem Header.Second) (items_of r.items.items)) }
{
    read(alloc, bytes, false)
}

/// Reads a prefix of an input that goes on after it.
///
/// Where the prefix ends, the end is told as a fault, and so is an item or block that is truncated
/// there, since it may be whole in the input. A fault before the end is one of the whole input: of a
/// truncated change of biases the numbers that stand whole before the end are judged.
pub fn read_prefix(alloc: Global, bytes: &[u8]) -> Result<Reading<'_>, NoMemory>
    requires { 9 ≤ length bytes.now }
    ensures reads { IfOk result (λ r. IsReadingOfPrefix bytes.now r.header r.start (items_of r.items.items) r.fault) }
    ensures header { IfOk result (λ r. HasHeader r.header bytes.now) }
    ensures start_fits { IfOk result (λ r. r.start < 2 ^ 40) }
    ensures items_fit { IfOk result (λ r. AllByRecursion (IsItem Header.Second) (items_of r.items.items)) }
{
    read(alloc, bytes, true)
}

// The same, of octets that go on after their end or don't.
fn read(alloc: Global, bytes: &[u8], goes_on: bool) -> Result<Reading<'_>, NoMemory>
    ensures reads { IfOk result (λ r. HasContents bytes.now goes_on r.header r.start (items_of r.items.items) r.fault) }
    ensures header { IfOk result (λ r. HasHeader r.header bytes.now) }
    ensures start_fits { IfOk result (λ r. r.start < 2 ^ 40) }
    ensures items_fit { IfOk result (λ r. AllByRecursion (IsItem Header.Second) (items_of r.items.items)) }
{
    let Some((header, after)) = magic_of(bytes) else {
        return read_raw(alloc, bytes, goes_on);
    };
    let Some((start, octets)) = first_time(after) else {
        return Ok(Reading {
            header: Some(header),
            start: 0,
            items: Vec::new(alloc),
            fault: Some(4),
        });
    };
    let written = items_in(alloc, header, octets)?;
    let offset = bytes.len() - octets.len() + written.offset;
    Ok(Reading {
        header: Some(header),
        start,
        items: written.items,
        fault: written.ending.fault(goes_on, offset, bytes.len()),
    })
}
