// A record in the making.
ghost use Rattle.std.specs.Prelude.{◌≡◌, ◌+◌, ◌*◌, ◌<◌, ◌≤◌, ◌++◌, [], ◌∷◌, ℕ, List, length, drop, take, slice_index, IfOk, OnErr};
ghost use Rattle.asterix_frame.specs.declared.tables.Uap.{Uap};
ghost use Rattle.asterix_frame.specs.declared.tables.SubfieldFormat.{SubfieldFormat};
ghost use Rattle.asterix_frame.specs.Tables.{table_of};
ghost use Rattle.asterix_frame.specs.Elements.{Element, octets_of};
ghost use Rattle.asterix_frame.specs.Presence.{fx, IsExtended};
ghost use Rattle.asterix_frame.specs.Items.{IsCompound};
ghost use Rattle.asterix_frame.specs.Packing.{record_limit};
ghost use Rattle.asterix_frame.specs.Records.{HasRecord, spans};
ghost use Rattle.asterix_frame.specs.DataRecords.{IsDataRecord, record_octets};
ghost use Rattle.asterix_frame.specs.Encoding.{AreDataItems, AreSubfields, bit, compound_of, field_from, field_octet, item_of, last_frn, record_of, sized};

use crate::presence::{FSPEC_LIMIT, TABLE_LIMIT};
use std::marker::Model;
use trk_base::NoMemory;

/// A record in the making, item by item in rising FRN. Contracts see its items.
///
/// The FSPEC is made of the FRNs of the items, as long as the last one needs. The octets of a
/// compound item are made alike: its subfields are put in under the numbers of their bits, from 1
/// for bit 8 of the first octet on.
#[derive(Drop)]
pub struct RecordWriter {
    // nothing, or room for the FSPEC and then the items' octets
    octets: Vec<u8>,
    // the octets of the item of each FRN, from 1 on
    sizes: [u16; TABLE_LIMIT],
    // the FRN of the last item
    last: u8,
}

impl Model for RecordWriter {
    ghost use Rattle.std.specs.Prelude.{List, drop};
    ghost use Rattle.asterix_frame.specs.Elements.{Element};
    ghost use Rattle.asterix_frame.specs.Encoding.{elements_by_size, IsDraft};

    ghost Value = { List Element };

    ghost view = { λ w. elements_by_size 0 w.sizes (drop 4 w.octets.items) };

    ghost invariant = { λ w. IsDraft w.octets.items w.sizes w.last };
}

impl RecordWriter {
    /// A record without items, in the memory of `room`, whose octets are dropped. It takes no
    /// memory; where `room` has it for the whole record, `put` takes none either.
    pub fn new(room: Vec<u8>) -> Self
        ensures { result ≡ [] }
    {
        let mut octets = room;
        octets.clear();
        RecordWriter {
            octets,
            sizes: [0; TABLE_LIMIT],
            last: 0,
        }
    }

    /// Puts in the item of an FRN above those before. With the four octets that an FSPEC has at
    /// most, the record stays within `RECORD_LIMIT`. Without memory it is as it was.
    pub fn put(&mut self, frn: u8, octets: &[u8]) -> Result<(), NoMemory>
        requires rising { last_frn self.old < frn }
        requires in_table { frn ≤ 28 }
        requires some { 0 < length octets.now }
        requires limited { length (octets_of self.old) + length octets.now + 4 ≤ record_limit }
        ensures added { IfOk result (λ _. self.new ≡ self.old ++ item_of frn octets.now ∷ []) }
        ensures last { IfOk result (λ _. last_frn self.new ≡ frn) }
        ensures size { IfOk result (λ _. length (octets_of self.new) ≡ length (octets_of self.old) + length octets.now) }
        ensures err { OnErr result (self.new ≡ self.old) }
    {
        if self.octets.is_empty() {
            self.octets.extend_from_slice(&[0; FSPEC_LIMIT])?;
        }
        self.octets.extend_from_slice(octets)?;
        self.sizes[frn as usize - 1] = octets.len() as u16;
        self.last = frn;
        Ok(())
    }

    /// The record's octets. It takes no memory.
    pub fn finish(self) -> Vec<u8>
        requires { 0 < length self }
        ensures { result.items ≡ record_octets (record_of self) }
    {
        let RecordWriter {
            mut octets,
            sizes,
            last,
        } = self;
        let count = (last as usize - 1) / 7 + 1;
        let fspec = fspec_of(&sizes, count);
        let unused = FSPEC_LIMIT - count;
        octets[unused..FSPEC_LIMIT].copy_from_slice(&fspec[..count]);
        octets.rotate_left(unused);
        let length = octets.len() - unused;
        octets.truncate(length);
        octets
    }
}

// The FSPEC of items of these sizes, which has so many octets; what follows them means nothing.
fn fspec_of(sizes: &[u16], count: usize) -> [u8; FSPEC_LIMIT]
    requires sizes { length sizes.now ≡ 28 }
    requires some { 0 < count }
    requires few { count ≤ 4 }
    ensures { take count result ≡ field_from (sized sizes.now) 0 count }
{
    [
        fspec_octet(sizes, 0, 1 < count),
        fspec_octet(sizes, 1, 2 < count),
        fspec_octet(sizes, 2, 3 < count),
        fspec_octet(sizes, 3, false),
    ]
}

// The octet of the FSPEC with that index.
fn fspec_octet(sizes: &[u16], index: usize, goes_on: bool) -> u8
    requires { 7 * index + 6 < length sizes.now }
    ensures { result ≡ field_octet (sized sizes.now) index goes_on }
{
    let first = 7 * index;
    128 * bit(sizes[first] > 0)
        + 64 * bit(sizes[first + 1] > 0)
        + 32 * bit(sizes[first + 2] > 0)
        + 16 * bit(sizes[first + 3] > 0)
        + 8 * bit(sizes[first + 4] > 0)
        + 4 * bit(sizes[first + 5] > 0)
        + 2 * bit(sizes[first + 6] > 0)
        + bit(goes_on)
}

// A bit as a number.
fn bit(is_set: bool) -> u8
    ensures value { result ≡ bit is_set }
    ensures small { result ≤ 1 }
{
    u8::from(is_set)
}

/// What is encoded of items of a category, in rising FRN, is a record of the category, and a walk
/// over it finds exactly these items. One octet without FX is an extended item, and what is encoded
/// of subfields a compound one.
pub fn one_encoding()
    ensures written { (uap : Uap) (items : List Element) → AreDataItems uap items → IsDataRecord uap (record_of items) }
    ensures walk { (uap : Uap) (items : List Element) (body rest : List ℕ) (from : ℕ) → AreDataItems uap items → drop from body ≡ record_octets (record_of items) ++ rest → HasRecord (table_of uap) body from (spans (from + length (record_of items).fspec) items) (from + length (record_octets (record_of items))) }
    ensures extended { (octet : ℕ) → fx octet ≡ 0 → IsExtended (octet ∷ []) }
    ensures compound { (table : List SubfieldFormat) (subfields : List Element) → AreSubfields table subfields → IsCompound table (compound_of subfields) }
{}
