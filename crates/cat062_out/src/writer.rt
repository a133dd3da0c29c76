// The record of a track, written.
ghost use Rattle.std.specs.Prelude.{◌≡◌, ◌+◌, ◌<◌, ◌≤◌, ◌++◌, [], ◌∷◌, ◌↔◌, length, IfOk, OnErr, false, if◌then◌else◌};
ghost use Rattle.trk_base.specs.Ranges.{IsAddress};
ghost use Rattle.asterix_frame.specs.Elements.{octets_of};
ghost use Rattle.asterix_frame.specs.Packing.{block_limit};
ghost use Rattle.asterix_frame.specs.Values.{big_endian};
ghost use Rattle.asterix_frame.specs.Encoding.{item_of, last_frn};
ghost use Rattle.cat062_out.specs.TrackRecords.{where_known, two_signed, address_octets, stamp_items, motion_items, status_items, track_record, track_limit};

use crate::items::{
    ACCURACY, AGES, AIRCRAFT, CODE, LEVEL, NUMBER, POSITION, SERVICE, SOURCE, STATUS, TIME,
    VELOCITY,
};
use crate::octets::{
    accuracy_octets, address_octets, ages_octets, position_octets, status_octets, three_octets_of,
    velocity_octets,
};
use crate::{Stamp, TrackLine};
use asterix_frame::{BlockWriter, RecordWriter};
use std::alloc::Global;
use trk_base::NoMemory;

/// The octets of the longest record of a track: in a room of so many each is made without memory.
pub const TRACK_ROOM: usize = 43;

/// Adds the record of a track to a block of category 62.
///
/// It is false, and the block as it was, exactly where the block would pass `BLOCK_LIMIT`. Without
/// memory the block is as it was.
pub fn write_track(
    alloc: Global,
    stamp: &Stamp,
    line: &TrackLine,
    block: &mut BlockWriter,
) -> Result<bool, NoMemory>
    requires { block.old.category ≡ 62 }
    ensures full { IfOk result (λ added. (added ≡ false) ↔ (block_limit < length block.old.body + length (track_record stamp.now line.now) + 3)) }
    ensures added { IfOk result (λ added. block.new ≡ (if added then record block.old { body = block.old.body ++ track_record stamp.now line.now } else block.old)) }
    ensures err { OnErr result (block.new ≡ block.old) }
{
    let record = track_record(stamp, line, Vec::new(alloc))?;
    block.append(&record)
}

/// The octets of a track's record, in the memory of `room`, whose octets are dropped. Where `room`
/// has it for `TRACK_ROOM` octets no memory is taken.
pub fn track_record(stamp: &Stamp, line: &TrackLine, room: Vec<u8>) -> Result<Vec<u8>, NoMemory>
    ensures octets { IfOk result (λ v. v.items ≡ track_record stamp.now line.now) }
    ensures some { IfOk result (λ v. 0 < length v.items) }
    ensures limited { IfOk result (λ v. length v.items ≤ track_limit) }
{
    let mut writer = RecordWriter::new(room);
    put_stamp(&mut writer, stamp)?;
    put_motion(&mut writer, line)?;
    put_code(&mut writer, line.code)?;
    put_address(&mut writer, line.address)?;
    put_status(&mut writer, line)?;
    put_level(&mut writer, line.level)?;
    writer.put(ACCURACY, &accuracy_octets(line))?;
    Ok(writer.finish())
}

fn put_stamp(writer: &mut RecordWriter, stamp: &Stamp) -> Result<(), NoMemory>
    requires { writer.old ≡ [] }
    ensures added { IfOk result (λ _. writer.new ≡ stamp_items stamp.now) }
    ensures last { IfOk result (λ _. last_frn writer.new ≡ 4) }
    ensures size { IfOk result (λ _. length (octets_of writer.new) ≡ 6) }
{
    writer.put(SOURCE, &[stamp.sac, stamp.sic])?;
    writer.put(SERVICE, &[stamp.service])?;
    writer.put(TIME, &three_octets_of(stamp.tod))
}

fn put_motion(writer: &mut RecordWriter, line: &TrackLine) -> Result<(), NoMemory>
    requires rising { last_frn writer.old < 6 }
    requires limited { length (octets_of writer.old) ≤ 100 }
    ensures added { IfOk result (λ _. writer.new ≡ writer.old ++ motion_items line.now) }
    ensures last { IfOk result (λ _. last_frn writer.new ≡ 7) }
    ensures size { IfOk result (λ _. length (octets_of writer.new) ≡ length (octets_of writer.old) + 10) }
{
    writer.put(POSITION, &position_octets(line))?;
    writer.put(VELOCITY, &velocity_octets(line))
}

fn put_code(writer: &mut RecordWriter, code: Option<u16>) -> Result<(), NoMemory>
    requires rising { last_frn writer.old < 9 }
    requires limited { length (octets_of writer.old) ≤ 100 }
    ensures added { IfOk result (λ _. writer.new ≡ writer.old ++ where_known 9 (λ c. big_endian 2 c) code) }
    ensures last { IfOk result (λ _. last_frn writer.new ≤ 9) }
    ensures size { IfOk result (λ _. length (octets_of writer.new) ≤ length (octets_of writer.old) + 2) }
{
    match code {
        Some(code) => writer.put(CODE, &code.to_be_bytes()),
        None => Ok(()),
    }
}

fn put_address(writer: &mut RecordWriter, address: Option<u32>) -> Result<(), NoMemory>
    requires in_range { IsAddress address }
    requires rising { last_frn writer.old < 11 }
    requires limited { length (octets_of writer.old) ≤ 100 }
    ensures added { IfOk result (λ _. writer.new ≡ writer.old ++ where_known 11 address_octets address) }
    ensures last { IfOk result (λ _. last_frn writer.new ≤ 11) }
    ensures size { IfOk result (λ _. length (octets_of writer.new) ≤ length (octets_of writer.old) + 4) }
{
    match address {
        Some(address) => writer.put(AIRCRAFT, &address_octets(address)),
        None => Ok(()),
    }
}

fn put_status(writer: &mut RecordWriter, line: &TrackLine) -> Result<(), NoMemory>
    requires rising { last_frn writer.old < 12 }
    requires limited { length (octets_of writer.old) ≤ 100 }
    ensures added { IfOk result (λ _. writer.new ≡ writer.old ++ status_items line.now) }
    ensures last { IfOk result (λ _. last_frn writer.new ≡ 14) }
    ensures size { IfOk result (λ _. length (octets_of writer.new) ≤ length (octets_of writer.old) + 10) }
{
    writer.put(NUMBER, &line.number.to_be_bytes())?;
    writer.put(STATUS, &status_octets(line))?;
    let (ages, count) = ages_octets(line);
    writer.put(AGES, &ages[..count])
}

fn put_level(writer: &mut RecordWriter, level: Option<i16>) -> Result<(), NoMemory>
    requires rising { last_frn writer.old < 17 }
    requires limited { length (octets_of writer.old) ≤ 100 }
    ensures added { IfOk result (λ _. writer.new ≡ writer.old ++ where_known 17 two_signed level) }
    ensures last { IfOk result (λ _. last_frn writer.new ≤ 17) }
    ensures size { IfOk result (λ _. length (octets_of writer.new) ≤ length (octets_of writer.old) + 2) }
{
    match level {
        Some(level) => writer.put(LEVEL, &level.to_be_bytes()),
        None => Ok(()),
    }
}
