// The states of the radars, written.
ghost use Rattle.std.specs.Prelude.{◌≡◌, ◌≤◌, ◌++◌, length, IfOk};
ghost use Rattle.trk_base.specs.Ranges.{IsTimeOfDay};
ghost use Rattle.asterix_frame.specs.Packing.{block_limit};
ghost use Rattle.asterix_frame.specs.Values.{big_endian};
ghost use Rattle.cat062_out.specs.TrackRecords.{two_signed};
ghost use Rattle.status_out.specs.SensorRecords.{sensor_block, sensor_record};

use crate::RadarLine;
use asterix_frame::{BlockWriter, RecordWriter, SOURCE_FRN, Uap};
use cat062_out::Stamp;
use std::alloc::Global;
use trk_base::NoMemory;

// I063/015, service identification.
pub(crate) const SERVICE: u8 = 2;
// I063/030, time of message.
pub(crate) const TIME: u8 = 3;
// I063/050, sensor identifier.
pub(crate) const SENSOR: u8 = 4;
// I063/060, sensor configuration and status.
pub(crate) const STATUS: u8 = 5;
// I063/070, time stamping bias.
pub(crate) const TIME_BIAS: u8 = 6;
// I063/080, gain and bias of ranges.
pub(crate) const RANGE_BIAS: u8 = 7;
// I063/081, bias of azimuths.
pub(crate) const AZIMUTH_BIAS: u8 = 8;

// The octets of a record in the making: four for the FSPEC, and those of its items.
const RECORD_ROOM: usize = 21;

/// The block of the states of radars, one record each, as one stamp tells them. 32 records always
/// fit in one block.
pub fn write063(alloc: Global, stamp: &Stamp, radars: &[RadarLine]) -> Result<Vec<u8>, NoMemory>
    requires some { 1 ≤ length radars.now }
    requires few { length radars.now ≤ 32 }
    ensures block { IfOk result (λ v. v.items ≡ sensor_block stamp.now radars.now) }
    ensures within { IfOk result (λ v. length v.items ≤ block_limit) }
{
    let mut block = BlockWriter::new(alloc, Uap::Cat063.category());
    let mut room = Vec::with_capacity(alloc, RECORD_ROOM)?;
    for line in radars {
        let record = sensor_record(stamp, line, room)?;
        // there is room for 32
        block.append(&record)?;
        room = record;
    }
    Ok(block.finish())
}

// The octets of a radar's record, in the memory of `room`, whose octets are dropped.
pub(crate) fn sensor_record(
    stamp: &Stamp,
    line: &RadarLine,
    room: Vec<u8>,
) -> Result<Vec<u8>, NoMemory>
    ensures octets { IfOk result (λ v. v.items ≡ sensor_record (stamp.now, line.now)) }
    ensures size { IfOk result (λ v. length v.items ≡ 19) }
{
    let mut record = RecordWriter::new(room);
    record.put(SOURCE_FRN, &[stamp.sac, stamp.sic])?;
    record.put(SERVICE, &[stamp.service])?;
    record.put(TIME, &time_octets(stamp.tod))?;
    record.put(SENSOR, &[line.sac, line.sic])?;
    record.put(STATUS, &[64 * line.con])?;
    record.put(TIME_BIAS, &time_bias_octets(line))?;
    record.put(RANGE_BIAS, &range_bias_octets(line))?;
    record.put(AZIMUTH_BIAS, &azimuth_bias_octets(line))?;
    Ok(record.finish())
}

// A time of day in three octets.
fn time_octets(tod: u32) -> [u8; 3]
    requires { IsTimeOfDay tod }
    ensures { result ≡ big_endian 3 tod }
{
    let [_, high, middle, low] = tod.to_be_bytes();
    [high, middle, low]
}

// The bias of time stamps.
fn time_bias_octets(line: &RadarLine) -> [u8; 2]
    ensures { result ≡ two_signed line.now.time_ms }
{
    line.time_ms.to_be_bytes()
}

// The gain and the bias of ranges.
fn range_bias_octets(line: &RadarLine) -> [u8; 4]
    ensures { result ≡ two_signed line.now.gain ++ two_signed line.now.range }
{
    let [gain_high, gain_low] = line.gain.to_be_bytes();
    let [range_high, range_low] = line.range.to_be_bytes();
    [gain_high, gain_low, range_high, range_low]
}

// The bias of azimuths.
fn azimuth_bias_octets(line: &RadarLine) -> [u8; 2]
    ensures { result ≡ two_signed line.now.azimuth }
{
    line.azimuth.to_be_bytes()
}
