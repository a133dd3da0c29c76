// The state of the service and the end of a batch, written.
ghost use Rattle.std.specs.Prelude.{◌≡◌, ◌≤◌, ◌<◌, length, IfOk};
ghost use Rattle.asterix_frame.specs.Packing.{block_limit};
ghost use Rattle.status_out.specs.declared.service_line.Line065.TheVariants as kinds;
ghost use Rattle.status_out.specs.ServiceRecords.{HasState, common_items, service_block, service_record};

use crate::Line065;
use asterix_frame::{BlockWriter, RecordWriter, SOURCE_FRN, Uap};
use cat062_out::Stamp;
use std::alloc::Global;
use trk_base::NoMemory;

// I065/000, message type.
pub(crate) const KIND: u8 = 2;
// I065/015, service identification.
pub(crate) const SERVICE: u8 = 3;
// I065/030, time of message.
pub(crate) const TIME: u8 = 4;
// I065/020, batch number.
pub(crate) const BATCH: u8 = 5;
// I065/040, configuration and status of the service.
pub(crate) const STATUS: u8 = 6;

// The type of a message on the state of the service.
pub(crate) const STATUS_KIND: u8 = 1;
// The type of a message that ends a batch.
pub(crate) const END_KIND: u8 = 2;

// The octets of a record in the making: four for the FSPEC, and those of its items.
const RECORD_ROOM: usize = 12;

/// The block of the state of the service: `nogo` is 0 where it is operational, and 1 where it is
/// degraded.
pub fn write065_status(alloc: Global, stamp: &Stamp, nogo: u8) -> Result<Vec<u8>, NoMemory>
    requires { nogo ≤ 1 }
    ensures block { IfOk result (λ v. v.items ≡ service_block (kinds.Status stamp.now nogo)) }
    ensures within { IfOk result (λ v. length v.items ≤ block_limit) }
{
    block_of(alloc, &Line065::Status(*stamp, nogo))
}

/// The block of the end of a batch, with its number.
pub fn write065_end(alloc: Global, stamp: &Stamp, batch: u8) -> Result<Vec<u8>, NoMemory>
    ensures block { IfOk result (λ v. v.items ≡ service_block (kinds.End stamp.now batch)) }
    ensures within { IfOk result (λ v. length v.items ≤ block_limit) }
{
    block_of(alloc, &Line065::End(*stamp, batch))
}

// The block of a line alone.
fn block_of(alloc: Global, line: &Line065) -> Result<Vec<u8>, NoMemory>
    requires { HasState line.now }
    ensures block { IfOk result (λ v. v.items ≡ service_block line.now) }
    ensures within { IfOk result (λ v. length v.items ≤ block_limit) }
{
    let mut block = BlockWriter::new(alloc, Uap::Cat065.category());
    let record = service_record(alloc, line)?;
    block.append(&record)?;
    Ok(block.finish())
}

// The octets of a line's record.
pub(crate) fn service_record(alloc: Global, line: &Line065) -> Result<Vec<u8>, NoMemory>
    requires { HasState line.now }
    ensures octets { IfOk result (λ v. v.items ≡ service_record line.now) }
    ensures size { IfOk result (λ v. length v.items ≡ 9) }
{
    match line {
        Line065::Status(stamp, nogo) => {
            let mut record = begin_record(alloc, stamp, STATUS_KIND)?;
            record.put(STATUS, &[64 * *nogo])?;
            Ok(record.finish())
        }
        Line065::End(stamp, batch) => {
            let mut record = begin_record(alloc, stamp, END_KIND)?;
            record.put(BATCH, &[*batch])?;
            Ok(record.finish())
        }
    }
}

// A record with the items that both types of messages have.
fn begin_record(alloc: Global, stamp: &Stamp, kind: u8) -> Result<RecordWriter, NoMemory>
    ensures { IfOk result (λ w. w ≡ common_items stamp.now kind) }
{
    let [_, high, middle, low] = stamp.tod.to_be_bytes();
    let mut record = RecordWriter::new(Vec::with_capacity(alloc, RECORD_ROOM)?);
    record.put(SOURCE_FRN, &[stamp.sac, stamp.sic])?;
    record.put(KIND, &[kind])?;
    record.put(SERVICE, &[stamp.service])?;
    record.put(TIME, &[high, middle, low])?;
    Ok(record)
}
