// The times of day in a data block.
ghost use Rattle.std.specs.Prelude.{◌≡◌, ◌≢◌, ◌<◌, All, IfOk, IfSome, IfNone};
ghost use Rattle.std.specs.List.{filter_map};
ghost use Rattle.trk_base.specs.Numbers.{day};
ghost use Rattle.asterix_frame.specs.Blocks.{IsDataBlock};
ghost use Rattle.asterix_frame.specs.Bodies.{AreSpans, elements_at};
ghost use Rattle.asterix_frame.specs.DataRecords.{time_of};
ghost use Rattle.asterix_frame.specs.Datagrams.{IsReadCategory};
ghost use Rattle.asterix_frame.specs.Offsets.{data_block};
ghost use Rattle.asterix_frame.specs.Tables.{category_of};
ghost use Rattle.recording.specs.Times.{HasTimes};

use asterix_frame::{Block, BlocksError, ItemSpans, Uap, records};
use std::alloc::Global;
use trk_base::NoMemory;

// The items of a category whose records are read.
fn uap_of(category: u8) -> Option<Uap>
    ensures read { IfSome result (λ uap. IsReadCategory uap × (category ≡ category_of uap)) }
    ensures other { IfNone result ((category ≢ 34) × (category ≢ 48)) }
{
    match category {
        34 => Some(Uap::Cat034),
        48 => Some(Uap::Cat048),
        _ => None,
    }
}

/// The times of day in a block, in 1/128 s, in the order of its octets. They are those of I034/030
/// and I048/140; a malformed block and one of another category have none.
pub(crate) fn times_of(alloc: Global, block: &Block<'_>) -> Result<Vec<u32>, NoMemory>
    requires { IsDataBlock (data_block block.now) }
    ensures times { IfOk result (λ v. HasTimes (record { block = data_block block.now; times = v.items })) }
    ensures in_day { IfOk result (λ v. All (λ tod. tod < day) v.items) }
{
    let Some(uap) = uap_of(block.cat) else {
        return Ok(Vec::new(alloc));
    };
    match records(alloc, uap, block) {
        Ok(found) => times_in(alloc, uap, block.body, &found),
        Err(BlocksError::Malformed(_)) => Ok(Vec::new(alloc)),
        Err(BlocksError::NoMemory) => Err(NoMemory),
    }
}

// The times of day of a body's records.
fn times_in(alloc: Global, uap: Uap, body: &[u8], found: &[ItemSpans]) -> Result<Vec<u32>, NoMemory>
    requires { All (AreSpans body.now) found.now }
    ensures { IfOk result (λ v. v.items ≡ filter_map (λ s. time_of uap (elements_at body.now s.frns.items)) found.now) }
{
    let mut times = Vec::new(alloc);
    for spans in found {
        if let Some(time) = spans.time_of_day(uap, body) {
            times.push(time)?;
        }
    }
    Ok(times)
}
