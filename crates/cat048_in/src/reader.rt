// The reports of a block.
ghost use Rattle.std.specs.Prelude.{◌≡◌, List, map, IfOk};
ghost use Rattle.asterix_frame.specs.declared.block.Malformed.{Malformed};
ghost use Rattle.asterix_frame.specs.declared.tables.Uap.TheVariants.{Cat048};
ghost use Rattle.asterix_frame.specs.Answers.{AnswersWith, RefusesWith, IfMalformed};
ghost use Rattle.asterix_frame.specs.DataRecords.{DataRecord, time_of};
ghost use Rattle.asterix_frame.specs.Bodies.{IsBody, IsFaultOfBody, AreSpans, elements_at};
ghost use Rattle.cat048_in.specs.Reports.{report_of, reports_of};

use crate::Report;
use crate::values::{
    address_of, below_day, code_of, kind_of, level_of, monitor_of, polar_of, simulated_of, spi_of,
    test_of,
};
use asterix_frame::{Block, BlocksError, ItemSpans, Uap, records};
use std::alloc::Global;

// I048/020, target report descriptor.
const DESCRIPTOR: u8 = 3;
// I048/040, measured position in polar co-ordinates.
const POSITION: u8 = 4;
// I048/070, Mode 3/A code.
const CODE: u8 = 5;
// I048/090, flight level.
const LEVEL: u8 = 6;
// I048/220, aircraft address.
const ADDRESS: u8 = 8;

/// Why a block wasn't read: it has a fault with one of the causes `FSPEC_END` to `TIME_RANGE` of
/// `asterix_frame::cause`, or memory is wanting.
pub type ReadError = BlocksError;

/// The target reports of a block of category 48, in order.
///
/// It is refused exactly where the block's body isn't a list of whole records whose times of day
/// are below a day, by the first fault from the left; then none of its reports is told.
pub fn read048(alloc: Global, block: &Block<'_>) -> Result<Vec<Report>, ReadError>
    requires { block.now.cat ≡ 48 }
    ensures read { IfOk result (λ v. (rs : List DataRecord) × IsBody Cat048 block.now.body.now rs × (v.items ≡ reports_of rs)) }
    ensures malformed { IfMalformed result (λ m. IsFaultOfBody Cat048 block.now m) }

    // The other directions, unless memory is wanting.
    ensures reads { (rs : List DataRecord) → IsBody Cat048 block.now.body.now rs → AnswersWith result (λ v. v.items ≡ reports_of rs) }
    ensures times { (rs : List DataRecord) → IsBody Cat048 block.now.body.now rs → AnswersWith result (λ v. map (λ r. r.tod) v.items ≡ map (λ r. time_of Cat048 r.items) rs) }
    ensures refuses { (m : Malformed) → IsFaultOfBody Cat048 block.now m → RefusesWith result (λ x. x ≡ m) }
{
    let records = records(alloc, Uap::Cat048, block)?;
    let mut reports = Vec::new(alloc);
    for record in &records {
        reports.push(report_of(block.body, record))?;
    }
    Ok(reports)
}

// The report of a record. `body` is that of its block.
fn report_of(body: &[u8], items: &ItemSpans) -> Report
    requires { AreSpans body.now items.now }
    ensures { result ≡ report_of (elements_at body.now items.now.frns.items) }
{
    let descriptor = items.octets(body, DESCRIPTOR);
    Report {
        source: items.data_source(body),
        tod: below_day(items.time_of_day(Uap::Cat048, body)),
        kind: kind_of(descriptor),
        simulated: simulated_of(descriptor),
        test: test_of(descriptor),
        spi: spi_of(descriptor),
        monitor: monitor_of(descriptor),
        polar: polar_of(items.octets(body, POSITION)),
        code: code_of(items.octets(body, CODE)),
        level: level_of(items.octets(body, LEVEL)),
        address: address_of(items.octets(body, ADDRESS)),
    }
}
