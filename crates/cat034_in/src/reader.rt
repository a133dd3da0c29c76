// The service messages of a block.
ghost use Rattle.std.specs.Prelude.{◌≡◌, List, All, IfOk};
ghost use Rattle.asterix_frame.specs.declared.block.Malformed.{Malformed};
ghost use Rattle.asterix_frame.specs.declared.tables.Uap.TheVariants.{Cat034};
ghost use Rattle.asterix_frame.specs.Answers.{AnswersWith, RefusesWith, IfMalformed};
ghost use Rattle.asterix_frame.specs.DataRecords.{DataRecord};
ghost use Rattle.asterix_frame.specs.Bodies.{IsBody, IsFaultOfBody, AreSpans, elements_at};
ghost use Rattle.cat034_in.specs.Services.{service_of, services_of, IsTimed};

use crate::Service;
use asterix_frame::{Block, BlocksError, ItemSpans, Uap, one_octet, records, two_octets};
use std::alloc::Global;

// I034/000, message type.
const KIND: u8 = 2;
// I034/020, sector number.
const SECTOR: u8 = 4;
// I034/041, antenna rotation period.
const ROTATION: u8 = 5;

/// Why a block wasn't read: it has a fault with one of the causes `FSPEC_END` to `TIME_RANGE` of
/// `asterix_frame::cause`, or memory is wanting.
pub type ReadError = BlocksError;

/// The service messages of a block of category 34, in order.
///
/// It is refused exactly where the block's body isn't a list of whole records whose times of day
/// are below a day, by the first fault from the left; then none of its messages is told.
pub fn read034(alloc: Global, block: &Block<'_>) -> Result<Vec<Service>, ReadError>
    requires { block.now.cat ≡ 34 }
    ensures read { IfOk result (λ v. (rs : List DataRecord) × IsBody Cat034 block.now.body.now rs × (v.items ≡ services_of rs)) }
    ensures timed { IfOk result (λ v. All IsTimed v.items) }
    ensures malformed { IfMalformed result (λ m. IsFaultOfBody Cat034 block.now m) }

    // The other directions, unless memory is wanting.
    ensures reads { (rs : List DataRecord) → IsBody Cat034 block.now.body.now rs → AnswersWith result (λ v. v.items ≡ services_of rs) }
    ensures refuses { (m : Malformed) → IsFaultOfBody Cat034 block.now m → RefusesWith result (λ x. x ≡ m) }
{
    let records = records(alloc, Uap::Cat034, block)?;
    let mut services = Vec::new(alloc);
    for record in &records {
        services.push(service_of(block.body, record))?;
    }
    Ok(services)
}

// The service message of a record. `body` is that of its block.
fn service_of(body: &[u8], items: &ItemSpans) -> Service
    requires { AreSpans body.now items.now }
    ensures { result ≡ service_of (elements_at body.now items.now.frns.items) }
{
    Service {
        source: items.data_source(body),
        kind: one_octet(items.octets(body, KIND)),
        tod: items.time_of_day(Uap::Cat034, body),
        sector: one_octet(items.octets(body, SECTOR)),
        rotation: two_octets(items.octets(body, ROTATION)),
    }
}
