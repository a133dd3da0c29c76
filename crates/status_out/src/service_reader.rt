// The state of the service and the end of a batch, read.
ghost use Rattle.std.specs.Prelude.{◌≡◌, ◌<◌, ◌≤◌, ◌*◌, ℕ, List, length, Some, IfOk, IfSome};
ghost use Rattle.asterix_frame.specs.declared.tables.Uap.TheVariants.{Cat065};
ghost use Rattle.asterix_frame.specs.DataRecords.{time_of};
ghost use Rattle.asterix_frame.specs.Bodies.{AreSpans, elements_at};
ghost use Rattle.trk_base.specs.Ranges.{IsTimeOfDay};
ghost use Rattle.cat062_out.specs.declared.error.ProfileError.{ProfileError};
ghost use Rattle.cat062_out.specs.Answers.{AnswersWith, RefusesWith, IfRefused};
ghost use Rattle.cat062_out.specs.Profile.{BeginsValue, BeginsNoValue};
ghost use Rattle.status_out.specs.declared.service_line.Line065.{Line065};
ghost use Rattle.status_out.specs.declared.service_line.Line065.TheVariants as kinds;
ghost use Rattle.status_out.specs.ServiceRecords.{IsLine065, AreServiceMessages, IsServiceRefusal, service_items};

use crate::Line065;
use crate::service_writer::{BATCH, END_KIND, KIND, SERVICE, STATUS, STATUS_KIND, service_record};
use crate::written::stand_there;
use asterix_frame::{Block, ItemSpans, Uap, first_record, one_octet};
use cat062_out::{ProfileError, Stamp};
use std::alloc::Global;

/// What a block of category 65 tells of the service, in order.
///
/// It is refused exactly where its body isn't a list of records that `write065_status` and
/// `write065_end` write: with the first fault where no whole record begins, or with the offset of a
/// whole record that isn't so written. The first of these decides.
pub fn read065(alloc: Global, block: &Block<'_>) -> Result<Vec<Line065>, ProfileError>
    requires { block.now.cat ≡ 65 }
    ensures read { IfOk result (λ v. AreServiceMessages block.now.body.now v.items) }
    ensures refused { IfRefused result (λ e. IsServiceRefusal block.now e) }

    // The other directions, unless memory is wanting.
    ensures reads { (lines : List Line065) → AreServiceMessages block.now.body.now lines → AnswersWith result (λ v. v.items ≡ lines) }
    ensures refuses { (e : ProfileError) → IsServiceRefusal block.now e → RefusesWith result (λ x. x ≡ e) }
{
    let mut lines = Vec::new(alloc);
    let mut from = 0;
    while from < block.body.len() {
        let (line, next) = first_line(alloc, block, from)?;
        lines.push(line)?;
        from = next;
    }
    Ok(lines)
}

// The line that begins at an offset of a block's body, and the offset of its end. What is read is
// written again: a record that comes out otherwise isn't so written.
fn first_line(
    alloc: Global,
    block: &Block<'_>,
    from: usize,
) -> Result<(Line065, usize), ProfileError>
    requires { from < length block.now.body.now }
    ensures found { IfOk result (λ r. BeginsValue IsLine065 service_items block.now.body.now from r.0 r.1) }
    ensures none { IfRefused result (λ e. BeginsNoValue Cat065 IsLine065 service_items block.now from e) }
{
    let at = block.at + from;
    let record = first_record(alloc, Uap::Cat065, block, from)?;
    let Some(line) = line_of(block.body, &record) else {
        return Err(ProfileError::Profile { at });
    };
    let written = service_record(alloc, &line)?;
    if !stand_there(&written, block.body, from, record.next) {
        return Err(ProfileError::Profile { at });
    }
    Ok((line, record.next))
}

// The line of a record, if it has the items of one. `body` is that of its block.
fn line_of(body: &[u8], items: &ItemSpans) -> Option<Line065>
    requires spans { AreSpans body.now items.now }
    requires in_day { IfSome (time_of Cat065 (elements_at body.now items.now.frns.items)) IsTimeOfDay }
    ensures is_line { IfSome result IsLine065 }
    ensures read { (line : Line065) → IsLine065 line → service_items line ≡ elements_at body.now items.now.frns.items → result ≡ Some line }
{
    let (sac, sic) = items.data_source(body)?;
    let kind = one_octet(items.octets(body, KIND))?;
    let service = one_octet(items.octets(body, SERVICE))?;
    let tod = items.time_of_day(Uap::Cat065, body)?;
    let stamp = Stamp {
        sac,
        sic,
        service,
        tod,
    };
    if kind == STATUS_KIND {
        return status_line(stamp, one_octet(items.octets(body, STATUS))?);
    }
    if kind != END_KIND {
        return None;
    }
    let batch = one_octet(items.octets(body, BATCH))?;
    Some(Line065::End(stamp, batch))
}

// The state of the service, as I065/040 tells it.
fn status_line(stamp: Stamp, octet: u8) -> Option<Line065>
    ensures is_line { IfSome result IsLine065 }
    ensures read { (nogo : ℕ) → nogo ≤ 1 → octet ≡ 64 * nogo → result ≡ Some (kinds.Status stamp nogo) }
{
    let nogo = octet / 64;
    if nogo > 1 {
        return None;
    }
    Some(Line065::Status(stamp, nogo))
}
