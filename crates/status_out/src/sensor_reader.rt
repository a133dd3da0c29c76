// The states of the radars, read.
ghost use Rattle.std.specs.Prelude.{◌≡◌, ◌<◌, ◌++◌, List, length, Some, IfOk, IfSome, ℤ, FitsSigned};
ghost use Rattle.asterix_frame.specs.declared.tables.Uap.TheVariants.{Cat063};
ghost use Rattle.asterix_frame.specs.DataRecords.{time_of};
ghost use Rattle.asterix_frame.specs.Bodies.{AreSpans, elements_at};
ghost use Rattle.std.specs.Int.{w16};
ghost use Rattle.trk_base.specs.Ranges.{IsTimeOfDay};
ghost use Rattle.cat062_out.specs.declared.error.ProfileError.{ProfileError};
ghost use Rattle.cat062_out.specs.Answers.{AnswersWith, RefusesWith, IfRefused};
ghost use Rattle.cat062_out.specs.Profile.{BeginsValue, BeginsNoValue};
ghost use Rattle.cat062_out.specs.TrackRecords.{two_signed};
ghost use Rattle.status_out.specs.SensorRecords.{Message, IsMessage, AreSensorMessages, IsSensorRefusal, sensor_items};

use crate::RadarLine;
use crate::sensor_writer::{
    AZIMUTH_BIAS, RANGE_BIAS, SENSOR, SERVICE, STATUS, TIME_BIAS, sensor_record,
};
use crate::written::stand_there;
use asterix_frame::{Block, ItemSpans, Uap, data_source, first_record, one_octet};
use cat062_out::{ProfileError, Stamp};
use std::alloc::Global;

/// The states of radars that a block of category 63 tells, in order, each with its stamp.
///
/// It is refused exactly where its body isn't a list of records that `write063` writes: with the
/// first fault where no whole record begins, or with the offset of a whole record that isn't so
/// written. The first of these decides.
pub fn read063(alloc: Global, block: &Block<'_>) -> Result<Vec<(Stamp, RadarLine)>, ProfileError>
    requires { block.now.cat ≡ 63 }
    ensures read { IfOk result (λ v. AreSensorMessages block.now.body.now v.items) }
    ensures refused { IfRefused result (λ e. IsSensorRefusal block.now e) }

    // The other directions, unless memory is wanting.
    ensures reads { (messages : List Message) → AreSensorMessages block.now.body.now messages → AnswersWith result (λ v. v.items ≡ messages) }
    ensures refuses { (e : ProfileError) → IsSensorRefusal block.now e → RefusesWith result (λ x. x ≡ e) }
{
    let mut messages = Vec::new(alloc);
    let mut from = 0;
    while from < block.body.len() {
        let (message, next) = first_message(alloc, block, from)?;
        messages.push(message)?;
        from = next;
    }
    Ok(messages)
}

// The message that begins at an offset of a block's body, and the offset of its end. What is read is
// written again: a record that comes out otherwise isn't so written.
fn first_message(
    alloc: Global,
    block: &Block<'_>,
    from: usize,
) -> Result<((Stamp, RadarLine), usize), ProfileError>
    requires { from < length block.now.body.now }
    ensures found { IfOk result (λ r. BeginsValue IsMessage sensor_items block.now.body.now from r.0 r.1) }
    ensures none { IfRefused result (λ e. BeginsNoValue Cat063 IsMessage sensor_items block.now from e) }
{
    let at = block.at + from;
    let record = first_record(alloc, Uap::Cat063, block, from)?;
    let Some(message) = message_of(block.body, &record) else {
        return Err(ProfileError::Profile { at });
    };
    let written = sensor_record(&message.0, &message.1, Vec::new(alloc))?;
    if !stand_there(&written, block.body, from, record.next) {
        return Err(ProfileError::Profile { at });
    }
    Ok((message, record.next))
}

// The message of a record, if it has the items of one. `body` is that of its block.
fn message_of(body: &[u8], items: &ItemSpans) -> Option<(Stamp, RadarLine)>
    requires spans { AreSpans body.now items.now }
    requires in_day { IfSome (time_of Cat063 (elements_at body.now items.now.frns.items)) IsTimeOfDay }
    ensures is_message { IfSome result IsMessage }
    ensures read { (message : Message) → IsMessage message → sensor_items message ≡ elements_at body.now items.now.frns.items → result ≡ Some message }
{
    let (sac, sic) = items.data_source(body)?;
    let service = one_octet(items.octets(body, SERVICE))?;
    let tod = items.time_of_day(Uap::Cat063, body)?;
    let (radar_sac, radar_sic) = data_source(items.octets(body, SENSOR))?;
    let status = one_octet(items.octets(body, STATUS))?;
    let time_ms = signed_number(items.octets(body, TIME_BIAS))?;
    let (gain, range) = signed_numbers(items.octets(body, RANGE_BIAS))?;
    let azimuth = signed_number(items.octets(body, AZIMUTH_BIAS))?;
    let stamp = Stamp {
        sac,
        sic,
        service,
        tod,
    };
    let line = RadarLine {
        sac: radar_sac,
        sic: radar_sic,
        con: status / 64,
        time_ms,
        gain,
        range,
        azimuth,
    };
    Some((stamp, line))
}

// The signed number in two octets. Octets of another length have none.
fn signed_number(octets: &[u8]) -> Option<i16>
    ensures { (number : ℤ) → FitsSigned w16 number → octets.now ≡ two_signed number → result ≡ Some number }
{
    match octets {
        [high, low] => Some(i16::from_be_bytes([*high, *low])),
        _ => None,
    }
}

// The signed numbers in the first and the last two of four octets. Octets of another length have
// none.
fn signed_numbers(octets: &[u8]) -> Option<(i16, i16)>
    ensures { (first second : ℤ) → FitsSigned w16 first → FitsSigned w16 second → octets.now ≡ two_signed first ++ two_signed second → result ≡ Some (first, second) }
{
    match octets {
        [a, b, c, d] => Some((i16::from_be_bytes([*a, *b]), i16::from_be_bytes([*c, *d]))),
        _ => None,
    }
}
