// The records of tracks of a block, read.
ghost use Rattle.std.specs.Prelude.{◌≡◌, ◌<◌, ◌≤◌, List, length, IfOk};
ghost use Rattle.asterix_frame.specs.declared.tables.Uap.TheVariants.{Cat062};
ghost use Rattle.cat062_out.specs.declared.error.ProfileError.{ProfileError};
ghost use Rattle.cat062_out.specs.Tracks.{Stamp, TrackLine};
ghost use Rattle.cat062_out.specs.TrackRecords.{IsTrack, items_of};
ghost use Rattle.asterix_frame.specs.Bodies.{AreSpans, elements_at};
ghost use Rattle.cat062_out.specs.Reading.{stamp_of, line_of};
ghost use Rattle.cat062_out.specs.Profile.{AreWritten, IsRefusal, BeginsValue, BeginsNoValue};
ghost use Rattle.cat062_out.specs.Answers.{AnswersWith, RefusesWith, IfRefused};

use crate::items::{
    ACCURACY, AGES, AIRCRAFT, CODE, CST, LEVEL, MON, NUMBER, POSITION, SERVICE, SPI, STATUS, TSB,
    TSE, VELOCITY,
};
use crate::values::{
    accuracy_of, address_of, ages_of, code_of, has_flag, level_of, number_of, position_of,
    time_in_day, velocity_of,
};
use crate::writer::track_record;
use crate::{ProfileError, Stamp, TrackLine};
use asterix_frame::{Block, ItemSpans, Uap, first_record, one_octet};
use std::alloc::Global;

/// The tracks of a block of category 62, in order, each with its stamp.
///
/// It is refused exactly where the block's body isn't records that this system writes, and then by
/// the first record that is none: as `Malformed` where the octets aren't a record of the category,
/// as `Profile` where a whole record isn't one that `write_track` writes.
pub fn read062(alloc: Global, block: &Block<'_>) -> Result<Vec<(Stamp, TrackLine)>, ProfileError>
    requires { block.now.cat ≡ 62 }
    ensures read { IfOk result (λ v. AreWritten IsTrack items_of block.now.body.now v.items) }
    ensures refused { IfRefused result (λ e. IsRefusal Cat062 IsTrack items_of block.now e) }

    // The other directions, unless memory is wanting.
    ensures reads { (tracks : List (Stamp × TrackLine)) → AreWritten IsTrack items_of block.now.body.now tracks → AnswersWith result (λ v. v.items ≡ tracks) }
    ensures refuses { (e : ProfileError) → IsRefusal Cat062 IsTrack items_of block.now e → RefusesWith result (λ x. x ≡ e) }
{
    let mut tracks = Vec::new(alloc);
    let mut from = 0;
    while from < block.body.len() {
        let (track, next) = first_track(alloc, block, from)?;
        tracks.push(track)?;
        from = next;
    }
    Ok(tracks)
}

// The track of the record that begins at an offset of a block's body, and the offset of the
// record's end. A record is a track's where the track that it would tell is written so.
fn first_track(
    alloc: Global,
    block: &Block<'_>,
    from: usize,
) -> Result<((Stamp, TrackLine), usize), ProfileError>
    requires { from < length block.now.body.now }
    ensures found { IfOk result (λ found. BeginsValue IsTrack items_of block.now.body.now from found.0 found.1) }
    ensures advances { IfOk result (λ found. (from < found.1) × (found.1 ≤ length block.now.body.now)) }
    ensures none { IfRefused result (λ e. BeginsNoValue Cat062 IsTrack items_of block.now from e) }
{
    let items = first_record(alloc, Uap::Cat062, block, from)?;
    let stamp = stamp_of(block.body, &items);
    let line = line_of(block.body, &items);
    let written = track_record(&stamp, &line, Vec::new(alloc))?;
    if written.as_slice() == &block.body[from..items.next] {
        Ok(((stamp, line), items.next))
    } else {
        Err(ProfileError::Profile {
            at: block.at + from,
        })
    }
}

// The stamp that a record tells, if it is a track's. `body` is that of its block.
fn stamp_of(body: &[u8], items: &ItemSpans) -> Stamp
    requires { AreSpans body.now items.now }
    ensures { result ≡ stamp_of (elements_at body.now items.now.frns.items) }
{
    let (sac, sic) = items.data_source(body).unwrap_or((0, 0));
    Stamp {
        sac,
        sic,
        service: one_octet(items.octets(body, SERVICE)).unwrap_or(0),
        tod: time_in_day(items.time_of_day(Uap::Cat062, body)),
    }
}

// The line that a record tells, if it is a track's. `body` is that of its block.
fn line_of(body: &[u8], items: &ItemSpans) -> TrackLine
    requires { AreSpans body.now items.now }
    ensures { result ≡ line_of (elements_at body.now items.now.frns.items) }
{
    let (x, y) = position_of(items.octets(body, POSITION));
    let (vx, vy) = velocity_of(items.octets(body, VELOCITY));
    let status = items.octets(body, STATUS);
    let (psr, (ssr, mds)) = ages_of(items.octets(body, AGES));
    let (sx, sy) = accuracy_of(items.octets(body, ACCURACY));
    TrackLine {
        number: number_of(items.octets(body, NUMBER)),
        x,
        y,
        vx,
        vy,
        code: code_of(items.octets(body, CODE)),
        address: address_of(items.octets(body, AIRCRAFT)),
        level: level_of(items.octets(body, LEVEL)),
        psr,
        ssr,
        mds,
        mono: has_flag(status, MON),
        spi: has_flag(status, SPI),
        coast: has_flag(status, CST),
        first: has_flag(status, TSB),
        ended: has_flag(status, TSE),
        sx,
        sy,
    }
}
