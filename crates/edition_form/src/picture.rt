// Which tracks are shown.
ghost use Rattle.std.specs.Prelude.{◌≡◌, List, map, filter, IfOk};
ghost use Rattle.trk_base.specs.Numbers.{slot_of};
ghost use Rattle.track_life.specs.Tables.{unexpired};
ghost use Rattle.edition_form.specs.Pictures.{AreEarlier, is_shown, shown_tracks};
ghost use Rattle.edition_form.specs.Lines.{lines_of, shown_line};
ghost use Rattle.edition_form.specs.Showing.{shown_number};

use crate::ShownLine;
use crate::lines::shown_line;
use std::alloc::Global;
use track_life::{LifeSettings, Table, Track};
use trk_base::{NoMemory, slot_of};

// The lines of the tracks of a table that are shown at a time, in rising number.
pub(crate) fn shown_lines(
    alloc: Global,
    table: &Table,
    life: &LifeSettings,
    time: u64,
) -> Result<Vec<ShownLine>, NoMemory>
    requires { AreEarlier time table.now }
    ensures { IfOk result (λ v. v.items ≡ lines_of time (shown_tracks life.now time table.now)) }
{
    let mut lines = collect_lines(alloc, table.tracks(), life, time)?;
    lines.sort_by_key(|shown| shown.line.number)?;
    Ok(lines)
}

// The same in the table's order.
fn collect_lines(
    alloc: Global,
    tracks: &[Track],
    life: &LifeSettings,
    time: u64,
) -> Result<Vec<ShownLine>, NoMemory>
    requires { AreEarlier time tracks.now }
    ensures { IfOk result (λ v. v.items ≡ map (shown_line time) (filter is_shown (unexpired life.now (slot_of time) tracks.now))) }
{
    let slot = slot_of(time);
    let mut lines = Vec::with_capacity(alloc, tracks.len())?;
    for track in tracks {
        if let Some(number) = shown_number(track, slot, life) {
            lines.push(shown_line(track, number, time))?;
        }
    }
    Ok(lines)
}

// The number of a track that is shown in a slot: it hasn't expired, is confirmed and has one.
fn shown_number(track: &Track, slot: u64, life: &LifeSettings) -> Option<u16>
    ensures { result ≡ shown_number life.now slot track.now }
{
    if track.confirmed && track.is_kept(slot, life) {
        track.number
    } else {
        None
    }
}
