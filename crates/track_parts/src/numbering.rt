// Numbers, given to tables that were run without them.
ghost use Rattle.std.specs.Prelude.{◌≡◌, List, map, None, IfOk};
ghost use Rattle.std.specs.List.Sorted.{IsStrictlySortedBy};
ghost use Rattle.plot_geometry.specs.PlotOrder.{plot_cmp};
ghost use Rattle.plot_geometry.specs.Plots.{PlanePlot};
ghost use Rattle.track_life.specs.declared.settings.LifeSettings.{LifeSettings};
ghost use Rattle.track_life.specs.Numbers.{with_number, assigned};
ghost use Rattle.track_life.specs.Tables.{IsTable};
ghost use Rattle.late_window.specs.Folding.{Rises, BeforeFirst, states};
ghost use Rattle.slot_step.specs.Numbers.{renumbered_from, numbered};
ghost use Rattle.slot_step.specs.Tracker.{ordered, numbering, step_tracks};
ghost use Rattle.track_parts.specs.Tracking.{next, slot_of_plot, key_of_plot, by_birth, IsBefore};
ghost use Rattle.track_parts.specs.Numbered.{living, from_birth, first_number};

use crate::Tracks;
use late_window::latest_of;
use std::alloc::Global;
use track_life::{Table, Track, assign_numbers};
use trk_base::{Key, NoMemory};

/// The tables of the fold with numbers, from those of the run without them: one for each filled
/// slot. A track has the number that the track of its birth has in the table before, the first one's
/// being the start table, and then each confirmed track without a number is given one, in birth order.
///
/// The tables are moved, and each is walked once beside the one before it. Without memory there is
/// no table.
pub fn numbered_tables(
    alloc: Global,
    start: &Table,
    runs: Vec<Tracks>,
) -> Result<Vec<Table>, NoMemory>
    ensures { (life : LifeSettings) (plots : List PlanePlot) → Rises plot_cmp key_of_plot plots → BeforeFirst IsBefore slot_of_plot (living life start.now) plots
        → runs.items ≡ states next slot_of_plot (living life start.now) plots → IfOk result (λ tables. tables.items ≡ states (step_tracks life) slot_of_plot start.now plots) }
{
    let mut tables = Vec::with_capacity(alloc, runs.len())?;
    for run in runs {
        let table = numbered_table(alloc, latest_of(start, &tables).tracks(), run)?;
        tables.push(table)?;
    }
    Ok(tables)
}

// A run's table with the numbers of the table before, and new ones.
fn numbered_table(alloc: Global, before: &[Track], run: Tracks) -> Result<Table, NoMemory>
    ensures numbers { IsStrictlySortedBy by_birth before.now → IfOk result (λ table. table ≡ numbered (ordered run.life) (numbering assigned) before.now run.table) }
    ensures table { IfOk result IsTable }
{
    let mut tracks = run.into_table().into_tracks();
    take_numbers(&mut tracks, before);
    let mut table = Table::of(tracks);
    assign_numbers(alloc, &mut table)?;
    Ok(table)
}

// Each track takes the number of the track of its birth in the table before.
fn take_numbers(tracks: &mut [Track], before: &[Track])
    ensures numbers { (life : LifeSettings) → IsStrictlySortedBy by_birth before.now → IsStrictlySortedBy by_birth tracks.old → tracks.new ≡ renumbered_from (ordered life) (numbering assigned) before.now tracks.old }
    ensures alone { map (with_number None) tracks.new ≡ map (with_number None) tracks.old }
{
    let mut rest = before;
    for track in tracks.iter_mut() {
        rest = from_birth(rest, &track.birth);
        take_number(track, rest);
    }
}

// A track takes the number of the first of these, if that is of its birth.
fn take_number(track: &mut Track, rest: &[Track])
    ensures { track.new ≡ with_number (first_number track.old.birth rest.now) track.old }
{
    track.number = first_number(rest, &track.birth);
}

// The tracks from the first on that isn't born before this.
fn from_birth<'a>(tracks: &'a [Track], birth: &Key) -> &'a [Track]
    ensures { result.now ≡ from_birth birth.now tracks.now }
{
    let mut rest = tracks;
    while !rest.is_empty() {
        let first = &rest[0];
        if !first.birth.cmp(birth).is_lt() {
            return rest;
        }
        rest = rest.split_at(1).1;
    }
    rest
}

// The number of the first track, if it is of this birth and has one.
fn first_number(tracks: &[Track], birth: &Key) -> Option<u16>
    ensures { result ≡ first_number birth.now tracks.now }
{
    let first = tracks.first()?;
    if first.birth.cmp(birth).is_eq() {
        first.number
    } else {
        None
    }
}
