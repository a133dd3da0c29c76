// Where the plots of a batch are that a track may gate.
ghost use Rattle.std.specs.Prelude.{◌≡◌, ◌<◌, ◌≤◌, ◌^◌, ℕ, length, pos, unsigned_abs, ◌≤ℤ◌, All, IfOk, IsFalse};
ghost use Rattle.trk_base.specs.Numbers.{IsBetween};
ghost use Rattle.fixed_imm.specs.Constants.{greatest_time_step};
ghost use Rattle.fixed_imm.specs.Bounds.{IsTimeStep, time_step};
ghost use Rattle.gating.specs.Gating.{gate};
ghost use Rattle.slot_step.specs.Gates.{CoverGates};
ghost use Rattle.slot_step.specs.PlotPlaces.{AreMarked, IsUnmarked, RiseEast, ArePlaces, AreBetween, AreTimes, AreOthers};

use fixed_imm::Aim;
use gating::{CoarseGate, is_another};
use plot_geometry::PlanePlot;
use std::alloc::Global;
use trk_base::NoMemory;

// How many marks of addresses there are. Addresses with one remainder share a mark.
const MARKS: u32 = 4_096;

/// Sets the mark of each plot's address, so that a track of another aircraft is passed over without a
/// look at each plot. Where a plot has no address, all marks are set.
pub(crate) fn address_marks(alloc: Global, plots: &[PlanePlot]) -> Result<Vec<bool>, NoMemory>
    ensures { IfOk result (λ marks. AreMarked plots.now marks.items) }
{
    let mut marks = vec![in alloc; false; MARKS as usize]?;
    for plot in plots {
        match plot.address {
            Some(address) => marks[(address % MARKS) as usize] = true,
            None => return Ok(vec![in alloc; true; MARKS as usize]?),
        }
    }
    Ok(marks)
}

// Whether some plot may be of the aircraft with this address.
fn is_marked(marks: &[bool], address: Option<u32>) -> bool
    requires { length marks.now ≡ 4096 }
    ensures { IsFalse result → IsUnmarked marks.now address }
{
    let Some(address) = address else {
        return true;
    };
    marks[(address % MARKS) as usize]
}

/// Where the plots are to the east, rising, each with its index.
pub(crate) fn plot_places(alloc: Global, plots: &[PlanePlot]) -> Result<Vec<(i64, u32)>, NoMemory>
    requires { length plots.now < 2 ^ 32 }
    ensures { IfOk result (λ places. ArePlaces plots.now places.items) }
{
    let mut places = Vec::with_capacity(alloc, plots.len())?;
    for (index, plot) in plots.iter().enumerate() {
        places.push((plot.x, index as u32))?;
    }
    places.sort_unstable_by_key(|place| place.0);
    Ok(places)
}

/// The least and the greatest time of the plots.
pub(crate) fn plot_times(plots: &[PlanePlot]) -> (u64, u64)
    requires { 0 < length plots.now }
    ensures { AreTimes plots.now result }
{
    let first = &plots[0];
    let mut earliest = first.key.time;
    let mut latest = first.key.time;
    for plot in plots {
        earliest = earliest.min(plot.key.time);
        latest = latest.max(plot.key.time);
    }
    (earliest, latest)
}

// How far the times between these two are at most from a time, in 1/128 s.
fn span(time: u64, times: (u64, u64)) -> i32
    requires first { IsTimeStep (time_step time times.0) }
    requires last { IsTimeStep (time_step time times.1) }
    ensures range { IsBetween (pos 0) result greatest_time_step }
    ensures within { (t : ℕ) → times.0 ≤ t → t ≤ times.1 → pos (unsigned_abs (time_step time t)) ≤ℤ result }
{
    let before = time.saturating_sub(times.0);
    let after = times.1.saturating_sub(time);
    before.max(after) as i32
}

// The places between two lines, those on a line included.
fn places_between(places: &[(i64, u32)], west: i64, east: i64) -> &[(i64, u32)]
    requires { RiseEast places.now }
    ensures { AreBetween west east places.now result.now }
{
    let from = places.partition_point(|place| place.0 < west);
    let rest = &places[from..];
    let count = rest.partition_point(|place| place.0 <= east);
    &rest[..count]
}

// Whether one of the plots at these places lies in the rectangle and may be of the aircraft.
fn some_lies_in(coarse: &CoarseGate, aim: &Aim, plots: &[PlanePlot], near: &[(i64, u32)]) -> bool
    requires { All (λ e. e.1 < length plots.now) near.now }
    ensures { IsFalse result → AreOthers aim.now coarse.now plots.now near.now }
{
    for place in near {
        let plot = &plots[place.1 as usize];
        if coarse.contains(plot) && !is_another(aim.address, aim.code, plot) {
            return true;
        }
    }
    false
}

/// The places of the plots that a track may gate, and none where it certainly gates no plot.
pub(crate) fn near_places<'a>(
    aim: &Aim,
    plots: &[PlanePlot],
    marks: &[bool],
    places: &'a [(i64, u32)],
    times: (u64, u64),
) -> &'a [(i64, u32)]
    requires marks { AreMarked plots.now marks.now }
    requires places { ArePlaces plots.now places.now }
    requires times { AreTimes plots.now times }
    requires near { All (λ p. IsTimeStep (time_step aim.now.time p.key.time)) plots.now }
    ensures { CoverGates (gate aim.now) plots.now result.now }
{
    if !is_marked(marks, aim.address) {
        return &[];
    }
    let coarse = CoarseGate::of(aim, span(aim.time, times));
    let near = places_between(places, coarse.west, coarse.east);
    if !some_lies_in(&coarse, aim, plots, near) {
        return &[];
    }
    near
}
