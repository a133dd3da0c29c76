// The gates of a batch.
ghost use Rattle.std.specs.Prelude.{◌≡◌, ◌<◌, ◌^◌, List, length, All, IfOk, OnOk};
ghost use Rattle.fixed_imm.specs.Aims.{mixed_aim};
ghost use Rattle.fixed_imm.specs.Bounds.{IsTimeStep, time_step};
ghost use Rattle.gating.specs.Gating.{gate};
ghost use Rattle.track_life.specs.Tracks.{TrackState};
ghost use Rattle.slot_step.specs.Calls.{AreNear};
ghost use Rattle.slot_step.specs.Gates.{AreAdded};
ghost use Rattle.slot_step.specs.MixedAims.{IsMixedOf, AreMixed};
ghost use Rattle.slot_step.specs.Problems.{IsProblemOf};
ghost use Rattle.slot_step.specs.Tracker.{track_gate};

use crate::nearby::{address_marks, near_places, plot_places, plot_times};
use assignment_dual::Costs;
use fixed_imm::{Aim, MixedAim};
use gating::gate_mixed;
use plot_geometry::PlanePlot;
use short_list::ShortList;
use std::alloc::Global;
use track_life::Track;
use trk_base::NoMemory;

// Puts the gates of the track at this index for the plots at these places at the end, and its mixed
// aim where that was needed. Mixing takes longer than all other work on a track that no plot comes
// near.
fn add_gates(
    edges: &mut Vec<(u32, u32, u16)>,
    aims: &mut Vec<(u32, MixedAim)>,
    index: u32,
    aim: &Aim,
    plots: &[PlanePlot],
    near: &[(i64, u32)],
) -> Result<(), NoMemory>
    requires steps { All (λ p. IsTimeStep (time_step aim.now.time p.key.time)) plots.now }
    requires inside { All (λ e. e.1 < length plots.now) near.now }
    ensures edges { OnOk result (AreAdded (gate aim.now) plots.now near.now index edges.old.items edges.new.items) }
    ensures aims { (ts : List TrackState) → IsMixedOf ts (index, mixed_aim aim.now) → AreMixed ts aims.old.items → OnOk result (AreMixed ts aims.new.items) }
{
    if near.is_empty() {
        return Ok(());
    }
    let mixed = aim.mixed();
    for place in near {
        let plot = &plots[place.1 as usize];
        if let Some(cost) = gate_mixed(&mixed, plot) {
            edges.push((place.1, index, cost))?;
        }
    }
    aims.push((index, mixed))?;
    Ok(())
}

// The gates of all plots, by plot and then by track.
fn edges_of(
    alloc: Global,
    tracks: &[Track],
    plots: &[PlanePlot],
    aims: &mut Vec<(u32, MixedAim)>,
) -> Result<Vec<(u32, u32, u16)>, NoMemory>
    requires tracks { length tracks.now < 2 ^ 32 }
    requires plots { length plots.now < 2 ^ 32 }
    requires near { AreNear tracks.now plots.now }
    requires aims { AreMixed tracks.now aims.old.items }
    ensures aims { OnOk result (AreMixed tracks.now aims.new.items) }
    ensures problem { IfOk result (λ edges. IsProblemOf track_gate tracks.now plots.now (record { plots = length plots.now; tracks = length tracks.now; edges = edges.items })) }
{
    let mut edges = Vec::with_capacity(alloc, plots.len())?;
    if plots.is_empty() {
        return Ok(edges);
    }
    let marks = address_marks(alloc, plots)?;
    let places = plot_places(alloc, plots)?;
    let times = plot_times(plots);
    for (index, track) in tracks.iter().enumerate() {
        let near = near_places(&track.aim, plots, &marks, &places, times);
        add_gates(&mut edges, aims, index as u32, &track.aim, plots, near)?;
    }
    edges.sort_unstable_by_key(|edge| (edge.0, edge.1));
    Ok(edges)
}

/// The assignment problem of a batch: its plots and the tracks, named by their indices, and the
/// gates between them. The aims that were mixed for the gates are put at the end of the others, in
/// rising index of their tracks.
pub(crate) fn batch_costs(
    alloc: Global,
    tracks: &[Track],
    plots: &[PlanePlot],
    aims: &mut Vec<(u32, MixedAim)>,
) -> Result<Costs, NoMemory>
    requires tracks { length tracks.now < 2 ^ 32 }
    requires plots { length plots.now < 2 ^ 32 }
    requires near { AreNear tracks.now plots.now }
    requires aims { AreMixed tracks.now aims.old.items }
    ensures aims { OnOk result (AreMixed tracks.now aims.new.items) }
    ensures problem { IfOk result (λ costs. IsProblemOf track_gate tracks.now plots.now costs) }
{
    let edges = edges_of(alloc, tracks, plots, aims)?;
    Ok(Costs {
        plots: plots.len() as u32,
        tracks: tracks.len() as u32,
        edges: ShortList::of(edges),
    })
}
