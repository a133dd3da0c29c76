// Whether the tracks of one part of a slot gate plots of another.
ghost use Rattle.std.specs.Prelude.{◌<◌, ◌↔◌, ◌^◌, length, IsTrue, IfOk, MatchBool};
ghost use Rattle.slot_step.specs.Calls.{AreBatches, AreFromBefore, AreNear, plots_of};
ghost use Rattle.slot_step.specs.Beside.{IsBelow};
ghost use Rattle.slot_step.specs.Gates.{GateOne};
ghost use Rattle.slot_step.specs.Parts.{Reaches};
ghost use Rattle.slot_step.specs.Tracker.{track_gate, tracking, ordered};

use crate::Batch;
use crate::batch_step::step_batch;
use crate::gates::batch_costs;
use plot_geometry::PlanePlot;
use std::alloc::Global;
use track_life::{LifeSettings, Table, Track, expire};
use trk_base::NoMemory;

// Whether some track gates some plot.
fn gate_one(alloc: Global, tracks: &[Track], plots: &[PlanePlot]) -> Result<bool, NoMemory>
    requires few { length tracks.now < 2 ^ 32 }
    requires near { AreNear tracks.now plots.now }
    ensures { IfOk result (λ b. IsTrue b ↔ GateOne track_gate tracks.now plots.now) }
{
    if plots.len() > u32::MAX as usize {
        return Err(NoMemory);
    }
    let mut aims = Vec::new(alloc);
    let costs = batch_costs(alloc, tracks, plots, &mut aims)?;
    Ok(costs.edges.len() > 0)
}

// Whether there is a batch at this index and its radar is below another.
fn is_below(batches: &[Batch], index: usize, radar: u8) -> bool
    ensures { MatchBool result (IsBelow batches.now index radar) (IsBelow batches.now index radar → ⊥) }
{
    if batches.len() <= index {
        return false;
    }
    let batch = &batches[index];
    if radar <= batch.radar {
        return false;
    }
    true
}

/// Whether, in a slot, a part's tracks gate a plot of another part, as they stand at the start of
/// that plot's batch: after expiry at the slot and after the part's own batches of the radars below.
pub fn reaches(
    alloc: Global,
    table: &Table,
    slot: u64,
    batches: &[Batch],
    others: &[Batch],
    life: &LifeSettings,
) -> Result<bool, NoMemory>
    requires batches { AreBatches slot batches.now }
    requires others { AreBatches slot others.now }
    requires earlier { AreFromBefore slot table.now }
    ensures { IfOk result (λ b. IsTrue b ↔ Reaches (tracking life.now) (ordered life.now) slot table.now (plots_of batches.now) (plots_of others.now)) }
{
    let mut tracks = expire(alloc, table, slot, life)?.into_tracks();
    let mut certs = Vec::new(alloc);
    let mut ran = 0;
    let mut seen = 0;
    while seen < others.len() {
        let other = &others[seen];
        if is_below(batches, ran, other.radar) {
            let batch = &batches[ran];
            step_batch(alloc, &mut tracks, batch.plots.as_slice(), life, &mut certs)?;
            ran += 1;
        } else {
            if gate_one(alloc, &tracks, other.plots.as_slice())? {
                return Ok(true);
            }
            seen += 1;
        }
    }
    Ok(false)
}
