// The tracker's tracks as members of states that can be split and merged.
ghost use Rattle.std.specs.Prelude.{◌≡◌, ◌<◌, ◌≤◌, ◌+◌, ◌↔◌, ◌==◌, [], length, fold, IfOk, IsTrue, All};
ghost use Rattle.late_window.specs.Folding.{Rises, InSlot};
ghost use Rattle.span_clusters.specs.Interleavings.{IsJoin};
ghost use Rattle.span_clusters.specs.Parts.{Reaches};
ghost use Rattle.track_parts.specs.Tracking.{both_certs};

use crate::choosing::part_numbers;
use crate::fold::slot_batches;
use crate::splitting::picked_tracks;
use crate::weaving::{woven_certs, woven_tracks};
use crate::{PlotFold, Tracks};
use plot_geometry::PlanePlot;
use slot_step::{KeyedCert, reaches};
use span_clusters::Separable;
use std::alloc::Global;
use track_life::{Table, expire};
use trk_base::{NoMemory, Sequence};

impl Separable for PlotFold {
    ghost use Rattle.std.specs.Prelude.{ℕ, List, length};
    ghost use Rattle.track_parts.specs.Tracking.{picked, merged, gates, both_certs, SharesNone};
    ghost use Rattle.track_parts.specs.Laws.{picks_all, picks_before, picks_beside, picks_merged, beside_back, beside_merged, beside_next, merged_back, merged_rest, merged_before};
    ghost use Rattle.track_parts.specs.Laws.{gates_merged, next_merged, out_merged, out_alone, next_rested, out_rested, gates_rested};

    ghost count = { λ s. length s.table };

    ghost picked = { picked };

    ghost merged = { merged };

    ghost is_beside = { SharesNone };

    ghost gates = { gates };

    ghost both = { both_certs };

    ghost picks_all = { picks_all };

    ghost picks_before = { picks_before };

    ghost picks_beside = { picks_beside };

    ghost picks_merged = { picks_merged };

    ghost beside_back = { beside_back };

    ghost beside_merged = { beside_merged };

    ghost beside_next = { beside_next };

    ghost merged_back = { merged_back };

    ghost merged_rest = { merged_rest };

    ghost merged_before = { merged_before };

    ghost gates_merged = { gates_merged };

    ghost next_merged = { next_merged };

    ghost out_merged = { out_merged };

    ghost out_alone = { out_alone };

    ghost next_rested = { next_rested };

    ghost out_rested = { out_rested };

    ghost gates_rested = { gates_rested };

    fn members(state: &Tracks) -> u32 {
        state.tracks().len() as u32
    }

    fn choose(
        alloc: Global,
        state: &Tracks,
        items: &[PlanePlot],
        wish: u8,
    ) -> Result<Vec<u8>, NoMemory> {
        part_numbers(alloc, state.tracks(), items, wish)
    }

    fn split(alloc: Global, state: &Tracks, numbers: &[u8], part: u8) -> Result<Tracks, NoMemory> {
        let picked = picked_tracks(alloc, state.tracks(), numbers, part)?;
        Ok(Tracks::of(*state.life(), Table::of(picked)))
    }

    fn crosses(
        alloc: Global,
        state: &Tracks,
        slot: u64,
        own: &[PlanePlot],
        other: &[PlanePlot],
    ) -> Result<bool, NoMemory> {
        let batches = slot_batches(alloc, slot, own)?;
        let others = slot_batches(alloc, slot, other)?;
        reaches(alloc, state.table(), slot, &batches, &others, state.life())
    }

    fn merge(alloc: Global, one: &Tracks, other: &Tracks) -> Result<Tracks, NoMemory> {
        let tracks = woven_tracks(alloc, one.tracks(), other.tracks())?;
        if tracks.len() >= u32::MAX as usize {
            return Err(NoMemory);
        }
        Ok(Tracks::of(*one.life(), Table::of(tracks)))
    }

    fn rest(alloc: Global, state: &Tracks, slot: u64) -> Result<Tracks, NoMemory> {
        let table = expire(alloc, state.table(), slot, state.life())?;
        Ok(Tracks::of(*state.life(), table))
    }

    fn together(
        alloc: Global,
        outs: Vec<Sequence<KeyedCert>>,
    ) -> Result<Sequence<KeyedCert>, NoMemory>
        requires { 0 < length outs.items }
        ensures { IfOk result (λ out. IsJoin both_certs outs.items out) }
    {
        let certs = all_certs(alloc, outs)?;
        Ok(Sequence::of(certs))
    }
}

// The certificates of all, one list after the other put in order with those before it.
fn all_certs(alloc: Global, outs: Vec<Sequence<KeyedCert>>) -> Result<Vec<KeyedCert>, NoMemory>
    ensures { IfOk result (λ certs. certs.items ≡ fold both_certs [] outs.items) }
{
    let mut certs = Vec::new(alloc);
    for out in outs {
        let more = woven_certs(alloc, certs, out.into_vec())?;
        certs = more;
    }
    Ok(certs)
}
