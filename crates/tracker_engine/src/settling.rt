// How what is to be folded of a window is folded: in place, or in parts by a pool.
ghost use Rattle.std.specs.Prelude.{◌≡◌, ◌≤◌, ◌+◌, ◌*◌, List, map, length, None, IfOk, OnOk, OnErr};
ghost use Rattle.plot_geometry.specs.PlotOrder.{plot_cmp};
ghost use Rattle.late_window.specs.Folding.{Rises, BeforeFirst, AreOutsOf, below, slots, states};
ghost use Rattle.late_window.specs.Windows.{StandsFor, folded, first, dirty_slots};
ghost use Rattle.slot_step.specs.Told.{AreTold};
ghost use Rattle.slot_step.specs.Tracker.{step_tracks};
ghost use Rattle.track_parts.specs.Numbered.{living};
ghost use Rattle.track_parts.specs.Tracking.{IsBefore, key_of_plot, slot_of_plot};
ghost use Rattle.admission_log.specs.declared.entries.Entry.{Entry};
ghost use Rattle.admission_log.specs.Entries.{slot_in};
ghost use Rattle.admission_log.specs.EntryOrder.{entry_cmp};
ghost use Rattle.tracker_fold.specs.declared.state.TrackerState.{TrackerState};
ghost use Rattle.tracker_fold.specs.Keys.{key_in};
ghost use Rattle.tracker_fold.specs.Spans.{AreWhole, with_table};
ghost use Rattle.tracker_fold.specs.Steps.{next, IsOut};

use cluster_pool::{Pool, run_in_parts};
use late_window::Window;
use plot_geometry::PlanePlot;
use std::alloc::Global;
use std::sync::ledger::Ledger;
use track_parts::{PlotFold, Tracks, numbered_tables};
use tracker_fold::{PricedCerts, TrackerFold, TrackerState, span_outs, span_plots, span_states};
use trk_base::{NoMemory, Steps};

/// Folds the filled slots of a window below `upto`, from the first that isn't folded on, to the same
/// states and outs whatever the wish: with a wish of 1, or where biases change among what is to be
/// folded, in place; else in up to that many parts, by the pool. After an error the window is as it
/// was.
pub fn settle_window<P: Pool, L: Ledger>(
    alloc: Global,
    window: &mut Window<TrackerFold>,
    upto: u64,
    pool: &mut P,
    wish: u8,
    steps: &mut Steps<L>,
) -> Result<(), NoMemory>
    requires least { 1 ≤ wish }
    requires most { wish ≤ 16 }
    requires later { window.old.upto ≤ upto }
    ensures stands { OnOk result ((start : TrackerState) (h : List Entry) → StandsFor next IsOut slot_in entry_cmp key_in start h window.old → StandsFor next IsOut slot_in entry_cmp key_in start h window.new) }
    ensures folded { OnOk result (folded window.new ≡ slots slot_in (below slot_in upto window.old.items)) }
    ensures settled { OnOk result (first (dirty_slots slot_in window.new upto) ≡ None) }
    ensures low { window.new.low ≡ window.old.low }
    ensures upto { OnOk result (window.new.upto ≡ upto) }
    ensures err { OnErr result (window.new ≡ window.old) }
    ensures rises { steps.old ≤ steps.new }
    ensures bound { steps.new ≤ steps.old + 31 * length (dirty_slots slot_in window.old upto) }
{
    if wish > 1 {
        let (state, entries) = window.span(upto)?;
        if let Some(plots) = span_plots(alloc, state.radars.as_slice(), &entries)? {
            let (states, outs) = fold_plots(alloc, state, &plots, pool, wish, steps)?;
            return window.place(upto, states, outs);
        }
    }
    window.settle(upto, steps)
}

// The state and the certificates after each filled slot of plots, from a state on, folded in parts
// without numbers, which are given afterwards.
fn fold_plots<P: Pool, L: Ledger>(
    alloc: Global,
    state: TrackerState,
    plots: &[PlanePlot],
    pool: &mut P,
    wish: u8,
    steps: &mut Steps<L>,
) -> Result<(Vec<TrackerState>, Vec<PricedCerts>), NoMemory>
    requires least { 1 ≤ wish }
    requires most { wish ≤ 16 }
    requires rising { Rises plot_cmp key_of_plot plots.now }
    requires before { BeforeFirst IsBefore slot_of_plot (living state.life state.table) plots.now }
    ensures states { IfOk result (λ r. r.0.items ≡ map (with_table state) (states (step_tracks state.life) slot_of_plot state.table plots.now)) }
    ensures outs { IfOk result (λ r. AreOutsOf (step_tracks state.life) slot_of_plot (AreTold state.life) state.table plots.now r.1.items) }
    ensures whole { IfOk result (λ r. AreWhole r.1.items) }
    ensures rises { steps.old ≤ steps.new }
    ensures bound { steps.new ≤ steps.old + 31 * length (slots slot_of_plot plots.now) }
{
    let TrackerState {
        life,
        radars,
        table,
    } = state;
    let tracks = Tracks::of(life, table);
    let (runs, told) = run_in_parts::<PlotFold, P, L>(alloc, pool, &tracks, plots, wish, steps)?;
    let tables = numbered_tables(alloc, tracks.table(), runs)?;
    let states = span_states(alloc, life, &radars, tables)?;
    let outs = span_outs(alloc, told)?;
    Ok((states, outs))
}
