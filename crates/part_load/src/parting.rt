// How a span falls into parts.
ghost use Rattle.std.specs.Prelude.{◌≡◌, ◌≤◌, ◌<◌, ◌+◌, ◌↔◌, length, IfOk, IfSome, IsTrue};
ghost use Rattle.plot_geometry.specs.PlotOrder.{plot_cmp};
ghost use Rattle.slot_step.specs.Calls.{AreFromBefore};
ghost use Rattle.late_window.specs.Folding.{Rises};
ghost use Rattle.track_parts.specs.Tracking.{key_of_plot, IsBefore};
ghost use Rattle.part_load.specs.Spans.{IsAbove, BeginsIn};

use crate::skies::{Aircraft, FIRST_SLOT, add_slot, fleet};
use crate::words::Load;
use plot_geometry::PlanePlot;
use slot_step::{SlotRan, are_slot_plots, batches_of, slot_run};
use span_clusters::{Done, Job, crossings, partition, splitting_parts};
use std::alloc::Global;
use std::sync::ledger::{Blank, Ledger};
use track_life::{LifeSettings, Table};
use track_parts::{PlotFold, Tracks};
use trk_base::{NoMemory, Steps, charge};

// For how many slots aircraft are seen before the span begins: 30 s.
const SEEN_BEFORE: u64 = 60;

/// What is told of a span in parts.
#[derive(Debug, Drop)]
pub struct Parted {
    /// How many tracks there are when the span begins.
    pub tracks: usize,
    /// How many plots the span has.
    pub plots: usize,
    /// How many pairs of parts cross.
    pub crossings: usize,
    /// How many tracks and plots each part has.
    pub sizes: Vec<(usize, usize)>,
}

// How long tracks live.
fn life() -> LifeSettings {
    LifeSettings {
        hits: 3,
        keep_tentative: 15,
        keep_confirmed: 30,
    }
}

// The table after a slot with these plots. That they are the slot's is tested.
fn step<L: Ledger>(
    alloc: Global,
    table: &Table,
    slot: u64,
    plots: &[PlanePlot],
    steps: &mut Steps<L>,
) -> Result<Option<Table>, NoMemory>
    requires { AreFromBefore slot table.now }
    ensures { IfOk result (λ after. IfSome after (λ t. AreFromBefore (slot + 1) t)) }
{
    if !are_slot_plots(slot, plots) {
        return Ok(None);
    }
    let batches = batches_of(alloc, plots)?;
    let mut ticket = charge(1, steps);
    let SlotRan {
        table,
        certs: _certs,
    } = slot_run(alloc, table, slot, &batches, &life(), &mut ticket)?;
    Ok(Some(table))
}

// The table when the span begins.
fn table_before<L: Ledger>(
    alloc: Global,
    load: Load,
    fleet: &[Aircraft],
    steps: &mut Steps<L>,
) -> Result<Option<Table>, NoMemory>
    ensures { IfOk result (λ before. IfSome before (λ t. AreFromBefore 72060 t)) }
{
    let mut table = Table::empty(alloc);
    for turn in 0..SEEN_BEFORE {
        let mut plots = Vec::new(alloc);
        add_slot(load, fleet, FIRST_SLOT + turn, &mut plots)?;
        let Some(next) = step(alloc, &table, FIRST_SLOT + turn, &plots, steps)? else {
            return Ok(None);
        };
        table = next;
    }
    Ok(Some(table))
}

// Whether the plot at this index has a higher key than the one before it.
fn is_above(plots: &[PlanePlot], index: usize) -> bool
    requires { index < length plots.now }
    ensures { IsTrue result ↔ IsAbove plots.now index }
{
    if index == 0 {
        return true;
    }
    let plot = &plots[index];
    let before = &plots[index - 1];
    before.key.cmp(&plot.key).is_lt()
}

// Whether plots rise.
fn is_rising(plots: &[PlanePlot]) -> bool
    ensures { IsTrue result → Rises plot_cmp key_of_plot plots.now }
{
    for index in 0..plots.len() {
        if !is_above(plots, index) {
            return false;
        }
    }
    true
}

// Whether the first of them, if there is one, is of this slot.
fn begins_in(slot: u64, plots: &[PlanePlot]) -> bool
    ensures { IsTrue result → BeginsIn slot plots.now }
{
    if plots.is_empty() {
        return true;
    }
    let plot = &plots[0];
    plot.key.slot == slot
}

// The runs of all parts.
fn run_all(alloc: Global, jobs: Vec<Job<PlotFold>>) -> Result<Vec<Done<PlotFold>>, NoMemory>
    ensures { IfOk result (λ done. done.items ≡ jobs.items) }
{
    let mut done = Vec::with_capacity(alloc, jobs.len())?;
    for job in jobs {
        done.push(job.run(alloc)?)?;
    }
    Ok(done)
}

// The span in parts, and which of them cross.
fn parts_of_span<L: Ledger>(
    alloc: Global,
    state: &Tracks,
    slot: u64,
    plots: &[PlanePlot],
    wish: u8,
    steps: &mut Steps<L>,
) -> Result<Parted, NoMemory>
    requires least { 1 ≤ wish }
    requires most { wish ≤ 16 }
    requires rising { Rises plot_cmp key_of_plot plots.now }
    requires first { BeginsIn slot plots.now }
    requires before { IsBefore state.now slot }
{
    let jobs = partition::<PlotFold, L>(alloc, state, plots, wish, steps)?;
    let done = run_all(alloc, jobs)?;
    splitting_parts::<PlotFold>();
    let pairs = crossings(alloc, &done)?;
    let mut sizes = Vec::with_capacity(alloc, done.len())?;
    for part in &done {
        sizes.push((part.start().tracks().len(), part.items().len()))?;
    }
    Ok(Parted {
        tracks: state.tracks().len(),
        plots: plots.len(),
        crossings: pairs.len(),
        sizes,
    })
}

/// The load's span in parts. None is told where plots that were made are out of order.
pub fn count_parts<L: Ledger>(
    alloc: Global,
    load: Load,
    blank: Blank,
) -> Result<Option<Parted>, NoMemory>
    requires name { blank.name ≡ L.name }
    requires parts { blank.parts ≡ L.parts }
    requires one { blank.parts ≡ 1 }
{
    let mut steps: Steps<L> = Steps::new(blank);
    let fleet = fleet(alloc, load)?;
    let Some(table) = table_before(alloc, load, &fleet, &mut steps)? else {
        return Ok(None);
    };
    let first = FIRST_SLOT + SEEN_BEFORE;
    let mut plots = Vec::new(alloc);
    for turn in 0..load.slots {
        add_slot(load, &fleet, first + u64::from(turn), &mut plots)?;
    }
    if !begins_in(first, &plots) {
        return Ok(None);
    }
    if !is_rising(&plots) {
        return Ok(None);
    }
    let state = Tracks::of(life(), table);
    Ok(Some(parts_of_span(alloc, &state, first, &plots, load.wish, &mut steps)?))
}
