// A span whose numbers were worked by hand.
ghost use Rattle.std.specs.Prelude.{◌≡◌, ◌≢◌, IfOk, IsTrue};
ghost use Rattle.std.specs.List.{AllByRecursion};
ghost use Rattle.slot_step.specs.Calls.{AreBatches};
ghost use Rattle.track_parts.specs.Tracking.{key_of_plot};

use crate::{PlotFold, Tracks, numbered_certificates, numbered_tables};
use late_window::{Window, count_slots, run_slots};
use plot_geometry::PlanePlot;
use slot_step::{Batch, are_slot_plots, batches_of, slot_step};
use std::alloc::Global;
use std::marker::Brand;
use std::process::Abort;
use std::sync::ledger::{Blank, Ledger};
use std::test::Fail;
use track_life::{LifeSettings, Table};
use trk_base::{Key, NoMemory, Steps, TryCopy, charge, slot_of};

const LIFE: LifeSettings = LifeSettings {
    hits: 1,
    keep_tentative: 15,
    keep_confirmed: 30,
};

// A plot's time, its arrival, and its place to the north in 1,000/64 m.
type Row = (u64, u64, u16);

// The first track has expired in the last slot, where a third one asks for its number.
const ROWS: [Row; 5] = [
    (4_608_000, 0, 0),
    (4_608_064, 1, 60_000),
    (4_611_200, 2, 60_000),
    (4_611_904, 3, 60_000),
    (4_611_905, 65_535, 0),
];

// The numbers of the tracks after each filled slot.
const NUMBERS: [&[Option<u16>]; 4] = [
    &[Some(1)],
    &[Some(1), Some(2)],
    &[Some(1), Some(2)],
    &[Some(2), Some(1)],
];

fn plot_of(row: Row) -> PlanePlot {
    PlanePlot {
        key: Key {
            slot: slot_of(row.0),
            radar: 0,
            time: row.0,
            arrival: row.1,
        },
        x: 0,
        y: i64::from(row.2) * 1_000,
        rx: 18_496,
        ry: 10_240_000,
        kind: 2,
        spi: false,
        code: None,
        level: None,
        address: None,
    }
}

// Whether no plot has the key of this one.
fn is_new(plots: &[PlanePlot], plot: &PlanePlot) -> bool
    ensures { IsTrue result → AllByRecursion (λ p. key_of_plot p ≢ key_of_plot plot.now) plots.now }
{
    for other in plots {
        if other.key == plot.key {
            return false;
        }
    }
    true
}

// The plots of a slot.
fn plots_in(alloc: Global, slot: u64) -> Result<Vec<PlanePlot>, NoMemory> {
    let mut plots = Vec::new(alloc);
    for row in ROWS {
        if slot_of(row.0) == slot {
            plots.push(plot_of(row))?;
        }
    }
    Ok(plots)
}

// The batches of a slot.
fn batches_in(
    rt: &impl Abort,
    alloc: Global,
    slot: u64,
    plots: &[PlanePlot],
) -> Result<Vec<Batch>, Fail>
    ensures { IfOk result (λ v. AreBatches slot v.items) }
{
    assert!(rt; are_slot_plots(slot, plots));
    Ok(batches_of(alloc, plots)?)
}

fn has_numbers(table: &Table, numbers: &[Option<u16>]) -> bool {
    table
        .tracks()
        .iter()
        .map(|track| track.number)
        .eq(numbers.iter().copied())
}

// The run of the whole span, and then its numbers.
fn numbers_last<L: Ledger>(
    rt: &impl Abort,
    alloc: Global,
    steps: &mut Steps<L>,
) -> Result<Vec<Table>, Fail> {
    let start = Tracks::of(LIFE, Table::empty(alloc));
    let mut window: Window<PlotFold> = Window::new(alloc, start, 72_000);
    for row in ROWS {
        let plot = plot_of(row);
        assert!(rt; window.low() <= plot.key.slot);
        assert!(rt; is_new(window.items(), &plot));
        window.insert(plot)?;
    }
    assert!(rt; window.upto() <= 72_100);
    let (state, plots) = window.span(72_100)?;
    let mut ticket = charge(count_slots::<PlotFold>(&plots) as u64, steps);
    let (runs, _) = run_slots::<PlotFold>(alloc, &state, &plots, &mut ticket)?;
    Ok(numbered_tables(alloc, state.table(), runs)?)
}

// Numbers given in the step of each slot.
fn numbers_each<L: Ledger>(
    rt: &impl Abort,
    alloc: Global,
    steps: &mut Steps<L>,
) -> Result<Vec<Table>, Fail> {
    let mut table = Table::empty(alloc);
    let mut tables = Vec::new(alloc);
    for slot in 72_000..72_062 {
        let plots = plots_in(alloc, slot)?;
        let batches = batches_in(rt, alloc, slot, &plots)?;
        let mut ticket = charge(1, steps);
        let step = slot_step(alloc, &table, slot, &batches, &LIFE, &mut ticket)?;
        if !plots.is_empty() {
            tables.push(step.table.copy(alloc)?)?;
        }
        table = step.table;
    }
    Ok(tables)
}

fn numbers<L: Ledger>(rt: &impl Abort, alloc: Global, blank: Blank) -> Result<(), Fail>
    requires name { blank.name ≡ L.name }
    requires parts { blank.parts ≡ L.parts }
    requires one { blank.parts ≡ 1 }
{
    let mut steps: Steps<L> = Steps::new(blank);
    let last = numbers_last(rt, alloc, &mut steps)?;
    let each = numbers_each(rt, alloc, &mut steps)?;
    assert_eq!(rt; last.len(), NUMBERS.len());
    assert_eq!(rt; each.len(), NUMBERS.len());
    for (index, expected) in NUMBERS.iter().enumerate() {
        assert!(rt; has_numbers(&last[index], expected));
        assert!(rt; has_numbers(&each[index], expected));
    }
    Ok(())
}

#[test]
fn numbers_a_span(rt: HostRuntime) -> Result<(), Fail> {
    numbered_certificates();
    numbers::<Brand>(&rt, rt.alloc(), Blank::new(1))
}
