// Slots whose tracks were worked by hand.
ghost use Rattle.std.specs.Prelude.{◌≡◌, ◌≤◌, All, IfOk};
ghost use Rattle.price_form.specs.Certificates.{IsCert};
ghost use Rattle.slot_step.specs.Calls.{AreBatches};

use crate::{
    Batch, KeyedCert, are_slot_plots, batch_tables, batches_of, reaches, slot_run, slot_step,
};
use plot_geometry::PlanePlot;
use price_form::check;
use std::alloc::Global;
use std::marker::Brand;
use std::process::Abort;
use std::sync::ledger::{Blank, Ledger};
use std::test::Fail;
use track_life::{LifeSettings, Table, Track};
use trk_base::{Key, NoMemory, Steps, TryCopy, charge, slot_of};

// A plot's time, radar, arrival, and place to the east and to the north in 1,000/64 m.
type Row = (u64, u8, u64, i16, u16);

// A track's number, whether it is confirmed and of one radar, how many plots it has, and its time.
type Told = (Option<u16>, bool, bool, u32, u64);

// With how many plots a track is confirmed, the plots of the slots from 72,000 to 72,002, and the
// tracks after them.
type Case<'a> = (u8, &'a [Row], &'a [Told]);

const CASES: [Case<'static>; 4] = [
    // The second radar's plot is older than the first one's, which began the track.
    (
        1,
        &[(4_608_063, 0, 0, 0, 118), (4_608_000, 1, 1, 0, 118)],
        &[(Some(1), true, false, 2, 4_608_000)],
    ),
    // The track is confirmed by a plot that came after the one in the next slot.
    (
        3,
        &[
            (4_608_010, 0, 0, 0, 118),
            (4_608_074, 0, 2, 0, 118),
            (4_608_138, 0, 1, 0, 118),
        ],
        &[(Some(1), true, true, 3, 4_608_138)],
    ),
    // Both tracks ask for number 1 first.
    (
        1,
        &[(4_608_000, 0, 0, 0, 0), (4_608_000, 0, 65_535, 0, 60_000)],
        &[
            (Some(1), true, true, 1, 4_608_000),
            (Some(2), true, true, 1, 4_608_000),
        ],
    ),
    // Two tracks stand in one line from south to north. Each gates the plot in its own place, and
    // neither the other's, nor the plot that lies too far to the east.
    (
        1,
        &[
            (4_608_000, 0, 0, -118, 118),
            (4_608_000, 0, 1, -118, 60_000),
            (4_608_070, 0, 2, -118, 60_000),
            (4_608_080, 0, 3, 600, 118),
            (4_608_090, 0, 4, -118, 118),
            (4_608_140, 0, 5, -118, 118),
        ],
        &[
            (Some(1), true, true, 3, 4_608_140),
            (Some(2), true, true, 2, 4_608_070),
            (Some(4), true, true, 1, 4_608_080),
        ],
    ),
];

fn plot_of(row: Row) -> PlanePlot {
    PlanePlot {
        key: Key {
            slot: slot_of(row.0),
            radar: row.1,
            time: row.0,
            arrival: row.2,
        },
        x: i64::from(row.3) * 1_000,
        y: i64::from(row.4) * 1_000,
        rx: 18_496,
        ry: 10_240_000,
        kind: 2,
        spi: false,
        code: None,
        level: None,
        address: None,
    }
}

// The plots of a slot.
fn plots_in(alloc: Global, slot: u64, rows: &[Row]) -> Result<Vec<PlanePlot>, NoMemory> {
    let mut plots = Vec::new(alloc);
    for row in rows {
        if slot_of(row.0) == slot {
            plots.push(plot_of(*row))?;
        }
    }
    Ok(plots)
}

fn told(track: &Track) -> Told {
    (
        track.number,
        track.confirmed,
        track.mono,
        track.plots,
        track.aim.time,
    )
}

fn life_of(hits: u8) -> LifeSettings
    requires from { 1 ≤ hits }
    requires to { hits ≤ 8 }
{
    LifeSettings {
        hits,
        keep_tentative: 15,
        keep_confirmed: 30,
    }
}

// The batches of a slot.
fn batches_in(
    rt: &impl Abort,
    alloc: Global,
    slot: u64,
    plots: &[PlanePlot],
) -> Result<Vec<Batch>, Fail>
    ensures { IfOk result (λ v. AreBatches slot v.items) }
{
    assert!(rt; are_slot_plots(slot, plots));
    Ok(batches_of(alloc, plots)?)
}

// Whether all these certificates prove.
fn all_prove(certs: &[KeyedCert]) -> bool
    requires { All (λ c. IsCert c.cert) certs.now }
{
    for keyed in certs {
        if !check(&keyed.cert) {
            return false;
        }
    }
    true
}

// Whether a certificate has a gate.
fn has_gate(keyed: &KeyedCert) -> bool {
    keyed.cert.costs.edges.len() > 0
}

// The table after the case's slots. That the tracks reach the slot's own plots is seen from the
// certificates.
fn fold<L: Ledger>(
    rt: &impl Abort,
    alloc: Global,
    rows: &[Row],
    life: &LifeSettings,
    steps: &mut Steps<L>,
) -> Result<Table, Fail> {
    let mut table = Table::empty(alloc);
    for slot in 72_000..72_003 {
        let batches = batches_in(rt, alloc, slot, &plots_in(alloc, slot, rows)?)?;
        let mut ticket = charge(2, steps);
        let run = slot_run(alloc, &table, slot, &batches, life, &mut ticket)?;
        let step = slot_step(alloc, &table, slot, &batches, life, &mut ticket)?;
        assert_eq!(rt; run.table.tracks().len(), step.table.tracks().len());
        assert_eq!(rt; run.certs.len(), step.certs.len());
        let starts = batch_tables(alloc, &table, slot, &batches, life)?;
        assert_eq!(rt; starts.len(), batches.len());
        assert!(rt;
            starts
                .iter()
                .all(|start| start.tracks().len() <= step.table.tracks().len())
        );
        assert!(rt; all_prove(step.certs.as_slice()));
        assert!(rt; step.certs.copy(alloc)? == step.certs);
        let reached = reaches(alloc, &table, slot, &batches, &batches, life)?;
        assert_eq!(rt; reached, step.certs.as_slice().iter().any(has_gate));
        table = step.table;
    }
    Ok(table)
}

fn folds<L: Ledger>(rt: &impl Abort, alloc: Global, blank: Blank) -> Result<(), Fail>
    requires name { blank.name ≡ L.name }
    requires parts { blank.parts ≡ L.parts }
    requires one { blank.parts ≡ 1 }
{
    let mut steps: Steps<L> = Steps::new(blank);
    for (hits, rows, expected) in CASES {
        assert!(rt; 1 <= hits && hits <= 8);
        let table = fold(rt, alloc, rows, &life_of(hits), &mut steps)?;
        let tracks = table.tracks();
        assert!(rt; tracks.iter().map(told).eq(expected.iter().copied()));
    }
    Ok(())
}

#[test]
fn folds_slots(rt: HostRuntime) -> Result<(), Fail> {
    folds::<Brand>(&rt, rt.alloc(), Blank::new(1))
}
