// The slots of a load, one after the other.
ghost use Rattle.std.specs.Prelude.{◌≡◌, ◌≤◌, ◌<◌, ◌+◌, IfOk, IfSome, OnOk};
ghost use Rattle.slot_step.specs.Calls.{AreFromBefore};

use crate::words::Load;
use plot_geometry::PlanePlot;
use slot_step::{SlotRan, are_slot_plots, batches_of, slot_step};
use std::alloc::Global;
use std::sync::ledger::{Blank, Ledger};
use track_life::{LifeSettings, Table};
use trk_base::{Key, NoMemory, Steps, charge};

// The slot in which all aircraft are seen.
const FIRST_SLOT: u64 = 100;

// In how many slots each aircraft is seen once.
const TURN: u32 = 12;

// The aircraft stand on a grid of so many to the east, 10 km apart.
const ACROSS: u32 = 45;

const APART: i64 = 640_000;

/// The last table, and how many certificates there were.
#[derive(Debug, Drop)]
pub struct Folded {
    /// The table after the last slot.
    pub table: Table,
    /// The number of certificates in all slots.
    pub certs: u64,
}

// The plot of an aircraft.
fn plot_of(load: Load, slot: u64, aircraft: u32) -> PlanePlot
    requires aircraft { aircraft < 10000 }
    requires slot { slot < 2000000 }
{
    PlanePlot {
        key: Key {
            slot,
            radar: 0,
            time: slot * 64,
            arrival: slot * 65_536 + u64::from(aircraft),
        },
        x: i64::from(aircraft % ACROSS) * APART,
        y: i64::from(aircraft / ACROSS) * APART,
        rx: 10_240_000,
        ry: 10_240_000,
        kind: if load.addressed { 5 } else { 1 },
        spi: false,
        code: None,
        level: None,
        address: if load.addressed { Some(aircraft) } else { None },
    }
}

// The plots of a slot: of all aircraft in the first one, and then of each twelfth.
fn plots_of(alloc: Global, load: Load, turn: u32) -> Result<Vec<PlanePlot>, NoMemory>
    requires { turn ≤ 1000000 }
{
    let mut plots = Vec::new(alloc);
    for aircraft in 0..load.tracks {
        if turn == 0 || aircraft % TURN == turn % TURN {
            plots.push(plot_of(load, FIRST_SLOT + u64::from(turn), aircraft))?;
        }
    }
    Ok(plots)
}

// The step of a slot with these plots. That they are the slot's is tested.
fn step<L: Ledger>(
    alloc: Global,
    table: &Table,
    slot: u64,
    plots: &[PlanePlot],
    steps: &mut Steps<L>,
) -> Result<Option<SlotRan>, NoMemory>
    requires { AreFromBefore slot table.now }
    ensures { IfOk result (λ ran. IfSome ran (λ r. AreFromBefore (slot + 1) r.table)) }
{
    if !are_slot_plots(slot, plots) {
        return Ok(None);
    }
    let life = LifeSettings {
        hits: 3,
        keep_tentative: 15,
        keep_confirmed: 30,
    };
    let batches = batches_of(alloc, plots)?;
    let mut ticket = charge(1, steps);
    Ok(Some(slot_step(alloc, table, slot, &batches, &life, &mut ticket)?))
}

/// Goes over the load's slots. None is told where plots that were made aren't a slot's.
pub fn fold<L: Ledger>(alloc: Global, load: Load, blank: Blank) -> Result<Option<Folded>, NoMemory>
    requires name { blank.name ≡ L.name }
    requires parts { blank.parts ≡ L.parts }
    requires one { blank.parts ≡ 1 }
    ensures { IfOk result (λ folded. IfSome folded (λ f. AreFromBefore (101 + load.slots) f.table)) }
{
    let mut steps: Steps<L> = Steps::new(blank);
    let mut table = Table::empty(alloc);
    let mut certs = 0;
    for turn in 0..load.slots + 1 {
        let plots = plots_of(alloc, load, turn)?;
        let slot = FIRST_SLOT + u64::from(turn);
        let Some(ran) = step(alloc, &table, slot, &plots, &mut steps)? else {
            return Ok(None);
        };
        certs = u64::saturating_add(certs, ran.certs.len() as u64);
        table = ran.table;
    }
    Ok(Some(Folded { table, certs }))
}
