// The tables at the starts of a slot's batches.
ghost use Rattle.std.specs.Prelude.{◌≡◌, map, IfOk};
ghost use Rattle.slot_step.specs.Slots.{batch_table};
ghost use Rattle.slot_step.specs.Tracker.{tracking, ordered};
ghost use Rattle.slot_step.specs.Calls.{AreBatches, AreFromBefore, plots_of};

use crate::Batch;
use crate::batch_step::step_batch;
use std::alloc::Global;
use track_life::{LifeSettings, Table, Track, expire};
use trk_base::{NoMemory, TryCopy};

/// The table at the start of each batch of a slot: after expiry at the slot and after the batches of
/// the radars below.
pub fn batch_tables(
    alloc: Global,
    table: &Table,
    slot: u64,
    batches: &[Batch],
    life: &LifeSettings,
) -> Result<Vec<Table>, NoMemory>
    requires batches { AreBatches slot batches.now }
    requires earlier { AreFromBefore slot table.now }
    ensures { IfOk result (λ tables. tables.items ≡ map (λ b. batch_table (tracking life.now) (ordered life.now) table.now slot (plots_of batches.now) b.radar) batches.now) }
{
    let mut tracks = expire(alloc, table, slot, life)?.into_tracks();
    let mut certs = Vec::new(alloc);
    let mut tables = Vec::with_capacity(alloc, batches.len())?;
    for batch in batches {
        let start = Track::copy_all(alloc, &tracks)?;
        tables.push(Table::of(start))?;
        step_batch(alloc, &mut tracks, batch.plots.as_slice(), life, &mut certs)?;
    }
    Ok(tables)
}
