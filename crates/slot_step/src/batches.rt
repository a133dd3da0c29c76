// What a slot's step takes in: batches of plots.
ghost use Rattle.std.specs.Prelude.{◌≡◌, ◌<◌, ◌↔◌, ℕ, length, IfOk, IsTrue};
ghost use Rattle.std.specs.List.{AllByRecursion};
ghost use Rattle.std.specs.List.Sorted.{IsStrictlySortedBy};
ghost use Rattle.trk_base.specs.Keys.{key_cmp};
ghost use Rattle.slot_step.specs.Calls.{AreOfOneSlot, AreBatches, GoesOn, IsFirstBatch, plots_of};

use plot_geometry::PlanePlot;
use std::alloc::Global;
use std::marker::Model;
use trk_base::{NoMemory, Sequence};

/// The plots of one radar in one slot, at least one, in strictly rising key.
#[derive(Debug, Drop)]
pub struct Batch {
    /// The radar's index in the settings.
    pub radar: u8,
    /// The plots.
    pub plots: Sequence<PlanePlot>,
}

impl Model for Batch {
    ghost use Rattle.slot_step.specs.OneBatch.{Batch as Plots, IsBatch};

    ghost Value = { Plots };

    ghost view = { λ b. record { radar = b.radar; plots = b.plots } };

    ghost invariant = { λ b. IsBatch (record { radar = b.radar; plots = b.plots }) };

    ghost inverse = { λ b. record { radar = b.radar; plots = b.plots } };
}

// Whether the plot at this index is of the slot and above the one before it.
fn goes_on(slot: u64, plots: &[PlanePlot], index: usize) -> bool
    requires { index < length plots.now }
    ensures { IsTrue result ↔ GoesOn slot plots.now index }
{
    let plot = &plots[index];
    if plot.key.slot != slot {
        return false;
    }
    if index == 0 {
        return true;
    }
    let before = &plots[index - 1];
    before.key.cmp(&plot.key).is_lt()
}

/// Whether these plots are of the slot and stand in strictly rising key, as [`batches_of`] asks.
pub fn are_slot_plots(slot: u64, plots: &[PlanePlot]) -> bool
    ensures { IsTrue result ↔ (IsStrictlySortedBy (λ p q. key_cmp p.key q.key) plots.now × AllByRecursion (λ p. p.key.slot ≡ slot) plots.now) }
{
    for index in 0..plots.len() {
        if !goes_on(slot, plots, index) {
            return false;
        }
    }
    true
}

// The plots of the first radar, which stand in front.
fn first_batch(alloc: Global, plots: &[PlanePlot]) -> Result<Batch, NoMemory>
    requires some { 0 < length plots.now }
    requires rising { IsStrictlySortedBy (λ p q. key_cmp p.key q.key) plots.now }
    requires slot { AreOfOneSlot plots.now }
    ensures { IfOk result (λ batch. IsFirstBatch plots.now batch) }
{
    let first = &plots[0];
    let radar = first.key.radar;
    let count = plots.partition_point(|plot| plot.key.radar <= radar);
    Ok(Batch {
        radar,
        plots: Sequence::of(Vec::from_slice(alloc, &plots[..count])?),
    })
}

/// The batches of a slot's plots, which stand in strictly rising key: a batch for each radar that
/// has plots.
pub fn batches_of(alloc: Global, plots: &[PlanePlot]) -> Result<Vec<Batch>, NoMemory>
    requires rising { IsStrictlySortedBy (λ p q. key_cmp p.key q.key) plots.now }
    requires slot { AreOfOneSlot plots.now }
    ensures plots { IfOk result (λ v. plots_of v.items ≡ plots.now) }
    ensures batches { (slot : ℕ) → AllByRecursion (λ p. p.key.slot ≡ slot) plots.now → IfOk result (λ v. AreBatches slot v.items) }
{
    let mut batches = Vec::new(alloc);
    let mut from = 0;
    while from < plots.len() {
        let batch = first_batch(alloc, &plots[from..])?;
        from += batch.plots.len();
        batches.push(batch)?;
    }
    Ok(batches)
}
