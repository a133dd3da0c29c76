// The step of a slot.
ghost use Rattle.std.specs.Prelude.{◌≡◌, ◌<◌, ◌+◌, IfOk};
ghost use Rattle.std.specs.List.{AllByRecursion};
ghost use Rattle.price_form.specs.Certificates.{IsCert};
ghost use Rattle.slot_step.specs.Tracker.{run_tracks, step_tracks};
ghost use Rattle.slot_step.specs.Calls.{AreBatches, AreFromBefore, plots_of};
ghost use Rattle.slot_step.specs.Told.{AreTold};

use crate::batch_step::step_batch;
use crate::{Batch, KeyedCert};
use std::alloc::Global;
use track_life::{LifeSettings, Table, assign_numbers, expire};
use trk_base::{NoMemory, Sequence, Ticket};

/// What a slot's step gives: the table after the slot, and a certificate for each component of each
/// batch's gates.
#[derive(Debug, Drop)]
pub struct SlotRan {
    /// The table after the slot.
    pub table: Table,
    /// The certificates, in the order of radar and least plot.
    pub certs: Sequence<KeyedCert>,
}

/// The step of a slot without numbers: tracks expire at its start, and then its batches follow in
/// rising radar. There is a certificate for each component of each batch's gates, whose pairing is
/// its part of the whole batch's least pairing, and which proves it.
///
/// Tracks that begin have no number yet, and others keep theirs. One step of the ticket is spent,
/// also where memory is wanting, which is told too where the table would have 2^32 - 1 tracks or a
/// certificate 2^32 edges.
pub fn slot_run(
    alloc: Global,
    table: &Table,
    slot: u64,
    batches: &[Batch],
    life: &LifeSettings,
    ticket: &mut Ticket,
) -> Result<SlotRan, NoMemory>
    requires batches { AreBatches slot batches.now }
    requires earlier { AreFromBefore slot table.now }
    requires left { 0 < ticket.old }
    ensures table { IfOk result (λ ran. ran.table ≡ run_tracks life.now table.now slot (plots_of batches.now)) }
    ensures certs { IfOk result (λ ran. AreTold life.now table.now slot (plots_of batches.now) ran.certs) }
    ensures whole { IfOk result (λ ran. AllByRecursion (λ c. IsCert c.cert) ran.certs) }
    ensures before { IfOk result (λ ran. AreFromBefore (slot + 1) ran.table) }
    ensures spent { ticket.new + 1 ≡ ticket.old }
{
    ticket.spend();
    run_batches(alloc, table, slot, batches, life)
}

// How many plots there are, if that can be counted. There are no more certificates.
fn plot_count(batches: &[Batch]) -> usize {
    let mut count: usize = 0;
    for batch in batches {
        count = count.saturating_add(batch.plots.len());
    }
    count
}

// The run without its ticket.
fn run_batches(
    alloc: Global,
    table: &Table,
    slot: u64,
    batches: &[Batch],
    life: &LifeSettings,
) -> Result<SlotRan, NoMemory>
    requires batches { AreBatches slot batches.now }
    requires earlier { AreFromBefore slot table.now }
    ensures table { IfOk result (λ ran. ran.table ≡ run_tracks life.now table.now slot (plots_of batches.now)) }
    ensures certs { IfOk result (λ ran. AreTold life.now table.now slot (plots_of batches.now) ran.certs) }
    ensures whole { IfOk result (λ ran. AllByRecursion (λ c. IsCert c.cert) ran.certs) }
    ensures before { IfOk result (λ ran. AreFromBefore (slot + 1) ran.table) }
{
    let mut tracks = expire(alloc, table, slot, life)?.into_tracks();
    let mut certs = Vec::with_capacity(alloc, plot_count(batches))?;
    for batch in batches {
        step_batch(alloc, &mut tracks, batch.plots.as_slice(), life, &mut certs)?;
    }
    Ok(SlotRan {
        table: Table::of(tracks),
        certs: Sequence::of(certs),
    })
}

/// The step of a slot: the same, and then each confirmed track without a number is given one, in
/// birth order. One step of the ticket is spent, also where memory is wanting.
pub fn slot_step(
    alloc: Global,
    table: &Table,
    slot: u64,
    batches: &[Batch],
    life: &LifeSettings,
    ticket: &mut Ticket,
) -> Result<SlotRan, NoMemory>
    requires batches { AreBatches slot batches.now }
    requires earlier { AreFromBefore slot table.now }
    requires left { 0 < ticket.old }
    ensures table { IfOk result (λ ran. ran.table ≡ step_tracks life.now table.now slot (plots_of batches.now)) }
    ensures certs { IfOk result (λ ran. AreTold life.now table.now slot (plots_of batches.now) ran.certs) }
    ensures whole { IfOk result (λ ran. AllByRecursion (λ c. IsCert c.cert) ran.certs) }
    ensures before { IfOk result (λ ran. AreFromBefore (slot + 1) ran.table) }
    ensures spent { ticket.new + 1 ≡ ticket.old }
{
    let SlotRan { mut table, certs } = slot_run(alloc, table, slot, batches, life, ticket)?;
    assign_numbers(alloc, &mut table)?;
    Ok(SlotRan { table, certs })
}
