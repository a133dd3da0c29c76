// The step of a slot over the slot's entries.
ghost use Rattle.std.specs.Prelude.{◌≡◌, ◌<◌, ◌+◌, ℕ, [], IfOk};
ghost use Rattle.admission_log.specs.Entries.{slot_in};
ghost use Rattle.admission_log.specs.EntryOrder.{entry_cmp};
ghost use Rattle.late_window.specs.Folding.{Rises, InSlot};
ghost use Rattle.slot_step.specs.Calls.{AreBatches, plots_of};
ghost use Rattle.tracker_fold.specs.Keys.{key_in};
ghost use Rattle.tracker_fold.specs.Steps.{changed, radars_after, plane, planes, moved, AreCertified, AreOfOneSlot, IsBefore};

use crate::{EntryKey, PricedCerts, TrackerState};
use admission_log::Entry;
use late_window::Fold;
use plot_geometry::{PlanePlot, RadarSettings, to_plane};
use slot_step::{Batch, SlotRan, batches_of, slot_step};
use std::alloc::Global;
use track_life::Table;
use trk_base::{NoMemory, Sequence, Ticket, TryCopy};

/// The tracker's fold over the entries of a log.
pub struct TrackerFold;

impl Fold for TrackerFold {
    ghost use Rattle.std.specs.Prelude.{ℕ, List};
    ghost use Rattle.admission_log.specs.Entries.{slot_in};
    ghost use Rattle.admission_log.specs.EntryOrder.{entry_cmp_exact};
    ghost use Rattle.tracker_fold.specs.Steps.{next, IsOut, IsBefore};
    ghost use Rattle.tracker_fold.specs.Keys.{key_in};
    ghost use Rattle.tracker_fold.specs.Laws.{stays_before, goes_before, in_order, slot_in_key};

    type State = TrackerState;

    type Item = Entry;

    type Out = PricedCerts;

    type Key = EntryKey;

    ghost next = { next };

    ghost is_out = { IsOut };

    ghost slot_of = { slot_in };

    ghost key_of = { key_in };

    ghost is_before = { IsBefore };

    ghost stays_before = { stays_before };

    ghost goes_before = { goes_before };

    ghost in_order = { in_order };

    ghost exact = { entry_cmp_exact };

    ghost slot_in_key = { slot_in_key };

    fn slot(item: &Entry) -> u64 {
        item.slot()
    }

    fn step(
        alloc: Global,
        state: &TrackerState,
        slot: u64,
        items: &[Entry],
        ticket: &mut Ticket,
    ) -> Result<(TrackerState, PricedCerts), NoMemory> {
        match Prepared::of(alloc, state.radars.as_slice(), items) {
            Ok(prepared) => prepared.step(alloc, state, slot, ticket),
            Err(NoMemory) => {
                ticket.spend();
                Err(NoMemory)
            }
        }
    }

    fn copy(alloc: Global, state: &TrackerState) -> Result<TrackerState, NoMemory> {
        state.copy(alloc)
    }
}

// What a slot's entries come to, before the tracks are asked.
#[derive(Drop)]
struct Prepared {
    // The radars after the slot's changes.
    radars: Vec<RadarSettings>,
    // The slot's plots by those radars, as batches.
    batches: Vec<Batch>,
}

impl Prepared {
    fn of(alloc: Global, before: &[RadarSettings], entries: &[Entry]) -> Result<Prepared, NoMemory>
        requires rising { Rises entry_cmp key_in entries.now }
        requires of_slot { AreOfOneSlot entries.now }
        ensures radars { IfOk result (λ p. p.radars.items ≡ radars_after before.now entries.now) }
        ensures plots { IfOk result (λ p. plots_of p.batches.items ≡ planes (radars_after before.now entries.now) entries.now) }
        ensures batches { (slot : ℕ) → InSlot slot_in slot entries.now → IfOk result (λ p. AreBatches slot p.batches.items) }
    {
        let radars = radars_after(alloc, before, entries)?;
        let plots = planes(alloc, &radars, entries)?;
        let batches = batches_of(alloc, &plots)?;
        Ok(Prepared { radars, batches })
    }

    fn step(
        self,
        alloc: Global,
        state: &TrackerState,
        slot: u64,
        ticket: &mut Ticket,
    ) -> Result<(TrackerState, PricedCerts), NoMemory>
        requires batches { AreBatches slot self.batches.items }
        requires before { IsBefore state.now slot }
        requires paid { 0 < ticket.old }
        ensures next { IfOk result (λ r. r.0 ≡ moved state.now self.radars.items slot (plots_of self.batches.items)) }
        ensures certs { IfOk result (λ r. AreCertified state.now slot (plots_of self.batches.items) r.1) }
        ensures spent { ticket.new + 1 ≡ ticket.old }
    {
        let Prepared { radars, batches } = self;
        let SlotRan { table, certs } = if batches.is_empty() {
            ticket.spend();
            unmoved(alloc, &state.table)?
        } else {
            slot_step(alloc, &state.table, slot, &batches, &state.life, ticket)?
        };
        let priced = PricedCerts::new(alloc, certs)?;
        let state = TrackerState {
            life: state.life,
            radars: Sequence::of(radars),
            table,
        };
        Ok((state, priced))
    }
}

// What becomes of a table in a slot without plots.
fn unmoved(alloc: Global, table: &Table) -> Result<SlotRan, NoMemory>
    ensures table { IfOk result (λ ran. ran.table ≡ table.now) }
    ensures certs { IfOk result (λ ran. ran.certs ≡ []) }
{
    Ok(SlotRan {
        table: table.copy(alloc)?,
        certs: Sequence::new(alloc),
    })
}

/// The radars after the changes of biases among entries, in their order.
#[tactic(auto, unfolding(crate::specs::Steps::radars_after))]
pub fn radars_after(
    alloc: Global,
    before: &[RadarSettings],
    entries: &[Entry],
) -> Result<Vec<RadarSettings>, NoMemory>
    ensures { IfOk result (λ v. v.items ≡ radars_after before.now entries.now) }
{
    let mut radars = Vec::from_slice(alloc, before)?;
    for entry in entries {
        change(&mut radars, entry);
    }
    Ok(radars)
}

// Puts a change of biases in the place of what its radar had.
fn change(radars: &mut [RadarSettings], entry: &Entry)
    ensures { radars.new ≡ changed radars.old entry.now }
{
    if let Entry::Bias { radar, bias, .. } = entry {
        let index = *radar as usize;
        if index < radars.len() {
            radars[index] = radars[index].biased(*bias);
        }
    }
}

// The plots among entries in the plane, by these radars.
fn planes(
    alloc: Global,
    radars: &[RadarSettings],
    entries: &[Entry],
) -> Result<Vec<PlanePlot>, NoMemory>
    ensures { IfOk result (λ v. v.items ≡ planes radars.now entries.now) }
{
    let mut plots = Vec::new(alloc);
    for entry in entries {
        if let Some(plot) = plane(radars, entry) {
            plots.push(plot)?;
        }
    }
    Ok(plots)
}

// A plot in the plane, by its radar as it is then.
pub(crate) fn plane(radars: &[RadarSettings], entry: &Entry) -> Option<PlanePlot>
    ensures { result ≡ plane radars.now entry.now }
{
    match entry {
        Entry::Plot { key, raw } => {
            let radar = radars.get(key.radar as usize)?;
            Some(to_plane(radar, raw, *key))
        }
        Entry::Bias { .. } => None,
    }
}
