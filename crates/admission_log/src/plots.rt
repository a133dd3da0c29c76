// The plots of a log, in the plane and in the order in which they are taken.
ghost use Rattle.std.specs.Prelude.{◌≡◌, ◌++◌, List, IfOk, OnOk, filter_map};
ghost use Rattle.admission_log.specs.Histories.{admitted_in};
ghost use Rattle.admission_log.specs.Biases.{bias_among, changes_in, changes_of, is_change, last_change, last_with};
ghost use Rattle.admission_log.specs.Plots.{plot_over, plots_of};

use crate::{Admitted, Entry, Event, Log, Settings};
use plot_geometry::{Bias, PlanePlot, to_plane};
use std::alloc::Global;
use trk_base::{NoMemory, slot_of};

/// The plots that were admitted to a log, as far as their slots are over at its last tick, each in
/// the plane by the biases that the log gives for its slot, in rising key.
pub fn plots_of(alloc: Global, settings: &Settings, log: &Log) -> Result<Vec<PlanePlot>, NoMemory>
    ensures { IfOk result (λ v. v.items ≡ plots_of settings.now log.now) }
{
    let last = log.last();
    let changes = changes_of(alloc, log.events())?;
    let mut plots = Vec::new(alloc);
    for event in log.events() {
        append_over(settings, &changes, last, admitted_by(event), &mut plots)?;
    }
    plots.sort_unstable();
    Ok(plots)
}

// The plots that an event admitted.
fn admitted_by(event: &Event) -> &[Admitted]
    ensures { result.now ≡ admitted_in event.now }
{
    match event {
        Event::Deliver { admitted, .. } => admitted.as_slice(),
        _ => &[],
    }
}

// The changes of biases among the events of a log, in order.
fn changes_of(alloc: Global, events: &[Event]) -> Result<Vec<Entry>, NoMemory>
    ensures { IfOk result (λ v. v.items ≡ changes_of events.now) }
{
    let mut changes = Vec::new(alloc);
    let mut index = 0;
    for event in events {
        append_change(event, index, &mut changes)?;
        index += 1;
    }
    Ok(changes)
}

// Puts the change that the event at an index is, if it is one, after others.
fn append_change(event: &Event, index: u64, changes: &mut Vec<Entry>) -> Result<(), NoMemory>
    ensures { OnOk result (changes.new.items ≡ changes.old.items ++ changes_in index event.now) }
{
    if let Event::Bias { .. } = event {
        event.append_entries(index, changes)?;
    }
    Ok(())
}

// Puts the plots whose slots are over after the others.
fn append_over(
    settings: &Settings,
    changes: &[Entry],
    last: u64,
    admitted: &[Admitted],
    plots: &mut Vec<PlanePlot>,
) -> Result<(), NoMemory>
    ensures { OnOk result (plots.new.items ≡ plots.old.items ++ filter_map (plot_over settings.now changes.now last) admitted.now) }
{
    for one in admitted {
        if let Some(plot) = plot_over(settings, changes, last, one) {
            plots.push(plot)?;
        }
    }
    Ok(())
}

// The plot in the plane, if its slot is over.
fn plot_over(
    settings: &Settings,
    changes: &[Entry],
    last: u64,
    admitted: &Admitted,
) -> Option<PlanePlot>
    ensures { result ≡ plot_over settings.now changes.now last admitted.now }
{
    let key = admitted.key();
    if key.slot >= slot_of(last) {
        return None;
    }
    let radar = settings.radars.as_slice().get(admitted.radar as usize)?;
    let bias = bias_among(changes, radar.bias(), admitted.radar, key.slot);
    Some(to_plane(&radar.biased(bias), &admitted.plot, key))
}

// The biases that hold for the plots of a radar in a slot, where its own are these.
fn bias_among(changes: &[Entry], own: Bias, radar: u8, slot: u64) -> Bias
    ensures { result ≡ bias_among changes.now own radar slot }
{
    match last_change(changes, radar, slot) {
        Some(Entry::Bias { bias, .. }) => bias,
        _ => own,
    }
}

// The last of the changes of a radar's biases that hold for a slot.
fn last_change(changes: &[Entry], radar: u8, slot: u64) -> Option<Entry>
    ensures { result ≡ last_change radar slot changes.now }
{
    let mut last: Option<Entry> = None;
    for entry in changes {
        last = last_with(radar, slot, last, entry);
    }
    last
}

// The last of such changes so far, and of an entry that may be one.
fn last_with(radar: u8, slot: u64, last: Option<Entry>, entry: &Entry) -> Option<Entry>
    ensures { result ≡ last_with radar slot last entry.now }
{
    if !is_change(entry, radar, slot) {
        return last;
    }
    match last {
        Some(before) => Some(before.max(*entry)),
        None => Some(*entry),
    }
}

// Whether an entry changes the biases of a radar, and holds for a slot.
fn is_change(entry: &Entry, radar: u8, slot: u64) -> bool
    ensures { result ≡ is_change radar slot entry.now }
{
    match entry {
        Entry::Bias {
            slot: from,
            radar: changed,
            ..
        } => *changed == radar && *from <= slot,
        Entry::Plot { .. } => false,
    }
}
