// What a window keeps of a log: its changes of biases and its admitted plots.
ghost use Rattle.std.specs.Prelude.{◌≡◌, ◌++◌, List, map, OnErr, OnOk};
ghost use Rattle.std.specs.declared.cmp.Ordering.{Ordering};
ghost use Rattle.admission_log.specs.declared.entries.Entry.{Entry};
ghost use Rattle.admission_log.specs.Entries.{key_of, plot_entry, entries_in, slot_in};
ghost use Rattle.admission_log.specs.EntryOrder.{within_slot_cmp};

use crate::{Admitted, Event};
use plot_geometry::Bias;
use std::cmp::Ordering;
use trk_base::{Key, NoMemory, RawPlot, slot_of};

/// An entry of a log: a change of a radar's biases, or an admitted plot.
///
/// Entries are compared by slot; then changes come before plots, changes by `place` and plots by
/// key; then by the other fields, so that only an entry itself compares as equal to it.
#[derive(Clone, Copy, Debug)]
pub enum Entry {
    /// A change of a radar's biases.
    Bias {
        /// The first slot for whose plots it holds.
        slot: u64,
        /// The index of its event in the log.
        place: u64,
        /// The index of the radar in the settings.
        radar: u8,
        /// The biases in place of those before.
        bias: Bias,
    },
    /// An admitted plot.
    Plot {
        /// Its key, of the radar's index, its time and its arrival.
        key: Key,
        /// The plot as the radar reports it.
        raw: RawPlot,
    },
}

impl Entry {
    /// The slot of a plot, or the first for which a change holds.
    pub fn slot(&self) -> u64
        ensures { result ≡ slot_in self.now }
    {
        match self {
            Entry::Bias { slot, .. } => *slot,
            Entry::Plot { key, .. } => key.slot,
        }
    }

    // The order within a slot.
    fn cmp_within_slot(&self, other: &Entry) -> Ordering
        ensures { result ≡ within_slot_cmp self.now other.now }
    {
        match (self, other) {
            (
                Entry::Bias {
                    place,
                    radar,
                    bias,
                    ..
                },
                Entry::Bias {
                    place: other_place,
                    radar: other_radar,
                    bias: other_bias,
                    ..
                },
            ) => place
                .cmp(other_place)
                .then(radar.cmp(other_radar))
                .then(bias.cmp(other_bias)),
            (Entry::Bias { .. }, Entry::Plot { .. }) => Ordering::Less,
            (Entry::Plot { .. }, Entry::Bias { .. }) => Ordering::Greater,
            (
                Entry::Plot { key, raw },
                Entry::Plot {
                    key: other_key,
                    raw: other_raw,
                },
            ) => key.cmp(other_key).then(raw.cmp(other_raw)),
        }
    }
}

impl PartialEq for Entry {
    ghost use Rattle.std.specs.Cmp.{eq_by_cmp_equiv, partial_equiv_from_equiv};
    ghost use Rattle.std.specs.Ordering.{eq_by_cmp};
    ghost use Rattle.admission_log.specs.EntryOrder.{entry_cmp, entry_cmp_total};

    ghost eq = { eq_by_cmp entry_cmp };

    ghost laws = { partial_equiv_from_equiv (eq_by_cmp_equiv entry_cmp_total) };

    fn eq(&self, other: &Entry) -> bool {
        self.cmp(other).is_eq()
    }
}

impl Eq for Entry {
    ghost use Rattle.std.specs.Cmp.{eq_by_cmp_equiv};
    ghost use Rattle.admission_log.specs.EntryOrder.{entry_cmp_total};

    ghost laws = { eq_by_cmp_equiv entry_cmp_total };
}

impl Ord for Entry {
    ghost use Rattle.std.proofs.Common.{rules};
    ghost use Rattle.std.specs.Cmp.Rules.{comparing};
    ghost use Rattle.admission_log.specs.EntryOrder.{entry_cmp, entry_cmp_total};

    ghost cmp = { entry_cmp };

    ghost total = { entry_cmp_total };

    ghost matches_partial_cmp = { Prim.search (comparing, rules) };

    ghost matches_eq = { Prim.search (comparing, rules) };

    fn cmp(&self, other: &Entry) -> Ordering {
        self.slot()
            .cmp(&other.slot())
            .then(self.cmp_within_slot(other))
    }
}

impl PartialOrd for Entry {
    ghost use Rattle.std.proofs.Common.{rules};
    ghost use Rattle.std.specs.Cmp.{partial_order_from_own_ties, partial_order_from_total};
    ghost use Rattle.std.specs.Cmp.Rules.{comparing};
    ghost use Rattle.std.specs.Ordering.{as_partial_cmp};
    ghost use Rattle.admission_log.specs.EntryOrder.{entry_cmp, entry_cmp_total};

    ghost partial_cmp = { as_partial_cmp entry_cmp };

    ghost laws = { partial_order_from_own_ties (partial_order_from_total entry_cmp_total) (Prim.search (comparing, rules)) };

    fn partial_cmp(&self, other: &Entry) -> Option<Ordering> {
        Some(self.cmp(other))
    }
}

impl Admitted {
    /// Its key: the slot of its time, its radar, its time and its arrival.
    pub fn key(&self) -> Key
        ensures { result ≡ key_of self.now }
    {
        Key {
            slot: slot_of(self.time),
            radar: self.radar,
            time: self.time,
            arrival: self.arrival,
        }
    }
}

impl Event {
    /// Puts the entries of this event, which stands at an index of the log, after others.
    ///
    /// After an error the others are still there, with some of the event's after them.
    pub fn append_entries(&self, index: u64, entries: &mut Vec<Entry>) -> Result<(), NoMemory>
        ensures ok { OnOk result (entries.new.items ≡ entries.old.items ++ entries_in index self.now) }
        ensures err { OnErr result ((some : List Entry) × (entries.new.items ≡ entries.old.items ++ some)) }
    {
        match self {
            Event::Deliver { admitted, .. } => append_plots(admitted.as_slice(), entries)?,
            Event::Bias { radar, slot, bias } => entries.push(Entry::Bias {
                slot: *slot,
                place: index,
                radar: *radar,
                bias: *bias,
            })?,
            Event::Tick(_) | Event::Publish { .. } => {}
        }
        Ok(())
    }
}

// Puts the entries of admitted plots after others.
fn append_plots(admitted: &[Admitted], entries: &mut Vec<Entry>) -> Result<(), NoMemory>
    ensures ok { OnOk result (entries.new.items ≡ entries.old.items ++ map plot_entry admitted.now) }
    ensures err { OnErr result ((some : List Entry) × (entries.new.items ≡ entries.old.items ++ some)) }
{
    for plot in admitted {
        entries.push(Entry::Plot {
            key: plot.key(),
            raw: plot.plot,
        })?;
    }
    Ok(())
}
