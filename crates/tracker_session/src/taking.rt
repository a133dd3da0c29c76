// The items of a recording, taken one after the other: what they add to the log, and which give an edition.
ghost use Rattle.std.specs.Prelude.{◌≡◌, ◌+◌, ◌<◌, ◌≤◌, ◌^◌, ◌++◌, [], ◌∷◌, false, length, IfOk, OnOk};
ghost use Rattle.recording.specs.Answers.{item_of};
ghost use Rattle.recording.specs.declared.header.Header.{Header};
ghost use Rattle.recording.specs.Items.{IsItem, datagram, tick};
ghost use Rattle.recording.specs.Items as recorded;
ghost use Rattle.admission_log.specs.declared.settings.Settings as Given;
ghost use Rattle.tracker_session.specs.Counting.{counted, no_counts, others_in, with_told};
ghost use Rattle.tracker_session.specs.Replay.{empty_log};
ghost use Rattle.tracker_session.specs.Taking.{Keeps, Moves, Progress};
ghost use Rattle.admission_log.specs.Deliveries.{outcomes_in};

use crate::counts::{Counts, count_outcomes, more, others_of, outcomes_of};
use admission_log::{AdmitError, BiasError, Event, LogSummary, Settings, TickError};
use plot_geometry::Bias;
use recording::Item;
use std::alloc::Global;
use trk_base::NoMemory;

/// A replay so far: the summary of its log, the newest events, and what became of its items. Events
/// that an edition has shown aren't kept, so that memory doesn't grow with them.
#[derive(Drop)]
pub struct Run {
    /// What decides which events the log takes next.
    pub log: LogSummary,
    /// The events since the last edition.
    pub newest: Vec<Event>,
    /// What became of the items so far.
    pub counts: Counts,
}

impl Run {
    /// The replay that has taken no item yet.
    pub fn new(alloc: Global, start: u64, tells_biases: bool) -> Run
        requires { start < 2 ^ 40 }
        ensures keeps { Keeps result (record { log = empty_log start; counts = no_counts tells_biases }) }
        ensures newest { result.newest.items ≡ [] }
    {
        Run {
            log: LogSummary::new(start),
            newest: Vec::new(alloc),
            counts: Counts::none(tells_biases),
        }
    }

    /// Takes an item, and answers whether it gives an edition: it does where it is a tick above the
    /// last one.
    ///
    /// Where memory is wanting, the replay is of no use any more.
    pub fn take(
        &mut self,
        alloc: Global,
        settings: &Settings,
        item: Item<'_>,
    ) -> Result<bool, NoMemory>
        requires { IsItem Header.Second (item_of item) }
        ensures { (before : Progress) → Keeps self.old before → IfOk result (λ shown. Moves settings.now (item_of item.entry) shown before self.old self.new) }
    {
        match item {
            Item::Datagram { feed, bytes } => {
                self.admit(alloc, settings, feed, bytes)?;
                Ok(false)
            }
            Item::Bias { radar, slot, bias } => {
                self.change_biases(settings, radar, slot, bias)?;
                Ok(false)
            }
            Item::Tick(time) => self.tick(time),
        }
    }

    /// The events since the last edition.
    pub fn newest(&self) -> &[Event]
        ensures { result.now ≡ self.now.newest.items }
    {
        &self.newest
    }

    /// Lets go of the newest events, which an edition has shown.
    pub fn forget(&mut self)
        ensures log { self.new.log ≡ self.old.log }
        ensures newest { self.new.newest.items ≡ [] }
        ensures counts { self.new.counts ≡ self.old.counts }
    {
        self.newest.truncate(0);
    }

    // Takes a datagram of a feed.
    fn admit(
        &mut self,
        alloc: Global,
        settings: &Settings,
        feed: u8,
        octets: &[u8],
    ) -> Result<(), NoMemory>
        requires { length octets.now ≤ 65535 }
        ensures { (before : Progress) → Keeps self.old before → OnOk result (Moves settings.now (datagram feed octets.now) false before self.old self.new) }
    {
        match self.log.admit(alloc, settings, feed, octets) {
            Ok(event) => self.note_delivery(event),
            Err(AdmitError::Malformed(_)) => {
                self.counts.malformed = more(self.counts.malformed, 1);
                Ok(())
            }
            Err(AdmitError::NoMemory) => Err(NoMemory),
        }
    }

    // Counts what the event of a datagram tells, and keeps it.
    fn note_delivery(&mut self, event: Event) -> Result<(), NoMemory>
        ensures log { self.new.log ≡ self.old.log }
        ensures newest { OnOk result (self.new.newest.items ≡ self.old.newest.items ++ event ∷ []) }
        ensures counts { self.new.counts ≡ record (with_told (outcomes_in event) self.old.counts) { other = counted (self.old.counts.other + others_in event) } }
    {
        count_outcomes(&mut self.counts, outcomes_of(&event));
        self.counts.other = more(self.counts.other, others_of(&event));
        self.newest.push(event)?;
        Ok(())
    }

    // Takes a tick. An old one gives no edition.
    fn tick(&mut self, time: u64) -> Result<bool, NoMemory>
        requires { time < 2 ^ 40 }
        ensures { (settings : Given.Settings) (before : Progress) → Keeps self.old before → IfOk result (λ shown. Moves settings (tick time) shown before self.old self.new) }
    {
        match self.log.tick(time) {
            Ok(event) => {
                self.counts.editions = more(self.counts.editions, 1);
                self.newest.push(event)?;
                Ok(true)
            }
            Err(TickError::Old { .. }) => {
                self.counts.old = more(self.counts.old, 1);
                Ok(false)
            }
            Err(TickError::NoMemory) => Err(NoMemory),
        }
    }

    // Takes a change of a radar's biases. One of no radar, or before the horizon, is passed over.
    fn change_biases(
        &mut self,
        settings: &Settings,
        radar: u8,
        slot: u64,
        bias: Bias,
    ) -> Result<(), NoMemory>
        requires { slot < 2 ^ 34 }
        ensures { (before : Progress) → Keeps self.old before → OnOk result (Moves settings.now (recorded.bias radar slot bias) false before self.old self.new) }
    {
        match self.log.bias(settings, radar, slot, bias) {
            Ok(event) => {
                self.counts.biases = more(self.counts.biases, 1);
                self.newest.push(event)?;
                Ok(())
            }
            Err(BiasError::UnknownRadar { .. }) => {
                self.counts.refused = more(self.counts.refused, 1);
                Ok(())
            }
            Err(BiasError::BeforeHorizon { .. }) => {
                self.counts.refused = more(self.counts.refused, 1);
                Ok(())
            }
            Err(BiasError::NoMemory) => Err(NoMemory),
        }
    }
}
