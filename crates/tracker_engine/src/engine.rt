// What an engine is, and its calls.
ghost use Rattle.std.specs.Prelude.{◌≡◌, ◌<◌, ◌≤◌, ◌+◌, ◌-◌, ◌*◌, ◌^◌, ℕ, List, [], length, All, IfOk, OnErr, OnOk};
ghost use Rattle.std.specs.Arc.{arc_value};
ghost use Rattle.price_form.specs.Certificates.{IsCert};
ghost use Rattle.admission_log.specs.declared.settings.Settings.{Settings};
ghost use Rattle.admission_log.specs.Histories.{History, low_at};
ghost use Rattle.admission_log.specs.Legality.{IsLegal};
ghost use Rattle.edition_form.specs.Datagrams.{AreDatagramsOf, shown_at, shown_of};
ghost use Rattle.edition_form.specs.Editions.{IsEdition};
ghost use Rattle.edition_form.specs.Folding.{table_of};
ghost use Rattle.edition_form.specs.Prices.{ArePricesOf};
ghost use Rattle.tracker_engine.specs.Engines.{StandsFor, Continues, IsAllSettled, with_events};
ghost use Rattle.tracker_engine.specs.Counts.{IsCertificateCount};
ghost use Rattle.tracker_engine.specs.Spans.{AreSpan};

use crate::absorbing::{entries_of, note_all};
use crate::settling::settle_window;
use crate::showing::{append_prices, biases_at, certs_from, count_certs};
use admission_log::{Event, Settings};
use cluster_pool::Pool;
use edition_form::{Built, Edition, Pictured, ShownLine, pictured};
use late_window::Window;
use price_form::write_edition;
use std::alloc::Global;
use std::marker::Model;
use std::sync::Arc;
use std::sync::ledger::Ledger;
use track_life::Table;
use tracker_fold::{TrackerFold, TrackerState};
use trk_base::{NoMemory, Sequence, Steps, slot_of};

/// The tracker over the events of one log. It stands for the events that it has taken in
/// (`StandsFor`), and keeps none of them.
#[derive(Drop)]
pub struct Engine {
    alloc: Global,
    settings: Arc<Settings>,
    start: u64,
    // The last tick, and how many events were taken in.
    last: u64,
    count: u64,
    // Of each radar the last tick at its newest service message.
    services: Vec<Option<u64>>,
    window: Window<TrackerFold>,
    // The cut of the edition before, and the lines that were shown there.
    before: u64,
    shown: Vec<ShownLine>,
}

impl Model for Engine {
    ghost use Rattle.std.specs.Arc.{arc_value};
    ghost use Rattle.tracker_engine.specs.Engines.{EngineState, IsEngine};

    ghost Value = { EngineState };

    ghost view = { λ e. record { settings = arc_value e.settings; start = e.start; last = e.last; count = e.count; services = e.services.items; window = e.window; before = e.before; shown = e.shown.items } };

    ghost invariant = { λ e. IsEngine (record { settings = arc_value e.settings; start = e.start; last = e.last; count = e.count; services = e.services.items; window = e.window; before = e.before; shown = e.shown.items }) };
}

impl Engine {
    /// An engine for a log without events. `start` is the log's start, in 1/128 s.
    pub fn new(alloc: Global, settings: Arc<Settings>, start: u64) -> Result<Engine, NoMemory>
        requires { start < 2 ^ 40 }
        ensures { IfOk result (StandsFor (arc_value settings) (record { start = start; events = [] }) 0 0) }
    {
        let state = TrackerState::start(alloc, &settings)?;
        let mut services = Vec::with_capacity(alloc, settings.radars.len())?;
        for _ in settings.radars.as_slice() {
            services.push(None)?;
        }
        let low = slot_of(start).saturating_sub(u64::from(settings.window));
        Ok(Engine {
            alloc,
            settings,
            start,
            last: start,
            count: 0,
            services,
            window: Window::new(alloc, state, low),
            before: 0,
            shown: Vec::new(alloc),
        })
    }

    /// Takes in further events, which go on a legal log that the engine stands for. After an error
    /// none was taken in.
    pub fn absorb(&mut self, events: &[Event]) -> Result<(), NoMemory>
        requires continues { Continues self.old events.now }
        ensures stands { (settings : Settings) (log : History) (settled before : ℕ) → StandsFor settings log settled before self.old → IsLegal settings (with_events log events.now) → OnOk result (StandsFor settings (with_events log events.now) settled before self.new) }
        ensures err { OnErr result (self.new ≡ self.old) }
    {
        let count = self.count_after(events)?;
        let entries = entries_of(self.alloc, self.count, events)?;
        self.window.insert_all(&entries)?;
        note_all(&mut self.last, &mut self.services, events);
        self.count = count;
        Ok(())
    }

    /// Brings the tracks up to the last tick: each filled slot that is over, from the first that is new
    /// or was reopened on. With a wish above 1 they are folded in up to that many parts by the pool,
    /// where no biases change among them, and else in place; the wish and the pool change nothing of
    /// what comes of it. It takes at most 31 steps for each of the slots, also where it fails. After
    /// an error the engine is as it was.
    pub fn settle<P: Pool, L: Ledger>(
        &mut self,
        pool: &mut P,
        wish: u8,
        steps: &mut Steps<L>,
    ) -> Result<(), NoMemory>
        requires least { 1 ≤ wish }
        requires most { wish ≤ 16 }
        ensures stands { (settings : Settings) (log : History) (settled before : ℕ) → StandsFor settings log settled before self.old → OnOk result (StandsFor settings log (length log.events) before self.new) }
        ensures err { OnErr result (self.new ≡ self.old) }
        ensures rises { steps.old ≤ steps.new }
        ensures bound { (settings : Settings) (log : History) (settled before : ℕ) (slots : List ℕ) → StandsFor settings log settled before self.old → AreSpan log settled slots → steps.new ≤ steps.old + 31 * length slots }
    {
        let low = self.low();
        let upto = slot_of(self.last);
        settle_window(self.alloc, &mut self.window, upto, pool, wish, steps)?;
        self.window.close_below(low);
        Ok(())
    }

    /// The tracks of the log where all of it is settled: those of the slots that are over at its
    /// last tick.
    pub fn table(&self) -> &Table
        ensures { (settings : Settings) (log : History) (before : ℕ) → StandsFor settings log (length log.events) before self.now → result.now ≡ table_of settings log }
    {
        &self.window.state().table
    }

    /// The edition of all events that were taken in, which are settled, and the lines that it shows:
    /// the cut is the count of events, and tracks are told against the edition before. `number` is
    /// its number, from 1.
    pub fn edition(&self, number: u64) -> Result<Built, NoMemory>
        requires settled { IsAllSettled self.now }
        requires from_one { 1 ≤ number }
        ensures edition { (settings : Settings) (log : History) (before : ℕ) → StandsFor settings log (length log.events) before self.now → IfOk result (λ b. IsEdition settings log before number b.edition) }
        ensures shown { (settings : Settings) (log : History) (before : ℕ) → StandsFor settings log (length log.events) before self.now → IfOk result (λ b. b.shown ≡ shown_of settings log) }
        ensures whole { (settings : Settings) (log : History) (before : ℕ) → StandsFor settings log (length log.events) before self.now → IfOk result (λ b. All IsCert b.edition.certs) }
    {
        let Pictured { datagrams, shown } = self.pictured(number)?;
        let certs = certs_from(self.alloc, self.low(), self.window.outs())?;
        Ok(Built {
            edition: Edition {
                number,
                cut: self.count,
                before: self.before,
                time: self.last,
                datagrams,
                certs: Sequence::of(certs),
            },
            shown,
        })
    }

    /// What the edition of all events that were taken in shows, which are settled: its datagrams, and
    /// its lines. Nothing is copied of certificates. `number` is its number.
    pub fn pictured(&self, number: u64) -> Result<Pictured, NoMemory>
        requires settled { IsAllSettled self.now }
        ensures datagrams { (settings : Settings) (log : History) (before : ℕ) → StandsFor settings log (length log.events) before self.now → IfOk result (λ p. AreDatagramsOf settings log before number p.datagrams) }
        ensures shown { (settings : Settings) (log : History) (before : ℕ) → StandsFor settings log (length log.events) before self.now → IfOk result (λ p. p.shown ≡ shown_of settings log) }
    {
        let state = self.window.state();
        let biases = biases_at(
            self.alloc,
            state.radars.as_slice(),
            slot_of(self.last),
            self.window.items(),
        )?;
        pictured(
            self.alloc,
            &self.settings,
            &biases,
            &state.table,
            &self.services,
            self.last,
            number,
            &self.shown,
        )
    }

    /// How many certificates the edition of all events that were taken in has, which are settled. None
    /// of them is copied. More than can be counted is told as want of memory.
    pub fn certificate_count(&self) -> Result<u64, NoMemory>
        ensures { (settings : Settings) (log : History) (before : ℕ) → StandsFor settings log (length log.events) before self.now → IfOk result (IsCertificateCount settings log) }
    {
        count_certs(self.low(), self.window.outs())
    }

    /// What a price file has of the edition of all events that were taken in, which are settled: the
    /// record of its number and its cut, and those of its certificates.
    pub fn prices(&self, number: u64) -> Result<Vec<u8>, NoMemory>
        ensures { (settings : Settings) (log : History) (before : ℕ) → StandsFor settings log (length log.events) before self.now → IfOk result (λ v. ArePricesOf settings log (number, length log.events) v.items) }
    {
        let mut octets = write_edition(self.alloc, number, self.count)?;
        append_prices(self.low(), self.window.outs(), &mut octets)?;
        Ok(octets)
    }

    /// From now on the edition before is the one at this cut, which showed these lines: the next one
    /// tells against them which tracks are new and which are gone.
    pub fn show(&mut self, cut: u64, shown: Vec<ShownLine>)
        requires rises { self.old.before ≤ cut }
        requires within { cut ≤ self.old.count }
        ensures { (settings : Settings) (log : History) (settled before : ℕ) → StandsFor settings log settled before self.old → shown.items ≡ shown_at settings log cut → StandsFor settings log settled cut self.new }
    {
        self.before = cut;
        self.shown = shown;
    }

    // The first slot that a plot or a change may still have.
    fn low(&self) -> u64
        ensures { result ≡ low_at self.now.settings.window self.now.last }
    {
        slot_of(self.last).saturating_sub(u64::from(self.settings.window))
    }

    // How many events were taken in after these. More than can be counted can't be kept in memory.
    fn count_after(&self, events: &[Event]) -> Result<u64, NoMemory>
        ensures count { IfOk result (λ n. n ≡ self.now.count + length events.now) }
        ensures fits { IfOk result (λ n. n < 2 ^ 64) }
    {
        self.count.checked_add(events.len() as u64).ok_or(NoMemory)
    }
}
