// The editions of a log, each as the octets that Output and Prices get of it.
ghost use Rattle.std.specs.Prelude.{◌≡◌, ◌+◌, ◌<◌, ◌≤◌, ◌*◌, ◌^◌, ℕ, List, IfOk, OnOk, length};
ghost use Rattle.std.specs.Arc.{arc_value};
ghost use Rattle.std.specs.List.{concat};
ghost use Rattle.admission_log.specs.declared.settings.Settings.{Settings};
ghost use Rattle.admission_log.specs.Histories.{History};
ghost use Rattle.edition_form.specs.Datagrams.{shown_at};
ghost use Rattle.tracker_engine.specs.Engines.{StandsFor};
ghost use Rattle.tracker_engine.specs.Spans.{AreSpan};
ghost use Rattle.tracker_session.specs.Editions.{AreGiven, AreNewest, ArePartsOfNewest, HasNext};
ghost use Rattle.tracker_session.specs.Replay.{empty_log};
ghost use Rattle.tracker_session.specs.Words.{IsWish};

use admission_log::{Event, Settings};
use cluster_pool::Pool;
use edition_form::{Pictured, ShownLine};
use std::alloc::Global;
use std::sync::Arc;
use std::sync::ledger::Ledger;
use tracker_engine::Engine;
use trk_base::{NoMemory, Sequence, Steps};

/// What Output and Prices get of an edition.
#[derive(Debug, Drop)]
pub struct EditionOctets {
    /// Its datagrams, one after the other.
    pub output: Vec<u8>,
    /// The record of its number and its cut, and those of its certificates.
    pub prices: Vec<u8>,
}

/// What an exercise counts of an edition.
#[derive(Debug, Drop)]
pub struct EditionParts {
    /// Its datagrams in their order.
    pub datagrams: Sequence<Sequence<u8>>,
    /// How many certificates it has.
    pub certificates: u64,
}

/// What gives the editions of a log one after the other: the tracks at the last one, and how many
/// events and tracks that one showed.
#[derive(Drop)]
pub struct Editions {
    /// It has taken in the events that the last edition showed.
    pub engine: Engine,
    /// How many editions were given.
    pub number: u64,
    /// How many events the last one showed.
    pub cut: usize,
    /// How many tracks the last one showed, without those that it told as ended.
    pub tracks: usize,
}

impl Editions {
    /// Those of a log without events. `start` is the log's start, in 1/128 s.
    pub fn new(alloc: Global, settings: Arc<Settings>, start: u64) -> Result<Editions, NoMemory>
        requires { start < 2 ^ 40 }
        ensures { IfOk result (AreGiven (arc_value settings) (empty_log start)) }
    {
        let engine = Engine::new(alloc, settings, start)?;
        Ok(Editions {
            engine,
            number: 0,
            cut: 0,
            tracks: 0,
        })
    }

    /// The octets of the edition of the log at the tick that was just taken, from the events since
    /// the edition before. The certificates are written from where the window has them. So many
    /// workers of the pool may share the work, which takes at most 31 steps for each slot of the
    /// span that the new events open.
    ///
    /// Where memory is wanting, no more editions can be given.
    pub fn next<P: Pool, L: Ledger>(
        &mut self,
        alloc: Global,
        newest: &[Event],
        pool: &mut P,
        workers: u8,
        steps: &mut Steps<L>,
    ) -> Result<EditionOctets, NoMemory>
        requires next { (log : History) × HasNext self.old.engine.settings log newest.now self.old }
        requires workers { IsWish workers }
        ensures newest { (log : History) → HasNext self.old.engine.settings log newest.now self.old → IfOk result (AreNewest self.old.engine.settings log) }
        ensures given { (log : History) → HasNext self.old.engine.settings log newest.now self.old → OnOk result (AreGiven self.old.engine.settings log self.new) }
        ensures rises { steps.old ≤ steps.new }
        ensures bound { (log : History) (slots : List ℕ) → HasNext self.old.engine.settings log newest.now self.old → AreSpan log self.old.cut slots → steps.new ≤ steps.old + 31 * length slots }
    {
        let (number, cut) = self.reach(newest, pool, workers, steps)?;
        let Pictured { datagrams, shown } = self.engine.pictured(number)?;
        let output = joined(alloc, datagrams.as_slice())?;
        let prices = self.engine.prices(number)?;
        self.show(number, cut, shown.into_vec());
        Ok(EditionOctets { output, prices })
    }

    /// What is counted of the edition of the log at the tick that was just taken, from the events
    /// since the edition before. No certificate is copied. So many workers of the pool may share the
    /// work, which takes at most 31 steps for each slot of the span that the new events open.
    ///
    /// Where memory is wanting, no more editions can be given.
    pub fn advance<P: Pool, L: Ledger>(
        &mut self,
        newest: &[Event],
        pool: &mut P,
        workers: u8,
        steps: &mut Steps<L>,
    ) -> Result<EditionParts, NoMemory>
        requires next { (log : History) × HasNext self.old.engine.settings log newest.now self.old }
        requires workers { IsWish workers }
        ensures newest { (log : History) → HasNext self.old.engine.settings log newest.now self.old → IfOk result (ArePartsOfNewest self.old.engine.settings log) }
        ensures given { (log : History) → HasNext self.old.engine.settings log newest.now self.old → OnOk result (AreGiven self.old.engine.settings log self.new) }
        ensures rises { steps.old ≤ steps.new }
        ensures bound { (log : History) (slots : List ℕ) → HasNext self.old.engine.settings log newest.now self.old → AreSpan log self.old.cut slots → steps.new ≤ steps.old + 31 * length slots }
    {
        let (number, cut) = self.reach(newest, pool, workers, steps)?;
        let Pictured { datagrams, shown } = self.engine.pictured(number)?;
        let certificates = self.engine.certificate_count()?;
        self.show(number, cut, shown.into_vec());
        Ok(EditionParts {
            datagrams,
            certificates,
        })
    }

    // Brings the tracks up to the log's last tick, and answers the number of the edition there, and
    // its cut.
    fn reach<P: Pool, L: Ledger>(
        &mut self,
        newest: &[Event],
        pool: &mut P,
        workers: u8,
        steps: &mut Steps<L>,
    ) -> Result<(u64, usize), NoMemory>
        requires next { (log : History) × HasNext self.old.engine.settings log newest.now self.old }
        requires workers { IsWish workers }
        ensures stands { (log : History) → HasNext self.old.engine.settings log newest.now self.old → OnOk result (StandsFor self.old.engine.settings log (length log.events) self.old.cut self.new.engine) }
        ensures number { IfOk result (λ r. r.0 ≡ self.old.number + 1) }
        ensures cut { IfOk result (λ r. r.1 ≡ self.old.cut + length newest.now) }
        ensures rises { steps.old ≤ steps.new }
        ensures bound { (log : History) (slots : List ℕ) → HasNext self.old.engine.settings log newest.now self.old → AreSpan log self.old.cut slots → steps.new ≤ steps.old + 31 * length slots }
    {
        self.engine.absorb(newest)?;
        self.engine.settle(pool, workers, steps)?;
        let number = self.number.checked_add(1).ok_or(NoMemory)?;
        let cut = self.cut.checked_add(newest.len()).ok_or(NoMemory)?;
        Ok((number, cut))
    }

    // The edition of this number was made, which shows all events up to the cut, and these tracks.
    fn show(&mut self, number: u64, cut: usize, shown: Vec<ShownLine>)
        requires rises { self.old.engine.before ≤ cut }
        requires within { cut ≤ self.old.engine.count }
        ensures number { self.new.number ≡ number }
        ensures cut { self.new.cut ≡ cut }
        ensures tracks { self.new.tracks ≡ length shown.items }
        ensures stands { (settings : Settings) (log : History) (settled before : ℕ) → StandsFor settings log settled before self.old.engine → shown.items ≡ shown_at settings log cut → StandsFor settings log settled cut self.new.engine }
    {
        self.tracks = shown.len();
        self.engine.show(cut as u64, shown);
        self.number = number;
        self.cut = cut;
    }
}

// Datagrams, one after the other.
fn joined(alloc: Global, datagrams: &[Sequence<u8>]) -> Result<Vec<u8>, NoMemory>
    ensures { IfOk result (λ v. v.items ≡ concat datagrams.now) }
{
    let mut octets = Vec::new(alloc);
    for datagram in datagrams {
        octets.extend_from_slice(datagram.as_slice())?;
    }
    Ok(octets)
}
