// A conductor with its engine.
ghost use Rattle.std.specs.Prelude.{◌≡◌, ◌≤◌, ◌<◌, ◌+◌, ◌^◌, ℕ, List, [], Err, IfOk, OnOk, OnErr};
ghost use Rattle.admission_log.specs.declared.events.Event.{Event};
ghost use Rattle.admission_log.specs.declared.events.TickError.TheVariants as errors;
ghost use Rattle.tracker_engine.specs.Engines.{StandsFor};
ghost use Rattle.station.specs.Tokens.{settings_of, start_of, IsConductorOf, IsNewConductor};
ghost use Rattle.station.specs.Turns.{OnlySaw, Ticks, IsOld, Gathers};
ghost use Rattle.live_picture.specs.Rounds.{Follows, PublishesAll};

use crate::advancing::advance;
use admission_log::TickError;
use cluster_pool::Pool;
use edition_form::Built;
use station::{Conductor, Station};
use std::alloc::Global;
use std::sync::ledger::Ledger;
use std::sync::{Arc, Wait};
use tracker_engine::Engine;
use trk_base::{NoMemory, Steps};

/// A station's conductor, with the engine that takes in what it gathers.
#[derive(Drop)]
pub struct Live {
    /// It has seen each edition that was published, since nobody else publishes.
    pub conductor: Conductor,
    /// It stands for the events that the conductor has gathered.
    pub engine: Engine,
    /// The number of the next edition, from 1.
    pub number: u64,
}

impl Live {
    /// The station's conductor that has seen nothing, with an engine that has taken in nothing, before
    /// the first edition. It takes no memory.
    pub fn new(station: &Station, conductor: Conductor, engine: Engine) -> Live
        requires fresh { IsNewConductor station.now conductor }
        requires own { IsConductorOf station.now conductor }
        requires stands { StandsFor (settings_of station.now) (record { start = start_of station.now; events = [] }) 0 0 engine }
        ensures { Follows station.now result }
    {
        Live {
            conductor,
            engine,
            number: 1,
        }
    }

    /// Takes a tick, a time in 1/128 s, and answers the index of its event. What came up to it is
    /// shown by the next edition.
    ///
    /// It is refused as old exactly where it isn't above the last one, or the start. Whatever it
    /// answers, the next edition can be published: a tick that isn't taken changes nothing but what the
    /// conductor has seen.
    pub fn tick<W: Wait>(&mut self, rt: &W, station: &Station, time: u64) -> Result<u64, TickError>
        requires follows { Follows station.now self.old }
        requires time { time < 2 ^ 40 }
        ensures follows { Follows station.now self.new }
        ensures engine { self.new.engine ≡ self.old.engine }
        ensures ticks { IfOk result (λ index. Ticks station.now self.old.conductor self.new.conductor time index) }
        ensures old { (last : ℕ) → result ≡ Err (errors.Old last) → IsOld station.now self.old.conductor self.new.conductor time last }
        ensures err { OnErr result (OnlySaw self.old.conductor.turn self.new.conductor.turn) }
    {
        station.tick(rt, &mut self.conductor, time)
    }

    /// Gathers what has come, folds it, and publishes the next edition: that of all events which were
    /// gathered, told against the last that was published. Answers the index of its event.
    ///
    /// With a wish above 1 it is folded in up to that many parts by the pool. After an error nothing is
    /// published and nothing is lost: the call can be made again, and publishes what has come by then.
    pub fn publish<W: Wait, P: Pool, L: Ledger>(
        &mut self,
        rt: &W,
        alloc: Global,
        station: &Station,
        pool: &mut P,
        wish: u8,
        steps: &mut Steps<L>,
    ) -> Result<u64, NoMemory>
        requires least { 1 ≤ wish }
        requires most { wish ≤ 16 }
        requires follows { Follows station.now self.old }
        ensures follows { Follows station.now self.new }
        ensures publishes { IfOk result (λ index. PublishesAll station.now self.old self.new index) }
        ensures err { OnErr result (OnlySaw self.old.conductor.turn self.new.conductor.turn) }
    {
        let next = number_after(self.number)?;
        self.take_in(rt, station)?;
        let told = advance(&mut self.engine, self.number, pool, wish, steps)?;
        let Built { edition, shown } = told;
        let cut = edition.cut;
        let edition = Arc::new(alloc, edition)?;
        let index = station.publish(rt, &mut self.conductor, edition)?;
        self.engine.show(cut, shown.into_vec());
        self.number = next;
        Ok(index)
    }

    // Gathers what has come, and has the engine take it in. What it can't take in is gathered again.
    fn take_in<W: Wait>(&mut self, rt: &W, station: &Station) -> Result<(), NoMemory>
        requires follows { Follows station.now self.old }
        ensures follows { Follows station.now self.new }
        ensures number { self.new.number ≡ self.old.number }
        ensures gathers { OnOk result ((events : List Event) × Gathers station.now self.old.conductor self.new.conductor events) }
        ensures saw { OnlySaw self.old.conductor.turn self.new.conductor.turn }
    {
        let events = station.gather(rt, &mut self.conductor)?;
        match self.engine.absorb(&events) {
            Ok(()) => Ok(()),
            Err(NoMemory) => {
                self.conductor.put_back(events.len() as u64);
                Err(NoMemory)
            }
        }
    }
}

// The number of the next edition. More than can be counted can't be kept in memory.
fn number_after(number: u64) -> Result<u64, NoMemory>
    ensures { IfOk result (λ n. n ≡ number + 1) }
{
    number.checked_add(1).ok_or(NoMemory)
}
