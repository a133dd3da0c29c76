// The turns of the tokens.
ghost use Rattle.std.specs.Prelude.{◌≡◌, ◌≤◌, ◌<◌, ◌-◌, ◌^◌, ℕ, List, length, take, None, Err, IfOk, IfNone, IfSome, OnErr};
ghost use Rattle.std.specs.Option.{option_map};
ghost use Rattle.std.specs.Arc.{arc_value};
ghost use Rattle.asterix_frame.specs.declared.block.Malformed.{Malformed};
ghost use Rattle.asterix_frame.specs.Answers.{IfMalformed, AnswersWith, RefusesWith};
ghost use Rattle.asterix_frame.specs.Datagrams.{Content, IsDatagram, DatagramFault};
ghost use Rattle.admission_log.specs.declared.events.TickError.TheVariants as errors;
ghost use Rattle.admission_log.specs.Histories.{published_of};
ghost use Rattle.station.specs.declared.station.Station.{Station};
ghost use Rattle.station.specs.Tokens.{log_with, gathered_of, IsFeederOf, IsConductorOf, IsSubscriberOf};
ghost use Rattle.station.specs.Turns.{AreConducted, OnlySaw, Admits, AdmitsSaid, Ticks, IsOld, Gathers, MayPublish, Publishes, AsksLatest, TakesNext, HasNoNext};

use super::Station;
use crate::shared::SharedLog;
use crate::{Conductor, Feeder, Subscriber};
use admission_log::{AdmitError, Event, Messages, Receipt, TickError, read_messages};
use edition_form::Edition;
use std::sync::{Arc, Wait};
use trk_base::NoMemory;

impl Station {
    /// Admits a datagram of the feeder's feed at this turn, and answers the index of its event and
    /// what became of each of its messages.
    ///
    /// It is refused as malformed exactly where it isn't in the grammar, by the first fault in the
    /// order of reading.
    pub fn admit<W: Wait>(
        &self,
        rt: &W,
        by: &mut Feeder,
        datagram: &[u8],
    ) -> Result<Receipt, AdmitError>
        requires own { IsFeederOf self.now by.old }
        requires length { length datagram.now ≤ 65535 }
        ensures own { IsFeederOf self.now by.new }
        ensures feed { by.new.feed ≡ by.old.feed }
        ensures admits { IfOk result (λ r. (contents : List Content) × IsDatagram datagram.now contents × Admits self.now by.old by.new contents r) }
        ensures malformed { IfMalformed result (λ m. DatagramFault datagram.now m.offset m.cause) }

        // The other directions, unless memory is wanting.
        ensures reads { (contents : List Content) → IsDatagram datagram.now contents → AnswersWith result (λ r. Admits self.now by.old by.new contents r) }
        ensures refuses { (m : Malformed) → DatagramFault datagram.now m.offset m.cause → RefusesWith result (λ x. x ≡ m) }

        // A malformed datagram takes no turn.
        ensures untouched { IfMalformed result (λ m. by.new.turn ≡ by.old.turn) }

        ensures err { OnErr result (OnlySaw by.old.turn by.new.turn) }
    {
        let messages = read_messages(self.alloc, datagram)?;
        Ok(self.admit_messages(rt, by, &messages)?)
    }

    // Admits the messages of a datagram at this turn.
    fn admit_messages<W: Wait>(
        &self,
        rt: &W,
        by: &mut Feeder,
        messages: &Messages,
    ) -> Result<Receipt, NoMemory>
        requires own { IsFeederOf self.now by.old }
        ensures own { IsFeederOf self.now by.new }
        ensures feed { by.new.feed ≡ by.old.feed }
        ensures admits { IfOk result (λ r. AdmitsSaid self.now by.old by.new messages.now r) }
        ensures err { OnErr result (OnlySaw by.old.turn by.new.turn) }
    {
        let feed = by.feed;
        self.lock.with_turn(
            rt,
            &mut by.turn,
            |shared: &mut SharedLog| shared.admit(feed, messages),
        )
    }

    /// Takes a tick, a time in 1/128 s, at this turn, and answers the index of its event.
    ///
    /// It is refused as old exactly where it isn't above the last one, or the start.
    pub fn tick<W: Wait>(&self, rt: &W, by: &mut Conductor, time: u64) -> Result<u64, TickError>
        requires own { IsConductorOf self.now by.old }
        requires time { time < 2 ^ 40 }
        ensures own { IsConductorOf self.now by.new }
        ensures gathered { gathered_of by.new ≡ gathered_of by.old }
        ensures ticks { IfOk result (λ index. Ticks self.now by.old by.new time index) }
        ensures old { (last : ℕ) → result ≡ Err (errors.Old last) → IsOld self.now by.old by.new time last }
        ensures err { OnErr result (OnlySaw by.old.turn by.new.turn) }
        ensures found { OnErr result (AreConducted self.now by.old.turn by.new.turn.seen) }
    {
        self.lock.with_turn(rt, &mut by.turn, |shared: &mut SharedLog| shared.tick(time))
    }

    /// Copies the events since those that the conductor gathered before, at this turn. They are
    /// gathered then. After an error they aren't.
    pub fn gather<W: Wait>(&self, rt: &W, by: &mut Conductor) -> Result<Vec<Event>, NoMemory>
        requires own { IsConductorOf self.now by.old }
        ensures own { IsConductorOf self.now by.new }
        ensures gathers { IfOk result (λ events. Gathers self.now by.old by.new events.items) }
        ensures saw { OnlySaw by.old.turn by.new.turn }
        ensures found { AreConducted self.now by.old.turn by.new.turn.seen }
        ensures err { OnErr result (gathered_of by.new ≡ gathered_of by.old) }
    {
        let from = by.gathered;
        let events = self.lock.with_turn(
            rt,
            &mut by.turn,
            |shared: &mut SharedLog| shared.gather(from),
        )?;
        by.gathered = from + events.len() as u64;
        Ok(events)
    }

    /// Publishes an edition at this turn, and answers the index of its event. From then on it is the
    /// newest.
    ///
    /// It has the number after the last that was published, is told against the edition before, and
    /// shows events that the conductor gathered.
    pub fn publish<W: Wait>(
        &self,
        rt: &W,
        by: &mut Conductor,
        edition: Arc<Edition>,
    ) -> Result<u64, NoMemory>
        requires own { IsConductorOf self.now by.old }
        requires edition { MayPublish self.now by.old (arc_value edition) }
        ensures own { IsConductorOf self.now by.new }
        ensures gathered { gathered_of by.new ≡ gathered_of by.old }
        ensures publishes { IfOk result (λ index. Publishes self.now by.old by.new (arc_value edition) index) }
        ensures err { OnErr result (OnlySaw by.old.turn by.new.turn) }
        ensures found { OnErr result (AreConducted self.now by.old.turn by.new.turn.seen) }
    {
        self.lock.with_turn(
            rt,
            &mut by.turn,
            |shared: &mut SharedLog| shared.publish(edition),
        )
    }

    /// The newest edition at this turn. None exactly where none was published.
    ///
    /// Its one error is want of memory, since a second owner of an `Arc` can be refused.
    pub fn latest<W: Wait>(
        &self,
        rt: &W,
        by: &mut Subscriber,
    ) -> Result<Option<Arc<Edition>>, NoMemory>
        requires own { IsSubscriberOf self.now by.old }
        ensures own { IsSubscriberOf self.now by.new }
        ensures latest { IfOk result (λ newest. AsksLatest self.now by.old by.new (option_map arc_value newest)) }
        ensures saw { OnlySaw by.old.turn by.new.turn }
        ensures same { (by.new.reader ≡ by.old.reader) × (by.new.number ≡ by.old.number) }
    {
        self.lock
            .with_turn(rt, &mut by.turn, |shared: &mut SharedLog| shared.newest())
    }

    /// The number of the last edition that was published, by one load. It waits for nobody.
    ///
    /// It is below none that the subscriber was told before, nor below that of the last edition that
    /// it has seen.
    pub fn fresh(&self, by: &mut Subscriber) -> u64
        requires own { IsSubscriberOf self.now by.old }
        ensures own { IsSubscriberOf self.now by.new }
        ensures told { by.old.turn.told ≤ result }
        ensures seen { published_of (log_with self.now by.old.turn.seen) ≤ result }
        ensures turn { by.new.turn ≡ record by.old.turn { told = result } }
        ensures same { (by.new.reader ≡ by.old.reader) × (by.new.number ≡ by.old.number) }
    {
        self.lock.fresh(&mut by.turn)
    }
}

impl Conductor {
    /// Puts so many of the events back that it gathered last: they are gathered again. It takes no
    /// turn.
    pub fn put_back(&mut self, count: u64)
        requires { count ≤ length (gathered_of self.old) }
        ensures own { (station : Station) → IsConductorOf station self.old → IsConductorOf station self.new }
        ensures turn { self.new.turn ≡ self.old.turn }
        ensures gathered { gathered_of self.new ≡ take (length (gathered_of self.old) - count) (gathered_of self.old) }
    {
        self.gathered -= count;
    }
}

impl Subscriber {
    /// The newest edition at this turn, if its number is above that of the last edition that this
    /// call handed out. Its number is the subscriber's own from then on; after an error that stays.
    pub fn next<W: Wait>(
        &mut self,
        rt: &W,
        station: &Station,
    ) -> Result<Option<Arc<Edition>>, NoMemory>
        requires own { IsSubscriberOf station.now self.old }
        ensures own { IsSubscriberOf station.now self.new }
        ensures some { IfOk result (λ newest. IfSome newest (λ e. TakesNext station.now self.old self.new (arc_value e))) }
        ensures none { IfOk result (λ newest. IfNone newest (HasNoNext station.now self.old self.new)) }
        ensures saw { OnlySaw self.old.turn self.new.turn }
        ensures reader { self.new.reader ≡ self.old.reader }
        ensures none_same { IfOk result (λ newest. IfNone newest (self.new.number ≡ self.old.number)) }
        ensures err { OnErr result (self.new.number ≡ self.old.number) }
    {
        let number = self.number;
        let newest = station.lock.with_turn(
            rt,
            &mut self.turn,
            |shared: &mut SharedLog| shared.newer(number),
        )?;
        if let Some(edition) = &newest {
            self.number = edition.number;
        }
        Ok(newest)
    }
}
