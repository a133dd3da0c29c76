// The log, and the calls that add to it.
ghost use Rattle.std.specs.Prelude.{◌≡◌, ◌+◌, ◌<◌, ◌≤◌, ◌^◌, ℕ, List, [], length, Err, IfErr, IfOk, OnOk, OnErr};
ghost use Rattle.trk_base.specs.Limits.{count_limit};
ghost use Rattle.asterix_frame.specs.declared.block.Malformed.{Malformed};
ghost use Rattle.asterix_frame.specs.Answers.{IfMalformed, AnswersWith, RefusesWith};
ghost use Rattle.asterix_frame.specs.Datagrams.{Content, IsDatagram, DatagramFault};
ghost use Rattle.admission_log.specs.declared.settings.Settings.{Settings};
ghost use Rattle.admission_log.specs.declared.events.Event.TheVariants as events;
ghost use Rattle.admission_log.specs.Histories.{appended, last_of, next_of, published_of, cut_of};
ghost use Rattle.admission_log.specs.Deliveries.{Delivers, DeliversOf, outcomes_in};
ghost use Rattle.admission_log.specs.Changes.{IsOpenChange, IsRefusal};
ghost use Rattle.admission_log.specs.Legality.{IsLegal};
ghost use Rattle.admission_log.specs.Summaries.{summary_of};

use crate::{
    AdmitError, BiasError, Event, LogSummary, Messages, Outcome, Receipt, Settings, TickError,
    read_messages,
};
use plot_geometry::Bias;
use std::alloc::Global;
use std::marker::Model;
use trk_base::{NoMemory, Sequence, TryCopy};

/// The one log: its events, and beside them their summary, so no call goes over the events.
#[derive(Debug, Drop)]
pub struct Log {
    alloc: Global,
    summary: LogSummary,
    events: Sequence<Event>,
}

impl Model for Log {
    ghost use Rattle.admission_log.specs.Histories.{History};

    ghost Value = { History };

    ghost use Rattle.admission_log.specs.Logs.{history, IsLog};

    ghost view = { history };

    ghost invariant = { IsLog };
}

impl Log {
    /// A log without events that starts at a time in 1/128 s. It takes no memory.
    pub fn new(alloc: Global, start: u64) -> Log
        requires { start < 2 ^ 40 }
        ensures empty { result ≡ record { start = start; events = [] } }
        ensures legal { (settings : Settings) → IsLegal settings result }
    {
        Log {
            alloc,
            summary: LogSummary::new(start),
            events: Sequence::new(alloc),
        }
    }

    /// The time in 1/128 s at which it starts.
    pub fn start(&self) -> u64
        ensures { result ≡ self.now.start }
    {
        self.summary.start()
    }

    /// Its last tick, in 1/128 s: the greatest, or the start where there is none.
    pub fn last(&self) -> u64
        ensures value { result ≡ last_of self.now }
        ensures in_time { result < 2 ^ 40 }
    {
        self.summary.last()
    }

    /// The arrival of the next plot that is admitted, which is how many were admitted.
    pub fn next(&self) -> u64
        ensures value { result ≡ next_of self.now }
        ensures few { result ≤ count_limit }
    {
        self.summary.next()
    }

    /// The number of the last edition that was published, or 0 where there is none.
    pub fn published(&self) -> u64
        ensures value { result ≡ published_of self.now }
        ensures few { result < count_limit }
    {
        self.summary.published()
    }

    /// How many events the last edition shows that was published, or 0 where there is none.
    pub fn cut(&self) -> u64
        ensures value { result ≡ cut_of self.now }
        ensures within { result ≤ length self.now.events }
    {
        self.summary.cut()
    }

    /// Its events, in order.
    pub fn events(&self) -> &[Event]
        ensures value { result.now ≡ self.now.events }
        ensures few { length result.now ≤ count_limit }
    {
        self.events.as_slice()
    }

    /// Its events, in order. It takes no memory.
    pub fn into_events(self) -> Vec<Event>
        ensures { result.items ≡ self.events }
    {
        let Log { events, .. } = self;
        events.into_vec()
    }

    /// Admits a datagram that came from a feed, and answers the index of its event and what became
    /// of each of its messages.
    ///
    /// It is refused as malformed exactly where it isn't in the grammar, by the first fault in the
    /// order of reading. After an error the log is as it was.
    pub fn admit(
        &mut self,
        settings: &Settings,
        feed: u8,
        datagram: &[u8],
    ) -> Result<Receipt, AdmitError>
        requires { length datagram.now ≤ 65535 }
        ensures index { IfOk result (λ r. r.at ≡ length self.old.events) }
        ensures delivered { IfOk result (λ r. (contents : List Content) × IsDatagram datagram.now contents × Delivers settings.now feed contents self.old self.new r.outcomes) }
        ensures malformed { IfMalformed result (λ m. DatagramFault datagram.now m.offset m.cause) }

        // The other directions, unless memory is wanting.
        ensures reads { (contents : List Content) → IsDatagram datagram.now contents → AnswersWith result (λ r. Delivers settings.now feed contents self.old self.new r.outcomes) }
        ensures refuses { (m : Malformed) → DatagramFault datagram.now m.offset m.cause → RefusesWith result (λ x. x ≡ m) }

        ensures err { OnErr result (self.new ≡ self.old) }
        ensures legal { IsLegal settings.now self.old → IsLegal settings.now self.new }

        // No index and no arrival reaches the limit.
        ensures index_limit { IfOk result (λ r. r.at < count_limit) }
        ensures arrival_limit { OnOk result (next_of self.new ≤ count_limit) }
    {
        let messages = read_messages(self.alloc, datagram)?;
        let receipt = self.admit_messages(settings, feed, &messages)?;
        Ok(receipt)
    }

    /// Admits a datagram that was read and came from a feed, and answers the index of its event and
    /// what became of each of its messages. After an error the log is as it was.
    pub fn admit_messages(
        &mut self,
        settings: &Settings,
        feed: u8,
        messages: &Messages,
    ) -> Result<Receipt, NoMemory>
        ensures index { IfOk result (λ r. r.at ≡ length self.old.events) }
        ensures delivered { IfOk result (λ r. DeliversOf settings.now feed messages.now self.old self.new r.outcomes) }
        ensures err { OnErr result (self.new ≡ self.old) }
        ensures legal { IsLegal settings.now self.old → IsLegal settings.now self.new }

        // No index and no arrival reaches the limit.
        ensures index_limit { IfOk result (λ r. r.at < count_limit) }
        ensures arrival_limit { OnOk result (next_of self.new ≤ count_limit) }
    {
        let mut summary = self.summary;
        let event = summary.admit_messages(self.alloc, settings, feed, messages)?;
        let outcomes = outcomes_of(self.alloc, &event)?;
        let at = self.keep(event, summary)?;
        Ok(Receipt { at, outcomes })
    }

    /// Takes a tick, a time in 1/128 s, and answers the index of its event.
    ///
    /// It is refused as old exactly where it isn't above the last one, or the start. After an error
    /// the log is as it was.
    pub fn tick(&mut self, time: u64) -> Result<u64, TickError>
        requires { time < 2 ^ 40 }
        ensures index { IfOk result (λ index. index ≡ length self.old.events) }
        ensures index_limit { IfOk result (λ index. index < count_limit) }
        ensures ok { OnOk result (self.new ≡ appended self.old (events.Tick time)) }
        ensures later { OnOk result (last_of self.old < time) }
        ensures old { (last : ℕ) → result ≡ Err (TickError.Old last) → (last ≡ last_of self.old) × (time ≤ last_of self.old) }
        ensures err { OnErr result (self.new ≡ self.old) }
        ensures legal { (settings : Settings) → IsLegal settings self.old → IsLegal settings self.new }
    {
        let mut summary = self.summary;
        let event = summary.tick(time)?;
        let index = self.keep(event, summary)?;
        Ok(index)
    }

    /// Takes a change of the biases of the radar of an index, which holds for the plots of a slot
    /// and of those after it, and answers the index of its event.
    ///
    /// It is refused exactly where no radar has that index, or where the slot is before the
    /// horizon. After an error the log is as it was.
    pub fn bias(
        &mut self,
        settings: &Settings,
        radar: u8,
        slot: u64,
        bias: Bias,
    ) -> Result<u64, BiasError>
        requires { slot < 2 ^ 34 }
        ensures index { IfOk result (λ index. index ≡ length self.old.events) }
        ensures index_limit { IfOk result (λ index. index < count_limit) }
        ensures ok { OnOk result (self.new ≡ appended self.old (events.Bias radar slot bias)) }
        ensures open { OnOk result (IsOpenChange settings.now (last_of self.old) radar slot) }
        ensures refusal { IfErr result (IsRefusal settings.now (last_of self.old) radar slot) }
        ensures err { OnErr result (self.new ≡ self.old) }
        ensures legal { IsLegal settings.now self.old → IsLegal settings.now self.new }
    {
        let mut summary = self.summary;
        let event = summary.bias(settings, radar, slot, bias)?;
        let index = self.keep(event, summary)?;
        Ok(index)
    }

    /// Takes an edition that was published, by its number and its cut, and answers the index of its
    /// event. After an error the log is as it was.
    pub fn publish(&mut self, number: u64, cut: u64) -> Result<u64, NoMemory>
        requires number { number ≡ published_of self.old + 1 }
        requires no_less { cut_of self.old ≤ cut }
        requires no_more { cut ≤ length self.old.events }
        ensures index { IfOk result (λ index. index ≡ length self.old.events) }
        ensures index_limit { IfOk result (λ index. index < count_limit) }
        ensures number_limit { OnOk result (number < count_limit) }
        ensures ok { OnOk result (self.new ≡ appended self.old (events.Publish number cut)) }
        ensures err { OnErr result (self.new ≡ self.old) }
        ensures legal { (settings : Settings) → IsLegal settings self.old → IsLegal settings self.new }
    {
        let mut summary = self.summary;
        let event = summary.publish(number, cut)?;
        self.keep(event, summary)
    }

    // Keeps an event and the summary after it, and answers the event's index.
    fn keep(&mut self, event: Event, summary: LogSummary) -> Result<u64, NoMemory>
        requires { summary ≡ summary_of (appended self.old event) }
        ensures index { IfOk result (λ index. index ≡ length self.old.events) }
        ensures index_limit { IfOk result (λ index. index < count_limit) }
        ensures ok { OnOk result (self.new ≡ appended self.old event) }
        ensures err { OnErr result (self.new ≡ self.old) }
    {
        let index = summary.count() - 1;
        self.events.push(event)?;
        self.summary = summary;
        Ok(index)
    }
}

// What an event tells of each message.
fn outcomes_of(alloc: Global, event: &Event) -> Result<Sequence<Outcome>, NoMemory>
    ensures { IfOk result (λ told. told ≡ outcomes_in event.now) }
{
    match event {
        Event::Deliver { outcomes, .. } => outcomes.copy(alloc),
        _ => Ok(Sequence::new(alloc)),
    }
}
