// What decides which events a log takes next: its summary, which goes on without the events before.
ghost use Rattle.std.specs.Prelude.{◌≡◌, ◌+◌, ◌<◌, ◌≤◌, ◌^◌, ℕ, List, [], length, Err, IfErr, IfOk, OnOk, OnErr};
ghost use Rattle.trk_base.specs.Limits.{count_limit};
ghost use Rattle.asterix_frame.specs.declared.block.Malformed.{Malformed};
ghost use Rattle.asterix_frame.specs.Answers.{IfMalformed, AnswersWith, RefusesWith};
ghost use Rattle.asterix_frame.specs.Datagrams.{Content, IsDatagram, DatagramFault};
ghost use Rattle.admission_log.specs.declared.settings.Settings as Given;
ghost use Rattle.admission_log.specs.declared.events.Event.TheVariants as events;
ghost use Rattle.admission_log.specs.Histories.{History, appended};
ghost use Rattle.admission_log.specs.Deliveries.{IsDelivery, IsDeliveryOf};
ghost use Rattle.admission_log.specs.Changes.{IsOpenChange, IsRefusal};
ghost use Rattle.admission_log.specs.Legality.{IsLegal};
ghost use Rattle.admission_log.specs.Summaries.{summary_of};

use crate::{
    AdmitError, BiasError, Event, Messages, Settings, TickError, judge_bias, judge_messages,
    read_messages,
};
use plot_geometry::Bias;
use std::alloc::Global;
use std::marker::Model;
use trk_base::{COUNT_LIMIT, NoMemory};

/// The summary of a log, without its events: where it starts, its last tick, the next arrival, its
/// last edition with its cut, and how many events it has.
///
/// Its calls take what the log's own take, and hand each event to the caller, who keeps it or not.
/// After an error the summary is as it was.
#[derive(Clone, Copy, Debug)]
pub struct LogSummary {
    start: u64,
    last: u64,
    next: u64,
    published: u64,
    cut: u64,
    count: u64,
}

impl Model for LogSummary {
    ghost use Rattle.admission_log.specs.Summaries.{Summary, IsWithinLimits};

    ghost Value = { Summary };

    ghost view = { λ s. record { start = s.start; last = s.last; next = s.next; published = s.published; cut = s.cut; count = s.count } };

    ghost invariant = { λ s. IsWithinLimits (record { start = s.start; last = s.last; next = s.next; published = s.published; cut = s.cut; count = s.count }) };

    ghost inverse = { λ s. record { start = s.start; last = s.last; next = s.next; published = s.published; cut = s.cut; count = s.count } };
}

impl LogSummary {
    /// That of a log without events that starts at a time in 1/128 s. It takes no memory.
    pub fn new(start: u64) -> LogSummary
        requires { start < 2 ^ 40 }
        ensures empty { result ≡ summary_of (record { start = start; events = [] }) }
        ensures legal { (settings : Given.Settings) → IsLegal settings (record { start = start; events = [] }) }
    {
        LogSummary {
            start,
            last: start,
            next: 0,
            published: 0,
            cut: 0,
            count: 0,
        }
    }

    /// The time in 1/128 s at which the log starts.
    pub fn start(&self) -> u64
        ensures { result ≡ self.now.start }
    {
        self.start
    }

    /// The last tick, in 1/128 s: the greatest, or the start where there is none.
    pub fn last(&self) -> u64
        ensures value { result ≡ self.now.last }
        ensures in_time { result < 2 ^ 40 }
    {
        self.last
    }

    /// The arrival of the next plot that is admitted, which is how many were admitted.
    pub fn next(&self) -> u64
        ensures value { result ≡ self.now.next }
        ensures few { result ≤ count_limit }
    {
        self.next
    }

    /// The number of the last edition that was published, or 0 where there is none.
    pub fn published(&self) -> u64
        ensures value { result ≡ self.now.published }
        ensures few { result < count_limit }
    {
        self.published
    }

    /// How many events the last edition shows that was published, or 0 where there is none.
    pub fn cut(&self) -> u64
        ensures value { result ≡ self.now.cut }
        ensures within { result ≤ self.now.count }
    {
        self.cut
    }

    /// How many events the log has, which is the index of the next one.
    pub fn count(&self) -> u64
        ensures value { result ≡ self.now.count }
        ensures few { result ≤ count_limit }
    {
        self.count
    }

    /// Admits a datagram that came from a feed, and answers its event.
    ///
    /// It is refused as malformed exactly where it isn't in the grammar, by the first fault in the
    /// order of reading.
    pub fn admit(
        &mut self,
        alloc: Global,
        settings: &Settings,
        feed: u8,
        datagram: &[u8],
    ) -> Result<Event, AdmitError>
        requires { length datagram.now ≤ 65535 }
        ensures delivered { IfOk result (λ e. (contents : List Content) × IsDatagram datagram.now contents × IsDelivery settings.now self.old.last self.old.next feed contents e) }
        ensures malformed { IfMalformed result (λ m. DatagramFault datagram.now m.offset m.cause) }

        // The other directions, unless memory is wanting.
        ensures reads { (contents : List Content) → IsDatagram datagram.now contents → AnswersWith result (λ e. IsDelivery settings.now self.old.last self.old.next feed contents e) }
        ensures refuses { (m : Malformed) → DatagramFault datagram.now m.offset m.cause → RefusesWith result (λ x. x ≡ m) }

        ensures ok { (log : History) → self.old ≡ summary_of log → IfOk result (λ e. self.new ≡ summary_of (appended log e)) }
        ensures err { OnErr result (self.new ≡ self.old) }
        ensures legal { (log : History) → self.old ≡ summary_of log → IsLegal settings.now log → IfOk result (λ e. IsLegal settings.now (appended log e)) }
        ensures index_limit { OnOk result (self.old.count < count_limit) }
        ensures arrival_limit { OnOk result (self.new.next ≤ count_limit) }
    {
        let messages = read_messages(alloc, datagram)?;
        let event = self.admit_messages(alloc, settings, feed, &messages)?;
        Ok(event)
    }

    /// Admits a datagram that was read and came from a feed, and answers its event.
    pub fn admit_messages(
        &mut self,
        alloc: Global,
        settings: &Settings,
        feed: u8,
        messages: &Messages,
    ) -> Result<Event, NoMemory>
        ensures delivered { IfOk result (λ e. IsDeliveryOf settings.now self.old.last self.old.next feed messages.now e) }
        ensures ok { (log : History) → self.old ≡ summary_of log → IfOk result (λ e. self.new ≡ summary_of (appended log e)) }
        ensures err { OnErr result (self.new ≡ self.old) }
        ensures legal { (log : History) → self.old ≡ summary_of log → IsLegal settings.now log → IfOk result (λ e. IsLegal settings.now (appended log e)) }
        ensures index_limit { OnOk result (self.old.count < count_limit) }
        ensures arrival_limit { OnOk result (self.new.next ≤ count_limit) }
    {
        let count = self.next_count()?;
        let event = judge_messages(alloc, settings, self.last, self.next, feed, messages)?;
        self.next += event.plots();
        self.count = count;
        Ok(event)
    }

    /// Takes a tick, a time in 1/128 s, and answers its event.
    ///
    /// It is refused as old exactly where it isn't above the last one, or the start.
    pub fn tick(&mut self, time: u64) -> Result<Event, TickError>
        requires { time < 2 ^ 40 }
        ensures event { IfOk result (λ e. e ≡ events.Tick time) }
        ensures later { OnOk result (self.old.last < time) }
        ensures old { (last : ℕ) → result ≡ Err (TickError.Old last) → (last ≡ self.old.last) × (time ≤ self.old.last) }
        ensures ok { (log : History) → self.old ≡ summary_of log → OnOk result (self.new ≡ summary_of (appended log (events.Tick time))) }
        ensures err { OnErr result (self.new ≡ self.old) }
        ensures legal { (settings : Given.Settings) (log : History) → self.old ≡ summary_of log → IsLegal settings log → OnOk result (IsLegal settings (appended log (events.Tick time))) }
        ensures index_limit { OnOk result (self.old.count < count_limit) }
    {
        if time <= self.last {
            return Err(TickError::Old { last: self.last });
        }
        let count = self.next_count()?;
        self.last = time;
        self.count = count;
        Ok(Event::Tick(time))
    }

    /// Takes a change of the biases of the radar of an index, which holds for the plots of a slot
    /// and of those after it, and answers its event.
    ///
    /// It is refused exactly where no radar has that index, or where the slot is before the
    /// horizon.
    pub fn bias(
        &mut self,
        settings: &Settings,
        radar: u8,
        slot: u64,
        bias: Bias,
    ) -> Result<Event, BiasError>
        requires { slot < 2 ^ 34 }
        ensures event { IfOk result (λ e. e ≡ events.Bias radar slot bias) }
        ensures open { OnOk result (IsOpenChange settings.now self.old.last radar slot) }
        ensures refusal { IfErr result (IsRefusal settings.now self.old.last radar slot) }
        ensures ok { (log : History) → self.old ≡ summary_of log → OnOk result (self.new ≡ summary_of (appended log (events.Bias radar slot bias))) }
        ensures err { OnErr result (self.new ≡ self.old) }
        ensures legal { (log : History) → self.old ≡ summary_of log → IsLegal settings.now log → OnOk result (IsLegal settings.now (appended log (events.Bias radar slot bias))) }
        ensures index_limit { OnOk result (self.old.count < count_limit) }
    {
        judge_bias(settings, self.last, radar, slot)?;
        let count = self.next_count()?;
        self.count = count;
        Ok(Event::Bias { radar, slot, bias })
    }

    /// Takes an edition that was published, by its number and its cut, and answers its event.
    pub fn publish(&mut self, number: u64, cut: u64) -> Result<Event, NoMemory>
        requires number { number ≡ self.old.published + 1 }
        requires no_less { self.old.cut ≤ cut }
        requires no_more { cut ≤ self.old.count }
        ensures event { IfOk result (λ e. e ≡ events.Publish number cut) }
        ensures ok { (log : History) → self.old ≡ summary_of log → OnOk result (self.new ≡ summary_of (appended log (events.Publish number cut))) }
        ensures err { OnErr result (self.new ≡ self.old) }
        ensures legal { (settings : Given.Settings) (log : History) → self.old ≡ summary_of log → IsLegal settings log → OnOk result (IsLegal settings (appended log (events.Publish number cut))) }
        ensures index_limit { OnOk result (self.old.count < count_limit) }
        ensures number_limit { OnOk result (number < count_limit) }
    {
        if number >= COUNT_LIMIT {
            return Err(NoMemory);
        }
        let count = self.next_count()?;
        self.published = number;
        self.cut = cut;
        self.count = count;
        Ok(Event::Publish { number, cut })
    }

    // How many events there are with one more.
    fn next_count(&self) -> Result<u64, NoMemory>
        ensures value { IfOk result (λ n. n ≡ self.now.count + 1) }
        ensures limit { OnOk result (self.now.count < count_limit) }
    {
        if self.count >= COUNT_LIMIT {
            return Err(NoMemory);
        }
        Ok(self.count + 1)
    }
}

impl Event {
    ghost use Rattle.admission_log.specs.Histories.{admitted_in};

    // How many plots it admits.
    fn plots(&self) -> u64
        ensures { result ≡ length (admitted_in self.now) }
    {
        match self {
            Event::Deliver { admitted, .. } => admitted.len() as u64,
            _ => 0,
        }
    }
}
