// What each turn does to the log and its newest edition.
ghost use Rattle.std.specs.Prelude.{◌≡◌, ◌<◌, ◌≤◌, ◌+◌, ◌^◌, ℕ, List, [], drop, length, Option, None, Err, IfOk, IfNone, IfSome, OnOk, OnErr};
ghost use Rattle.std.specs.Option.{option_map};
ghost use Rattle.std.specs.Arc.{arc_value};
ghost use Rattle.trk_base.specs.Limits.{count_limit};
ghost use Rattle.admission_log.specs.declared.events.Event.TheVariants as events;
ghost use Rattle.admission_log.specs.declared.events.TickError.TheVariants as errors;
ghost use Rattle.admission_log.specs.Histories.{appended, first, last_of, publications_of, published_of, cut_of};
ghost use Rattle.admission_log.specs.Deliveries.{DeliversOf};
ghost use Rattle.admission_log.specs.Legality.{IsLegal};
ghost use Rattle.edition_form.specs.Editions.{IsEdition};
ghost use Rattle.station.specs.Newest.{IsNewest, last_cut};
ghost use Rattle.station.specs.Shared.{base_of, events_of};

use super::SharedLog;
use admission_log::{Event, Log, Messages, Receipt, Settings, TickError};
use edition_form::Edition;
use std::alloc::Global;
use std::sync::Arc;
use trk_base::{NoMemory, TryCopy};

impl SharedLog {
    // The log without events that starts at a time in 1/128 s.
    pub(crate) fn new(alloc: Global, settings: Arc<Settings>, start: u64) -> SharedLog
        requires { start < 2 ^ 40 }
        ensures base { base_of result ≡ record { settings = arc_value settings; start = start } }
        ensures empty { events_of result ≡ [] }
    {
        SharedLog {
            alloc,
            settings,
            log: Log::new(alloc, start),
            newest: None,
        }
    }

    // Admits the messages of a datagram of a feed.
    pub(crate) fn admit(&mut self, feed: u8, messages: &Messages) -> Result<Receipt, NoMemory>
        ensures base { base_of self.new ≡ base_of self.old }
        ensures legal { IsLegal self.old.settings self.old.log }
        ensures index { IfOk result (λ r. r.at ≡ length (events_of self.old)) }
        ensures delivered { IfOk result (λ r. DeliversOf self.old.settings feed messages.now self.old.log self.new.log r.outcomes) }
        ensures err { OnErr result (self.new.log ≡ self.old.log) }
    {
        self.log.admit_messages(&self.settings, feed, messages)
    }

    // Takes a tick.
    pub(crate) fn tick(&mut self, time: u64) -> Result<u64, TickError>
        requires { time < 2 ^ 40 }
        ensures base { base_of self.new ≡ base_of self.old }
        ensures legal { IsLegal self.old.settings self.old.log }
        ensures index { IfOk result (λ index. index ≡ length (events_of self.old)) }
        ensures ok { OnOk result (self.new.log ≡ appended self.old.log (events.Tick time)) }
        ensures later { OnOk result (last_of self.old.log < time) }
        ensures old { (last : ℕ) → result ≡ Err (errors.Old last) → (last ≡ last_of self.old.log) × (time ≤ last_of self.old.log) }
        ensures err { OnErr result (self.new.log ≡ self.old.log) }
    {
        self.log.tick(time)
    }

    // Copies the events from an index on.
    pub(crate) fn gather(&self, from: u64) -> Result<Vec<Event>, NoMemory>
        requires { from ≤ length (events_of self.now) }
        ensures legal { IsLegal self.now.settings self.now.log }
        ensures few { length (events_of self.now) ≤ count_limit }
        ensures events { IfOk result (λ v. v.items ≡ drop from (events_of self.now)) }
    {
        Event::copy_all(self.alloc, &self.log.events()[from as usize..])
    }

    // Publishes an edition.
    pub(crate) fn publish(&mut self, edition: Arc<Edition>) -> Result<u64, NoMemory>
        requires no_less { cut_of self.old.log ≤ (arc_value edition).cut }
        requires no_more { (arc_value edition).cut ≤ length (events_of self.old) }
        requires edition { IsEdition self.old.settings (first (arc_value edition).cut self.old.log) (last_cut (publications_of self.old.log)) (published_of self.old.log + 1) (arc_value edition) }
        ensures base { base_of self.new ≡ base_of self.old }
        ensures legal { IsLegal self.old.settings self.old.log }
        ensures index { IfOk result (λ index. index ≡ length (events_of self.old)) }
        ensures ok { OnOk result (self.new.log ≡ appended self.old.log (events.Publish (arc_value edition).number (arc_value edition).cut)) }
        ensures err { OnErr result (self.new.log ≡ self.old.log) }
    {
        let index = self.log.publish(edition.number, edition.cut)?;
        self.newest = Some(edition);
        Ok(index)
    }

    // Another owner of the newest edition, if there is one.
    pub(crate) fn newest(&self) -> Result<Option<Arc<Edition>>, NoMemory>
        ensures legal { IsLegal self.now.settings self.now.log }
        ensures newest { IfOk result (λ r. IsNewest self.now.settings self.now.log (option_map arc_value r)) }
    {
        match &self.newest {
            Some(edition) => Ok(Some(Arc::try_clone(edition)?)),
            None => Ok(None),
        }
    }

    // .. if its number is above this one.
    pub(crate) fn newer(&self, number: u64) -> Result<Option<Arc<Edition>>, NoMemory>
        ensures legal { IsLegal self.now.settings self.now.log }
        ensures none { IfOk result (λ r. IfNone r (published_of self.now.log ≤ number)) }
        ensures some { IfOk result (λ r. IfSome r (λ e. (number < published_of self.now.log) × IsNewest self.now.settings self.now.log (option_map arc_value r))) }
    {
        if self.log.published() <= number {
            return Ok(None);
        }
        self.newest()
    }

    // The log's start, its events and the newest edition.
    pub(crate) fn into_parts(self) -> (u64, Vec<Event>, Option<Arc<Edition>>)
        ensures start { result.0 ≡ self.log.start }
        ensures events { result.1.items ≡ events_of self }
        ensures newest { option_map arc_value result.2 ≡ self.newest }
        ensures stands { IsLegal self.settings self.log × IsNewest self.settings self.log self.newest }
    {
        let SharedLog { log, newest, .. } = self;
        (log.start(), log.into_events(), newest)
    }
}
