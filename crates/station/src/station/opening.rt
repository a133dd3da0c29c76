// How a station is opened.
ghost use Rattle.std.specs.Prelude.{◌≡◌, ◌≤◌, ◌<◌, ◌+◌, ◌^◌, ◌++◌, ℕ, [], All, EachIndex, IfOk, IsSomeAnd, map, slice_get, vec_len, vec_capacity};
ghost use Rattle.std.specs.List.{range_with_len};
ghost use Rattle.std.specs.Arc.{arc_value};
ghost use Rattle.std.specs.Vec.Iter.{into_iter_items, into_iter_len};
ghost use Rattle.station.specs.Tokens.{settings_of, start_of, HasAddedNone, AreLeft, AreAllTokens, IsNewFeeder, IsNewConductor, IsNewSubscriber};

use super::{FEED_LIMIT, Opened, READER_LIMIT, Station};
use crate::shared::SharedLog;
use crate::{Conductor, Feeder, Subscriber};
use admission_log::Settings;
use std::alloc::Global;
use std::sync::Arc;
use std::vec::IntoIter;
use trk_base::NoMemory;
use turn_lock::{Turn, TurnLock};

impl Station {
    /// Opens a station for so many feeds and readers: its log has no event yet, and starts at a time
    /// in 1/128 s.
    ///
    /// It takes all memory that `close` needs.
    pub fn open(
        alloc: Global,
        settings: Arc<Settings>,
        start: u64,
        feeds: u8,
        readers: u8,
    ) -> Result<Opened, NoMemory>
        requires feeds { feeds ≤ FEED_LIMIT }
        requires readers { readers ≤ READER_LIMIT }
        requires start { start < 2 ^ 40 }
        ensures settings { IfOk result (λ o. settings_of o.station ≡ arc_value settings) }
        ensures start { IfOk result (λ o. start_of o.station ≡ start) }
        ensures counts { IfOk result (λ o. (o.station.feeds ≡ feeds) × (o.station.readers ≡ readers)) }
        ensures feeders { IfOk result (λ o. (vec_len o.feeders ≡ feeds) × EachIndex o.feeders.items (λ n. IsSomeAnd (slice_get o.feeders.items n) (IsNewFeeder o.station n))) }
        ensures conductor { IfOk result (λ o. IsNewConductor o.station o.conductor) }
        ensures subscribers { IfOk result (λ o. (vec_len o.subscribers ≡ readers) × EachIndex o.subscribers.items (λ n. IsSomeAnd (slice_get o.subscribers.items n) (IsNewSubscriber o.station n))) }
        ensures all { IfOk result (λ o. AreAllTokens o.station o.feeders.items o.conductor o.subscribers.items) }
    {
        let seats = 1 + u32::from(feeds) + u32::from(readers);
        let room = Vec::with_capacity(alloc, seats as usize)?;
        let mut feeders = Vec::with_capacity(alloc, feeds as usize)?;
        let mut subscribers = Vec::with_capacity(alloc, readers as usize)?;
        let (lock, turns) = TurnLock::new(alloc, SharedLog::new(alloc, settings, start), seats)?;
        let mut turns = turns.into_iter();
        let Some(turn) = turns.next() else {
            unreachable!()
        };
        let conductor = Conductor {
            turn,
            gathered: 0,
            room,
        };
        deal_feeders(&mut turns, feeds, &mut feeders);
        deal_subscribers(&mut turns, readers, &mut subscribers);
        let station = Station {
            alloc,
            lock,
            feeds,
            readers,
        };
        Ok(Opened {
            station,
            feeders,
            conductor,
            subscribers,
        })
    }
}

// A feeder for each feed, in rising number, who has the next turn.
fn deal_feeders(turns: &mut IntoIter<Turn<SharedLog>>, feeds: u8, feeders: &mut Vec<Feeder>)
    requires room { (feeders.old.items ≡ []) × (feeds ≤ vec_capacity feeders.old) }
    requires enough { AreLeft feeds (into_iter_len turns.old) (into_iter_items turns.old) }
    requires newcomers { All HasAddedNone (into_iter_items turns.old) }
    ensures turns { map (λ x. x.turn) feeders.new.items ++ into_iter_items turns.new ≡ into_iter_items turns.old }
    ensures count { vec_len feeders.new ≡ feeds }
    ensures feeds { map (λ x. x.feed) feeders.new.items ≡ range_with_len 0 feeds }
    ensures left { (n : ℕ) → AreLeft (feeds + n) (into_iter_len turns.old) (into_iter_items turns.old) → AreLeft n (into_iter_len turns.new) (into_iter_items turns.new) }
{
    for feed in 0..feeds {
        let Some(turn) = turns.next() else {
            unreachable!()
        };
        feeders.push_reserved(Feeder { turn, feed });
    }
}

// A subscriber for each reader, in rising number, who has the next turn.
fn deal_subscribers(
    turns: &mut IntoIter<Turn<SharedLog>>,
    readers: u8,
    subscribers: &mut Vec<Subscriber>,
)
    requires room { (subscribers.old.items ≡ []) × (readers ≤ vec_capacity subscribers.old) }
    requires enough { AreLeft readers (into_iter_len turns.old) (into_iter_items turns.old) }
    requires newcomers { All HasAddedNone (into_iter_items turns.old) }
    ensures turns { map (λ x. x.turn) subscribers.new.items ++ into_iter_items turns.new ≡ into_iter_items turns.old }
    ensures count { vec_len subscribers.new ≡ readers }
    ensures readers { map (λ x. x.reader) subscribers.new.items ≡ range_with_len 0 readers }
    ensures numbers { All (λ x. x.number ≡ 0) subscribers.new.items }
{
    for reader in 0..readers {
        let Some(turn) = turns.next() else {
            unreachable!()
        };
        subscribers.push_reserved(Subscriber {
            turn,
            reader,
            number: 0,
        });
    }
}
