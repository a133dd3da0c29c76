// How a station is closed.
ghost use Rattle.std.specs.Prelude.{◌≡◌, ◌≤◌, ◌+◌, ◌++◌, ℕ, All, Any, true, map, vec_len, vec_capacity};
ghost use Rattle.std.specs.Option.{option_map};
ghost use Rattle.std.specs.Arc.{arc_value};
ghost use Rattle.turn_lock.specs.Lists.{Begins, is_member};
ghost use Rattle.admission_log.specs.Histories.{published_of};
ghost use Rattle.admission_log.specs.Legality.{IsLegal};
ghost use Rattle.station.specs.Newest.{IsNewest};
ghost use Rattle.station.specs.Added.{AllAt, stands_at, is_of_feed, is_of_conductor};
ghost use Rattle.station.specs.Tokens.{settings_of, start_of, log_with, AreAllTokens};

use super::{Closed, Station};
use crate::shared::SharedLog;
use crate::{Conductor, Feeder, Subscriber};
use turn_lock::Turn;

impl Station {
    /// Ends all turns, and gives the log and the newest edition back, for all tokens in any order.
    ///
    /// The log is legal, and begins with all that each token has seen. The datagrams of a feed stand
    /// at exactly the indices of its feeder, ticks and editions at exactly those of the conductor.
    /// It takes no memory.
    pub fn close(
        self,
        feeders: Vec<Feeder>,
        conductor: Conductor,
        subscribers: Vec<Subscriber>,
    ) -> Closed
        requires tokens { AreAllTokens self feeders.items conductor subscribers.items }
        ensures start { result.start ≡ start_of self }
        ensures legal { IsLegal (settings_of self) (log_with self result.events.items) }
        ensures latest { IsNewest (settings_of self) (log_with self result.events.items) (option_map arc_value result.latest) }
        ensures feeders_begin { All (λ x. Begins x.turn.seen result.events.items) feeders.items }
        ensures conductor_begins { Begins conductor.turn.seen result.events.items }
        ensures subscribers_begin { All (λ x. Begins x.turn.seen result.events.items) subscribers.items }
        ensures fed { All (λ x. AllAt (is_of_feed x.feed) x.turn.mine result.events.items) feeders.items }
        ensures fed_all { (feed p : ℕ) → stands_at (is_of_feed feed) p result.events.items ≡ true → Any (λ x. (x.feed ≡ feed) × (is_member p x.turn.mine ≡ true)) feeders.items }
        ensures conducted { AllAt is_of_conductor conductor.turn.mine result.events.items }
        ensures conducted_all { (p : ℕ) → stands_at is_of_conductor p result.events.items ≡ true → is_member p conductor.turn.mine ≡ true }
        ensures told { All (λ x. x.turn.told ≤ published_of (log_with self result.events.items)) subscribers.items }
    {
        let Station { lock, .. } = self;
        let Conductor { turn, mut room, .. } = conductor;
        room.push_reserved(turn);
        take_feeders(feeders, &mut room);
        take_subscribers(subscribers, &mut room);
        let (start, events, latest) = lock.close(room).into_parts();
        Closed {
            start,
            events,
            latest,
        }
    }
}

// Puts the feeders' turns behind others, for which there is room.
fn take_feeders(feeders: Vec<Feeder>, turns: &mut Vec<Turn<SharedLog>>)
    requires { vec_len turns.old + vec_len feeders ≤ vec_capacity turns.old }
    ensures turns { turns.new.items ≡ turns.old.items ++ map (λ x. x.turn) feeders.items }
    ensures room { vec_capacity turns.new ≡ vec_capacity turns.old }
{
    for feeder in feeders {
        let Feeder { turn, .. } = feeder;
        turns.push_reserved(turn);
    }
}

// .. the subscribers' turns.
fn take_subscribers(subscribers: Vec<Subscriber>, turns: &mut Vec<Turn<SharedLog>>)
    requires { vec_len turns.old + vec_len subscribers ≤ vec_capacity turns.old }
    ensures turns { turns.new.items ≡ turns.old.items ++ map (λ x. x.turn) subscribers.items }
{
    for subscriber in subscribers {
        let Subscriber { turn, .. } = subscriber;
        turns.push_reserved(turn);
    }
}
