// The station.
ghost use Rattle.std.specs.Prelude.{◌≡◌, ◌+◌};

use crate::shared::SharedLog;
use crate::{Conductor, Feeder, Subscriber};
use admission_log::Event;
use edition_form::Edition;
use std::alloc::Global;
use std::sync::Arc;
use turn_lock::TurnLock;

mod calls;
mod closing;
mod opening;

/// The most feeds that a station may have.
pub const FEED_LIMIT: u8 = 16;

/// The most readers that a station may have.
pub const READER_LIMIT: u8 = 16;

/// One log with its newest edition, for the threads that have its tokens. Threads share it by
/// reference.
#[derive(Drop)]
pub struct Station {
    alloc: Global,
    lock: TurnLock<SharedLog>,
    feeds: u8,
    readers: u8,
    ghost seats: { lock.seats ≡ 1 + feeds + readers },
}

/// A station with its tokens.
#[derive(Drop)]
pub struct Opened {
    /// The station, whose log has no event yet.
    pub station: Station,
    /// One for each feed, in rising number of the feed.
    pub feeders: Vec<Feeder>,
    /// The one that ticks, gathers and publishes.
    pub conductor: Conductor,
    /// One for each reader, in rising number of the reader.
    pub subscribers: Vec<Subscriber>,
}

/// What a station leaves.
#[derive(Drop)]
pub struct Closed {
    /// Where the log starts, in 1/128 s.
    pub start: u64,
    /// All events of the log.
    pub events: Vec<Event>,
    /// The edition that was published last, or None where there was none.
    pub latest: Option<Arc<Edition>>,
}
