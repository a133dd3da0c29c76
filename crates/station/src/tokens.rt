// The tokens of a station.
ghost use Rattle.std.specs.Prelude.{◌≡◌, ◌≤◌, [], length};
ghost use Rattle.station.specs.Added.{AllAt, is_of_feed, is_of_conductor};

use crate::shared::SharedLog;
use turn_lock::Turn;

/// Admits the datagrams of one feed.
#[derive(Drop)]
pub struct Feeder {
    pub(crate) turn: Turn<SharedLog>,
    pub(crate) feed: u8,
    ghost made: { AllAt (is_of_feed feed) turn.mine turn.seen },
}

/// Takes the ticks, gathers the events and publishes editions. A station has one.
#[derive(Drop)]
pub struct Conductor {
    pub(crate) turn: Turn<SharedLog>,
    // How many events it has gathered.
    pub(crate) gathered: u64,
    // Room for the turns of all tokens, which it brings to the close. The station has no turns, since
    // threads share it, and a turn is moved and never shared.
    pub(crate) room: Vec<Turn<SharedLog>>,
    ghost made: { AllAt is_of_conductor turn.mine turn.seen },
    ghost within: { gathered ≤ length turn.seen },
}

/// Asks for the newest edition.
#[derive(Drop)]
pub struct Subscriber {
    pub(crate) turn: Turn<SharedLog>,
    // Its number among the subscribers.
    pub(crate) reader: u8,
    // The number of the last edition that `next` handed it, at first 0.
    pub(crate) number: u64,
    ghost made: { turn.mine ≡ [] },
}
