// The history that the log with its newest edition stands for.
use super::{Base, SharedLog};
use admission_log::Event;
use turn_lock::Logged;

impl Logged for SharedLog {
    ghost use Rattle.station.specs.Newest.{is_publication};
    ghost use Rattle.station.specs.Shared.{base_of, events_of};

    type Event = Event;

    type Base = Base;

    ghost events = { events_of };

    ghost is_publish = { is_publication };

    ghost base = { base_of };

    fn count(&self) -> u64 {
        self.log.events().len() as u64
    }

    fn published(&self) -> u64 {
        self.log.published()
    }
}
