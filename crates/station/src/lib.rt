//! The station: one log with its newest edition, for the threads that feed, conduct and subscribe.
//!
//! Each token takes turns at the log. A feeder admits datagrams, the conductor takes ticks, gathers
//! events and publishes editions, a subscriber asks for the newest edition. All turns have one legal
//! history, which `Station::close` gives back. `docs/CONCURRENCY.md` says in plain words what each
//! turn does and what each token knows.
#![tactic(auto)]

mod shared;
mod station;
#[cfg(test)]
mod tests;
mod tokens;

pub use shared::Base;
pub use station::{Closed, FEED_LIMIT, Opened, READER_LIMIT, Station};
pub use tokens::{Conductor, Feeder, Subscriber};
