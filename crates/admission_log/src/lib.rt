//! What is admitted: the settings by which plots are judged, and the one log of datagrams, ticks,
//! editions and changes of biases.
#![tactic(auto)]

mod delivery;
mod entries;
mod events;
mod judging;
mod laws;
mod log;
mod messages;
mod plots;
mod settings;
mod summary;
#[cfg(test)]
mod tests;

pub use delivery::{deliver, judge_messages};
pub use entries::Entry;
pub use events::{AdmitError, Admitted, BiasError, Event, Outcome, Receipt, TickError};
pub use judging::{AHEAD_LIMIT, judge, judge_bias};
pub use laws::{
    admitted_plots, arrivals_count, entry_order, keys_rise, legal_prefixes, one_bias, one_delivery,
    one_rising_order, own_keys,
};
pub use log::Log;
pub use messages::{Messages, read_messages};
pub use plots::plots_of;
pub use settings::{RADAR_LIMIT, Settings, radar_of};
pub use summary::LogSummary;
