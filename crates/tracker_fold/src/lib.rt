//! The tracker as a fold over the entries of a log: the state that a window keeps, and its step.
//!
//! A state has the tracks and the radars with the biases that hold by then. An entry is a change of
//! a radar's biases or an admitted plot, so a window of this fold takes both late.
#![tactic(auto)]

mod keys;
mod laws;
mod priced;
mod spans;
mod state;
mod step;
#[cfg(test)]
mod tests;

pub use keys::EntryKey;
pub use laws::{folded_log, folded_radars, folded_span};
pub use priced::PricedCerts;
pub use spans::{span_outs, span_plots, span_states};
pub use state::TrackerState;
pub use step::{TrackerFold, radars_after};
