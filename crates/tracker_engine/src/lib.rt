//! The engine: from the events of a log to its editions.
//!
//! It keeps no events. Of the admitted plots and the changes of biases it keeps those that may still
//! be followed by a late one, in a window, and before them one state of the tracks.
#![tactic(auto)]

mod absorbing;
mod engine;
mod settling;
mod showing;
#[cfg(test)]
mod tests;

pub use engine::Engine;
