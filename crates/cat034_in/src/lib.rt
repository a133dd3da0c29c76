//! Radar service messages: north markers and sector crossings, by their items (EUROCONTROL ASTERIX,
//! Part 2b, category 034).
#![tactic(auto)]

mod reader;
mod service;

pub use reader::{ReadError, read034};
pub use service::Service;

#[cfg(test)]
mod tests;
