//! Which plot may belong to which track, and how well it fits.
#![tactic(auto)]

mod coarse;
mod gates;
mod laws;

pub use coarse::CoarseGate;
pub use gates::{REACH, cost_of, gate, gate_mixed, is_another};
pub use laws::one_reach;
