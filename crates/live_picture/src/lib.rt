//! The live picture: what the conductor of a station gathers is folded, and published as the next
//! edition of all of it, while others feed the station and ask it.
#![tactic(auto)]

mod advancing;
mod live;
#[cfg(test)]
mod tests;

pub use live::Live;
