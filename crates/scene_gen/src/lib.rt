//! Scenes: recordings of aircraft that fly on, drawn from a seed, and of three radars that see
//! them.
#![tactic(auto)]

mod bearings;
mod buckets;
mod datagrams;
mod delays;
mod draws;
mod fleet;
mod laws;
mod radars;
mod scenes;
mod sightings;
mod sky;
mod sweeps;
#[cfg(test)]
mod tests;

pub use laws::{all_come, one_list_of_radars, one_recording};
pub use radars::{RADARS, SceneRadar};
pub use scenes::scene;
