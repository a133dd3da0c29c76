//! A span of slots in parts, each of which is folded by itself: where no two parts cross, their
//! runs merged slot by slot are the fold of the whole.
#![tactic(auto)]

mod crossing;
mod jobs;
mod joining;
mod laws;
mod parting;
mod separable;
mod walking;

pub use crossing::crossings;
pub use jobs::{Done, Job};
pub use joining::join_parts;
pub use laws::{few_slots, joined_parts, merged_parts, numbered_parts, splitting_parts};
pub use parting::partition;
pub use separable::Separable;
