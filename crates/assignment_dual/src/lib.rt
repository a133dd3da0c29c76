//! The least pairing of a batch's plots with tracks, and prices that prove it least.
//!
//! A pairing costs the gate of each plot that gets a track, and 4,097 for each that gets none.
//! The least pairing is an optimum of the assignment problem. It is found by the Hungarian method
//! (Kuhn, "The Hungarian method for the assignment problem", 1955; Munkres 1957) on an alternating
//! tree of tight edges that is grown vertex by vertex: each vertex in turn is matched along an
//! augmenting path, and where there is none yet, the dual prices rise until another edge is tight.
//! One plot, as nearly every component has, is solved in closed form.
//!
//! Plots and tracks are vertices alike: each pays 4,097 by itself, or shares with a mate the cost
//! of their edge and 4,097. So prices have no sign until they are read, a track that stays free
//! needs no rule of its own, and one step adds a plot or a track. The choice among pairings of
//! equal cost needs both: it takes them out one by one.
#![tactic(auto)]

mod augmenting;
mod build;
mod costs;
mod fix;
mod graph;
mod laws;
mod prices;
mod raise;
mod search;
mod single;
mod solving;
#[cfg(test)]
mod tests;
mod tie;

pub use costs::{Costs, Solved};
pub use laws::{
    alike_batches, disjoint_sets, least_of_part, least_of_set, many_parts, one_least_pairing,
    part_of_batch, proven_least, renumbered_tracks,
};
pub use solving::solve;
