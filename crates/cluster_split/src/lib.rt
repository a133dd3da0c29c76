//! The connected parts of a gate graph: plots of one batch that share tracks, one with the next.
//!
//! Each part can be paired by itself, since no track has an edge to two of them.
#![tactic(auto)]

mod grouping;
mod leasts;
mod splitting;

pub use splitting::{Component, components, one_splitting};
