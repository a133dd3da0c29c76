//! The tracker's run over a span of plots, in parts: tracks and plots that don't gate each other are
//! folded by themselves, without numbers, and then merged slot by slot. Numbers are given once all
//! is merged.
#![tactic(auto)]

mod choosing;
mod fold;
mod laws;
mod numbering;
mod parts;
mod splitting;
#[cfg(test)]
mod tests;
mod tracks;
mod weaving;

pub use fold::PlotFold;
pub use laws::numbered_certificates;
pub use numbering::numbered_tables;
pub use tracks::Tracks;
