//! Target reports of a monoradar: ASTERIX category 048 (EUROCONTROL ASTERIX, Part 4).
#![tactic(auto)]

mod reader;
mod report;
#[cfg(test)]
mod tests;
mod values;

pub use reader::{ReadError, read048};
pub use report::{NotPlot, Report};
