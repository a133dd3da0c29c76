//! Polar measurements of a radar, put into the plane of all radars.
#![tactic(auto)]

mod biases;
mod laws;
mod plane;
mod plots;
mod radars;
#[cfg(test)]
mod tests;
mod turns;

pub use biases::Bias;
pub use laws::{bias_order, plot_order};
pub use plane::to_plane;
pub use plots::PlanePlot;
pub use radars::RadarSettings;
pub use turns::rotate;
