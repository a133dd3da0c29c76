//! The life of tracks: how they begin with a plot and go on with others, after how many of them
//! one is confirmed, and how long one is kept without another.
//!
//! The terms are those of Bar-Shalom, Li and Kirubarajan, "Estimation with Applications to
//! Tracking and Navigation" (2001): a track is tentative until it is confirmed.
#![tactic(auto)]

mod held_numbers;
mod laws;
mod numbers;
mod settings;
mod tables;
#[cfg(test)]
mod tests;
mod tracks;

pub use laws::{numbers_alone, numbers_differ, numbers_left};
pub use settings::LifeSettings;
pub use tables::{Table, assign_numbers, expire};
pub use tracks::Track;
