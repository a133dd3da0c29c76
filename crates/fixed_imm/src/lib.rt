//! The filter of one axis: an interacting multiple model estimator with two models of a constant
//! velocity, in whole numbers.
//!
//! The form is that of Bar-Shalom, Li and Kirubarajan, "Estimation with Applications to Tracking
//! and Navigation" (2001), 11.6.6. The constants, the bounds and the roundings are this project's
//! own. Positions are in 1/64 m, velocities in 1/1024 m/s, times in 1/128 s. No call takes memory.
#![tactic(auto)]

mod aim;
mod axis;
mod correcting;
mod dividing;
mod mixed;
mod mixing;
mod modes;
mod motion;
mod predicting;
mod rounding;
mod steps;
mod weighing;

pub use aim::{Aim, MixedAim};
pub use axis::Axis;
pub use mixed::MixedAxis;
pub use motion::Motion;
pub use steps::{GREATEST_TIME_STEP, LEAST_TIME_STEP, one_time_step, time_step};
