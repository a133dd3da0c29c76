//! What a command does to its places: its script, the steps that follow one, and how its end is told.
#![tactic(auto)]

mod screen;
mod status;
mod steps;
mod telling;

pub use screen::status_line;
pub use status::{Spot, Status};
pub use steps::{open_file, read_file, write_file};
pub use telling::tell;
