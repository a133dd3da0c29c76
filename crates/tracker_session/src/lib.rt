//! The top calls: a command from its words to what its places get.
#![tactic(auto)]

mod batch;
mod commands;
mod counts;
mod editions;
mod input;
mod laws;
mod scene_settings;
mod taking;
mod totals;
mod words;

pub use batch::run_batch;
pub use laws::{
    exercise_as_replayed, malformed_datagrams, one_check, one_end, one_input, one_replay,
    prefix_of_replay,
};
pub use session_script::{Spot, Status};
pub use words::{Command, WordsError, parse_words};

#[cfg(test)]
mod tests;
