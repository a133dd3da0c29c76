//! A fold over the slots of items, kept up to date where items come late: a window keeps the state
//! after each of its slots, and folds again from the first slot that an item reopened.
#![tactic(auto)]

mod fold;
mod laws;
mod running;
#[cfg(test)]
mod tests;
mod window;

pub use fold::Fold;
pub use laws::marks_last;
pub use running::{count_slots, group_len, latest_of, run_slots};
pub use window::Window;
