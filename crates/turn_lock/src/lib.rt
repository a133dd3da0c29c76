//! A lock whose turns are drawn as tickets, round a value that stands for one history of events.
//!
//! `docs/CONCURRENCY.md` says in plain words what a turn does, step by step, and what is proved.
#![tactic(auto)]

mod lock;
mod lock_table;
mod logged;
mod plays;
mod rule;
#[cfg(test)]
mod tests;

pub use lock::{SEAT_LIMIT, Turn, TurnLock};
pub use logged::Logged;
