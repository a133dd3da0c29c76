//! Editions: what is shown of a log at its last tick, encoded as the datagrams that are sent.
//!
//! An edition tells each track that is shown (category 062, EUROCONTROL ASTERIX, Part 9), with TSB
//! where the edition before didn't show it, and with TSE each that this one showed and that has
//! ended since; then the state of each radar (category 063, Part 10), the state of the service and
//! the end of the batch (category 065, Part 15). With it come certificates that plots and tracks
//! were paired with least cost.
//!
//! `specs/` says what the edition of a finished log is: the fold of its plots to a table of tracks,
//! what is shown of it, the lines and the datagrams, the certificates, and what a price file has of
//! them. `pictured` makes the datagrams of one.
#![tactic(auto)]

mod building;
mod datagrams;
mod edition;
mod laws;
mod lines;
mod picture;
mod radars;
mod telling;
#[cfg(test)]
mod tests;

pub use building::pictured;
pub use edition::{Built, Edition, Pictured};
pub use laws::{folded_tables, one_edition, one_rising_number};
pub use lines::ShownLine;
