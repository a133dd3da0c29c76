//! The step of a slot: tracks that went too long without a plot expire, and then the batches of the
//! slot's radars follow, in rising order. A batch is paired with the tracks at its start by the
//! least pairing; each track that is paired is updated by its plot, and each plot that is paired
//! with none begins a track (Bar-Shalom, Li, Kirubarajan, "Estimation with Applications to Tracking
//! and Navigation", 1.4: data association, track formation and maintenance).
//!
//! A batch's pairing is found component by component of its gates, and each component gives a
//! certificate: prices that prove its pairing least. The laws are over any tracks, plots and keys: a
//! run in parts, a slot without plots, and numbers that no run reads.
#![tactic(auto)]

mod batch_step;
mod batches;
mod certs;
mod component_costs;
mod gates;
mod laws;
mod moving;
mod nearby;
mod pairing;
mod reaching;
mod slots;
mod starts;
#[cfg(test)]
mod tests;

pub use batches::{Batch, are_slot_plots, batches_of};
pub use certs::KeyedCert;
pub use laws::{
    batch_certificates, component_certificates, empty_batch, expired_twice, keyed_tracks,
    merged_tables, problem_of_batch, resting, run_in_parts, run_in_two_parts, tables_before,
    tracker_laws, two_batches, unread_numbers,
};
pub use reaching::reaches;
pub use slots::{SlotRan, slot_run, slot_step};
pub use starts::batch_tables;
