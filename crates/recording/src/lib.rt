//! Recordings: what an input of the tracker is, octet by octet.
//!
//! An input is a recording, which begins with the octets `MRT1` or `MRT2`, or has the raw form, a
//! list of ASTERIX data blocks without feeds and ticks.
#![tactic(auto)]

mod ending;
mod header;
mod item;
mod laws;
mod raw;
mod reading;
mod recorded;
mod times;
mod writing;

pub use ending::Ending;
pub use header::Header;
pub use item::Item;
pub use laws::{one_recording, prefix_fault_stays, reads_back};
pub use reading::{Reading, read_prefix, read_recording};
pub use writing::{write_item, write_start, write_start_2};

#[cfg(test)]
mod tests;
