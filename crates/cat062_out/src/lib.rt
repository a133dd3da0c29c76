//! Records of tracks, written and read: category 062 (EUROCONTROL ASTERIX, Part 9), in the profile
//! that this system writes.
#![tactic(auto)]

mod error;
mod items;
mod laws;
mod line;
mod octets;
mod reader;
mod stamp;
mod values;
mod writer;

pub use error::ProfileError;
pub use laws::{one_reading, one_track};
pub use line::TrackLine;
pub use reader::read062;
pub use stamp::Stamp;
pub use writer::{TRACK_ROOM, track_record, write_track};

#[cfg(test)]
mod tests;
