//! The outside, as the program sees it: named places that are read and written, with what they stand for in memory
//! and over real files.
#![tactic(auto)]

mod file_host;
mod host;
mod mem_host;
mod transfer;

pub use file_host::FileHost;
pub use host::{Failed, Host, Place, Way};
pub use mem_host::MemHost;
pub use transfer::{PLACE_LIMIT, ReadError, read_place, write_all};

#[cfg(test)]
mod tests;
