//! Data blocks, records and items of ASTERIX datagrams (EUROCONTROL ASTERIX, Part 1).
#![tactic(auto)]

mod block;
mod body;
pub mod cause;
mod datagram;
mod framing;
mod items;
mod packing;
mod presence;
mod record_writer;
mod tables;
mod values;
mod walk;
mod writer;

pub use block::{Block, BlocksError, Malformed};
pub use body::{first_record, one_body, records};
pub use datagram::one_datagram;
pub use framing::{blocks, first_block, one_block_list};
pub use packing::{Packing, one_packing};
pub use record_writer::{RecordWriter, one_encoding};
pub use tables::{Compound, ItemFormat, SOURCE_FRN, SubfieldFormat, Uap, one_table};
pub use values::{data_source, has_bit, one_number, one_octet, three_octets, two_octets};
pub use walk::{ItemSpans, ItemWalk, WalkError, one_walk, walk_items, walk_record};
pub use writer::{BLOCK_LIMIT, BlockWriter, RECORD_LIMIT, one_limit};

#[cfg(test)]
mod tests;
