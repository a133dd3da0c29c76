// A data block in the making.
ghost use Rattle.std.specs.Prelude.{◌≡◌, ◌+◌, ◌<◌, ◌≤◌, ◌++◌, ◌↔◌, [], length, IfOk, OnErr, false, if◌then◌else◌};
ghost use Rattle.asterix_frame.specs.Blocks.{encoded};
ghost use Rattle.asterix_frame.specs.Packing.{block_limit, record_limit};

use crate::block::HEAD_LENGTH;
use std::alloc::Global;
use std::marker::Model;
use trk_base::NoMemory;

/// The octets that a block has at most: those of a datagram that is sent.
pub const BLOCK_LIMIT: usize = 1_400;

/// The octets that a record has at most.
pub const RECORD_LIMIT: usize = 1_000;

/// A data block in the making. Contracts see its category and its body so far.
#[derive(Drop)]
pub struct BlockWriter {
    cat: u8,
    // nothing, or room for the head and then the body
    octets: Vec<u8>,
}

impl Model for BlockWriter {
    ghost use Rattle.std.specs.Prelude.{◌≡◌, ◌<◌, ◌≤◌, [], length, drop};
    ghost use Rattle.asterix_frame.specs.Packing.{block_limit};
    ghost use Rattle.asterix_frame.specs.Blocks.{DataBlock};

    ghost Value = { DataBlock };

    ghost view = { λ w. record { category = w.cat; body = drop 3 w.octets.items } };

    ghost invariant = { λ w. (length w.octets.items ≤ block_limit) × (length w.octets.items < 3 → w.octets.items ≡ []) };
}

impl BlockWriter {
    /// A block without records.
    pub fn new(alloc: Global, cat: u8) -> Self
        ensures { result ≡ record { category = cat; body = [] } }
    {
        BlockWriter {
            cat,
            octets: Vec::new(alloc),
        }
    }

    /// The category.
    pub fn category(&self) -> u8
        ensures { result ≡ self.now.category }
    {
        self.cat
    }

    /// Adds one whole record. It is false, and the block as it was, exactly where the block would
    /// pass `BLOCK_LIMIT`. Without memory the block is as it was.
    pub fn append(&mut self, octets: &[u8]) -> Result<bool, NoMemory>
        requires some { 0 < length octets.now }
        requires limited { length octets.now ≤ record_limit }
        ensures full { (result ≡ Ok false) ↔ (block_limit < length self.old.body + length octets.now + 3) }
        ensures added { IfOk result (λ added. self.new ≡ (if added then record self.old { body = self.old.body ++ octets.now } else self.old)) }
        ensures err { OnErr result (self.new ≡ self.old) }
    {
        let length = self.octets.len().max(HEAD_LENGTH);
        if length + octets.len() > BLOCK_LIMIT {
            return Ok(false);
        }
        if self.octets.is_empty() {
            self.octets.reserve(BLOCK_LIMIT)?;
            self.octets.extend_from_slice(&[0; HEAD_LENGTH])?;
        }
        self.octets.extend_from_slice(octets)?;
        Ok(true)
    }

    /// The block's octets, or none where no record was added.
    pub fn finish(self) -> Vec<u8>
        ensures none { self.body ≡ [] → result.items ≡ [] }
        ensures block { 0 < length self.body → result.items ≡ encoded self }
        ensures within { length result.items ≤ block_limit }
    {
        let BlockWriter { cat, mut octets } = self;
        if octets.len() <= HEAD_LENGTH {
            octets.clear();
        } else {
            let length = octets.len() as u16;
            octets[0] = cat;
            octets[1..HEAD_LENGTH].copy_from_slice(&length.to_be_bytes());
        }
        octets
    }
}

/// The limits are the definition's.
pub fn one_limit()
    ensures of_block { BLOCK_LIMIT ≡ block_limit }
    ensures of_record { RECORD_LIMIT ≡ record_limit }
{}
