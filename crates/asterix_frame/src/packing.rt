// Records packed in data blocks.
ghost use Rattle.std.specs.Prelude.{◌≡◌, ◌<◌, ◌≤◌, ◌++◌, [], ◌∷◌, ℕ, List, length, IfOk};
ghost use Rattle.asterix_frame.specs.Packing.{AreFilled, ArePacked, IsPackingOf, record_limit, ungrouped};

use crate::BlockWriter;
use std::alloc::Global;
use std::marker::Model;
use trk_base::{NoMemory, Sequence};

/// Records of one category packed in data blocks, each block filled as far as whole records go.
/// Contracts see the octets of the blocks that are full, and the last block.
#[derive(Drop)]
pub struct Packing {
    full: Sequence<Sequence<u8>>,
    last: BlockWriter,
}

impl Model for Packing {
    ghost use Rattle.asterix_frame.specs.Packing.{Packed};

    ghost Value = { Packed };

    ghost view = { λ p. record { full = p.full; last = p.last } };
}

impl Packing {
    /// No records of a category. It takes no memory.
    pub fn new(alloc: Global, category: u8) -> Self
        ensures { IsPackingOf category [] result }
    {
        Packing {
            full: Sequence::new(alloc),
            last: BlockWriter::new(alloc, category),
        }
    }

    /// Adds a record after the others.
    pub fn add(self, alloc: Global, octets: &[u8]) -> Result<Packing, NoMemory>
        requires some { 0 < length octets.now }
        requires limited { length octets.now ≤ record_limit }
        ensures { IfOk result (λ p. (category : ℕ) (records : List (List ℕ)) → IsPackingOf category records self → IsPackingOf category (records ++ octets.now ∷ []) p) }
    {
        let Packing { mut full, mut last } = self;
        if last.append(octets)? {
            return Ok(Packing { full, last });
        }
        let mut next = BlockWriter::new(alloc, last.category());
        next.append(octets)?;
        full.push(Sequence::of(last.finish()))?;
        Ok(Packing { full, last: next })
    }

    /// The blocks, each a datagram; without records there are none.
    pub fn finish(self) -> Result<Sequence<Sequence<u8>>, NoMemory>
        ensures { IfOk result (λ blocks. (category : ℕ) (records : List (List ℕ)) → IsPackingOf category records self → ArePacked category records blocks) }
    {
        let Packing { mut full, last } = self;
        let block = last.finish();
        if !block.is_empty() {
            full.push(Sequence::of(block))?;
        }
        Ok(full)
    }
}

/// Records are packed in one way at most.
pub fn one_packing()
    ensures groups { (gs hs : List (List (List ℕ))) → AreFilled gs → AreFilled hs → ungrouped gs ≡ ungrouped hs → gs ≡ hs }
    ensures blocks { (category : ℕ) (records bs cs : List (List ℕ)) → ArePacked category records bs → ArePacked category records cs → bs ≡ cs }
{}
