// A datagram cut into its data blocks.
ghost use Rattle.std.specs.Prelude.{◌≡◌, ◌+◌, ◌<◌, ◌^◌, ◌++◌, ◌⊎◌, ℕ, List, length, drop, All, IfOk, IfErr, Err, IsOkAnd};
ghost use Rattle.asterix_frame.specs.Blocks.{DataBlock, IsDataBlock, AreDataBlocks, BeginsNone, BlockFault, encoded, encoding};
ghost use Rattle.asterix_frame.specs.Offsets.{data_block, data_blocks, BeginsBlock, LieFrom};
ghost use Rattle.asterix_frame.specs.Answers.{BeginsNoBlock, AnswersWith, RefusesWith, IfMalformed};

use crate::block::HEAD_LENGTH;
use crate::cause::{BLOCK_LENGTH, BLOCK_SHORT};
use crate::{Block, BlocksError, Malformed};
use std::alloc::Global;

/// The block that begins at an offset of a datagram.
///
/// It is refused with `BLOCK_SHORT` or `BLOCK_LENGTH` exactly where none begins there. What follows
/// the block begins at its `end`.
pub fn first_block(datagram: &[u8], from: usize) -> Result<Block<'_>, Malformed>
    requires { from < length datagram.now }
    ensures found { IfOk result (λ b. BeginsBlock datagram.now from b) }
    ensures none { IfErr result (λ m. BeginsNoBlock datagram.now from m) }

    // The other directions.
    ensures reads { (b : DataBlock) (rest : List ℕ) → IsDataBlock b → drop from datagram.now ≡ encoded b ++ rest → IsOkAnd result (λ x. data_block x ≡ b) }
    ensures refuses { (m : Malformed) → BeginsNoBlock datagram.now from m → result ≡ Err m }
{
    let octets = &datagram[from..];
    if octets.len() < HEAD_LENGTH {
        return Err(Malformed {
            offset: from,
            cause: BLOCK_SHORT,
        });
    }
    let (head, after) = octets.split_at(HEAD_LENGTH);
    let length = u16::from_be_bytes([head[1], head[2]]) as usize;
    if length < HEAD_LENGTH || after.len() < length - HEAD_LENGTH {
        return Err(Malformed {
            offset: from + 1,
            cause: BLOCK_LENGTH,
        });
    }
    Ok(Block {
        cat: head[0],
        at: from + HEAD_LENGTH,
        body: &after[..length - HEAD_LENGTH],
    })
}

/// The blocks of a datagram, in order. One without octets has none.
///
/// It is refused with `BLOCK_SHORT` or `BLOCK_LENGTH` exactly where it isn't a list of whole
/// blocks, by the first fault from the left. What stands in the blocks isn't judged.
pub fn blocks(alloc: Global, datagram: &[u8]) -> Result<Vec<Block<'_>>, BlocksError>
    ensures encoded { IfOk result (λ v. AreDataBlocks (data_blocks v.items) × (datagram.now ≡ encoding (data_blocks v.items))) }
    ensures offsets { IfOk result (λ v. LieFrom 0 v.items) }
    ensures malformed { IfMalformed result (λ m. BlockFault datagram.now m.offset m.cause) }

    // The other directions, unless memory is wanting.
    ensures reads { (bs : List DataBlock) → AreDataBlocks bs → datagram.now ≡ encoding bs → AnswersWith result (λ v. data_blocks v.items ≡ bs) }
    ensures refuses { (offset cause : ℕ) → BlockFault datagram.now offset cause → RefusesWith result (λ m. (m.offset ≡ offset) × (m.cause ≡ cause)) }
{
    let mut found = Vec::new(alloc);
    let mut from = 0;
    while from < datagram.len() {
        let block = first_block(datagram, from)?;
        from = block.end();
        found.push(block)?;
    }
    Ok(found)
}

/// A datagram has exactly one reading: as whole blocks, or as a first fault.
pub fn one_block_list()
    ensures some { (d : List ℕ) → All (λ octet. octet < 256) d → ((bs : List DataBlock) × AreDataBlocks bs × (d ≡ encoding bs)) ⊎ ((offset : ℕ) × (cause : ℕ) × BlockFault d offset cause) }
    ensures one_list { (bs cs : List DataBlock) → AreDataBlocks bs → AreDataBlocks cs → encoding bs ≡ encoding cs → bs ≡ cs }
    ensures one_fault { (d : List ℕ) (o c o' c' : ℕ) → BlockFault d o c → BlockFault d o' c' → (o ≡ o') × (c ≡ c') }
    ensures not_both { (bs : List DataBlock) (offset cause : ℕ) → AreDataBlocks bs → BlockFault (encoding bs) offset cause → ⊥ }
{}
