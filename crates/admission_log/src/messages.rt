// What a datagram says, read without a look at the log.
ghost use Rattle.std.specs.Prelude.{◌≡◌, ◌<◌, ◌≤◌, List, [], length, IfOk, OnOk};
ghost use Rattle.asterix_frame.specs.declared.block.Malformed.{Malformed};
ghost use Rattle.asterix_frame.specs.Answers.{IfMalformed, AnswersWith, RefusesWith};
ghost use Rattle.asterix_frame.specs.Blocks.{IsDataBlock};
ghost use Rattle.asterix_frame.specs.Offsets.{data_block};
ghost use Rattle.asterix_frame.specs.Datagrams.{Content, IsContent, IsDatagram, DatagramFault, block_of};
ghost use Rattle.admission_log.specs.Messages.{said_by};

use crate::AdmitError;
use asterix_frame::{Block, first_block};
use cat034_in::{Service, read034};
use cat048_in::{Report, read048};
use std::alloc::Global;
use std::marker::Model;
use trk_base::Sequence;

/// What a datagram says: its messages, in order, and how many of its blocks were passed over, for
/// they are of other categories than 34 and 48.
///
/// Messages are values, so nothing of the datagram's octets has to be kept for them.
#[derive(Debug, Drop)]
pub struct Messages {
    // A block's messages lie where its reader put them.
    pub(crate) blocks: Sequence<BlockMessages>,
    pub(crate) other: u32,
}

/// The messages of a block of category 34, or of one of category 48.
#[derive(Debug, Drop)]
pub(crate) enum BlockMessages {
    Services(Sequence<Service>),
    Reports(Sequence<Report>),
}

impl Model for Messages {
    ghost use Rattle.admission_log.specs.Messages.{Said};

    ghost Value = { Said };

    ghost use Rattle.admission_log.specs.ReadMessages.{said};

    ghost view = { said };
}

/// Reads a datagram. No settings and no log are needed for it.
///
/// It is refused as malformed exactly where it isn't in the grammar, by the first fault in the
/// order of reading: a block's head, then its records, then the next head.
pub fn read_messages(alloc: Global, datagram: &[u8]) -> Result<Messages, AdmitError>
    requires { length datagram.now ≤ 65535 }
    ensures read { IfOk result (λ m. (contents : List Content) × IsDatagram datagram.now contents × (m ≡ said_by contents)) }
    ensures malformed { IfMalformed result (λ m. DatagramFault datagram.now m.offset m.cause) }

    // The other directions, unless memory is wanting.
    ensures reads { (contents : List Content) → IsDatagram datagram.now contents → AnswersWith result (λ m. m ≡ said_by contents) }
    ensures refuses { (m : Malformed) → DatagramFault datagram.now m.offset m.cause → RefusesWith result (λ x. x ≡ m) }
{
    let mut messages = Messages::none(alloc);
    let mut from = 0;
    while from < datagram.len() {
        let block = first_block(datagram, from)?;
        messages.add_block(alloc, &block)?;
        from = block.end();
    }
    Ok(messages)
}

impl Messages {
    ghost use Rattle.admission_log.specs.Brought.{IsFaultOfBlock};
    ghost use Rattle.admission_log.specs.ReadMessages.{with_block};

    // Those of a datagram without blocks.
    fn none(alloc: Global) -> Messages
        ensures { result ≡ said_by [] }
    {
        Messages {
            blocks: Sequence::new(alloc),
            other: 0,
        }
    }

    // Takes the messages of a block, or counts it as passed over.
    fn add_block(&mut self, alloc: Global, block: &Block<'_>) -> Result<(), AdmitError>
        requires few { self.old.other < 65535 }
        requires is_block { IsDataBlock (data_block block.now) }
        ensures read { OnOk result ((c : Content) × IsContent c × (block_of c ≡ data_block block.now) × (self.new ≡ with_block c self.old)) }
        ensures malformed { IfMalformed result (λ m. IsFaultOfBlock block.now m) }
    {
        match block.cat {
            34 => {
                let services = read034(alloc, block)?;
                let messages = BlockMessages::Services(Sequence::of(services));
                self.blocks.push(messages)?;
            }
            48 => {
                let reports = read048(alloc, block)?;
                let messages = BlockMessages::Reports(Sequence::of(reports));
                self.blocks.push(messages)?;
            }
            _ => self.other += 1,
        }
        Ok(())
    }
}
