// What is read of an input.
ghost use Rattle.std.specs.Prelude.{◌≡◌, ◌<◌, ◌^◌, IfOk};
ghost use Rattle.std.specs.List.{AllByRecursion};
ghost use Rattle.recording.specs.Answers.{items_of};
ghost use Rattle.recording.specs.declared.header.Header.{Header};
ghost use Rattle.recording.specs.Items.{IsItem};
ghost use Rattle.tracker_session.specs.Inputs.{IsInput, tells_biases};

use io_traits::PLACE_LIMIT;
use recording::{Reading, read_prefix, read_recording};
use std::alloc::Global;
use trk_base::NoMemory;

/// What a recording begins with that can have changes of biases: `MRT2`.
const SECOND_MAGIC: [u8; 4] = [0x4D, 0x52, 0x54, 0x32];

/// Whether an input can have changes of biases, so that the line of its counts tells them.
pub fn tells_biases(octets: &[u8]) -> bool
    ensures { result ≡ tells_biases octets.now }
{
    octets.starts_with(&SECOND_MAGIC)
}

/// What is read of an input. Of one that passes the limit it is the prefix up to there.
pub fn read_octets(alloc: Global, octets: &[u8]) -> Result<Reading<'_>, NoMemory>
    ensures read { IfOk result (λ r. IsInput octets.now r.header r.start (items_of r.items.items) r.fault) }
    ensures start { IfOk result (λ r. r.start < 2 ^ 40) }
    ensures fits { IfOk result (λ r. AllByRecursion (IsItem Header.Second) (items_of r.items.items)) }
{
    if octets.len() > PLACE_LIMIT {
        read_prefix(alloc, &octets[..PLACE_LIMIT])
    } else {
        read_recording(alloc, octets)
    }
}
