// What is counted of the editions of a log, and the line that tells it.
ghost use Rattle.std.specs.Prelude.{◌≡◌, ◌+◌, IfOk, length, string_bytes};
ghost use Rattle.std.specs.List.{concat};
ghost use Rattle.tracker_session.specs.Counting.{counted};
ghost use Rattle.tracker_session.specs.Totals.{totals_line};

use crate::counts::more;
use std::alloc::{AllocError, Global};
use trk_base::Sequence;

/// What came of the editions of a log.
#[derive(Clone, Copy, Debug, PartialEq, Eq)]
pub struct Totals {
    /// The tracks that the last edition shows, without those that it tells as ended.
    pub tracks: u64,
    /// The octets of all editions.
    pub octets: u64,
    /// The certificates of all editions.
    pub certificates: u64,
}

/// A count of octets, and those of further datagrams.
pub fn more_octets(count: u64, datagrams: &[Sequence<u8>]) -> u64
    ensures { result ≡ counted (count + length (concat datagrams.now)) }
{
    let mut octets = count;
    for datagram in datagrams {
        octets = more(octets, datagram.len() as u64);
    }
    octets
}

/// The line of the totals.
pub fn totals_line(alloc: Global, totals: &Totals) -> Result<String, AllocError>
    ensures { IfOk result (λ s. string_bytes s ≡ totals_line totals.now) }
{
    let Totals {
        tracks,
        octets,
        certificates,
    } = *totals;
    format!(in alloc; "tracks {tracks} octets {octets} certificates {certificates}\n")
}
