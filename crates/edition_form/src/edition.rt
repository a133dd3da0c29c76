// What an edition is.
use crate::ShownLine;
use price_form::Cert;
use trk_base::Sequence;

/// What is shown at a cut of the log, as the datagrams that are sent, with certificates that its
/// tracks were paired with least cost.
#[derive(Debug, Drop)]
pub struct Edition {
    /// Its number, from 1.
    pub number: u64,
    /// How many events of the log it shows.
    pub cut: u64,
    /// The cut of the edition before it, or 0 where there is none.
    pub before: u64,
    /// The log's last tick at the cut, in 1/128 s.
    pub time: u64,
    /// The datagrams in their order: blocks of tracks (CAT062), the states of the radars (CAT063),
    /// the state of the service and the end of the batch (CAT065).
    pub datagrams: Sequence<Sequence<u8>>,
    /// A certificate for each component of each batch in the slots that are still open and over, in
    /// the order of slot, radar and least plot.
    pub certs: Sequence<Cert>,
}

/// What is shown, as the datagrams that are sent, and what the next edition is told against: an
/// edition without its numbers and its certificates.
#[derive(Debug, Drop)]
pub struct Pictured {
    /// The datagrams in their order.
    pub datagrams: Sequence<Sequence<u8>>,
    /// The lines of the tracks that are shown, in rising number.
    pub shown: Sequence<ShownLine>,
}

/// An edition, and what the next one is told against.
#[derive(Debug, Drop)]
pub struct Built {
    /// The edition.
    pub edition: Edition,
    /// The lines of the tracks that it shows, in rising number.
    pub shown: Sequence<ShownLine>,
}
