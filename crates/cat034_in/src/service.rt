// A service message.

/// A service message of a radar: what one record of category 034 tells. An item that the record
/// doesn't have is `None`.
#[derive(Clone, Copy, Debug, PartialEq, Eq)]
pub struct Service {
    /// The system area code and the system identification code of the radar (I034/010).
    pub source: Option<(u8, u8)>,
    /// The message type (I034/000): 1 is a north marker, 2 a sector crossing. Others are told too.
    pub kind: Option<u8>,
    /// The time of day in 1/128 s, below a day (I034/030).
    pub tod: Option<u32>,
    /// The azimuth where the sector begins, in 1/256 of a turn (I034/020).
    pub sector: Option<u8>,
    /// The period of the antenna's rotation in 1/128 s (I034/041).
    pub rotation: Option<u16>,
}
