// What is told of a track.
use std::marker::Model;

/// What is told of a track in one record of category 062, as a display reads it.
///
/// At least one of `psr`, `ssr` and `mds` is there.
#[derive(Clone, Copy, Debug, PartialEq, Eq)]
pub struct TrackLine {
    /// The track's number, I062/040.
    pub number: u16,
    /// The position to the east in 1/2 m, 24 bits signed, I062/100.
    pub x: i32,
    /// The position to the north in 1/2 m, 24 bits signed, I062/100.
    pub y: i32,
    /// The velocity to the east in 1/4 m/s, I062/185.
    pub vx: i16,
    /// The velocity to the north in 1/4 m/s, I062/185.
    pub vy: i16,
    /// Mode 3/A code, 12 bits, I062/060.
    pub code: Option<u16>,
    /// Aircraft address, 24 bits, I062/380 ADR.
    pub address: Option<u32>,
    /// The flight level that was measured last, in 1/4 FL, I062/136.
    pub level: Option<i16>,
    /// The age of the last primary detection in 1/4 s, I062/290 PSR. Without one there is none.
    pub psr: Option<u8>,
    /// The age of the last secondary detection, not counting Mode S, in 1/4 s, I062/290 SSR.
    pub ssr: Option<u8>,
    /// The age of the last Mode S detection in 1/4 s, I062/290 MDS.
    pub mds: Option<u8>,
    /// Whether one radar alone saw the track, I062/080 MON.
    pub mono: bool,
    /// Special position identification, I062/080 SPI.
    pub spi: bool,
    /// Whether the track goes on without a recent detection, I062/080 CST.
    pub coast: bool,
    /// Whether this is the first record of the track, I062/080 TSB.
    pub first: bool,
    /// Whether this is the last record of the track, I062/080 TSE.
    pub ended: bool,
    /// The standard deviation of `x` in 1/2 m, I062/500 APC.
    pub sx: u16,
    /// The standard deviation of `y` in 1/2 m, I062/500 APC.
    pub sy: u16,
}

impl Model for TrackLine {
    ghost use Rattle.cat062_out.specs.Tracks.{TrackLine, IsTrackLine};

    ghost Value = { TrackLine };

    ghost view = { λ l. record { number = l.number; x = l.x; y = l.y; vx = l.vx; vy = l.vy; code = l.code; address = l.address; level = l.level; psr = l.psr; ssr = l.ssr; mds = l.mds; mono = l.mono; spi = l.spi; coast = l.coast; first = l.first; ended = l.ended; sx = l.sx; sy = l.sy } };

    ghost invariant = { λ l. IsTrackLine (record { number = l.number; x = l.x; y = l.y; vx = l.vx; vy = l.vy; code = l.code; address = l.address; level = l.level; psr = l.psr; ssr = l.ssr; mds = l.mds; mono = l.mono; spi = l.spi; coast = l.coast; first = l.first; ended = l.ended; sx = l.sx; sy = l.sy }) };

    ghost inverse = { λ l. record { number = l.number; x = l.x; y = l.y; vx = l.vx; vy = l.vy; code = l.code; address = l.address; level = l.level; psr = l.psr; ssr = l.ssr; mds = l.mds; mono = l.mono; spi = l.spi; coast = l.coast; first = l.first; ended = l.ended; sx = l.sx; sy = l.sy } };
}
