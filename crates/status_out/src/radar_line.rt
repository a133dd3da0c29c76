// The state of a radar.
use std::marker::Model;

/// The state of a radar, as one record of category 063 tells it.
#[derive(Clone, Copy, Debug, PartialEq, Eq)]
pub struct RadarLine {
    /// The system area code of the radar, I063/050.
    pub sac: u8,
    /// The system identification code of the radar, I063/050.
    pub sic: u8,
    /// The state of the connection, I063/060 CON: 0 is operational, 1 degraded, 2 initialization, and
    /// 3 not currently connected. At most 3.
    pub con: u8,
    /// What its time stamps are too late by, in ms, I063/070.
    pub time_ms: i16,
    /// What its ranges are too long by for their length, in 1/100,000, I063/080 SRG.
    pub gain: i16,
    /// What each of its ranges is too long by, in 1/128 NM, I063/080 SRB.
    pub range: i16,
    /// What each of its azimuths is too large by, in 360/65,536 degrees, I063/081 SAB.
    pub azimuth: i16,
}

impl Model for RadarLine {
    ghost use Rattle.status_out.specs.RadarLines.{RadarLine, IsRadarLine};

    ghost Value = { RadarLine };

    ghost view = { λ l. record { sac = l.sac; sic = l.sic; con = l.con; time_ms = l.time_ms; gain = l.gain; range = l.range; azimuth = l.azimuth } };

    ghost invariant = { λ l. IsRadarLine (record { sac = l.sac; sic = l.sic; con = l.con; time_ms = l.time_ms; gain = l.gain; range = l.range; azimuth = l.azimuth }) };

    ghost inverse = { λ l. record { sac = l.sac; sic = l.sic; con = l.con; time_ms = l.time_ms; gain = l.gain; range = l.range; azimuth = l.azimuth } };
}
