// Who tells a track, and when.
use std::marker::Model;

/// Who tells a track, and when: what the records of one edition share.
#[derive(Clone, Copy, Debug, PartialEq, Eq)]
pub struct Stamp {
    /// System area code of this system, I062/010.
    pub sac: u8,
    /// System identification code of this system, I062/010.
    pub sic: u8,
    /// The service that tells the tracks, I062/015.
    pub service: u8,
    /// The time of day in 1/128 s, below a day, I062/070.
    pub tod: u32,
}

impl Model for Stamp {
    ghost use Rattle.cat062_out.specs.Tracks.{Stamp, IsStamp};

    ghost Value = { Stamp };

    ghost view = { λ s. record { sac = s.sac; sic = s.sic; service = s.service; tod = s.tod } };

    ghost invariant = { λ s. IsStamp (record { sac = s.sac; sic = s.sic; service = s.service; tod = s.tod }) };

    ghost inverse = { λ s. record { sac = s.sac; sic = s.sic; service = s.service; tod = s.tod } };
}
