// What a gate reads of a track.
use crate::{Axis, MixedAxis};
use std::marker::Model;

/// Where a target is, when, and what it calls itself: all that a gate reads of it.
#[derive(Clone, Copy, Debug, PartialEq, Eq)]
pub struct Aim {
    /// To the east.
    pub x: Axis,
    /// To the north.
    pub y: Axis,
    /// The time for which both axes stand, in 1/128 s.
    pub time: u64,
    /// Aircraft address, 24 bits.
    pub address: Option<u32>,
    /// Mode 3/A code, 12 bits.
    pub code: Option<u16>,
}

impl Model for Aim {
    ghost use Rattle.fixed_imm.specs.Aims.{AimState, IsAim};

    ghost Value = { AimState };

    ghost view = { λ a. record { x = a.x; y = a.y; time = a.time; address = a.address; code = a.code } };

    ghost invariant = { λ a. IsAim (record { x = a.x; y = a.y; time = a.time; address = a.address; code = a.code }) };

    ghost inverse = { λ a. record { x = a.x; y = a.y; time = a.time; address = a.address; code = a.code } };
}

/// An aim whose axes are mixed: what is made once to gate one target against many plots.
#[derive(Clone, Copy)]
pub struct MixedAim {
    /// To the east.
    pub x: MixedAxis,
    /// To the north.
    pub y: MixedAxis,
    /// The time for which the aim stands, in 1/128 s.
    pub time: u64,
    /// Aircraft address, 24 bits.
    pub address: Option<u32>,
    /// Mode 3/A code, 12 bits.
    pub code: Option<u16>,
}

impl Model for MixedAim {
    ghost use Rattle.fixed_imm.specs.Aims.{AimState, IsAim};

    ghost Value = { AimState };

    ghost view = { λ a. record { x = a.x; y = a.y; time = a.time; address = a.address; code = a.code } };

    ghost invariant = { λ a. IsAim (record { x = a.x; y = a.y; time = a.time; address = a.address; code = a.code }) };

    ghost inverse = { λ a. record { x = a.x; y = a.y; time = a.time; address = a.address; code = a.code } };
}

impl Aim {
    ghost use Rattle.std.specs.Prelude.{◌≡◌};
    ghost use Rattle.fixed_imm.specs.Aims.{mixed_aim};

    /// The aim with both axes mixed.
    pub fn mixed(&self) -> MixedAim
        ensures { result ≡ mixed_aim self.now }
    {
        MixedAim {
            x: self.x.mixed(),
            y: self.y.mixed(),
            time: self.time,
            address: self.address,
            code: self.code,
        }
    }
}
