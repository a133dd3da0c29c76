// The two models of a target's motion, and the constants in which they differ.
ghost use Rattle.std.specs.Prelude.{◌≤◌, unsigned_abs};

// How a target flies by one of the models.
#[derive(Clone, Copy)]
pub(crate) struct Mode {
    // How likely a target goes over to this model from the steady one, in 1/65,536.
    pub from_steady: u64,
    // How likely it goes over to this model from the manoeuvre, in 1/65,536.
    pub from_manoeuvre: u64,
    // The variance that a velocity gains in 1/128 s, in (1/1024 m/s)².
    pub noise: i64,
    ghost steady_low: { 1 ≤ from_steady },
    ghost steady_high: { from_steady ≤ 65536 },
    ghost manoeuvre_high: { from_manoeuvre ≤ 65536 },
    ghost noise_high: { unsigned_abs noise ≤ 524288 },
}

// Model 0: flight straight on, with 0.25 m²/s³ of noise.
pub(crate) const STEADY: Mode = Mode {
    from_steady: 62_259,
    from_manoeuvre: 6_554,
    noise: 2_048,
};

// Model 1: a manoeuvre, with 64 m²/s³ of noise.
pub(crate) const MANOEUVRE: Mode = Mode {
    from_steady: 3_277,
    from_manoeuvre: 58_982,
    noise: 524_288,
};
