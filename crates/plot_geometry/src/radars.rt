// A radar as the settings have it.
ghost use Rattle.std.specs.Prelude.{◌≤◌, unsigned_abs, pos, neg_ℤ, ◌≤ℤ◌};

/// What the settings say of one radar: who it is, where it stands, how it errs and how widely.
#[derive(Clone, Copy, Debug, PartialEq, Eq)]
pub struct RadarSettings {
    /// System area code.
    pub sac: u8,
    /// System identification code.
    pub sic: u8,
    /// The position to the east, in m, at most 1,000,000 in size.
    pub x: i32,
    /// The position to the north, in m, at most 1,000,000 in size.
    pub y: i32,
    /// The height in m, from -500 to 9,000.
    pub height: i16,
    /// The radar's north, clockwise from the plane's, in 360/65,536 degrees.
    pub north: u16,
    /// What a measured range is too long by for its length, in 1/100,000, at most 10,000 in size.
    pub range_gain: i16,
    /// What each measured range is too long by, in 1/128 NM, at most 1,000 in size.
    pub range_bias: i16,
    /// What each measured azimuth is too large by, in 360/65,536 degrees, at most 1,000 in size.
    pub azimuth_bias: i16,
    /// What each time is too late by, in 1/128 s, at most 1,280 in size.
    pub time_bias: i16,
    /// The standard deviation of a range, in m, from 10 to 1,000.
    pub range_sigma: u16,
    /// The standard deviation of an azimuth, in 360/65,536 degrees, from 1 to 200.
    pub azimuth_sigma: u16,
    pub ghost x_range: { unsigned_abs x ≤ 1000000 },
    pub ghost y_range: { unsigned_abs y ≤ 1000000 },
    pub ghost height_range: { (neg_ℤ (pos 500) ≤ℤ height) × (height ≤ℤ pos 9000) },
    pub ghost range_gain_range: { unsigned_abs range_gain ≤ 10000 },
    pub ghost range_bias_range: { unsigned_abs range_bias ≤ 1000 },
    pub ghost azimuth_bias_range: { unsigned_abs azimuth_bias ≤ 1000 },
    pub ghost time_bias_range: { unsigned_abs time_bias ≤ 1280 },
    pub ghost range_sigma_range: { (10 ≤ range_sigma) × (range_sigma ≤ 1000) },
    pub ghost azimuth_sigma_range: { (1 ≤ azimuth_sigma) × (azimuth_sigma ≤ 200) },
}
