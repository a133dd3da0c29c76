// What a radar's range and azimuth err by.
ghost use Rattle.std.specs.Prelude.{◌≤◌, unsigned_abs};

use crate::RadarSettings;

/// The biases of a radar that may change while it runs. Biases are compared by their fields, in the
/// order of these.
#[derive(Clone, Copy, Debug, PartialEq, Eq, PartialOrd, Ord)]
pub struct Bias {
    /// What a measured range is too long by for its length, in 1/100,000, at most 10,000 in size.
    pub gain: i16,
    /// What each measured range is too long by, in 1/128 NM, at most 1,000 in size.
    pub range: i16,
    /// What each measured azimuth is too large by, in 360/65,536 degrees, at most 1,000 in size.
    pub azimuth: i16,
    pub ghost gain_range: { unsigned_abs gain ≤ 10000 },
    pub ghost range_range: { unsigned_abs range ≤ 1000 },
    pub ghost azimuth_range: { unsigned_abs azimuth ≤ 1000 },
}

impl RadarSettings {
    ghost use Rattle.std.specs.Prelude.{◌≡◌};
    ghost use Rattle.plot_geometry.specs.Biases.{bias_of, biased};

    /// The biases that hold where no change of them came.
    pub fn bias(&self) -> Bias
        ensures { result ≡ bias_of self.now }
    {
        Bias {
            gain: self.range_gain,
            range: self.range_bias,
            azimuth: self.azimuth_bias,
        }
    }

    /// These settings with other biases. The time bias stays.
    pub fn biased(&self, bias: Bias) -> RadarSettings
        ensures { result ≡ biased self.now bias }
    {
        let mut settings = *self;
        settings.range_gain = bias.gain;
        settings.range_bias = bias.range;
        settings.azimuth_bias = bias.azimuth;
        settings
    }
}
