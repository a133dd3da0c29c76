// The program's table of the keys. `laws::one_table` says that it is the list of the definition,
// `specs/Keys.antt`.

/// The name of a key.
#[derive(Clone, Copy, Debug, PartialEq, Eq)]
pub enum Name {
    /// System area code.
    Sac,
    /// System identification code.
    Sic,
    /// Service identification.
    Service,
    /// How many slots late a plot is still taken.
    Window,
    /// With how many plots a track is confirmed.
    Hits,
    /// How many seconds a tentative track is kept without a plot.
    KeepTentative,
    /// How many seconds a confirmed track is kept without a plot.
    KeepConfirmed,
    /// A radar's position to the east, in m.
    X,
    /// A radar's position to the north, in m.
    Y,
    /// A radar's height, in m.
    Height,
    /// A radar's north from the plane's, in 360/65,536 degrees.
    North,
    /// A bias of range for its length, in 1/100,000.
    RangeGain,
    /// A bias of range, in 1/128 NM.
    RangeBias,
    /// A bias of azimuth, in 360/65,536 degrees.
    AzimuthBias,
    /// A bias of time, in 1/128 s.
    TimeBias,
    /// The standard deviation of a range, in m.
    RangeSigma,
    /// The standard deviation of an azimuth, in 360/65,536 degrees.
    AzimuthSigma,
}

impl Name {
    ghost use Rattle.std.specs.Prelude.{◌≡◌};
    ghost use Rattle.settings_text.specs.Rules.{text_of};

    /// The name as it is written.
    pub fn text(&self) -> &'static str
        ensures { result.now ≡ text_of self.now }
    {
        match self {
            Name::Sac => "sac",
            Name::Sic => "sic",
            Name::Service => "service",
            Name::Window => "window",
            Name::Hits => "hits",
            Name::KeepTentative => "keep_tentative",
            Name::KeepConfirmed => "keep_confirmed",
            Name::X => "x",
            Name::Y => "y",
            Name::Height => "height",
            Name::North => "north",
            Name::RangeGain => "range_gain",
            Name::RangeBias => "range_bias",
            Name::AzimuthBias => "azimuth_bias",
            Name::TimeBias => "time_bias",
            Name::RangeSigma => "range_sigma",
            Name::AzimuthSigma => "azimuth_sigma",
        }
    }
}

/// What the program knows of a key. All values are integers.
#[derive(Clone, Copy, Debug)]
pub struct KeyRule {
    /// The number of the key, by which a fault names it.
    pub number: u8,
    /// The name of the key.
    pub name: Name,
    /// The least value.
    pub least: i64,
    /// The greatest value.
    pub greatest: i64,
    /// The value where the key is left out, in its range, or None where it's required.
    pub default: Option<i64>,
}

/// The keys of the table `system`.
pub const SYSTEM_KEYS: [KeyRule; 7] = [
    KeyRule {
        number: 1,
        name: Name::Sac,
        least: 0,
        greatest: 255,
        default: None,
    },
    KeyRule {
        number: 2,
        name: Name::Sic,
        least: 0,
        greatest: 255,
        default: None,
    },
    KeyRule {
        number: 3,
        name: Name::Service,
        least: 0,
        greatest: 255,
        default: None,
    },
    KeyRule {
        number: 4,
        name: Name::Window,
        least: 2,
        greatest: 120,
        default: Some(32),
    },
    KeyRule {
        number: 5,
        name: Name::Hits,
        least: 1,
        greatest: 8,
        default: Some(3),
    },
    KeyRule {
        number: 6,
        name: Name::KeepTentative,
        least: 1,
        greatest: 60,
        default: Some(15),
    },
    KeyRule {
        number: 7,
        name: Name::KeepConfirmed,
        least: 1,
        greatest: 60,
        default: Some(30),
    },
];

/// The keys of each table of the array `radar`.
pub const RADAR_KEYS: [KeyRule; 12] = [
    KeyRule {
        number: 8,
        name: Name::Sac,
        least: 0,
        greatest: 255,
        default: None,
    },
    KeyRule {
        number: 9,
        name: Name::Sic,
        least: 0,
        greatest: 255,
        default: None,
    },
    KeyRule {
        number: 10,
        name: Name::X,
        least: -1_000_000,
        greatest: 1_000_000,
        default: None,
    },
    KeyRule {
        number: 11,
        name: Name::Y,
        least: -1_000_000,
        greatest: 1_000_000,
        default: None,
    },
    KeyRule {
        number: 12,
        name: Name::Height,
        least: -500,
        greatest: 9_000,
        default: Some(0),
    },
    KeyRule {
        number: 13,
        name: Name::North,
        least: 0,
        greatest: 65_535,
        default: Some(0),
    },
    KeyRule {
        number: 14,
        name: Name::RangeGain,
        least: -10_000,
        greatest: 10_000,
        default: Some(0),
    },
    KeyRule {
        number: 15,
        name: Name::RangeBias,
        least: -1_000,
        greatest: 1_000,
        default: Some(0),
    },
    KeyRule {
        number: 16,
        name: Name::AzimuthBias,
        least: -1_000,
        greatest: 1_000,
        default: Some(0),
    },
    KeyRule {
        number: 17,
        name: Name::TimeBias,
        least: -1_280,
        greatest: 1_280,
        default: Some(0),
    },
    KeyRule {
        number: 18,
        name: Name::RangeSigma,
        least: 10,
        greatest: 1_000,
        default: None,
    },
    KeyRule {
        number: 19,
        name: Name::AzimuthSigma,
        least: 1,
        greatest: 200,
        default: None,
    },
];
