// Plots as a radar reports them.
ghost use Rattle.std.specs.Prelude.{◌<◌, ◌≤◌};
ghost use Rattle.trk_base.specs.Ranges.{IsKind, IsTimeOfDay, IsCode, IsLevel, IsAddress};

/// A plot as the radar reports it: what is used of an ASTERIX CAT048 target report (Part 4).
///
/// Plots are compared by their fields in this order. `raw_plot_order` says that this order is
/// total, and that only a plot itself compares equal to it.
#[derive(Clone, Copy, Debug, PartialEq, Eq, PartialOrd, Ord)]
pub struct RawPlot {
    /// System area code, I048/010.
    pub sac: u8,
    /// System identification code, I048/010.
    pub sic: u8,
    /// Time of day in 1/128 s, below a day, I048/140.
    pub tod: u32,
    /// Slant range in 1/256 NM, I048/040.
    pub rho: u16,
    /// Azimuth in 360/65,536 degrees, clockwise from the radar's north, I048/040.
    pub theta: u16,
    /// The kind of detection, from 1 to 7, I048/020 TYP.
    pub kind: u8,
    /// Special position identification, I048/020 SPI.
    pub spi: bool,
    /// Mode 3/A code, 12 bits, I048/070.
    pub code: Option<u16>,
    /// Flight level in 1/4 FL, that is in 25 feet, 14 bits signed, I048/090.
    pub level: Option<i16>,
    /// Aircraft address, 24 bits, I048/220.
    pub address: Option<u32>,
    pub ghost detected: { IsKind kind },
    pub ghost in_day: { IsTimeOfDay tod },
    pub ghost code_range: { IsCode code },
    pub ghost level_range: { IsLevel level },
    pub ghost address_range: { IsAddress address },
}
