// A target report, and the plot that it tells.
ghost use Rattle.std.specs.Prelude.{◌≡◌, ◌≤◌};
ghost use Rattle.std.specs.Option.{ForSome};
ghost use Rattle.trk_base.specs.Ranges.{IsTimeOfDay, IsCode, IsLevel, IsAddress};

use trk_base::RawPlot;

/// A target report, with the values that are used of it. What the record doesn't have is `None` or
/// false.
#[derive(Clone, Copy, Debug, PartialEq, Eq)]
pub struct Report {
    /// System area code and system identification code, I048/010.
    pub source: Option<(u8, u8)>,
    /// Time of day in 1/128 s, below a day, I048/140.
    pub tod: Option<u32>,
    /// The kind of detection, from 0, none, to 7, I048/020 TYP.
    pub kind: Option<u8>,
    /// A simulated report, I048/020 SIM.
    pub simulated: bool,
    /// A test target, I048/020 TST.
    pub test: bool,
    /// Special position identification, I048/020 SPI.
    pub spi: bool,
    /// A report from the field monitor, a fixed transponder, I048/020 RAB.
    pub monitor: bool,
    /// Slant range in 1/256 NM, and azimuth in 360/65,536 degrees clockwise from the radar's north,
    /// I048/040.
    pub polar: Option<(u16, u16)>,
    /// Mode 3/A code, 12 bits, I048/070. One that isn't validated or is garbled is left out.
    pub code: Option<u16>,
    /// Flight level in 1/4 FL, 14 bits signed, I048/090. One that isn't validated or is garbled is
    /// left out.
    pub level: Option<i16>,
    /// Aircraft address, 24 bits, I048/220.
    pub address: Option<u32>,
    pub ghost kind_range: { ForSome kind (λ k. k ≤ 7) },
    pub ghost in_day: { ForSome tod IsTimeOfDay },
    pub ghost code_range: { IsCode code },
    pub ghost level_range: { IsLevel level },
    pub ghost address_range: { IsAddress address },
}

/// Why a report is no plot.
#[derive(Clone, Copy, Debug, PartialEq, Eq)]
pub enum NotPlot {
    /// It has no source, I048/010.
    NoSource,
    /// It has no time of day, I048/140.
    NoTime,
    /// It has no measured position, I048/040.
    NoPosition,
    /// It has no target report descriptor, I048/020, or one of no detection.
    NoDetection,
    /// It is of a test target.
    Test,
    /// It is simulated.
    Simulated,
    /// It is from the field monitor.
    Monitor,
}

impl Report {
    ghost use Rattle.std.specs.Prelude.{◌≡◌};
    ghost use Rattle.cat048_in.specs.Plots.{plot_of};

    /// The plot that the report tells. It takes no memory.
    ///
    /// It is refused exactly where the report has no source, no time, no position or no detection,
    /// or is of a test target, simulated or from the field monitor, and then by the first of these.
    pub fn plot(&self) -> Result<RawPlot, NotPlot>
        ensures { result ≡ plot_of self.now }
    {
        let Some((sac, sic)) = self.source else {
            return Err(NotPlot::NoSource);
        };
        let Some(tod) = self.tod else {
            return Err(NotPlot::NoTime);
        };
        let Some((rho, theta)) = self.polar else {
            return Err(NotPlot::NoPosition);
        };
        let Some(kind @ 1..) = self.kind else {
            return Err(NotPlot::NoDetection);
        };
        if self.test {
            return Err(NotPlot::Test);
        }
        if self.simulated {
            return Err(NotPlot::Simulated);
        }
        if self.monitor {
            return Err(NotPlot::Monitor);
        }
        Ok(RawPlot {
            sac,
            sic,
            tod,
            rho,
            theta,
            kind,
            spi: self.spi,
            code: self.code,
            level: self.level,
            address: self.address,
        })
    }
}
