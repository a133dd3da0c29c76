// By which settings plots are judged.
ghost use Rattle.std.specs.Prelude.{◌≡◌, ◌<◌, ◌≤◌, length, IfSome};
ghost use Rattle.admission_log.specs.Sources.{HaveOwnSources, radar_of};

use plot_geometry::RadarSettings;
use std::alloc::Global;
use track_life::LifeSettings;
use trk_base::{NoMemory, Sequence, TryCopy};

/// How many radars the settings have at most.
pub const RADAR_LIMIT: usize = 32;

/// The settings of the tracker. The SAC and SIC of each radar are its own, so that a report's source
/// names one radar at most.
#[derive(Debug, PartialEq, Eq, Drop)]
pub struct Settings {
    /// System area code of the tracker itself.
    pub sac: u8,
    /// System identification code of the tracker itself.
    pub sic: u8,
    /// Service identification of the tracks.
    pub service: u8,
    /// For how many slots of half a second a late plot is still taken, from 2 to 120.
    pub window: u8,
    /// The life of tracks.
    pub life: LifeSettings,
    /// The radars, from 1 to 32. A radar is named by its index here.
    pub radars: Sequence<RadarSettings>,
    pub ghost window_range: { (2 ≤ window) × (window ≤ 120) },
    pub ghost radars_range: { (1 ≤ length radars) × (length radars ≤ 32) },
    pub ghost own_sources: { HaveOwnSources radars },
}

impl TryCopy for Settings {
    fn copy(&self, alloc: Global) -> Result<Settings, NoMemory> {
        Ok(Settings {
            sac: self.sac,
            sic: self.sic,
            service: self.service,
            window: self.window,
            life: self.life,
            radars: self.radars.copy(alloc)?,
        })
    }
}

impl Settings {
    ghost use Rattle.std.specs.Prelude.{IfNone, IsSomeAnd, All, slice_get};
    ghost use Rattle.admission_log.specs.Sources.{HasSource};

    /// The index of the radar with a SAC and a SIC, or None where no radar has them. It takes no
    /// memory.
    pub fn radar(&self, sac: u8, sic: u8) -> Option<u8>
        ensures index { result ≡ radar_of self.now.radars sac sic }
        ensures found { IfSome result (λ n. IsSomeAnd (slice_get self.now.radars n) (HasSource sac sic)) }
        ensures none { IfNone result (All (λ radar. ¬ HasSource sac sic radar) self.now.radars) }
    {
        match radar_of(self.radars.as_slice(), sac, sic) {
            Some(index) => Some(index as u8),
            None => None,
        }
    }
}

/// The index of the first radar with a SAC and a SIC, or None where no radar has them. It takes no
/// memory.
pub fn radar_of(radars: &[RadarSettings], sac: u8, sic: u8) -> Option<usize>
    ensures index { result ≡ radar_of radars.now sac sic }
    ensures within { IfSome result (λ n. n < length radars.now) }
{
    radars
        .iter()
        .position(|radar| radar.sac == sac && radar.sic == sic)
}
