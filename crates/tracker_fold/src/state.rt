// What the tracker's fold goes on from.
ghost use Rattle.std.specs.Prelude.{◌≡◌, IfOk};
ghost use Rattle.tracker_fold.specs.Starts.{start};

use admission_log::Settings;
use plot_geometry::RadarSettings;
use std::alloc::Global;
use track_life::{LifeSettings, Table};
use trk_base::{NoMemory, Sequence, TryCopy};

/// What the tracker's fold goes on from: all that a slot's step needs beside the slot's entries.
#[derive(Debug, Drop)]
pub struct TrackerState {
    /// The life of tracks.
    pub life: LifeSettings,
    /// The radars, by their index in the settings, with the biases that hold by then.
    pub radars: Sequence<RadarSettings>,
    /// The tracks.
    pub table: Table,
}

impl TrackerState {
    /// The state that a log begins with: no tracks, and the radars as the settings have them.
    pub fn start(alloc: Global, settings: &Settings) -> Result<TrackerState, NoMemory>
        ensures { IfOk result (λ s. s ≡ start settings.now) }
    {
        Ok(TrackerState {
            life: settings.life,
            radars: settings.radars.copy(alloc)?,
            table: Table::empty(alloc),
        })
    }
}

impl TryCopy for TrackerState {
    fn copy(&self, alloc: Global) -> Result<TrackerState, NoMemory> {
        Ok(TrackerState {
            life: self.life,
            radars: self.radars.copy(alloc)?,
            table: self.table.copy(alloc)?,
        })
    }
}
