// Tracks that are folded by themselves.
ghost use Rattle.std.specs.Prelude.{◌≡◌};
ghost use Rattle.track_life.specs.Tables.{IsTable};

use std::alloc::Global;
use std::marker::Model;
use track_life::{LifeSettings, Table, Track};
use trk_base::{NoMemory, TryCopy};

/// Some of the tracks at a time, all, or a part of them, and how long tracks live.
#[derive(Debug, Drop)]
pub struct Tracks {
    life: LifeSettings,
    table: Table,
}

impl Model for Tracks {
    ghost use Rattle.track_life.specs.Tables.{IsTable};
    ghost use Rattle.track_parts.specs.Members.{Tracks};

    ghost Value = { Tracks };

    ghost view = { λ s. record { life = s.life; table = s.table } };

    ghost invariant = { λ s. IsTable s.table };
}

impl Tracks {
    /// These tracks with this life. It takes no memory.
    pub fn of(life: LifeSettings, table: Table) -> Tracks
        ensures life { result.life ≡ life }
        ensures table { result.table ≡ table }
    {
        Tracks {
            life,
            table: Table::of(table.into_tracks()),
        }
    }

    /// How long tracks live.
    pub fn life(&self) -> &LifeSettings
        ensures { result.now ≡ self.now.life }
    {
        &self.life
    }

    /// The tracks as a table, to read.
    pub fn table(&self) -> &Table
        ensures { result.now ≡ self.now.table }
    {
        &self.table
    }

    /// The tracks as a table, to keep. It takes no memory.
    pub fn into_table(self) -> Table
        ensures { result ≡ self.table }
    {
        self.table
    }

    /// The tracks, to read.
    pub fn tracks(&self) -> &[Track]
        ensures value { result.now ≡ self.now.table }
        ensures table { IsTable result.now }
    {
        self.table.tracks()
    }
}

impl TryCopy for Tracks {
    fn copy(&self, alloc: Global) -> Result<Tracks, NoMemory> {
        Ok(Tracks::of(self.life, self.table.copy(alloc)?))
    }
}
