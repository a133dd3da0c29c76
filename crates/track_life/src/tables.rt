// Tables of tracks, expiry, and their numbers.
ghost use Rattle.std.specs.Prelude.{◌≡◌, IfOk, OnErr, OnOk};
ghost use Rattle.track_life.specs.Tables.{unexpired};
ghost use Rattle.track_life.specs.Numbers.{assigned};

use crate::numbers::give_numbers;
use crate::{LifeSettings, Track};
use std::alloc::Global;
use std::marker::Model;
use trk_base::{NoMemory, TryCopy};

/// The tracks at a time, in strictly rising birth: fewer than 2^32 - 1 of them.
#[derive(Debug, Drop)]
pub struct Table {
    tracks: Vec<Track>,
}

impl Model for Table {
    ghost use Rattle.std.specs.Prelude.{List};
    ghost use Rattle.track_life.specs.Tracks.{TrackState};
    ghost use Rattle.track_life.specs.Tables.{IsTable};

    ghost Value = { List TrackState };

    ghost view = { λ t. t.tracks.items };

    ghost invariant = { λ t. IsTable t.tracks.items };
}

impl Table {
    ghost use Rattle.std.specs.Prelude.{◌≡◌, []};
    ghost use Rattle.track_life.specs.Tables.{IsTable};

    /// The empty table. It takes no memory.
    pub fn empty(alloc: Global) -> Table
        ensures { result ≡ [] }
    {
        Table {
            tracks: Vec::new(alloc),
        }
    }

    /// The table of these tracks. It takes no memory.
    pub fn of(tracks: Vec<Track>) -> Table
        requires { IsTable tracks.items }
        ensures { result ≡ tracks.items }
    {
        Table { tracks }
    }

    /// Its tracks, to read.
    pub fn tracks(&self) -> &[Track]
        ensures { result.now ≡ self.now }
    {
        &self.tracks
    }

    /// Its tracks, to keep. It takes no memory.
    pub fn into_tracks(self) -> Vec<Track>
        ensures value { result.items ≡ self }
        ensures table { IsTable result.items }
    {
        let Table { tracks } = self;
        tracks
    }
}

impl TryCopy for Table {
    fn copy(&self, alloc: Global) -> Result<Table, NoMemory> {
        Ok(Table {
            tracks: Track::copy_all(alloc, &self.tracks)?,
        })
    }
}

/// The table without the tracks that have expired at the start of a slot: those whose last plot is
/// more seconds before it than the settings keep a confirmed track, or a tentative one.
#[tactic(auto, using(crate::proofs::Expiry::unexpired_is), unfolding(crate::specs::Tables::unexpired))]
pub fn expire(
    alloc: Global,
    table: &Table,
    slot: u64,
    life: &LifeSettings,
) -> Result<Table, NoMemory>
    ensures { IfOk result (λ t. t ≡ unexpired life.now slot table.now) }
{
    let mut kept = Vec::with_capacity(alloc, table.tracks.len())?;
    for track in &table.tracks {
        if track.is_kept(slot, life) {
            kept.push(*track)?;
        }
    }
    Ok(Table { tracks: kept })
}

/// Gives each confirmed track without a number its track number (I062/040), in birth order: the
/// first that no track of the table holds, from one more than the arrival of its first plot modulo
/// 65,535 up to 65,535, and then on from 1. Where all 65,535 are held it stays without. A track
/// that has a number keeps it, and a tentative one isn't given any. Without memory the table is as
/// it was.
pub fn assign_numbers(alloc: Global, table: &mut Table) -> Result<(), NoMemory>
    ensures given { OnOk result (table.new ≡ assigned table.old) }
    ensures unchanged { OnErr result (table.new ≡ table.old) }
{
    give_numbers(alloc, &mut table.tracks)
}
