// A track's life: it begins, is confirmed by a second plot, and expires.
ghost use Rattle.std.specs.Prelude.{◌≡◌, ◌≤◌};
ghost use Rattle.trk_base.specs.Ranges.{IsLevel};

mod numbers;

use crate::{LifeSettings, Table, Track, expire};
use plot_geometry::PlanePlot;
use std::alloc::Global;
use std::test::Fail;
use trk_base::{Key, NoMemory, TryCopy, slot_of};

const LIFE: LifeSettings = LifeSettings {
    hits: 2,
    keep_tentative: 5,
    keep_confirmed: 10,
};

// A plot at the origin.
fn plot_of(time: u64, radar: u8, kind: u8, level: Option<i16>) -> PlanePlot
    requires from { 1 ≤ kind }
    requires to { kind ≤ 7 }
    requires level { IsLevel level }
    ensures { result.key.time ≡ time }
{
    PlanePlot {
        key: Key {
            slot: slot_of(time),
            radar,
            time,
            arrival: 7,
        },
        x: 0,
        y: 0,
        rx: 10_240_000,
        ry: 10_240_000,
        kind,
        spi: false,
        code: None,
        level,
        address: None,
    }
}

// A table of one track.
#[tactic(auto, using(crate::proofs::Expiry::one_track))]
fn table_of(alloc: Global, track: Track) -> Result<Table, NoMemory> {
    let mut tracks = Vec::new(alloc);
    tracks.push(track)?;
    Ok(Table::of(tracks))
}

// How many tracks of a table are kept at a slot.
fn kept(alloc: Global, table: &Table, slot: u64) -> Result<usize, NoMemory> {
    Ok(expire(alloc, table, slot, &LIFE)?.tracks().len())
}

#[test]
#[tactic(auto, unfolding(crate::specs::Tracks::begun))]
fn is_confirmed_by_a_second_plot(rt: HostRuntime) {
    let first = Track::begin(&plot_of(4_608_063, 0, 2, Some(40)), &LIFE);
    assert_eq!(rt;
        (first.plots, first.confirmed, first.mono),
        (1, false, true)
    );
    assert_eq!(rt;
        (first.psr, first.ssr, first.mds),
        (None, Some(4_608_063), None)
    );

    // The second plot is a slot's other radar's, and a little older.
    let second = first.update(&plot_of(4_608_000, 1, 7, None), &LIFE);
    assert_eq!(rt;
        (second.plots, second.confirmed, second.mono),
        (2, true, false)
    );
    assert_eq!(rt;
        (second.psr, second.ssr, second.mds),
        (Some(4_608_000), Some(4_608_063), Some(4_608_000))
    );
    assert_eq!(rt;
        (second.level, second.radar, second.number),
        (Some(40), 0, None)
    );
}

// A tentative track is kept for 5 s, and a confirmed one for 10.
#[test]
#[tactic(auto, unfolding(crate::specs::Tracks::begun))]
fn expires(rt: HostRuntime) -> Result<(), Fail> {
    let alloc = rt.alloc();
    let first = Track::begin(&plot_of(4_608_000, 0, 2, None), &LIFE);
    let second = first.update(&plot_of(4_608_000, 1, 7, None), &LIFE);
    let tentative = table_of(alloc, first)?;
    assert_eq!(rt; kept(alloc, &tentative, 72_010)?, 1);
    assert_eq!(rt; kept(alloc, &tentative, 72_011)?, 0);
    assert_eq!(rt; tentative.copy(alloc)?.into_tracks().len(), 1);
    let confirmed = table_of(alloc, second)?;
    assert_eq!(rt; kept(alloc, &confirmed, 72_020)?, 1);
    assert_eq!(rt; kept(alloc, &confirmed, 72_021)?, 0);
    assert_eq!(rt; kept(alloc, &Table::empty(alloc), 72_021)?, 0);
    Ok(())
}
