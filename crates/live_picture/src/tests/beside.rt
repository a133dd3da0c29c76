// The sites and the conductor, each in a thread of its own.
ghost use Rattle.std.specs.Prelude.{◌≡◌, ◌+◌, ◌<◌, ◌^◌};
ghost use denote.Param.Send.{IsSync};
ghost use Rattle.station.specs.Tokens.{IsFeederOf, IsSubscriberOf};
ghost use Rattle.live_picture.specs.Rounds.{Follows};

use super::sites::{Served, Site, serve};
use super::{ROUNDS, START};
use crate::Live;
use admission_log::TickError;
use cluster_pool::Inline;
use station::Station;
use std::alloc::Global;
use std::sync::Wait;
use std::sync::ledger::Ledger;
use std::thread::{Threads, join};
use trk_base::Steps;

// ---- what the conductor does

// Publishes what has come, and tries once more where memory was wanting.
fn publish<R: Threads + Wait + Sync, L: Ledger>(
    rt: &R,
    alloc: Global,
    station: &Station,
    live: &mut Live,
    steps: &mut Steps<L>,
) -> Option<u64>
    requires follows { Follows station.now live.old }
    ensures follows { Follows station.now live.new }
{
    let mut pool = Inline::<R>::new();
    if let Ok(published) = live.publish(rt, alloc, station, &mut pool, 4, steps) {
        return Some(published);
    }
    live.publish(rt, alloc, station, &mut pool, 4, steps).ok()
}

// Takes a tick, an eighth of a second after the last one, is refused the same tick again, and
// publishes what has come. Answers the indices of the tick and of the edition.
pub(super) fn round<R: Threads + Wait + Sync, L: Ledger>(
    rt: &R,
    alloc: Global,
    station: &Station,
    live: &mut Live,
    turn: u64,
    steps: &mut Steps<L>,
) -> Option<(u64, u64)>
    requires few { turn < 2 ^ 32 }
    requires follows { Follows station.now live.old }
    ensures follows { Follows station.now live.new }
{
    let time = START + 16 * turn;
    let ticked = live.tick(rt, station, time).ok()?;
    let Err(TickError::Old { last }) = live.tick(rt, station, time) else {
        return None;
    };
    if last != time {
        return None;
    }
    let published = publish(rt, alloc, station, live, steps)?;
    Some((ticked, published))
}

// Takes all rounds. Answers the indices of its ticks and editions.
fn conduct<R: Threads + Wait + Sync, L: Ledger>(
    rt: &R,
    alloc: Global,
    station: &Station,
    mut live: Live,
    mut steps: Steps<L>,
) -> (Live, Option<Vec<u64>>)
    requires follows { Follows station.now live }
    ensures follows { Follows station.now result.0 }
{
    let mut indices = Vec::new(alloc);
    for turn in 0..ROUNDS {
        let Some((ticked, published)) = round(rt, alloc, station, &mut live, turn + 1, &mut steps)
        else {
            return (live, None);
        };
        if indices.push(ticked).is_err() || indices.push(published).is_err() {
            return (live, None);
        }
    }
    (live, Some(indices))
}

// ---- threads of their own

// A site that comes back from a thread, with what was done there, and the conductor.
pub(super) type Back = (Site, Option<Served>);

pub(super) type Conducted = (Live, Option<Vec<u64>>);

fn sites_beside<R: Threads + Wait + Sync>(
    rt: &R,
    alloc: Global,
    station: &Station,
    one: Site,
    other: Site,
) -> (Back, Back)
    requires one { IsFeederOf station.now one.0 × IsSubscriberOf station.now one.1 }
    requires other { IsFeederOf station.now other.0 × IsSubscriberOf station.now other.1 }
    ensures one { IsFeederOf station.now result.0.0.0 × IsSubscriberOf station.now result.0.0.1 }
    ensures other { IsFeederOf station.now result.1.0.0 × IsSubscriberOf station.now result.1.0.1 }
    ensures feeds { (result.0.0.0.feed ≡ one.0.feed) × (result.1.0.0.feed ≡ other.0.feed) }
    ensures readers { (result.0.0.1.reader ≡ one.1.reader) × (result.1.0.1.reader ≡ other.1.reader) }
{
    join(
        rt,
        move || -> Back
            requires { IsFeederOf station.now one.0 × IsSubscriberOf station.now one.1 }
            ensures { IsFeederOf station.entry.now result.0.0 × IsSubscriberOf station.entry.now result.0.1 × (result.0.0.feed ≡ one.0.feed) × (result.0.1.reader ≡ one.1.reader) }
        { serve(rt, alloc, station, 0, one) },
        move || -> Back
            requires { IsFeederOf station.now other.0 × IsSubscriberOf station.now other.1 }
            ensures { IsFeederOf station.entry.now result.0.0 × IsSubscriberOf station.entry.now result.0.1 × (result.0.0.feed ≡ other.0.feed) × (result.0.1.reader ≡ other.1.reader) }
        { serve(rt, alloc, station, 1, other) },
    )
}

pub(super) fn all_beside<R: Threads + Wait + Sync, L: Ledger>(
    rt: &R,
    alloc: Global,
    station: &Station,
    one: Site,
    other: Site,
    live: Live,
    steps: Steps<L>,
) -> ((Back, Back), Conducted)
    requires one { IsFeederOf station.now one.0 × IsSubscriberOf station.now one.1 }
    requires other { IsFeederOf station.now other.0 × IsSubscriberOf station.now other.1 }
    requires follows { Follows station.now live }
    ensures one { IsFeederOf station.now result.0.0.0.0 × IsSubscriberOf station.now result.0.0.0.1 }
    ensures other { IsFeederOf station.now result.0.1.0.0 × IsSubscriberOf station.now result.0.1.0.1 }
    ensures feeds { (result.0.0.0.0.feed ≡ one.0.feed) × (result.0.1.0.0.feed ≡ other.0.feed) }
    ensures readers { (result.0.0.0.1.reader ≡ one.1.reader) × (result.0.1.0.1.reader ≡ other.1.reader) }
    ensures follows { Follows station.now result.1.0 }
{
    join(
        rt,
        move || -> (Back, Back)
            requires { IsSync R.row × IsFeederOf station.now one.0 × IsSubscriberOf station.now one.1 × IsFeederOf station.now other.0 × IsSubscriberOf station.now other.1 }
            ensures { IsFeederOf station.entry.now result.0.0.0 × IsSubscriberOf station.entry.now result.0.0.1 × IsFeederOf station.entry.now result.1.0.0 × IsSubscriberOf station.entry.now result.1.0.1 × (result.0.0.0.feed ≡ one.0.feed) × (result.1.0.0.feed ≡ other.0.feed) × (result.0.0.1.reader ≡ one.1.reader) × (result.1.0.1.reader ≡ other.1.reader) }
        { sites_beside(rt, alloc, station, one, other) },
        move || -> Conducted
            requires { IsSync R.row × Follows station.now live }
            ensures { Follows station.entry.now result.0 }
        { conduct(rt, alloc, station, live, steps) },
    )
}
