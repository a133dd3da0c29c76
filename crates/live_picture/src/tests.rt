// Two sites feed a station and take its editions while its conductor folds and publishes.
ghost use Rattle.std.specs.Prelude.{◌≡◌};
ghost use Rattle.std.specs.Arc.{arc_value};
ghost use Rattle.admission_log.specs.Legality.{IsLegal};

use crate::Live;
use admission_log::{Event, Settings};
use beside::{all_beside, round};
use edition_form::Edition;
use judging::{Course, are_conducted, are_received, course_of};
use opening::{closed, one_radar, opened};
use sites::{AIRCRAFT, Known, REPORTS, Served, ask};
use std::alloc::Global;
use std::marker::Brand;
use std::process::Abort;
use std::sync::ledger::{Blank, Ledger};
use std::sync::{Arc, Wait};
use std::test::Fail;
use std::thread::Threads;
use track_life::Track;
use trk_base::{NoMemory, Steps};

mod afresh;
mod beside;
mod judging;
mod opening;
mod sites;

// Where the log starts, in 1/128 s.
const START: u64 = 4_608_000;

// How many rounds the conductor takes beside the sites. The last tick leaves all slots open from the
// start on, so each report is admitted, however late it comes.
const ROUNDS: u64 = 64;

// Whether there is a track of each aircraft, of all its reports.
fn are_all_seen(tracks: &[Track]) -> bool {
    tracks.len() == 2 * AIRCRAFT as usize
        && tracks.iter().all(|track| track.confirmed && track.plots == u32::from(REPORTS))
}

// Whether these are a site's: a receipt for each report, no edition with a number that isn't above
// the one before, and the last one in the end.
fn is_served(served: &Served) -> bool {
    let last = Known {
        taken: ROUNDS + 1,
        told: ROUNDS + 1,
    };
    served.receipts.len() == (AIRCRAFT * REPORTS) as usize && served.known == last
}

// Whether each edition that a site took is the one that another engine tells of the log.
fn are_told<R: Threads + Sync, L: Ledger>(
    alloc: Global,
    settings: &Arc<Settings>,
    events: &[Event],
    served: &Served,
    steps: &mut Steps<L>,
) -> Result<bool, NoMemory>
    requires legal { IsLegal (arc_value settings.now) (record { start = 4608000; events = events.now }) }
{
    afresh::are_told::<R, L>(alloc, settings, START, events, &served.editions, steps)
}

// Two sites and the conductor in threads of their own, and then the judgement of what they made.
fn are_served<R: Threads + Wait + Sync + Abort, K: Ledger, L: Ledger>(
    rt: &R,
    alloc: Global,
    counted: Steps<K>,
    blank: Blank,
) -> Result<(), Fail>
    requires name { blank.name ≡ L.name }
    requires parts { blank.parts ≡ L.parts }
    requires one { blank.parts ≡ 1 }
{
    let mut steps: Steps<L> = Steps::new(blank);
    let settings = Arc::new(alloc, one_radar(alloc)?)?;
    let (station, (one, other), live) = opened(alloc, &settings)?;
    let (served, conducted) = all_beside(rt, alloc, &station, one, other, live, counted);
    let ((mut one, first), (mut other, second)) = served;
    let (mut live, indices) = conducted;
    let (mut first, mut second) = (first.ok_or("site")?, second.ok_or("site")?);
    let Some(mut indices) = indices else {
        return Err(Fail::from("conductor"));
    };
    let last = round(rt, alloc, &station, &mut live, ROUNDS + 1, &mut steps);
    let (ticked, published) = last.ok_or("round")?;
    indices.push(ticked)?;
    indices.push(published)?;
    assert!(rt; ask(rt, &station, &mut one.1, &mut first).is_some() && is_served(&first));
    assert!(rt; ask(rt, &station, &mut other.1, &mut second).is_some() && is_served(&second));
    assert!(rt; are_all_seen(live.engine.table().tracks()));
    let closed = closed(alloc, station, one, other, live.conductor)?;
    let events = closed.events.as_slice();
    assert!(rt; course_of(events).is_some());
    assert!(rt; are_received(events, 0, &first.receipts));
    assert!(rt; are_received(events, 1, &second.receipts));
    assert!(rt; are_conducted(events, &indices));
    let told = are_told::<R, L>(alloc, &settings, events, &first, &mut steps)?;
    assert!(rt; told);
    let told = are_told::<R, L>(alloc, &settings, events, &second, &mut steps)?;
    assert!(rt; told);
    Ok(())
}

// The same, with a counter for the conductor's thread.
fn are_served_beside<R: Threads + Wait + Sync + Abort, K: Ledger>(
    rt: &R,
    alloc: Global,
    blank: Blank,
) -> Result<(), Fail>
    requires name { blank.name ≡ K.name }
    requires parts { blank.parts ≡ K.parts }
    requires one { blank.parts ≡ 1 }
{
    let counted: Steps<K> = Steps::new(blank);
    are_served::<R, K, Brand>(rt, alloc, counted, Blank::new(1))
}

#[test]
fn editions_rise_while_sites_feed(rt: HostRuntime) -> Result<(), Fail> {
    are_served_beside::<_, Brand>(&rt, rt.alloc(), Blank::new(1))
}
