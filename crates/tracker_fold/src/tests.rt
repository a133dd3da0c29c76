// Windows of the tracker's fold, with entries that come late.
ghost use Rattle.std.specs.Prelude.{◌≡◌, ◌≢◌, ◌≤◌, ◌<◌, IsTrue, unsigned_abs};
ghost use Rattle.std.specs.List.{AllByRecursion};
ghost use Rattle.trk_base.specs.Numbers.{slot_of};
ghost use Rattle.tracker_fold.specs.Keys.{key_in};

use crate::{EntryKey, TrackerFold, TrackerState, folded_log, folded_radars};
use admission_log::{Entry, Settings};
use late_window::Window;
use plot_geometry::{Bias, RadarSettings};
use std::alloc::Global;
use std::marker::Brand;
use std::process::Abort;
use std::sync::ledger::{Blank, Ledger};
use std::test::Fail;
use track_life::LifeSettings;
use trk_base::{Key, NoMemory, RawPlot, Sequence, Steps, slot_of};

// One radar at the plane's origin, and tracks that are confirmed with three plots.
fn settings(alloc: Global) -> Result<Settings, NoMemory> {
    let mut radars = Sequence::new(alloc);
    radars.push(RadarSettings {
        sac: 1,
        sic: 1,
        x: 0,
        y: 0,
        height: 0,
        north: 0,
        range_gain: 0,
        range_bias: 0,
        azimuth_bias: 0,
        time_bias: 0,
        range_sigma: 50,
        azimuth_sigma: 12,
    })?;
    Ok(Settings {
        sac: 1,
        sic: 99,
        service: 1,
        window: 32,
        life: LifeSettings {
            hits: 3,
            keep_tentative: 15,
            keep_confirmed: 30,
        },
        radars,
    })
}

// A plot one nautical mile to the north.
fn plot(time: u32, arrival: u64) -> Entry
    requires { time < 11059200 }
{
    Entry::Plot {
        key: Key {
            slot: slot_of(u64::from(time)),
            radar: 0,
            time: u64::from(time),
            arrival,
        },
        raw: RawPlot {
            sac: 1,
            sic: 1,
            tod: time,
            rho: 256,
            theta: 0,
            kind: 2,
            spi: false,
            code: None,
            level: None,
            address: None,
        },
    }
}

// A change of the radar's biases from a slot on.
fn change(slot: u64, place: u64) -> Entry {
    Entry::Bias {
        slot,
        place,
        radar: 0,
        bias: Bias {
            gain: 1_000,
            range: 2,
            azimuth: 0,
        },
    }
}

// Whether no entry has the key of this one.
fn is_new(entries: &[Entry], entry: &Entry) -> bool
    ensures { IsTrue result → AllByRecursion (λ e. key_in e ≢ key_in entry.now) entries.now }
{
    let key = EntryKey::of(entry);
    for other in entries {
        if EntryKey::of(other) == key {
            return false;
        }
    }
    true
}

// A window, and the steps that it took.
#[derive(Drop)]
struct Watched<L: Ledger> {
    window: Window<TrackerFold>,
    steps: Steps<L>,
}

impl<L: Ledger> Watched<L> {
    fn new(alloc: Global, blank: Blank) -> Result<Watched<L>, NoMemory>
        requires name { blank.name ≡ L.name }
        requires parts { blank.parts ≡ L.parts }
        requires one { blank.parts ≡ 1 }
    {
        let state = TrackerState::start(alloc, &settings(alloc)?)?;
        Ok(Watched {
            window: Window::new(alloc, state, 71_970),
            steps: Steps::new(blank),
        })
    }

    // Takes in an entry, which is open and new.
    fn insert(&mut self, rt: &impl Abort, entry: Entry) -> Result<(), Fail> {
        assert!(rt; self.window.low() <= entry.slot());
        assert!(rt; is_new(self.window.items(), &entry));
        self.window.insert(entry)?;
        Ok(())
    }

    fn settle(&mut self, rt: &impl Abort, upto: u64) -> Result<(), Fail> {
        assert!(rt; self.window.upto() <= upto);
        self.window.settle(upto, &mut self.steps)?;
        Ok(())
    }

    fn close_below(&mut self, rt: &impl Abort, low: u64) -> Result<(), Fail> {
        assert!(rt; self.window.dirty_from().is_none());
        assert!(rt; self.window.low() <= low && low <= self.window.upto());
        self.window.close_below(low);
        Ok(())
    }

    // The tracks with their numbers, plots and places to the north in 1/64 m.
    fn has_tracks(&self, tracks: &[(Option<u16>, u32, i64)]) -> bool {
        self.window
            .state()
            .table
            .tracks()
            .iter()
            .map(|track| (track.number, track.plots, track.aim.y.combined(0).0))
            .eq(tracks.iter().copied())
    }

    // How many certificates each folded slot has.
    fn has_certs(&self, counts: &[(u64, usize)]) -> bool {
        self.window
            .outs()
            .iter()
            .map(|out| (out.0, out.1.certs().len()))
            .eq(counts.iter().copied())
    }
}

// A late plot reopens its slot, and the last window's base goes on.
fn reopens<L: Ledger>(rt: &impl Abort, watched: &mut Watched<L>) -> Result<(), Fail> {
    watched.insert(rt, plot(4_608_010, 0))?;
    watched.insert(rt, plot(4_608_138, 1))?;
    watched.settle(rt, 72_004)?;
    assert!(rt; watched.has_tracks(&[(None, 2, 118_528)]));
    watched.insert(rt, plot(4_608_074, 2))?;
    assert_eq!(rt; watched.window.dirty_from(), Some(72_001));
    watched.settle(rt, 72_006)?;
    assert!(rt; watched.has_tracks(&[(Some(1), 3, 118_528)]));
    assert!(rt; watched.has_certs(&[(72_000, 1), (72_001, 1), (72_002, 1)]));
    watched.close_below(rt, 72_000)?;
    watched.insert(rt, plot(4_608_020, 3))?;
    watched.settle(rt, 72_006)?;
    assert!(rt; watched.has_tracks(&[(Some(1), 3, 118_528), (None, 1, 118_528)]));
    let (state, entries) = watched.window.span(72_006)?;
    assert_eq!(rt; state.table.tracks().len(), 2);
    assert!(rt; entries.is_empty());
    Ok(())
}

// A late change of biases moves the plots from its slot on, and a slot of changes alone has no
// certificate.
fn corrects<L: Ledger>(rt: &impl Abort, watched: &mut Watched<L>) -> Result<(), Fail> {
    watched.insert(rt, plot(4_608_010, 0))?;
    watched.settle(rt, 72_002)?;
    assert!(rt; watched.has_tracks(&[(None, 1, 118_528)]));
    watched.insert(rt, change(72_001, 1))?;
    watched.settle(rt, 72_004)?;
    assert!(rt; watched.has_tracks(&[(None, 1, 118_528)]));
    assert!(rt; watched.has_certs(&[(72_000, 1), (72_001, 0)]));
    watched.insert(rt, change(72_000, 2))?;
    watched.settle(rt, 72_004)?;
    assert!(rt; watched.has_tracks(&[(None, 1, 115_521)]));
    Ok(())
}

fn reopens_with<L: Ledger>(rt: &impl Abort, alloc: Global, blank: Blank) -> Result<(), Fail>
    requires name { blank.name ≡ L.name }
    requires parts { blank.parts ≡ L.parts }
    requires one { blank.parts ≡ 1 }
{
    reopens(rt, &mut Watched::<L>::new(alloc, blank)?)
}

fn corrects_with<L: Ledger>(rt: &impl Abort, alloc: Global, blank: Blank) -> Result<(), Fail>
    requires name { blank.name ≡ L.name }
    requires parts { blank.parts ≡ L.parts }
    requires one { blank.parts ≡ 1 }
{
    corrects(rt, &mut Watched::<L>::new(alloc, blank)?)
}

#[test]
fn reopens_late_slots(rt: HostRuntime) -> Result<(), Fail> {
    folded_log();
    folded_radars();
    reopens_with::<Brand>(&rt, rt.alloc(), Blank::new(1))
}

#[test]
fn corrects_biases_late(rt: HostRuntime) -> Result<(), Fail> {
    corrects_with::<Brand>(&rt, rt.alloc(), Blank::new(1))
}
