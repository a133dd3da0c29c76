// Logs that were worked by hand: at each cut an engine takes in what came, settles, tells its
// edition, and shows it.
ghost use Rattle.std.specs.Prelude.{◌≡◌, ◌<◌, ◌≤◌, ◌^◌, ℕ, length, IfOk, OnOk};
ghost use Rattle.std.specs.Arc.{arc_value};
ghost use Rattle.admission_log.specs.declared.settings.Settings.{Settings};
ghost use Rattle.admission_log.specs.Histories.{first};
ghost use Rattle.admission_log.specs.Legality.{IsLegal};
ghost use Rattle.tracker_engine.specs.Engines.{StandsFor};

use crate::Engine;
use admission_log::{Log, Settings};
use cluster_pool::{Inline, Pool};
use edition_form::{Built, Edition, Pictured};
use plot_geometry::{Bias, RadarSettings};
use std::alloc::Global;
use std::marker::Brand;
use std::process::Abort;
use std::sync::Arc;
use std::sync::ledger::{Blank, Ledger};
use std::test::Fail;
use std::thread::Threads;
use track_life::{LifeSettings, Track};
use trk_base::{NoMemory, Sequence, Steps};

const START: u64 = 4_608_000;

// A plot of Mode S of the radar (1, sic), one nautical mile to the north, with the last two octets
// of its time of day.
fn plot(sic: u8, middle: u8, low: u8) -> [u8; 14] {
    [
        0x30, 0, 14, 0xF0, 1, sic, 0x46, middle, low, 0xA0, 1, 0, 0, 0,
    ]
}

// A north marker of the radar (1, 1).
const NORTH: [u8; 10] = [0x22, 0, 10, 0xE0, 1, 1, 1, 0x46, 0x50, 0];

// The track of one plot, at the tick after it: as one that begins, and as one that is gone.
const BEGINS: [u8; 36] = [
    0x3E, 0x00, 0x24, 0xB7, 0x0F, 0x01, 0x04, 0x01, 0x63, 0x01, 0x46, 0x50, 0x80, 0x00, 0x00, 0x00,
    0x00, 0x0E, 0x78, 0x00, 0x00, 0x00, 0x00, 0x00, 0x01, 0x81, 0x21, 0x01, 0x68, 0x10, 0x03, 0x80,
    0x02, 0x29, 0x02, 0x32,
];

const ENDS: [u8; 36] = [
    0x3E, 0x00, 0x24, 0xB7, 0x0F, 0x01, 0x04, 0x01, 0x63, 0x01, 0x46, 0x5F, 0x80, 0x00, 0x00, 0x00,
    0x00, 0x0E, 0x78, 0x00, 0x00, 0x00, 0x00, 0x00, 0x01, 0x81, 0x41, 0x01, 0x68, 0x10, 0x03, 0x80,
    0x02, 0x29, 0x02, 0x32,
];

// What comes to a log.
#[derive(Clone, Copy)]
enum Item {
    // A plot, by its radar's SIC and the last two octets of its time of day.
    Plot(u8, u8, u8),
    North,
    Tick(u64),
    // A change of the first radar's biases from a slot on.
    Change(u64),
}

// What an edition tells: how many events it shows, how many octets it has, its tracks by number,
// plots, whether of one radar, and place to the north in 1/64 m; its certificates; and its first
// datagram, where one is given.
struct Told {
    cut: usize,
    octets: usize,
    tracks: &'static [(Option<u16>, u32, bool, i64)],
    certs: usize,
    first: &'static [u8],
}

struct Case {
    items: &'static [Item],
    told: &'static [Told],
}

const ROWS: [Case; 5] = [
    // One plot.
    Case {
        items: &[Item::Plot(1, 0x50, 0x0A), Item::Tick(4_608_128)],
        told: &[Told {
            cut: 2,
            octets: 82,
            tracks: &[(Some(1), 1, true, 118_528)],
            certs: 1,
            first: &BEGINS,
        }],
    },
    // A service message before it.
    Case {
        items: &[
            Item::North,
            Item::Plot(1, 0x50, 0x0A),
            Item::Tick(4_608_128),
        ],
        told: &[Told {
            cut: 3,
            octets: 82,
            tracks: &[(Some(1), 1, true, 118_528)],
            certs: 1,
            first: &BEGINS,
        }],
    },
    // Biases that hold for the plot's slot.
    Case {
        items: &[
            Item::Change(71_999),
            Item::Plot(1, 0x50, 0x0A),
            Item::Tick(4_608_128),
        ],
        told: &[Told {
            cut: 3,
            octets: 82,
            tracks: &[(Some(1), 1, true, 115_521)],
            certs: 1,
            first: &[],
        }],
    },
    // Biases that come after the plot was told.
    Case {
        items: &[
            Item::Plot(1, 0x50, 0x0A),
            Item::Tick(4_608_128),
            Item::Change(72_000),
            Item::Tick(4_608_256),
        ],
        told: &[
            Told {
                cut: 2,
                octets: 82,
                tracks: &[(Some(1), 1, true, 118_528)],
                certs: 1,
                first: &BEGINS,
            },
            Told {
                cut: 4,
                octets: 82,
                tracks: &[(Some(1), 1, true, 115_521)],
                certs: 1,
                first: &[],
            },
        ],
    },
    // A track that is gone, and is told so once.
    Case {
        items: &[
            Item::Plot(1, 0x50, 0x0A),
            Item::Tick(4_608_128),
            Item::Tick(4_611_968),
            Item::Tick(4_612_096),
        ],
        told: &[
            Told {
                cut: 2,
                octets: 82,
                tracks: &[(Some(1), 1, true, 118_528)],
                certs: 1,
                first: &BEGINS,
            },
            Told {
                cut: 3,
                octets: 82,
                tracks: &[(Some(1), 1, true, 118_528)],
                certs: 0,
                first: &ENDS,
            },
            Told {
                cut: 4,
                octets: 46,
                tracks: &[(Some(1), 1, true, 118_528)],
                certs: 0,
                first: &[],
            },
        ],
    },
];

// A late plot, where three plots confirm a track.
const LATE: Case = Case {
    items: &[
        Item::Plot(1, 0x50, 0x0A),
        Item::Tick(4_608_128),
        Item::Plot(1, 0x50, 0x8A),
        Item::Tick(4_608_256),
        Item::Plot(1, 0x50, 0x4A),
        Item::Tick(4_608_384),
    ],
    told: &[
        Told {
            cut: 2,
            octets: 46,
            tracks: &[(None, 1, true, 118_528)],
            certs: 1,
            first: &[],
        },
        Told {
            cut: 4,
            octets: 46,
            tracks: &[(None, 2, true, 118_528)],
            certs: 2,
            first: &[],
        },
        Told {
            cut: 6,
            octets: 82,
            tracks: &[(Some(1), 3, true, 118_528)],
            certs: 3,
            first: &[],
        },
    ],
};

// Two radars in one slot, of which the second saw the aircraft first: the states of both are told.
const REVERSE: Case = Case {
    items: &[
        Item::Plot(1, 0x50, 0x3F),
        Item::Plot(2, 0x50, 0x00),
        Item::Tick(4_608_128),
    ],
    told: &[Told {
        cut: 3,
        octets: 101,
        tracks: &[(Some(1), 2, false, 118_528)],
        certs: 2,
        first: &[],
    }],
};

fn radar(sic: u8) -> RadarSettings
    ensures sac { result.sac ≡ 1 }
    ensures sic { result.sic ≡ sic }
{
    RadarSettings {
        sac: 1,
        sic,
        x: 0,
        y: 0,
        height: 0,
        north: 0,
        range_gain: 0,
        range_bias: 0,
        azimuth_bias: 0,
        time_bias: 0,
        range_sigma: 50,
        azimuth_sigma: 12,
    }
}

fn life(hits: u8) -> LifeSettings
    requires { (1 ≤ hits) × (hits ≤ 8) }
{
    LifeSettings {
        hits,
        keep_tentative: 15,
        keep_confirmed: 30,
    }
}

// Settings of one radar (1, 1) at the plane's origin.
fn one_radar(alloc: Global, hits: u8) -> Result<Settings, NoMemory>
    requires { (1 ≤ hits) × (hits ≤ 8) }
{
    let mut radars = Sequence::new(alloc);
    radars.push(radar(1))?;
    Ok(Settings {
        sac: 1,
        sic: 99,
        service: 1,
        window: 32,
        life: life(hits),
        radars,
    })
}

// .. and of a second one there.
fn two_radars(alloc: Global) -> Result<Settings, NoMemory> {
    let mut radars = Sequence::new(alloc);
    radars.push(radar(1))?;
    radars.push(radar(2))?;
    Ok(Settings {
        sac: 1,
        sic: 99,
        service: 1,
        window: 32,
        life: life(1),
        radars,
    })
}

// Puts what comes into the log.
fn take(rt: &impl Abort, settings: &Settings, log: &mut Log, item: Item)
    ensures legal { IsLegal settings.now log.old → IsLegal settings.now log.new }
    ensures start { log.new.start ≡ log.old.start }
{
    match item {
        Item::Plot(sic, middle, low) => {
            assert!(rt; log.admit(settings, 0, &plot(sic, middle, low)).is_ok());
        }
        Item::North => {
            assert!(rt; log.admit(settings, 0, &NORTH).is_ok());
        }
        Item::Tick(time) => {
            assert!(rt; time < 1 << 40);
            assert!(rt; log.tick(time).is_ok());
        }
        Item::Change(slot) => {
            assert!(rt; slot < 1 << 34);
            let bias = Bias {
                gain: 1_000,
                range: 2,
                azimuth: 0,
            };
            assert!(rt; log.bias(settings, 0, slot, bias).is_ok());
        }
    }
}

// An edition, and what is told of it without certificates.
#[derive(Drop)]
struct Advanced {
    edition: Edition,
    pictured: Pictured,
    prices: Vec<u8>,
}

// Takes in the events of the log up to a cut, settles, tells the edition, and shows it.
fn advance<P: Pool, L: Ledger>(
    engine: &mut Engine,
    log: &Log,
    from: usize,
    cut: usize,
    number: u64,
    pool: &mut P,
    wish: u8,
    steps: &mut Steps<L>,
) -> Result<Advanced, NoMemory>
    requires least { 1 ≤ wish }
    requires most { wish ≤ 16 }
    requires stands { (settings : Settings) × (before : ℕ) × IsLegal settings log.now × StandsFor settings (first from log.now) from before engine.old }
    requires later { from < cut }
    requires within { cut ≤ length log.now.events }
    requires number { 1 ≤ number }
    ensures { (settings : Settings) (before : ℕ) → IsLegal settings log.now → StandsFor settings (first from log.now) from before engine.old → OnOk result (StandsFor settings (first cut log.now) cut cut engine.new) }
{
    let (_, rest) = log.events().split_at(from);
    let (events, _) = rest.split_at(cut - from);
    engine.absorb(events)?;
    engine.settle(pool, wish, steps)?;
    let pictured = engine.pictured(number)?;
    let prices = engine.prices(number)?;
    let Built { edition, shown } = engine.edition(number)?;
    engine.show(cut as u64, shown.into_vec());
    Ok(Advanced {
        edition,
        pictured,
        prices,
    })
}

// Whether what is told without certificates is the edition's, and the prices have all of them.
fn agrees(advanced: &Advanced) -> bool {
    let certs = advanced.edition.certs.len();
    advanced.pictured.datagrams == advanced.edition.datagrams
        && advanced.prices.len() >= certs.saturating_mul(42).saturating_add(17)
}

// Whether an edition and the tracks are as a row tells.
fn is_told(edition: &Edition, tracks: &[Track], row: &Told) -> bool {
    let datagrams = edition.datagrams.as_slice();
    let octets: usize = datagrams
        .iter()
        .fold(0, |sum: usize, octets| sum.saturating_add(octets.len()));
    let first = match datagrams.first() {
        Some(first) => first.as_slice(),
        None => &[],
    };
    octets == row.octets
        && (row.first.is_empty() || first == row.first)
        && edition.certs.len() == row.certs
        && tracks
            .iter()
            .map(|track| {
                (
                    track.number,
                    track.plots,
                    track.mono,
                    track.aim.y.combined(0).0,
                )
            })
            .eq(row.tracks.iter().copied())
}

// Goes through the editions of a log.
fn follow<P: Pool, L: Ledger>(
    rt: &impl Abort,
    engine: Engine,
    log: &Log,
    rows: &[Told],
    pool: &mut P,
    wish: u8,
    steps: &mut Steps<L>,
) -> Result<(), Fail>
    requires least { 1 ≤ wish }
    requires most { wish ≤ 16 }
    requires stands { (settings : Settings) × (before : ℕ) × IsLegal settings log.now × StandsFor settings (first 0 log.now) 0 before engine }
{
    let mut engine = engine;
    let mut from = 0;
    let mut number = 1;
    for row in rows {
        assert!(rt; from < row.cut && row.cut <= log.events().len() && number < 9);
        let advanced = advance(&mut engine, log, from, row.cut, number, pool, wish, steps)?;
        assert!(rt; is_told(&advanced.edition, engine.table().tracks(), row));
        assert!(rt; agrees(&advanced));
        from = row.cut;
        number += 1;
    }
    Ok(())
}

fn tells<R: Abort + Threads + Sync, L: Ledger>(
    rt: &R,
    alloc: Global,
    settings: Settings,
    case: &Case,
    wish: u8,
    blank: Blank,
) -> Result<(), Fail>
    requires least { 1 ≤ wish }
    requires most { wish ≤ 16 }
    requires name { blank.name ≡ L.name }
    requires parts { blank.parts ≡ L.parts }
    requires one { blank.parts ≡ 1 }
{
    let mut log = Log::new(alloc, START);
    for item in case.items {
        take(rt, &settings, &mut log, *item);
    }
    let engine = Engine::new(alloc, Arc::new(alloc, settings)?, log.start())?;
    let mut pool = Inline::<R>::new();
    let mut steps = Steps::<L>::new(blank);
    follow(rt, engine, &log, case.told, &mut pool, wish, &mut steps)
}

#[test]
fn tells_editions(rt: HostRuntime) -> Result<(), Fail> {
    for case in &ROWS {
        let settings = one_radar(rt.alloc(), 1)?;
        tells::<_, Brand>(&rt, rt.alloc(), settings, case, 1, Blank::new(1))?;
    }
    Ok(())
}

#[test]
fn tells_late_plots_in_their_place(rt: HostRuntime) -> Result<(), Fail> {
    let settings = one_radar(rt.alloc(), 3)?;
    tells::<_, Brand>(&rt, rt.alloc(), settings, &LATE, 1, Blank::new(1))
}

#[test]
fn tells_two_radars(rt: HostRuntime) -> Result<(), Fail> {
    let settings = two_radars(rt.alloc())?;
    tells::<_, Brand>(&rt, rt.alloc(), settings, &REVERSE, 1, Blank::new(1))
}

#[test]
fn tells_editions_in_parts(rt: HostRuntime) -> Result<(), Fail> {
    for case in &ROWS {
        let settings = one_radar(rt.alloc(), 1)?;
        tells::<_, Brand>(&rt, rt.alloc(), settings, case, 4, Blank::new(1))?;
    }
    let settings = one_radar(rt.alloc(), 3)?;
    tells::<_, Brand>(&rt, rt.alloc(), settings, &LATE, 4, Blank::new(1))?;
    let settings = two_radars(rt.alloc())?;
    tells::<_, Brand>(&rt, rt.alloc(), settings, &REVERSE, 4, Blank::new(1))
}
