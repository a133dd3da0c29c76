// The station under one radar.
ghost use Rattle.std.specs.Prelude.{◌≤◌, length};
ghost use Rattle.station.specs.Tokens.{IsFeederOf, IsConductorOf};

use crate::*;
use admission_log::{AdmitError, Outcome, Settings, TickError};
use asterix_frame::{Malformed, cause};
use plot_geometry::RadarSettings;
use std::alloc::Global;
use std::process::Abort;
use std::sync::{Arc, Wait};
use std::test::Fail;
use track_life::LifeSettings;
use trk_base::{NoMemory, Sequence};

mod beside;
mod judging;
mod rounds;

const START: u64 = 4_608_000;

// Settings of one radar (1, 1) at the plane's origin.
fn one_radar(alloc: Global) -> Result<Settings, NoMemory> {
    let mut radars = Sequence::new(alloc);
    radars.push(RadarSettings {
        sac: 1,
        sic: 1,
        x: 0,
        y: 0,
        height: 0,
        north: 0,
        range_gain: 0,
        range_bias: 0,
        azimuth_bias: 0,
        time_bias: 0,
        range_sigma: 50,
        azimuth_sigma: 12,
    })?;
    Ok(Settings {
        sac: 1,
        sic: 99,
        service: 1,
        window: 32,
        life: LifeSettings {
            hits: 1,
            keep_tentative: 15,
            keep_confirmed: 30,
        },
        radars,
    })
}

// A datagram of one report of the radar (1, 1), one nautical mile to the north, with a time of day.
fn report(tod: u32) -> [u8; 14] {
    let [_, high, middle, low] = tod.to_be_bytes();
    [0x30, 0, 14, 0xF0, 1, 1, high, middle, low, 0xA0, 1, 0, 0, 0]
}

// Three reports of the radars (1, 1), (1, 2) and (1, 1).
const THREE: [u8; 36] = [
    0x30, 0, 36, 0xF0, 1, 1, 0x46, 0x50, 10, 0xA0, 1, 0, 0, 0, 0xF0, 1, 2, 0x46, 0x50, 10, 0xA0, 1,
    0, 0, 0, 0xF0, 1, 1, 0x46, 0x50, 10, 0xA0, 1, 0, 0, 0,
];

// What a feeder is told of the one message of a datagram.
fn outcome<R: Wait>(
    rt: &R,
    station: &Station,
    feeder: &mut Feeder,
    datagram: &[u8],
) -> Option<Outcome>
    requires own { IsFeederOf station.now feeder.old }
    requires length { length datagram.now ≤ 65535 }
    ensures own { IsFeederOf station.now feeder.new }
{
    match station
        .admit(rt, feeder, datagram)
        .ok()?
        .outcomes
        .as_slice()
    {
        [outcome] => Some(*outcome),
        _ => None,
    }
}

// A plot's time of day, and what is told of it where the last tick is 4,608,128.
const EDGES: [(u32, Outcome); 4] = [
    (4_606_080, Outcome::Admitted(2)),
    (
        4_606_079,
        Outcome::BeforeHorizon {
            slot: 71_969,
            low: 71_970,
        },
    ),
    (4_608_640, Outcome::Admitted(3)),
    (
        4_608_641,
        Outcome::Ahead {
            time: 4_608_641,
            high: 4_608_640,
        },
    ),
];

// Takes turns of a feeder and of the conductor, one after the other.
fn take_turns<R: Wait + Abort>(
    rt: &R,
    station: &Station,
    feeder: &mut Feeder,
    conductor: &mut Conductor,
) -> Result<(), Fail>
    requires own { IsFeederOf station.now feeder.old × IsConductorOf station.now conductor.old }
{
    let receipt = station.admit(rt, feeder, &THREE)?;
    let told = [
        Outcome::Admitted(0),
        Outcome::UnknownRadar,
        Outcome::Admitted(1),
    ];
    assert!(rt; receipt.at == 0 && receipt.outcomes.as_slice() == told.as_slice());
    let fault = Malformed {
        offset: 1,
        cause: cause::BLOCK_LENGTH,
    };
    let refused = station.admit(rt, feeder, &[0x30, 0, 2]).err();
    assert_eq!(rt; refused, Some(AdmitError::Malformed(fault)));
    assert_eq!(rt; station.tick(rt, conductor, 4_608_128), Ok(1));
    let old = station.tick(rt, conductor, 4_608_128);
    assert_eq!(rt; old, Err(TickError::Old { last: 4_608_128 }));
    for (tod, told) in EDGES {
        assert_eq!(rt; outcome(rt, station, feeder, &report(tod)), Some(told));
    }
    let events = station.gather(rt, conductor)?;
    assert_eq!(rt; events.len(), 6);
    assert!(rt; station.gather(rt, conductor)?.is_empty());
    Ok(())
}

#[test]
fn answers_as_the_log_does(rt: HostRuntime) -> Result<(), Fail> {
    let settings = Arc::new(rt.alloc(), one_radar(rt.alloc())?)?;
    let Opened {
        station,
        mut feeders,
        mut conductor,
        ..
    } = Station::open(rt.alloc(), settings, START, 1, 0)?;
    let mut feeder = feeders.pop().ok_or("feeder")?;
    take_turns(&rt, &station, &mut feeder, &mut conductor)
}
