// What the threads of a load do.
ghost use Rattle.std.specs.Prelude.{◌≤◌, All, length};
ghost use Rattle.station.specs.Tokens.{IsFeederOf};

use crate::datagrams::{datagram, one_radar};
use crate::words::Load;
use admission_log::{Outcome, read_messages};
use station::{Feeder, Opened, Station};
use std::alloc::Global;
use std::sync::{Arc, Wait};
use std::thread;
use std::thread::Threads;
use trk_base::NoMemory;

// Where the log starts: ten in the morning, in 1/128 s.
const START: u64 = 4_608_000;

/// How many datagrams were taken, how many of their plots were admitted, and how many events the log
/// has at the end.
#[derive(Clone, Copy, Debug, PartialEq, Eq)]
pub struct Fed {
    /// The number of datagrams.
    pub datagrams: u64,
    /// The number of plots that were admitted.
    pub plots: u64,
    /// The number of events.
    pub events: u64,
}

impl Fed {
    // Nothing was taken.
    fn none() -> Fed {
        Fed {
            datagrams: 0,
            plots: 0,
            events: 0,
        }
    }

    // What two have taken. The log has the events of the later one.
    fn with(self, other: Fed) -> Fed {
        Fed {
            datagrams: self.datagrams.saturating_add(other.datagrams),
            plots: self.plots.saturating_add(other.plots),
            events: self.events.max(other.events),
        }
    }
}

// Whether an outcome is a plot's that was admitted.
fn is_admitted(outcome: &Outcome) -> bool {
    matches!(outcome, Outcome::Admitted(_))
}

// Admits a datagram at a turn.
fn admit_once<W: Wait>(
    rt: &W,
    station: &Station,
    feeder: &mut Feeder,
    datagram: &[u8],
) -> Result<Fed, NoMemory>
    requires own { IsFeederOf station.now feeder.old }
    requires length { length datagram.now ≤ 65535 }
    ensures own { IsFeederOf station.now feeder.new }
{
    let Ok(receipt) = station.admit(rt, feeder, datagram) else {
        return Err(NoMemory);
    };
    let admitted = receipt
        .outcomes
        .as_slice()
        .iter()
        .filter(|o| is_admitted(o));
    Ok(Fed {
        datagrams: 1,
        plots: admitted.count() as u64,
        events: receipt.at.saturating_add(1),
    })
}

// Admits a datagram as often as the load says.
fn admit_all<W: Wait>(
    rt: &W,
    station: &Station,
    mut feeder: Feeder,
    load: Load,
    datagram: &[u8],
) -> Result<Fed, NoMemory>
    requires own { IsFeederOf station.now feeder }
    requires length { length datagram.now ≤ 65535 }
{
    let mut fed = Fed::none();
    for _ in 0..load.turns {
        fed = fed.with(admit_once(rt, station, &mut feeder, datagram)?);
    }
    Ok(fed)
}

// Reads it as often, and takes no turn.
fn read_all(alloc: Global, load: Load, datagram: &[u8]) -> Result<Fed, NoMemory>
    requires { length datagram.now ≤ 65535 }
{
    let mut fed = Fed::none();
    for _ in 0..load.turns {
        if read_messages(alloc, datagram).is_err() {
            return Err(NoMemory);
        }
        fed = fed.with(Fed {
            datagrams: 1,
            plots: 0,
            events: 0,
        });
    }
    Ok(fed)
}

// What one thread does.
fn take_all<W: Wait>(
    rt: &W,
    alloc: Global,
    station: &Station,
    feeder: Feeder,
    load: Load,
    datagram: &[u8],
) -> Result<Fed, NoMemory>
    requires own { IsFeederOf station.now feeder }
    requires length { length datagram.now ≤ 65535 }
{
    if load.admitted {
        admit_all(rt, station, feeder, load, datagram)
    } else {
        read_all(alloc, load, datagram)
    }
}

// What each thread does, one for each feeder.
fn take_beside<R: Threads + Wait + Sync>(
    rt: &R,
    alloc: Global,
    station: &Station,
    feeders: Vec<Feeder>,
    load: Load,
    datagram: &[u8],
) -> Result<Vec<Result<Fed, NoMemory>>, NoMemory>
    requires own { All (IsFeederOf station.now) feeders.items }
    requires length { length datagram.now ≤ 65535 }
{
    let taken = thread::map_vec(
        rt,
        feeders,
        &|feeder: Feeder| -> Result<Fed, NoMemory>
            requires { IsFeederOf station.now feeder × (length datagram.now ≤ 65535) }
        { take_all(rt, alloc, station, feeder, load, datagram) },
    )?;
    Ok(taken)
}

/// Does the load's work in its threads.
pub fn feed<R: Threads + Wait + Sync>(rt: &R, alloc: Global, load: Load) -> Result<Fed, NoMemory> {
    let octets = datagram(alloc, load.plots)?;
    let settings = Arc::new(alloc, one_radar(alloc)?)?;
    let Opened {
        station,
        feeders,
        conductor: _conductor,
        subscribers: _subscribers,
    } = Station::open(alloc, settings, START, load.threads, 0)?;
    let taken = take_beside(rt, alloc, &station, feeders, load, &octets)?;
    let mut fed = Fed::none();
    for one in taken {
        fed = fed.with(one?);
    }
    Ok(fed)
}
