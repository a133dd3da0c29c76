// Runs of the program over a host in memory: one table a file, gone over by one loop.
ghost use Rattle.std.specs.Prelude.{◌≡◌, None, IfOk};
ghost use Rattle.io_traits.specs.MemHost.{state_of};
ghost use Rattle.io_traits.specs.declared.host.Place.{Place};

mod checks;
mod exercises;
mod faults;
mod replays;
mod scenes;
mod words;
mod workers;

use crate::{Status, run_batch};
use cluster_pool::{Inline, Pool};
use io_traits::{Host, MemHost, Place, Way};
use std::alloc::Global;
use std::marker::Brand;
use std::process::Abort;
use std::sync::ledger::{Blank, Ledger};
use std::test::Fail;
use std::thread::Threads;
use trk_base::Steps;

/// A run: its words, what its places hold, how many octets Output, Prices and Screen take, and which
/// calls fail; and what comes of it.
#[derive(Clone, Copy)]
struct Run<'a> {
    words: &'a [&'a str],
    settings: &'a [u8],
    input: &'a [u8],
    prices: &'a [u8],
    room: [usize; 3],
    fails: &'a [u64],
    status: Status,
    output: &'a [u8],
    /// What Prices got.
    priced: &'a [u8],
    screen: &'a str,
    /// What Settings, Input, Output and Prices are bound to.
    bound: [Option<(Way, &'a str)>; 4],
}

/// The settings of one system and one radar.
const SETTINGS: &[u8] =
    b"[system]\nsac = 1\nsic = 99\nservice = 1\nhits = 1\n[[radar]]\nsac = 1\nsic = 1\nx = 0\ny = 0\nrange_sigma = 50\nazimuth_sigma = 12\n";

/// A recording of one plot, 256/256 NM north of the radar, and a tick a second after the start.
const ONE_PLOT: [u8; 33] = [
    0x4D, 0x52, 0x54, 0x31, 0x00, 0x00, 0x46, 0x50, 0x00, //
    0x02, 0x00, 0x00, 0x0E, //
    0x30, 0x00, 0x0E, 0xF0, 0x01, 0x01, 0x46, 0x50, 0x0A, 0xA0, 0x01, 0x00, 0x00, 0x00, //
    0x01, 0x00, 0x00, 0x46, 0x50, 0x80,
];

/// Its edition: the track that begins with the plot, the state of the radar, that of the service, and the
/// end of the batch.
const EDITION: [u8; 82] = [
    0x3E, 0x00, 0x24, 0xB7, 0x0F, 0x01, 0x04, 0x01, 0x63, 0x01, 0x46, 0x50, 0x80, 0x00, 0x00, 0x00,
    0x00, 0x0E, 0x78, 0x00, 0x00, 0x00, 0x00, 0x00, 0x01, 0x81, 0x21, 0x01, 0x68, 0x10, 0x03, 0x80,
    0x02, 0x29, 0x02, 0x32, 0x3F, 0x00, 0x16, 0xFF, 0x80, 0x01, 0x63, 0x01, 0x46, 0x50, 0x80, 0x01,
    0x01, 0xC0, 0x00, 0x00, 0x00, 0x00, 0x00, 0x00, 0x00, 0x00, 0x41, 0x00, 0x0C, 0xF4, 0x01, 0x63,
    0x01, 0x01, 0x46, 0x50, 0x80, 0x40, 0x41, 0x00, 0x0C, 0xF8, 0x01, 0x63, 0x02, 0x01, 0x46, 0x50,
    0x80, 0x01,
];

/// The prices of its editions: the record of the first one, and a certificate.
const PRICES: [u8; 63] = [
    0x4D, 0x52, 0x50, 0x31, 0x01, 0x00, 0x00, 0x00, 0x00, 0x00, 0x00, 0x00, 0x01, 0x00, 0x00, 0x00,
    0x00, 0x00, 0x00, 0x00, 0x02, 0x02, 0x00, 0x00, 0x00, 0x00, 0x00, 0x01, 0x19, 0x40, 0x00, 0x00,
    0x00, 0x00, 0x01, 0x00, 0x00, 0x00, 0x00, 0x00, 0x00, 0x00, 0x00, 0x00, 0x00, 0x00, 0x00, 0x00,
    0x00, 0x00, 0x00, 0xFF, 0xFF, 0xFF, 0xFF, 0x00, 0x00, 0x00, 0x00, 0x00, 0x00, 0x10, 0x01,
];

/// The words of a replay, and what its places are bound to: none, Settings, Input too, Output too, and all.
const REPLAY: [&str; 5] = ["replay", "a", "b", "c", "d"];

const NONE: [Option<(Way, &str)>; 4] = [None, None, None, None];

const FIRST: [Option<(Way, &str)>; 4] = [Some((Way::Read, "a")), None, None, None];

const BOTH: [Option<(Way, &str)>; 4] = [Some((Way::Read, "a")), Some((Way::Read, "b")), None, None];

const OPENED: [Option<(Way, &str)>; 4] = [
    Some((Way::Read, "a")),
    Some((Way::Read, "b")),
    Some((Way::Write, "c")),
    None,
];

const ALL: [Option<(Way, &str)>; 4] = [
    Some((Way::Read, "a")),
    Some((Way::Read, "b")),
    Some((Way::Write, "c")),
    Some((Way::Write, "d")),
];

fn words_of(alloc: Global, texts: &[&str]) -> Result<Vec<String>, Fail> {
    let mut words = Vec::new(alloc);
    for text in texts {
        words.push(String::from_str(alloc, text)?)?;
    }
    Ok(words)
}

// Carries the words out over any host, by any pool.
fn carry_out<R: Threads + Sync, H: Host, P: Pool, L: Ledger>(
    rt: &R,
    alloc: Global,
    texts: &[&str],
    host: &mut H,
    pool: &mut P,
    blank: Blank,
) -> Result<Status, Fail>
    requires unbound { (p : Place) → (H.state host.old).bound p ≡ None }
    requires name { blank.name ≡ L.name }
    requires parts { blank.parts ≡ L.parts }
    requires one { blank.parts ≡ 1 }
{
    let words = words_of(alloc, texts)?;
    let mut steps = Steps::<L>::new(blank);
    Ok(run_batch(rt, alloc, &words, host, pool, &mut steps))
}

// The host of a run.
fn host_of(alloc: Global, run: &Run<'_>) -> Result<MemHost, Fail>
    ensures { IfOk result (λ host. (p : Place) → (state_of host).bound p ≡ None) }
{
    let left = vec![in alloc;
        (Place::Settings, Vec::from_slice(alloc, run.settings)?),
        (Place::Input, Vec::from_slice(alloc, run.input)?),
        (Place::Prices, Vec::from_slice(alloc, run.prices)?),
    ]?;
    let rooms = vec![in alloc;
        (Place::Output, run.room[0]),
        (Place::Prices, run.room[1]),
        (Place::Screen, run.room[2]),
    ]?;
    Ok(MemHost::new(alloc, left, rooms, Vec::from_slice(alloc, run.fails)?)?)
}

// Compares what the places got, and what they are bound to.
fn compare_places(rt: &impl Abort, run: &Run<'_>, host: &MemHost, row: usize) {
    let [settings, input, output, prices] = run.bound;
    assert_eq!(rt; host.got(Place::Output), run.output, "at {row}");
    assert_eq!(rt; host.got(Place::Prices), run.priced, "at {row}");
    assert_eq!(rt; host.got(Place::Screen), run.screen.as_bytes(), "at {row}");
    assert_eq!(rt; host.bound(Place::Settings), settings, "at {row}");
    assert_eq!(rt; host.bound(Place::Input), input, "at {row}");
    assert_eq!(rt; host.bound(Place::Output), output, "at {row}");
    assert_eq!(rt; host.bound(Place::Prices), prices, "at {row}");
}

// Carries out a run by a pool, and compares what came of it.
fn compare_one<R: Abort + Threads + Sync, P: Pool>(
    rt: &R,
    alloc: Global,
    run: &Run<'_>,
    row: usize,
    pool: &mut P,
) -> Result<(), Fail> {
    let mut host = host_of(alloc, run)?;
    let blank = Blank::new(1);
    let status = carry_out::<_, _, _, Brand>(rt, alloc, run.words, &mut host, pool, blank)?;
    assert_eq!(rt; status, run.status, "at {row}");
    compare_places(rt, run, &host, row);
    Ok(())
}

/// Carries out each run by one worker, and compares what came of it.
fn compare<R: Abort + Threads + Sync>(rt: &R, alloc: Global, runs: &[Run<'_>]) -> Result<(), Fail> {
    let mut pool = Inline::<R>::new();
    for (row, run) in runs.iter().enumerate() {
        compare_one(rt, alloc, run, row, &mut pool)?;
    }
    Ok(())
}

// A replay of this input that is done.
fn done<'a>(input: &'a [u8], output: &'a [u8], priced: &'a [u8], screen: &'a str) -> Run<'a> {
    Run {
        words: &REPLAY,
        settings: SETTINGS,
        input,
        prices: &[],
        room: [1000, 1000, 1000],
        fails: &[],
        status: Status::Done,
        output,
        priced,
        screen,
        bound: ALL,
    }
}
