// Editions of one track, octet by octet.
ghost use Rattle.std.specs.Prelude.{◌≡◌, ◌<◌, ◌≤◌, length, IfOk};
ghost use Rattle.edition_form.specs.Pictures.{AreEarlier, HaveOwnNumbers};
ghost use Rattle.edition_form.specs.Lines.{RiseByNumber};

use crate::{Pictured, ShownLine, pictured};
use admission_log::Settings;
use plot_geometry::{Bias, PlanePlot, RadarSettings};
use std::alloc::Global;
use std::test::Fail;
use track_life::{LifeSettings, Table, Track};
use trk_base::{Key, NoMemory, Sequence, slot_of};

// The time of the track's one plot: 118/128 s before the first tick.
const PLOT_TIME: u64 = 4_608_010;

const LIFE: LifeSettings = LifeSettings {
    hits: 1,
    keep_tentative: 15,
    keep_confirmed: 30,
};

// Settings of one radar (1, 1) at the plane's origin, under which one plot confirms a track.
fn settings(alloc: Global) -> Result<Settings, NoMemory>
    ensures { IfOk result (λ s. length s.radars ≡ 1) }
{
    let mut radars = Sequence::new(alloc);
    radars.push(RadarSettings {
        sac: 1,
        sic: 1,
        x: 0,
        y: 0,
        height: 0,
        north: 0,
        range_gain: 0,
        range_bias: 0,
        azimuth_bias: 0,
        time_bias: 0,
        range_sigma: 50,
        azimuth_sigma: 12,
    })?;
    Ok(Settings {
        sac: 1,
        sic: 99,
        service: 1,
        window: 32,
        life: LIFE,
        radars,
    })
}

// The table of a track with number 1, of one plot of Mode S 256/256 NM to the north.
#[tactic(auto, using(track_life::proofs::Expiry::one_track, crate::proofs::Climbing::one_number, crate::proofs::Climbing::no_lines), unfolding(track_life::specs::Tracks::begun))]
fn table(alloc: Global) -> Result<Table, NoMemory>
    ensures numbers { IfOk result HaveOwnNumbers }
    ensures earlier { IfOk result (AreEarlier 4608128) }
{
    let plot = PlanePlot {
        key: Key {
            slot: slot_of(PLOT_TIME),
            radar: 0,
            time: PLOT_TIME,
            arrival: 0,
        },
        x: 0,
        y: 118_528,
        rx: 18_496,
        ry: 10_240_000,
        kind: 5,
        spi: false,
        code: None,
        level: None,
        address: None,
    };
    let mut track = Track::begin(&plot, &LIFE);
    track.number = Some(1);
    let mut tracks = Vec::new(alloc);
    tracks.push(track)?;
    Ok(Table::of(tracks))
}

// What the edition of that number shows at a tick, with the last tick at the radar's newest service message.
fn edition(
    alloc: Global,
    time: u64,
    number: u64,
    service: Option<u64>,
    old: &[ShownLine],
) -> Result<Pictured, NoMemory>
    requires time { 4608128 ≤ time }
    requires old { RiseByNumber old.now }
    ensures { IfOk result (λ p. RiseByNumber p.shown) }
{
    let bias = Bias {
        gain: 0,
        range: 0,
        azimuth: 0,
    };
    pictured(
        alloc,
        &settings(alloc)?,
        &[bias],
        &table(alloc)?,
        &[service],
        time,
        number,
        old,
    )
}

// A tick, the number of its edition, the last tick at the newest service message, whether the
// track was shown at the cut before, and the datagrams.
struct Row {
    time: u64,
    number: u64,
    service: Option<u64>,
    was_shown: bool,
    datagrams: &'static [&'static [u8]],
}

const ROWS: [Row; 4] = [
    // The track begins, and no service message has come.
    Row {
        time: 4_608_128,
        number: 1,
        service: None,
        was_shown: false,
        datagrams: &[
            &[
                0x3E, 0x00, 0x24, 0xB7, 0x0F, 0x01, 0x04, 0x01, 0x63, 0x01, 0x46, 0x50, 0x80, 0x00,
                0x00, 0x00, 0x00, 0x0E, 0x78, 0x00, 0x00, 0x00, 0x00, 0x00, 0x01, 0x81, 0x21, 0x01,
                0x68, 0x10, 0x03, 0x80, 0x02, 0x29, 0x02, 0x32,
            ],
            &[
                0x3F, 0x00, 0x16, 0xFF, 0x80, 0x01, 0x63, 0x01, 0x46, 0x50, 0x80, 0x01, 0x01, 0xC0,
                0x00, 0x00, 0x00, 0x00, 0x00, 0x00, 0x00, 0x00,
            ],
            &[
                0x41, 0x00, 0x0C, 0xF4, 0x01, 0x63, 0x01, 0x01, 0x46, 0x50, 0x80, 0x40,
            ],
            &[
                0x41, 0x00, 0x0C, 0xF8, 0x01, 0x63, 0x02, 0x01, 0x46, 0x50, 0x80, 0x01,
            ],
        ],
    },
    // It goes on, a service message came 1 s before, and the batch has number 256.
    Row {
        time: 4_608_128,
        number: 256,
        service: Some(4_608_000),
        was_shown: true,
        datagrams: &[
            &[
                0x3E, 0x00, 0x24, 0xB7, 0x0F, 0x01, 0x04, 0x01, 0x63, 0x01, 0x46, 0x50, 0x80, 0x00,
                0x00, 0x00, 0x00, 0x0E, 0x78, 0x00, 0x00, 0x00, 0x00, 0x00, 0x01, 0x81, 0x01, 0x01,
                0x68, 0x10, 0x03, 0x80, 0x02, 0x29, 0x02, 0x32,
            ],
            &[
                0x3F, 0x00, 0x16, 0xFF, 0x80, 0x01, 0x63, 0x01, 0x46, 0x50, 0x80, 0x01, 0x01, 0x00,
                0x00, 0x00, 0x00, 0x00, 0x00, 0x00, 0x00, 0x00,
            ],
            &[
                0x41, 0x00, 0x0C, 0xF4, 0x01, 0x63, 0x01, 0x01, 0x46, 0x50, 0x80, 0x00,
            ],
            &[
                0x41, 0x00, 0x0C, 0xF8, 0x01, 0x63, 0x02, 0x01, 0x46, 0x50, 0x80, 0x00,
            ],
        ],
    },
    // It has expired, and the service message is older than 12 s.
    Row {
        time: 4_611_968,
        number: 2,
        service: Some(4_608_000),
        was_shown: true,
        datagrams: &[
            &[
                0x3E, 0x00, 0x24, 0xB7, 0x0F, 0x01, 0x04, 0x01, 0x63, 0x01, 0x46, 0x5F, 0x80, 0x00,
                0x00, 0x00, 0x00, 0x0E, 0x78, 0x00, 0x00, 0x00, 0x00, 0x00, 0x01, 0x81, 0x41, 0x01,
                0x68, 0x10, 0x03, 0x80, 0x02, 0x29, 0x02, 0x32,
            ],
            &[
                0x3F, 0x00, 0x16, 0xFF, 0x80, 0x01, 0x63, 0x01, 0x46, 0x5F, 0x80, 0x01, 0x01, 0x40,
                0x00, 0x00, 0x00, 0x00, 0x00, 0x00, 0x00, 0x00,
            ],
            &[
                0x41, 0x00, 0x0C, 0xF4, 0x01, 0x63, 0x01, 0x01, 0x46, 0x5F, 0x80, 0x40,
            ],
            &[
                0x41, 0x00, 0x0C, 0xF8, 0x01, 0x63, 0x02, 0x01, 0x46, 0x5F, 0x80, 0x02,
            ],
        ],
    },
    // It was ended before.
    Row {
        time: 4_612_096,
        number: 3,
        service: None,
        was_shown: false,
        datagrams: &[
            &[
                0x3F, 0x00, 0x16, 0xFF, 0x80, 0x01, 0x63, 0x01, 0x46, 0x60, 0x00, 0x01, 0x01, 0xC0,
                0x00, 0x00, 0x00, 0x00, 0x00, 0x00, 0x00, 0x00,
            ],
            &[
                0x41, 0x00, 0x0C, 0xF4, 0x01, 0x63, 0x01, 0x01, 0x46, 0x60, 0x00, 0x40,
            ],
            &[
                0x41, 0x00, 0x0C, 0xF8, 0x01, 0x63, 0x02, 0x01, 0x46, 0x60, 0x00, 0x03,
            ],
        ],
    },
];

#[tactic(auto, using(crate::proofs::Climbing::no_lines))]
// Whether the edition of a row has its datagrams.
fn is_told(alloc: Global, row: &Row) -> Result<bool, NoMemory>
    requires { 4608128 ≤ row.now.time }
{
    if row.was_shown {
        let first = edition(alloc, 4_608_128, 1, None, &[])?;
        is_told_after(alloc, row, first.shown.as_slice())
    } else {
        is_told_after(alloc, row, &[])
    }
}

// .. where these lines were shown at the cut before.
fn is_told_after(alloc: Global, row: &Row, old: &[ShownLine]) -> Result<bool, NoMemory>
    requires time { 4608128 ≤ row.now.time }
    requires old { RiseByNumber old.now }
{
    let told = edition(alloc, row.time, row.number, row.service, old)?;
    Ok(are_octets(told.datagrams.as_slice(), row.datagrams))
}

fn are_octets(datagrams: &[Sequence<u8>], octets: &[&[u8]]) -> bool {
    datagrams.len() == octets.len()
        && datagrams
            .iter()
            .zip(octets)
            .all(|(datagram, row)| datagram.as_slice() == *row)
}

// What one thread makes and others may read and drop.
fn crosses_threads<T: Send + Sync>(_: &T) {}

#[test]
#[tactic(auto, using(crate::proofs::Climbing::no_lines))]
fn tells_a_track(rt: HostRuntime) -> Result<(), Fail> {
    crosses_threads(&edition(rt.alloc(), 4_608_128, 1, None, &[])?);
    for (index, row) in ROWS.iter().enumerate() {
        assert_eq!(rt; (index, is_told(rt.alloc(), row)?), (index, true));
    }
    Ok(())
}
