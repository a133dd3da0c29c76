ghost use Rattle.std.specs.Prelude.{◌≤◌, length};

use crate::{Header, Item, read_prefix, read_recording, write_item, write_start, write_start_2};
use plot_geometry::Bias;
use std::alloc::Global;
use std::process::Abort;
use std::test::Fail;

// A report of CAT048 at 4,608,000 (10:00:00).
const REPORT: [u8; 14] = [
    0x30, 0x00, 0x0E, 0xF0, 0x01, 0x01, 0x46, 0x50, 0x0A, 0xA0, 0x01, 0x00, 0x00, 0x00,
];

// The report, and a tick a second after the start.
const RECORDING: [u8; 33] = [
    0x4D, 0x52, 0x54, 0x31, 0x00, 0x00, 0x46, 0x50, 0x00, 0x02, 0x00, 0x00, 0x0E, 0x30, 0x00, 0x0E,
    0xF0, 0x01, 0x01, 0x46, 0x50, 0x0A, 0xA0, 0x01, 0x00, 0x00, 0x00, 0x01, 0x00, 0x00, 0x46, 0x50,
    0x80,
];

#[test]
fn reads_a_recording(rt: HostRuntime) {
    let whole = read_recording(rt.alloc(), &RECORDING).expect(&rt, "a recording");
    assert_eq!(rt;
        (whole.header, whole.start),
        (Some(Header::First), 4_608_000)
    );
    assert_eq!(rt; whole.fault, None);
    assert_eq!(rt;
        whole.items.as_slice(),
        [
            Item::Datagram {
                feed: 0,
                bytes: &REPORT
            },
            Item::Tick(4_608_128)
        ]
        .as_slice()
    );
}

// The second header, the biases of radar 0 from slot 71,999 on, and the report.
const WITH_BIASES: [u8; 40] = [
    0x4D, 0x52, 0x54, 0x32, 0x00, 0x00, 0x46, 0x50, 0x00, 0x03, 0x00, 0x00, 0x00, 0x01, 0x19, 0x3F,
    0x03, 0xE8, 0x00, 0x02, 0x00, 0x00, 0x02, 0x00, 0x00, 0x0E, 0x30, 0x00, 0x0E, 0xF0, 0x01, 0x01,
    0x46, 0x50, 0x0A, 0xA0, 0x01, 0x00, 0x00, 0x00,
];

const BIAS: Item = Item::Bias {
    radar: 0,
    slot: 71_999,
    bias: Bias {
        gain: 1_000,
        range: 2,
        azimuth: 0,
    },
};

#[test]
fn reads_changes_of_biases(rt: HostRuntime) {
    let alloc = rt.alloc();
    let whole = read_recording(alloc, &WITH_BIASES).expect(&rt, "a recording");
    assert_eq!(rt;
        (whole.header, whole.start),
        (Some(Header::Second), 4_608_000)
    );
    assert_eq!(rt;
        whole.items.as_slice(),
        [
            BIAS,
            Item::Datagram {
                feed: 0,
                bytes: &REPORT
            }
        ]
        .as_slice()
    );
    // A slot of 2^34, a gain of 10,001, and an azimuth of -1,001; and the octet after the first
    // magic.
    let mut other = WITH_BIASES;
    other[11] = 4;
    assert_eq!(rt; summary(alloc, &other), Some((4_608_000, 0, Some(9))));
    other = WITH_BIASES;
    other[16] = 0x27;
    other[17] = 0x11;
    assert_eq!(rt; summary(alloc, &other), Some((4_608_000, 0, Some(9))));
    // Of a prefix, what stands whole before its end is judged.
    assert_eq!(rt; prefix_fault(alloc, &other[..18]), Some(9));
    assert_eq!(rt; prefix_fault(alloc, &other[..17]), Some(17));
    other = WITH_BIASES;
    other[20] = 0xFC;
    other[21] = 0x17;
    assert_eq!(rt; summary(alloc, &other), Some((4_608_000, 0, Some(9))));
    other = WITH_BIASES;
    other[3] = 0x31;
    assert_eq!(rt; summary(alloc, &other), Some((4_608_000, 0, Some(9))));
}

// The fault of a prefix.
fn prefix_fault(alloc: Global, bytes: &[u8]) -> Option<usize>
    requires { 9 ≤ length bytes.now }
{
    read_prefix(alloc, bytes).ok()?.fault
}

// The start, how many items there are, and the fault.
fn summary(alloc: Global, bytes: &[u8]) -> Option<(u64, usize, Option<usize>)> {
    let reading = read_recording(alloc, bytes).ok()?;
    Some((reading.start, reading.items.len(), reading.fault))
}

#[test]
fn tells_the_first_fault(rt: HostRuntime) {
    let alloc = rt.alloc();
    // A truncated tick, a truncated header, and an octet that no item begins with.
    assert_eq!(rt;
        summary(alloc, &RECORDING[..32]),
        Some((4_608_000, 1, Some(27)))
    );
    assert_eq!(rt; summary(alloc, &RECORDING[..8]), Some((0, 0, Some(4))));
    let other = [0x4D, 0x52, 0x54, 0x31, 0x00, 0x00, 0x46, 0x50, 0x00, 0x03];
    assert_eq!(rt; summary(alloc, &other), Some((4_608_000, 0, Some(9))));
    // Of a prefix it isn't known that the tick is truncated.
    let prefix = read_prefix(alloc, &RECORDING[..32]).expect(&rt, "a prefix");
    assert_eq!(rt; (prefix.items.len(), prefix.fault), (1, Some(32)));
}

#[test]
fn reads_blocks_alone(rt: HostRuntime) {
    let alloc = rt.alloc();
    let raw = read_recording(alloc, &REPORT).expect(&rt, "a block");
    assert_eq!(rt; (raw.start, raw.fault), (4_608_000, None));
    assert_eq!(rt;
        raw.items.as_slice(),
        [
            Item::Datagram {
                feed: 0,
                bytes: &REPORT
            },
            Item::Tick(4_608_128)
        ]
        .as_slice()
    );
    assert_eq!(rt; summary(alloc, &[]), Some((0, 0, None)));
    // A sector message without its sector: its time of day isn't read.
    let malformed = [0x22, 0x00, 0x07, 0x30, 0x46, 0x50, 0x80];
    assert_eq!(rt; summary(alloc, &malformed), Some((0, 2, None)));
    // After a block a head with a length of 2: no last tick follows.
    let head = [
        0x22, 0x00, 0x07, 0x20, 0x46, 0x50, 0x80, 0x30, 0x00, 0x02, 0x00,
    ];
    assert_eq!(rt; summary(alloc, &head), Some((4_608_128, 1, Some(7))));
}

#[test]
fn ticks_go_on_over_midnight(rt: HostRuntime) {
    // Times of day of 11,059,100 and 5.
    let blocks = [
        0x22, 0x00, 0x07, 0x20, 0xA8, 0xBF, 0x9C, 0x22, 0x00, 0x07, 0x20, 0x00, 0x00, 0x05,
    ];
    let raw = read_recording(rt.alloc(), &blocks).expect(&rt, "two blocks");
    assert_eq!(rt; (raw.start, raw.fault), (11_059_072, None));
    assert_eq!(rt;
        raw.items.as_slice(),
        [
            Item::Datagram {
                feed: 0,
                bytes: &blocks[..7]
            },
            Item::Tick(11_059_200),
            Item::Datagram {
                feed: 0,
                bytes: &blocks[7..]
            },
            Item::Tick(11_059_328),
        ]
        .as_slice()
    );
}

#[test]
fn writes_a_recording(rt: HostRuntime) -> Result<(), Fail> {
    let datagram = Item::Datagram {
        feed: 0,
        bytes: &REPORT,
    };
    assert_eq!(rt; write_start(4_608_000).as_slice(), &RECORDING[..9]);
    assert_eq!(rt; write_start_2(4_608_000).as_slice(), &WITH_BIASES[..9]);
    assert_eq!(rt;
        write_item(rt.alloc(), &BIAS)?.as_slice(),
        &WITH_BIASES[9..22]
    );
    assert_eq!(rt;
        write_item(rt.alloc(), &datagram)?.as_slice(),
        &RECORDING[9..27]
    );
    assert_eq!(rt;
        write_item(rt.alloc(), &Item::Tick(4_608_128))?.as_slice(),
        &RECORDING[27..]
    );
    Ok(())
}
