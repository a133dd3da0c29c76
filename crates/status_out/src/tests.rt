use crate::{Line065, RadarLine, read063, read065, write063, write065_end, write065_status};
use asterix_frame::{Block, Malformed, first_block};
use cat062_out::{ProfileError, Stamp};
use std::alloc::Global;
use std::test::Fail;

// SAC and SIC of the system, its service, and the time of day
type StampRow = (u8, u8, u8, u32);
// SAC and SIC of a radar, the state of its connection, and its biases of time, range and azimuth
type RadarRow = (u8, u8, u8, i16, i16, i16, i16);

fn stamp_of(row: StampRow) -> Option<Stamp> {
    let (sac, sic, service, tod) = row;
    if tod >= 11_059_200 {
        return None;
    }
    Some(Stamp {
        sac,
        sic,
        service,
        tod,
    })
}

fn line_of(row: RadarRow) -> Option<RadarLine> {
    let (sac, sic, con, time_ms, gain, range, azimuth) = row;
    if con > 3 {
        return None;
    }
    Some(RadarLine {
        sac,
        sic,
        con,
        time_ms,
        gain,
        range,
        azimuth,
    })
}

// The state of one radar, and its block: each state of the connection, and biases of either sign.
const STATES: [(StampRow, RadarRow, [u8; 22]); 5] = [
    (
        (1, 99, 1, 4_608_128),
        (1, 1, 3, 0, 0, 0, 0),
        [
            0x3F, 0x00, 0x16, 0xFF, 0x80, 0x01, 0x63, 0x01, 0x46, 0x50, 0x80, 0x01, 0x01, 0xC0,
            0x00, 0x00, 0x00, 0x00, 0x00, 0x00, 0x00, 0x00,
        ],
    ),
    (
        (1, 99, 1, 4_608_128),
        (1, 1, 0, 0, 1_000, 2, 0),
        [
            0x3F, 0x00, 0x16, 0xFF, 0x80, 0x01, 0x63, 0x01, 0x46, 0x50, 0x80, 0x01, 0x01, 0x00,
            0x00, 0x00, 0x03, 0xE8, 0x00, 0x02, 0x00, 0x00,
        ],
    ),
    (
        (203, 200, 140, 4_608_322),
        (1, 8, 3, -10_000, -1_000, -1_000, -1),
        [
            0x3F, 0x00, 0x16, 0xFF, 0x80, 0xCB, 0xC8, 0x8C, 0x46, 0x51, 0x42, 0x01, 0x08, 0xC0,
            0xD8, 0xF0, 0xFC, 0x18, 0xFC, 0x18, 0xFF, 0xFF,
        ],
    ),
    (
        (0, 0, 0, 11_059_199),
        (255, 254, 1, 10_000, 258, -32_768, 32_767),
        [
            0x3F, 0x00, 0x16, 0xFF, 0x80, 0x00, 0x00, 0x00, 0xA8, 0xBF, 0xFF, 0xFF, 0xFE, 0x40,
            0x27, 0x10, 0x01, 0x02, 0x80, 0x00, 0x7F, 0xFF,
        ],
    ),
    (
        (0, 0, 0, 0),
        (0, 1, 2, -1, -2, 3, -4),
        [
            0x3F, 0x00, 0x16, 0xFF, 0x80, 0x00, 0x00, 0x00, 0x00, 0x00, 0x00, 0x00, 0x01, 0x80,
            0xFF, 0xFF, 0xFF, 0xFE, 0x00, 0x03, 0xFF, 0xFC,
        ],
    ),
];

// Whether the state is written so, and so read.
fn is_state(alloc: Global, stamp: StampRow, radar: RadarRow, octets: &[u8]) -> Option<bool> {
    let (stamp, line) = (stamp_of(stamp)?, line_of(radar)?);
    let written = write063(alloc, &stamp, &[line]).ok()?;
    let block = first_block(octets.get(..22)?, 0).ok()?;
    if block.cat != 63 {
        return None;
    }
    let read = read063(alloc, &block).ok()?;
    Some(written.as_slice() == octets && read.as_slice() == [(stamp, line)].as_slice())
}

#[test]
fn writes_and_reads_states_of_radars(rt: HostRuntime) {
    for (stamp, radar, octets) in STATES {
        assert_eq!(rt; is_state(rt.alloc(), stamp, radar, &octets), Some(true));
    }
}

// What is told of the service, and its block.
const SERVICE: [(StampRow, bool, u8, [u8; 12]); 6] = [
    (
        (1, 99, 1, 4_608_128),
        true,
        1,
        [
            0x41, 0x00, 0x0C, 0xF4, 0x01, 0x63, 0x01, 0x01, 0x46, 0x50, 0x80, 0x40,
        ],
    ),
    (
        (1, 99, 1, 4_608_128),
        true,
        0,
        [
            0x41, 0x00, 0x0C, 0xF4, 0x01, 0x63, 0x01, 0x01, 0x46, 0x50, 0x80, 0x00,
        ],
    ),
    (
        (1, 99, 1, 4_608_128),
        false,
        1,
        [
            0x41, 0x00, 0x0C, 0xF8, 0x01, 0x63, 0x02, 0x01, 0x46, 0x50, 0x80, 0x01,
        ],
    ),
    // the end of edition 256
    (
        (1, 99, 1, 4_608_128),
        false,
        0,
        [
            0x41, 0x00, 0x0C, 0xF8, 0x01, 0x63, 0x02, 0x01, 0x46, 0x50, 0x80, 0x00,
        ],
    ),
    (
        (203, 200, 140, 0),
        true,
        1,
        [
            0x41, 0x00, 0x0C, 0xF4, 0xCB, 0xC8, 0x01, 0x8C, 0x00, 0x00, 0x00, 0x40,
        ],
    ),
    (
        (203, 200, 140, 11_059_199),
        false,
        255,
        [
            0x41, 0x00, 0x0C, 0xF8, 0xCB, 0xC8, 0x02, 0x8C, 0xA8, 0xBF, 0xFF, 0xFF,
        ],
    ),
];

// Whether it is written so, and so read.
fn is_service(
    alloc: Global,
    stamp: StampRow,
    state: bool,
    number: u8,
    octets: &[u8],
) -> Option<bool> {
    let stamp = stamp_of(stamp)?;
    let (written, line) = if !state {
        (
            write065_end(alloc, &stamp, number),
            Line065::End(stamp, number),
        )
    } else if number <= 1 {
        (
            write065_status(alloc, &stamp, number),
            Line065::Status(stamp, number),
        )
    } else {
        return None;
    };
    let block = first_block(octets.get(..12)?, 0).ok()?;
    if block.cat != 65 {
        return None;
    }
    let read = read065(alloc, &block).ok()?;
    Some(written.ok()?.as_slice() == octets && read.as_slice() == [line].as_slice())
}

#[test]
fn writes_and_reads_the_service(rt: HostRuntime) {
    for (stamp, state, number, octets) in SERVICE {
        assert_eq!(rt;
            is_service(rt.alloc(), stamp, state, number, &octets),
            Some(true)
        );
    }
}

// What is told of a block that isn't so written.
fn refusal_of(alloc: Global, datagram: &[u8]) -> Option<ProfileError> {
    if datagram.is_empty() {
        return None;
    }
    let block = first_block(datagram, 0).ok()?;
    match block.cat {
        63 => read063(alloc, &block).err(),
        65 => read065(alloc, &block).err(),
        _ => None,
    }
}

// A block, and the offset and the cause of its fault, or no cause where a record isn't so written.
const REFUSALS: [(&[u8], usize, Option<u8>); 17] = [
    // a spare bit of the state of the connection, and an extension of it
    (
        &[
            0x3F, 0x00, 0x16, 0xFF, 0x80, 0x01, 0x63, 0x01, 0x46, 0x50, 0x80, 0x01, 0x01, 0xE0,
            0x00, 0x00, 0x00, 0x00, 0x00, 0x00, 0x00, 0x00,
        ],
        3,
        None,
    ),
    (
        &[
            0x3F, 0x00, 0x17, 0xFF, 0x80, 0x01, 0x63, 0x01, 0x46, 0x50, 0x80, 0x01, 0x01, 0xC1,
            0x00, 0x00, 0x00, 0x00, 0x00, 0x00, 0x00, 0x00, 0x00,
        ],
        3,
        None,
    ),
    // a longer FSPEC, and an item left out
    (
        &[
            0x3F, 0x00, 0x17, 0xFF, 0x81, 0x00, 0x01, 0x63, 0x01, 0x46, 0x50, 0x80, 0x01, 0x01,
            0xC0, 0x00, 0x00, 0x00, 0x00, 0x00, 0x00, 0x00, 0x00,
        ],
        3,
        None,
    ),
    (
        &[
            0x3F, 0x00, 0x13, 0xFE, 0x01, 0x63, 0x01, 0x46, 0x50, 0x80, 0x01, 0x01, 0xC0, 0x00,
            0x00, 0x00, 0x00, 0x00, 0x00,
        ],
        3,
        None,
    ),
    // after a record that is written so; a record without items, and a fault
    (
        &[
            0x3F, 0x00, 0x17, 0xFF, 0x80, 0x01, 0x63, 0x01, 0x46, 0x50, 0x80, 0x01, 0x01, 0xC0,
            0x00, 0x00, 0x00, 0x00, 0x00, 0x00, 0x00, 0x00, 0x00,
        ],
        22,
        None,
    ),
    (
        &[
            0x3F, 0x00, 0x17, 0xFF, 0x80, 0x01, 0x63, 0x01, 0x46, 0x50, 0x80, 0x01, 0x01, 0xC0,
            0x00, 0x00, 0x00, 0x00, 0x00, 0x00, 0x00, 0x00, 0x01,
        ],
        23,
        Some(3),
    ),
    // a time of a whole day, and a ninth item
    (&[0x3F, 0x00, 0x07, 0x20, 0xA8, 0xC0, 0x00], 4, Some(8)),
    (&[0x3F, 0x00, 0x05, 0xFF, 0xC0], 4, Some(4)),
    // the first of two decides
    (&[0x3F, 0x00, 0x05, 0x00, 0x02], 3, None),
    (&[0x3F, 0x00, 0x05, 0x80, 0x00], 4, Some(5)),
    // a service version, which is never written
    (
        &[
            0x41, 0x00, 0x0D, 0xF6, 0x01, 0x63, 0x01, 0x01, 0x46, 0x50, 0x80, 0x40, 0x01,
        ],
        3,
        Some(4),
    ),
    // a state that isn't written, a spare bit of one, and another type of message
    (
        &[
            0x41, 0x00, 0x0C, 0xF4, 0x01, 0x63, 0x01, 0x01, 0x46, 0x50, 0x80, 0x80,
        ],
        3,
        None,
    ),
    (
        &[
            0x41, 0x00, 0x0C, 0xF4, 0x01, 0x63, 0x01, 0x01, 0x46, 0x50, 0x80, 0x60,
        ],
        3,
        None,
    ),
    (
        &[
            0x41, 0x00, 0x0C, 0xF8, 0x01, 0x63, 0x03, 0x01, 0x46, 0x50, 0x80, 0x01,
        ],
        3,
        None,
    ),
    // a state with a batch number, the end of a batch with a state, and without its number
    (
        &[
            0x41, 0x00, 0x0C, 0xF8, 0x01, 0x63, 0x01, 0x01, 0x46, 0x50, 0x80, 0x01,
        ],
        3,
        None,
    ),
    (
        &[
            0x41, 0x00, 0x0D, 0xFC, 0x01, 0x63, 0x02, 0x01, 0x46, 0x50, 0x80, 0x01, 0x00,
        ],
        3,
        None,
    ),
    (
        &[
            0x41, 0x00, 0x0B, 0xF0, 0x01, 0x63, 0x02, 0x01, 0x46, 0x50, 0x80,
        ],
        3,
        None,
    ),
];

#[test]
fn refuses_what_is_not_written(rt: HostRuntime) {
    for (datagram, offset, cause) in REFUSALS {
        let wanted = match cause {
            Some(cause) => ProfileError::Malformed(Malformed { offset, cause }),
            None => ProfileError::Profile { at: offset },
        };
        assert_eq!(rt;
            refusal_of(rt.alloc(), datagram),
            Some(wanted),
            "{datagram:?}"
        );
    }
}

// A radar that isn't connected, with biases below 0, and one that is operational, with biases above.
const TWO: [u8; 41] = [
    0x3F, 0x00, 0x29, 0xFF, 0x80, 0xCB, 0xC8, 0x8C, 0x46, 0x51, 0x42, 0x01, 0x08, 0xC0, 0xD8, 0xF0,
    0xFC, 0x18, 0xFC, 0x18, 0xFF, 0xFF, 0xFF, 0x80, 0xCB, 0xC8, 0x8C, 0x46, 0x51, 0x42, 0x01, 0x09,
    0x00, 0x00, 0x08, 0x03, 0xE8, 0x00, 0x02, 0x00, 0x40,
];

#[test]
fn writes_and_reads_two_radars(rt: HostRuntime) -> Result<(), Fail> {
    let stamp = stamp_of((203, 200, 140, 4_608_322)).expect(&rt, "a stamp");
    let first = line_of((1, 8, 3, -10_000, -1_000, -1_000, -1)).expect(&rt, "a state");
    let second = line_of((1, 9, 0, 8, 1_000, 2, 64)).expect(&rt, "a state");
    let octets = write063(rt.alloc(), &stamp, &[first, second])?;
    assert_eq!(rt; octets.as_slice(), TWO.as_slice());
    let block = Block {
        cat: 63,
        at: 3,
        body: &TWO[3..],
    };
    let read = read063(rt.alloc(), &block).expect(&rt, "two states");
    assert_eq!(rt;
        read.as_slice(),
        [(stamp, first), (stamp, second)].as_slice()
    );
    Ok(())
}

// 32 radars stand in one block.
#[test]
fn fits_all_radars(rt: HostRuntime) -> Result<(), Fail> {
    let line = line_of((1, 1, 3, 0, 0, 0, 0)).expect(&rt, "a state");
    let stamp = stamp_of((1, 99, 1, 0)).expect(&rt, "a stamp");
    let octets = write063(rt.alloc(), &stamp, &[line; 32])?;
    assert_eq!(rt;
        (octets.len(), octets.get(..3)),
        (611, Some([0x3F, 0x02, 0x63].as_slice()))
    );
    Ok(())
}
