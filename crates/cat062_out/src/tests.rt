use crate::{ProfileError, Stamp, TrackLine, read062, write_track};
use asterix_frame::{BlockWriter, Malformed, first_block};
use std::alloc::Global;
use std::test::Fail;

// Records of tracks, the last one with the ends of the ranges.
const BLOCK: [u8; 293] = [
    0x3E, 0x01, 0x25, // CAT and LEN
    0xB7, 0x0F, 0x01, 0x04, 0x01, 0x63, 0x01, 0x46, 0x50, 0x80, 0x00, 0x00, 0x00, 0x00, 0x0E, 0x78,
    0x00, 0x00, 0x00, 0x00, 0x00, 0x01, 0x81, 0x21, 0x01, 0x68, 0x10, 0x03, 0x80, 0x02, 0x29, 0x02,
    0x32, 0xB7, 0x4F, 0x21, 0x04, 0x9A, 0x91, 0xE8, 0x45, 0x31, 0x26, 0xFE, 0x88, 0xFC, 0x01, 0xC9,
    0x9F, 0xFF, 0xD3, 0xFF, 0xD2, 0x0F, 0xBC, 0x00, 0x0D, 0x41, 0x41, 0x01, 0x08, 0x70, 0x2A, 0x1E,
    0x26, 0x03, 0xB1, 0x80, 0x09, 0x49, 0x08, 0xB9, 0xB7, 0x5F, 0x01, 0x04, 0xB1, 0x3D, 0x86, 0x61,
    0x48, 0x00, 0x00, 0x5D, 0x6C, 0xFF, 0xB2, 0xE1, 0x00, 0x00, 0x00, 0x00, 0x04, 0xDB, 0x80, 0x00,
    0x00, 0x01, 0x00, 0x19, 0x81, 0x01, 0x01, 0xF8, 0x40, 0x36, 0x80, 0x1F, 0xF9, 0x1F, 0xF8, 0xB7,
    0x0F, 0x21, 0x04, 0xE3, 0xE0, 0x0E, 0x00, 0x08, 0x08, 0x00, 0x96, 0x74, 0x00, 0x0D, 0xDA, 0x00,
    0x00, 0x00, 0x00, 0x00, 0x0F, 0x81, 0x21, 0x01, 0x18, 0x60, 0x04, 0x04, 0xE0, 0x00, 0x80, 0x02,
    0x7F, 0x02, 0x7E, 0xB7, 0x0F, 0x01, 0x04, 0x8C, 0xD6, 0xDB, 0x5A, 0xF4, 0x56, 0x00, 0x70, 0x9A,
    0x00, 0x5F, 0xA0, 0x00, 0x00, 0x00, 0x00, 0x00, 0x03, 0xC1, 0x21, 0x01, 0x58, 0x20, 0x16, 0x80,
    0x0D, 0x52, 0x0D, 0x52, 0xB7, 0x0F, 0x01, 0x04, 0x8C, 0xD6, 0xDB, 0x5A, 0xF6, 0xD3, 0x01, 0x91,
    0x50, 0x00, 0x51, 0xC6, 0x00, 0x00, 0x00, 0x00, 0x00, 0x10, 0x81, 0x21, 0x01, 0x28, 0x50, 0x02,
    0x02, 0x80, 0x01, 0x41, 0x01, 0x43, 0xB7, 0x0F, 0x01, 0x04, 0xB1, 0x3D, 0x86, 0x61, 0x4C, 0x00,
    0xFF, 0x85, 0x81, 0x00, 0x00, 0xCE, 0x00, 0x00, 0x00, 0x00, 0x00, 0x34, 0x81, 0x21, 0x01, 0x38,
    0x40, 0x04, 0x80, 0x02, 0xED, 0x02, 0xD2, 0xB7, 0x5F, 0x21, 0x04, 0xFF, 0xFE, 0xFD, 0xA8, 0xBF,
    0xFF, 0x80, 0x00, 0x00, 0x7F, 0xFF, 0xFF, 0x80, 0x00, 0x7F, 0xFF, 0x0F, 0xFF, 0x80, 0xFF, 0xFF,
    0xFF, 0xFF, 0xFF, 0xC1, 0x61, 0x01, 0xD8, 0x70, 0xFF, 0x30, 0x31, 0x80, 0x00, 0x80, 0xFF, 0xFF,
    0x00, 0x00,
];

// What a record tells.
#[derive(Clone, Copy)]
struct Row {
    stamp: (u8, u8, u8, u32),
    number: u16,
    position: (i32, i32),
    velocity: (i16, i16),
    // the code, the address and the level
    identity: (Option<u16>, Option<u32>, Option<i16>),
    // PSR, SSR and MDS
    ages: (Option<u8>, Option<u8>, Option<u8>),
    // MON, SPI, CST, TSB and TSE
    bits: (bool, bool, bool, bool, bool),
    accuracy: (u16, u16),
}

const ROWS: [Row; 8] = [
    Row {
        stamp: (1, 99, 1, 4_608_128),
        number: 1,
        position: (0, 3704),
        velocity: (0, 0),
        identity: (None, None, None),
        ages: (None, None, Some(3)),
        bits: (true, false, false, true, false),
        accuracy: (553, 562),
    },
    Row {
        stamp: (154, 145, 232, 4_534_566),
        number: 13,
        position: (-96_004, 117_151),
        velocity: (-45, -46),
        identity: (Some(0o7674), None, Some(945)),
        ages: (Some(42), Some(30), Some(38)),
        bits: (false, true, false, false, true),
        accuracy: (2377, 2233),
    },
    Row {
        stamp: (177, 61, 134, 6_375_424),
        number: 25,
        position: (23_916, -19_743),
        velocity: (0, 0),
        identity: (Some(0o2333), Some(0x000001), None),
        ages: (Some(54), None, None),
        bits: (true, false, true, false, false),
        accuracy: (8185, 8184),
    },
    Row {
        stamp: (227, 224, 14, 2056),
        number: 15,
        position: (38_516, 3546),
        velocity: (0, 0),
        identity: (None, None, Some(-8192)),
        ages: (Some(4), Some(4), None),
        bits: (true, false, false, true, false),
        accuracy: (639, 638),
    },
    Row {
        stamp: (140, 214, 219, 5_960_790),
        number: 3,
        position: (28_826, 24_480),
        velocity: (0, 0),
        identity: (None, None, None),
        ages: (None, Some(22), None),
        bits: (true, true, false, true, false),
        accuracy: (3410, 3410),
    },
    Row {
        stamp: (140, 214, 219, 5_961_427),
        number: 16,
        position: (102_736, 20_934),
        velocity: (0, 0),
        identity: (None, None, None),
        ages: (Some(2), None, Some(2)),
        bits: (true, false, false, true, false),
        accuracy: (321, 323),
    },
    Row {
        stamp: (177, 61, 134, 6_376_448),
        number: 52,
        position: (-31_359, 206),
        velocity: (0, 0),
        identity: (None, None, None),
        ages: (Some(4), None, None),
        bits: (true, false, false, true, false),
        accuracy: (749, 722),
    },
    Row {
        stamp: (255, 254, 253, 11_059_199),
        number: 65_535,
        position: (-8_388_608, 8_388_607),
        velocity: (-32_768, 32_767),
        identity: (Some(0o7777), Some(0xFFFFFF), Some(-32_768)),
        ages: (Some(255), Some(48), Some(49)),
        bits: (true, true, true, true, true),
        accuracy: (65_535, 0),
    },
];

fn is_stamp(stamp: &Stamp, row: &Row) -> bool {
    (stamp.sac, stamp.sic, stamp.service, stamp.tod) == row.stamp
}

fn moves_so(line: &TrackLine, row: &Row) -> bool {
    (line.x, line.y) == row.position
        && (line.vx, line.vy) == row.velocity
        && (line.sx, line.sy) == row.accuracy
}

fn is_seen_so(line: &TrackLine, row: &Row) -> bool {
    line.number == row.number
        && (line.code, line.address, line.level) == row.identity
        && (line.psr, line.ssr, line.mds) == row.ages
        && (line.mono, line.spi, line.coast, line.first, line.ended) == row.bits
}

// The tracks of a datagram of one block.
fn read(alloc: Global, datagram: &[u8]) -> Result<Vec<(Stamp, TrackLine)>, ProfileError> {
    if datagram.is_empty() {
        return Err(ProfileError::NoMemory);
    }
    let Ok(block) = first_block(datagram, 0) else {
        return Err(ProfileError::NoMemory);
    };
    if block.cat != 62 {
        return Err(ProfileError::NoMemory);
    }
    read062(alloc, &block)
}

#[test]
fn reads_tracks_and_writes_them_again(rt: HostRuntime) -> Result<(), Fail> {
    let tracks = read(rt.alloc(), &BLOCK)?;
    assert_eq!(rt; tracks.len(), ROWS.len());
    let mut block = BlockWriter::new(rt.alloc(), 62);
    for ((stamp, line), row) in tracks.iter().zip(ROWS) {
        assert!(rt; is_stamp(stamp, &row), "{}", row.number);
        assert!(rt; moves_so(line, &row), "{}", row.number);
        assert!(rt; is_seen_so(line, &row), "{}", row.number);
        assert_eq!(rt; block.category(), 62);
        assert!(rt; write_track(rt.alloc(), stamp, line, &mut block)?);
    }
    assert_eq!(rt; block.finish().as_slice(), BLOCK.as_slice());
    Ok(())
}

// The track of one plot of Mode S.
fn one_plot() -> (Stamp, TrackLine) {
    let stamp = Stamp {
        sac: 1,
        sic: 99,
        service: 1,
        tod: 4_608_128,
    };
    let line = TrackLine {
        number: 1,
        x: 0,
        y: 3704,
        vx: 0,
        vy: 0,
        code: None,
        address: None,
        level: None,
        psr: None,
        ssr: None,
        mds: Some(3),
        mono: true,
        spi: false,
        coast: false,
        first: true,
        ended: false,
        sx: 553,
        sy: 562,
    };
    (stamp, line)
}

// The octets of that record: 42 of them fill a block.
const ONE_PLOT: [u8; 36] = [
    0x3E, 0x00, 0x24, 0xB7, 0x0F, 0x01, 0x04, 0x01, 0x63, 0x01, 0x46, 0x50, 0x80, 0x00, 0x00, 0x00,
    0x00, 0x0E, 0x78, 0x00, 0x00, 0x00, 0x00, 0x00, 0x01, 0x81, 0x21, 0x01, 0x68, 0x10, 0x03, 0x80,
    0x02, 0x29, 0x02, 0x32,
];

#[test]
fn fills_a_block(rt: HostRuntime) -> Result<(), Fail> {
    let (stamp, line) = one_plot();
    let mut block = BlockWriter::new(rt.alloc(), 62);
    for number in 0..50 {
        assert_eq!(rt; block.category(), 62);
        let added = write_track(rt.alloc(), &stamp, &line, &mut block)?;
        assert_eq!(rt; added, number < 42);
    }
    let octets = block.finish();
    assert_eq!(rt; octets.len(), 1_389);
    assert_eq!(rt; octets.get(3..36), ONE_PLOT.get(3..));
    Ok(())
}

// Two records of one plot, the first from 3 and the second from 36 on.
const TWO_PLOTS: [u8; 69] = [
    0x3E, 0x00, 0x45, // CAT and LEN
    0xB7, 0x0F, 0x01, 0x04, 0x01, 0x63, 0x01, 0x46, 0x50, 0x80, 0x00, 0x00, 0x00, 0x00, 0x0E, 0x78,
    0x00, 0x00, 0x00, 0x00, 0x00, 0x01, 0x81, 0x21, 0x01, 0x68, 0x10, 0x03, 0x80, 0x02, 0x29, 0x02,
    0x32, 0xB7, 0x0F, 0x01, 0x04, 0x01, 0x63, 0x01, 0x46, 0x50, 0x80, 0x00, 0x00, 0x00, 0x00, 0x0E,
    0x78, 0x00, 0x00, 0x00, 0x00, 0x00, 0x01, 0x81, 0x21, 0x01, 0x68, 0x10, 0x03, 0x80, 0x02, 0x29,
    0x02, 0x32,
];

// An octet that stands instead of one of these, and the offset of the record that isn't written so.
const FOREIGN: [(usize, u8, usize); 8] = [
    // a spare bit in each octet of the track status
    (25, 0x83, 3),
    (59, 0x31, 36),
    (60, 0x03, 36),
    (61, 0x6A, 36),
    // a status without ADS, one with an old age that isn't, and one without an age that is
    (61, 0x60, 36),
    (61, 0x78, 36),
    (61, 0x48, 36),
    // an FSPEC without presence bits
    (3, 0x00, 3),
];

// An octet that stands instead of one of these, and the fault's offset and cause.
const FAULTS: [(usize, u8, usize, u8); 8] = [
    (3, 0x97, 28, 7),
    (36, 0xF7, 36, 4),
    (37, 0x8F, 37, 4),
    (39, 0x05, 41, 4),
    (43, 0xA9, 43, 8),
    (62, 0x11, 63, 7),
    (62, 0x90, 62, 7),
    (62, 0x50, 65, 7),
];

// Datagrams of a record that isn't written.
const OTHERS: [&[u8]; 4] = [
    // the FSPEC is an octet too long
    &[
        0x3E, 0x00, 0x25, 0xB7, 0x0F, 0x01, 0x05, 0x00, 0x01, 0x63, 0x01, 0x46, 0x50, 0x80, 0x00,
        0x00, 0x00, 0x00, 0x0E, 0x78, 0x00, 0x00, 0x00, 0x00, 0x00, 0x01, 0x81, 0x21, 0x01, 0x68,
        0x10, 0x03, 0x80, 0x02, 0x29, 0x02, 0x32,
    ],
    // no age
    &[
        0x3E, 0x00, 0x23, 0xB7, 0x0F, 0x01, 0x04, 0x01, 0x63, 0x01, 0x46, 0x50, 0x80, 0x00, 0x00,
        0x00, 0x00, 0x0E, 0x78, 0x00, 0x00, 0x00, 0x00, 0x00, 0x01, 0x81, 0x21, 0x01, 0x78, 0x00,
        0x80, 0x02, 0x29, 0x02, 0x32,
    ],
    // no accuracy
    &[
        0x3E, 0x00, 0x1D, 0xB7, 0x0E, 0x01, 0x63, 0x01, 0x46, 0x50, 0x80, 0x00, 0x00, 0x00, 0x00,
        0x0E, 0x78, 0x00, 0x00, 0x00, 0x00, 0x00, 0x01, 0x81, 0x21, 0x01, 0x68, 0x10, 0x03,
    ],
    // a code of thirteen bits
    &[
        0x3E, 0x00, 0x26, 0xB7, 0x4F, 0x01, 0x04, 0x01, 0x63, 0x01, 0x46, 0x50, 0x80, 0x00, 0x00,
        0x00, 0x00, 0x0E, 0x78, 0x00, 0x00, 0x00, 0x00, 0x1F, 0xBC, 0x00, 0x01, 0x81, 0x21, 0x01,
        0x68, 0x10, 0x03, 0x80, 0x02, 0x29, 0x02, 0x32,
    ],
];

// Why the two records with that octet instead aren't read.
fn refusal(alloc: Global, index: usize, octet: u8) -> Option<ProfileError> {
    let mut datagram = TWO_PLOTS;
    *datagram.get_mut(index)? = octet;
    read(alloc, &datagram).err()
}

#[test]
fn refuses_what_is_not_so_written(rt: HostRuntime) {
    for (index, octet, at) in FOREIGN {
        let got = refusal(rt.alloc(), index, octet);
        assert_eq!(rt; got, Some(ProfileError::Profile { at }));
    }
    for (index, octet, offset, cause) in FAULTS {
        let got = refusal(rt.alloc(), index, octet);
        let fault = Malformed { offset, cause };
        assert_eq!(rt; got, Some(ProfileError::Malformed(fault)));
    }
    for datagram in OTHERS {
        let got = read(rt.alloc(), datagram).err();
        assert_eq!(rt; got, Some(ProfileError::Profile { at: 3 }));
    }
}
