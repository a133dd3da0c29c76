use crate::{NotPlot, ReadError, Report, read048};
use asterix_frame::{Malformed, blocks, first_block};
use std::alloc::Global;
use std::test::Fail;

// The reports of a datagram that begins with a block of category 48.
fn read(alloc: Global, datagram: &[u8]) -> Result<Vec<Report>, ReadError> {
    if datagram.is_empty() {
        return Err(ReadError::NoMemory);
    }
    let block = first_block(datagram, 0)?;
    if block.cat != 48 {
        return Err(ReadError::NoMemory);
    }
    read048(alloc, &block)
}

// A record with each item of the category once.
const ALL_ITEMS: [u8; 106] = [
    0x30, 0x00, 0x6A, 0xFF, 0xFF, 0xFF, 0xFE, // FSPEC
    0x19, 0xC9, // 010
    0x46, 0x50, 0x0A, // 140
    0xB5, 0x81, 0x02, // 020: TYP 5, SIM, SPI, TST
    0x01, 0x02, 0xC0, 0x00, // 040
    0x0E, 0x00, // 070
    0x05, 0x78, // 090
    0xFE, 0x11, 0x12, 0x13, 0x14, 0x15, 0x16, 0x17, // 130
    0xAB, 0xCD, 0xEF, // 220
    0x20, 0x20, 0x20, 0x20, 0x20, 0x20, // 240
    0x01, 0x21, 0x22, 0x23, 0x24, 0x25, 0x26, 0x27, 0x28, // 250
    0x00, 0x31, // 161
    0x41, 0x42, 0x43, 0x44, // 042
    0x51, 0x52, 0x53, 0x54, // 200
    0x61, 0x62, // 170
    0x71, 0x72, 0x73, 0x74, // 210
    0x03, 0x05, 0x06, // 030
    0x81, 0x82, // 080
    0x91, 0x92, 0x93, 0x94, // 100
    0xA1, 0xA2, // 110
    0xC0, 0xB1, 0xB2, 0x01, 0xC1, 0xC2, 0xC3, 0xC4, 0xC5, 0xC6, // 120
    0xD1, 0xD2, // 230
    0xE1, 0xE2, 0xE3, 0xE4, 0xE5, 0xE6, 0xE7, // 260
    0xF1, // 055
    0xF2, 0xF3, // 050
    0xF4, // 065
    0xF5, 0xF6, // 060
    0x02, 0x00, // SP
    0x03, 0x00, 0x00, // RE
];

#[test]
fn reads_each_item(rt: HostRuntime) -> Result<(), Fail> {
    let reports = read(rt.alloc(), &ALL_ITEMS)?;
    assert_eq!(rt; reports.len(), 1);
    let report = reports[0];
    assert_eq!(rt; report.source, Some((25, 201)));
    assert_eq!(rt; report.tod, Some(4_608_010));
    assert_eq!(rt; report.kind, Some(5));
    assert_eq!(rt; (report.simulated, report.test), (true, true));
    assert_eq!(rt; (report.spi, report.monitor), (true, false));
    assert_eq!(rt; report.polar, Some((258, 49_152)));
    assert_eq!(rt; report.code, Some(3_584));
    assert_eq!(rt; report.level, Some(1_400));
    assert_eq!(rt; report.address, Some(11_259_375));
    Ok(())
}

// The report that docs/INTERFACE.md decodes by hand, octet by octet.
const BY_HAND: [u8; 22] = [
    0x30, 0x00, 0x16, 0xFD, 0x80, 0x01, 0x02, 0x46, 0x50, 0x0A, 0xA0, 0x01, 0x00, 0x40, 0x00, 0x0E,
    0x53, 0x05, 0x78, 0x40, 0x62, 0x1D,
];

#[test]
fn reads_the_report_decoded_by_hand(rt: HostRuntime) -> Result<(), Fail> {
    let reports = read(rt.alloc(), &BY_HAND)?;
    assert_eq!(rt; reports.len(), 1);
    let plot = reports[0].plot().expect(&rt, "a plot");
    assert_eq!(rt; (plot.sac, plot.sic, plot.tod), (1, 2, 4_608_010));
    assert_eq!(rt; (plot.rho, plot.theta), (256, 16_384));
    assert_eq!(rt; (plot.kind, plot.spi), (5, false));
    assert_eq!(rt;
        (plot.code, plot.level, plot.address),
        (Some(0o7123), Some(1_400), Some(0x40_621D))
    );
    Ok(())
}

// Blocks that each have a fault, and what is told of each. The offsets are in the whole datagram.
const FAULTY_BLOCKS: [u8; 120] = [
    0x30, 0x00, 0x04, 0x81, // the block ends after an FSPEC octet with FX
    0x30, 0x00, 0x0B, 0x41, 0x01, 0x01, 0x01, 0x80, 0xA8, 0xC0, 0x00, // an FRN after the table, before the time of day
    0x30, 0x00, 0x05, 0x80, 0x01, // a fixed item
    0x30, 0x00, 0x05, 0x20, 0x01, // an extended item
    0x30, 0x00, 0x05, 0x01, 0x20, // a repeated item without its number
    0x30, 0x00, 0x07, 0x01, 0x20, 0x01, 0x00, // a repeated item
    0x30, 0x00, 0x07, 0x01, 0x01, 0x01, 0x04, // an explicit item without its length
    0x30, 0x00, 0x09, 0x01, 0x01, 0x01, 0x04, 0x03, 0x00, // an explicit item
    0x30, 0x00, 0x05, 0x02, 0x01, // a primary field
    0x30, 0x00, 0x06, 0x02, 0xC0, 0x11, // a subfield
    0x30, 0x00, 0x09, 0x01, 0x01, 0x04, 0x40, 0x01, 0x00, // a repeated subfield
    0x30, 0x00, 0x08, 0x01, 0x01, 0x01, 0x04, 0x00, // SP of length 0
    0x30, 0x00, 0x09, 0x01, 0x01, 0x01, 0x06, 0x01, 0x00, // RE of length 0, after SP
    0x30, 0x00, 0x07, 0x01, 0x01, 0x04, 0x21, // an unknown subfield, before the primary field ends
    0x30, 0x00, 0x06, 0x02, 0x01, 0x80, // one after the first octet of the primary field
    0x30, 0x00, 0x07, 0x60, 0xA8, 0xC0, 0x00, // a time of day of a day, before an item that is cut short
    0x30, 0x00, 0x0A, 0x10, 0x00, 0x00, 0x00, 0x00, 0x80, 0x01, // the second record's item
];

const FAULTS: [(usize, u8); 17] = [
    (4, 3),
    (11, 4),
    (19, 5),
    (24, 5),
    (30, 5),
    (35, 5),
    (44, 5),
    (51, 5),
    (57, 5),
    (62, 5),
    (70, 5),
    (80, 6),
    (89, 6),
    (96, 7),
    (102, 7),
    (107, 8),
    (119, 5),
];

#[test]
fn tells_the_first_fault(rt: HostRuntime) -> Result<(), Fail> {
    let blocks = blocks(rt.alloc(), &FAULTY_BLOCKS)?;
    assert_eq!(rt; blocks.len(), FAULTS.len());
    for (block, (offset, cause)) in blocks.iter().zip(FAULTS) {
        assert_eq!(rt; block.cat, 48);
        let fault = Malformed { offset, cause };
        let got = read048(rt.alloc(), block).err();
        assert_eq!(rt; got, Some(ReadError::Malformed(fault)));
    }
    Ok(())
}

// A datagram of one block, and what is told of it: its first fault, or the number of its reports.
const FRAMES: [(&[u8], Result<usize, (usize, u8)>); 9] = [
    (&[0x30, 0x00, 0x03], Ok(0)),
    (&[0x30, 0x00, 0x04, 0x81], Err((4, 3))),
    (
        &[0x30, 0x00, 0x08, 0x01, 0x01, 0x01, 0x01, 0x80],
        Err((7, 4)),
    ),
    (&[0x30, 0x00, 0x05, 0x80, 0x01], Err((4, 5))),
    (
        &[0x30, 0x00, 0x08, 0x01, 0x01, 0x01, 0x02, 0x00],
        Err((7, 6)),
    ),
    (&[0x30, 0x00, 0x06, 0x02, 0x01, 0x80], Err((5, 7))),
    (&[0x30, 0x00, 0x07, 0x40, 0xA8, 0xC0, 0x00], Err((4, 8))),
    (&[0x30, 0x00, 0x07, 0x40, 0xA8, 0xBF, 0xFF], Ok(1)),
    (&[0x30, 0x00, 0x06, 0x01, 0x20, 0x00], Ok(1)),
];

#[test]
fn judges_frames(rt: HostRuntime) {
    for (datagram, want) in FRAMES {
        match read(rt.alloc(), datagram) {
            Ok(reports) => {
                assert_eq!(rt; want, Ok(reports.len()));
                for report in &reports {
                    assert_eq!(rt; report.plot(), Err(NotPlot::NoSource));
                }
            }
            Err(ReadError::Malformed(fault)) => {
                assert_eq!(rt; want, Err((fault.offset, fault.cause)));
            }
            Err(ReadError::NoMemory) => assert!(rt; false, "memory is wanting"),
        }
    }
}

// Codes that are valid, not validated, garbled, and smoothed.
const CODES: [u8; 15] = [
    0x30, 0x00, 0x0F, 0x08, 0x0F, 0xFF, 0x08, 0x80, 0x01, 0x08, 0x40, 0x01, 0x08, 0x3A, 0xBC,
];

// Levels that are positive, -1, the least, the greatest, not validated, and garbled.
const LEVELS: [u8; 21] = [
    0x30, 0x00, 0x15, 0x04, 0x00, 0x01, 0x04, 0x3F, 0xFF, 0x04, 0x20, 0x00, 0x04, 0x1F, 0xFF, 0x04,
    0x80, 0x01, 0x04, 0x40, 0x01,
];

#[test]
fn takes_codes_and_levels(rt: HostRuntime) -> Result<(), Fail> {
    let codes = [Some(4_095), None, None, Some(2_748)];
    let reports = read(rt.alloc(), &CODES)?;
    assert_eq!(rt; reports.len(), codes.len());
    for (report, code) in reports.iter().zip(codes) {
        assert_eq!(rt; report.code, code);
    }
    let levels = [Some(1), Some(-1), Some(-8_192), Some(8_191), None, None];
    let reports = read(rt.alloc(), &LEVELS)?;
    assert_eq!(rt; reports.len(), levels.len());
    for (report, level) in reports.iter().zip(levels) {
        assert_eq!(rt; report.level, level);
    }
    Ok(())
}

// Kinds 0 and 7 alone, and kind 1 with one bit each: SIM, RDP, SPI, RAB, TST, and the others of the
// first extension.
const DESCRIPTORS: [u8; 22] = [
    0x30, 0x00, 0x16, 0x20, 0x00, 0x20, 0xE0, 0x20, 0x30, 0x20, 0x28, 0x20, 0x24, 0x20, 0x22, 0x20,
    0x21, 0x80, 0x20, 0x21, 0x7F, 0xFE,
];

#[test]
fn takes_descriptors(rt: HostRuntime) -> Result<(), Fail> {
    let reports = read(rt.alloc(), &DESCRIPTORS)?;
    assert_eq!(rt; reports.len(), 8);
    let kinds = [0, 7, 1, 1, 1, 1, 1, 1];
    for ((place, report), kind) in reports.iter().enumerate().zip(kinds) {
        assert_eq!(rt; report.kind, Some(kind));
        assert_eq!(rt; report.simulated, place == 2);
        assert_eq!(rt; report.spi, place == 4);
        assert_eq!(rt; report.monitor, place == 5);
        assert_eq!(rt; report.test, place == 6);
    }
    Ok(())
}

// Reports that are no plots, in the order in which the reasons are told, each with reasons of later
// ones, and a plot.
const PLOTS: [u8; 83] = [
    0x30, 0x00, 0x53, 0x40, 0x00, 0x00, 0x01, 0x80, 0x01, 0x02, 0xC0, 0x01, 0x02, 0x46, 0x50, 0x0A,
    0xD0, 0x01, 0x02, 0x46, 0x50, 0x0A, 0x01, 0x00, 0x40, 0x00, 0xF0, 0x01, 0x02, 0x46, 0x50, 0x0A,
    0x13, 0x80, 0x01, 0x00, 0x40, 0x00, 0xF0, 0x01, 0x02, 0x46, 0x50, 0x0A, 0xB3, 0x80, 0x01, 0x00,
    0x40, 0x00, 0xF0, 0x01, 0x02, 0x46, 0x50, 0x0A, 0xB2, 0x01, 0x00, 0x40, 0x00, 0xF0, 0x01, 0x02,
    0x46, 0x50, 0x0A, 0xA2, 0x01, 0x00, 0x40, 0x00, 0xF0, 0x01, 0x02, 0x46, 0x50, 0x0A, 0xA4, 0x01,
    0x00, 0x40, 0x00,
];

const NOT_PLOTS: [NotPlot; 8] = [
    NotPlot::NoSource,
    NotPlot::NoTime,
    NotPlot::NoPosition,
    NotPlot::NoDetection,
    NotPlot::NoDetection,
    NotPlot::Test,
    NotPlot::Simulated,
    NotPlot::Monitor,
];

#[test]
fn tells_plots(rt: HostRuntime) -> Result<(), Fail> {
    let reports = read(rt.alloc(), &PLOTS)?;
    assert_eq!(rt; reports.len(), 9);
    for (report, reason) in reports.iter().zip(NOT_PLOTS) {
        assert_eq!(rt; report.plot(), Err(reason));
    }
    let plot = reports[8].plot().expect(&rt, "a plot");
    assert_eq!(rt; (plot.sac, plot.sic, plot.tod), (1, 2, 4_608_010));
    assert_eq!(rt; (plot.rho, plot.theta), (256, 16_384));
    assert_eq!(rt; (plot.kind, plot.spi), (5, true));
    assert_eq!(rt; (plot.code, plot.level, plot.address), (None, None, None));
    Ok(())
}
