use crate::{
    Block, BlockWriter, BlocksError, Malformed, Packing, RecordWriter, Uap, blocks, first_block,
    first_record, records, walk_items, walk_record,
};
use std::alloc::Global;
use std::test::Fail;

// A datagram, and the offset and the cause of its first fault.
const FAULTS: [(&[u8], usize, u8); 17] = [
    (&[0x30, 0x00], 0, 1),
    (&[0x30, 0x00, 0x02], 1, 2),
    (&[0x15, 0x00, 0x05, 0xAA, 0xBB, 0x30, 0x00, 0x04], 6, 2),
    (&[0x30, 0x00, 0x04, 0x81], 4, 3),
    (&[0x30, 0x00, 0x08, 0x01, 0x01, 0x01, 0x01, 0x80], 7, 4),
    // the spare bit comes before the end of the FSPEC
    (&[0x30, 0x00, 0x08, 0x01, 0x01, 0x01, 0x01, 0x81], 7, 4),
    (&[0x30, 0x00, 0x05, 0x80, 0x01], 4, 5),
    // an extended item, and a repetitive subfield, that aren't at their end with the block
    (&[0x30, 0x00, 0x06, 0x20, 0x01, 0x01], 4, 5),
    (
        &[0x30, 0x00, 0x0A, 0x01, 0x01, 0x04, 0x40, 0x01, 0x00, 0x00],
        6,
        5,
    ),
    (&[0x30, 0x00, 0x08, 0x01, 0x01, 0x01, 0x02, 0x00], 7, 6),
    (&[0x30, 0x00, 0x06, 0x02, 0x01, 0x80], 5, 7),
    // the unknown bit comes before the end of the primary field
    (&[0x30, 0x00, 0x07, 0x01, 0x01, 0x04, 0x21], 6, 7),
    (&[0x30, 0x00, 0x07, 0x40, 0xA8, 0xC0, 0x00], 4, 8),
    // the time of day is whole, and so judged, before the next item is cut short
    (&[0x30, 0x00, 0x07, 0x60, 0xA8, 0xC0, 0x00], 4, 8),
    // a record, and one with a fault
    (
        &[
            0x30, 0x00, 0x0B, 0x40, 0xA8, 0xBF, 0xFF, 0x40, 0xA8, 0xC0, 0x00,
        ],
        8,
        8,
    ),
    (
        &[0x30, 0x00, 0x09, 0x40, 0xA8, 0xBF, 0xFF, 0x80, 0x01],
        8,
        5,
    ),
    (&[0x30, 0x00, 0x05, 0x00, 0x01], 5, 3),
];

// The first fault of a datagram whose first block is one of target reports.
fn fault_of(alloc: Global, datagram: &[u8]) -> Option<BlocksError> {
    match blocks(alloc, datagram) {
        Ok(found) => records(alloc, Uap::Cat048, found.first()?).err(),
        Err(error) => Some(error),
    }
}

#[test]
fn tells_the_first_fault(rt: HostRuntime) {
    for (datagram, offset, cause) in FAULTS {
        let fault = Malformed { offset, cause };
        let got = fault_of(rt.alloc(), datagram);
        assert_eq!(rt; got, Some(BlocksError::Malformed(fault)), "{datagram:?}");
    }
}

#[test]
fn cuts_a_datagram(rt: HostRuntime) {
    let none = blocks(rt.alloc(), &[]).expect(&rt, "a datagram of no octets");
    assert!(rt; none.is_empty());
    let datagram = [0x30, 0x00, 0x03, 0x15, 0x00, 0x05, 0xAA, 0xBB];
    let two = blocks(rt.alloc(), &datagram).expect(&rt, "two blocks");
    assert_eq!(rt; two.len(), 2);
    assert_eq!(rt; (two[0].cat, two[0].at, two[0].end()), (0x30, 3, 3));
    let second = first_block(&datagram, 3).expect(&rt, "a block");
    assert_eq!(rt; (second.cat, second.at, second.end()), (0x15, 6, 8));
    assert_eq!(rt; two[1].body, second.body);
}

// Target reports: with the last time of a day, without items, and with a source and a time.
const BODY: [u8; 11] = [
    0x40, 0xA8, 0xBF, 0xFF, 0x00, 0xC0, 0x01, 0x02, 0x00, 0x00, 0x00,
];

#[test]
fn reads_the_records_of_a_body(rt: HostRuntime) {
    let block = Block {
        cat: 48,
        at: 3,
        body: &BODY,
    };
    let found = records(rt.alloc(), Uap::Cat048, &block).expect(&rt, "three records");
    assert_eq!(rt; found.len(), 3);
    let time = found[0].time_of_day(Uap::Cat048, block.body);
    assert_eq!(rt; time, Some(11_059_199));
    let last = &found[2];
    assert_eq!(rt; last.frns.as_slice(), [(1, 6, 8), (2, 8, 11)].as_slice());
    assert_eq!(rt; last.item(block.body, 1), Some([0x01, 0x02].as_slice()));
    assert!(rt; last.octets(block.body, 3).is_empty());
    assert_eq!(rt; last.data_source(block.body), Some((0x01, 0x02)));
    let second = first_record(rt.alloc(), Uap::Cat048, &block, 4).expect(&rt, "a record");
    assert_eq!(rt; (second.frns.len(), second.next), (0, 5));
}

#[test]
fn walks_the_items_before_a_fault(rt: HostRuntime) -> Result<(), Fail> {
    let block = Block {
        cat: 48,
        at: 3,
        body: &[0xF0, 0x01, 0x01, 0x46, 0x50, 0x0A, 0xA0, 0x01, 0x00],
    };
    let walk = walk_items(rt.alloc(), Uap::Cat048, &block, 0)?;
    let frns = [(1, 1, 3), (2, 3, 6), (3, 6, 7)];
    assert_eq!(rt; walk.frns.as_slice(), frns.as_slice());
    let fault = Malformed {
        offset: 10,
        cause: 5,
    };
    assert_eq!(rt; walk.end, Err(fault));
    Ok(())
}

// A record of all items of each category, and the ends of its items.
const WHOLE: [(Uap, &[u8], &[usize]); 5] = [
    (
        Uap::Cat034,
        &[
            0xFF, 0xFE, 0x00, 0x00, 0x00, 0x00, 0x00, 0x00, 0x00, 0x00, 0x00, 0x9C, 0x00, 0x00,
            0x00, 0x00, 0x00, 0x9C, 0x00, 0x00, 0x00, 0x00, 0x02, 0x00, 0x00, 0x00, 0x00, 0x00,
            0x00, 0x00, 0x00, 0x00, 0x00, 0x00, 0x00, 0x00, 0x00, 0x00, 0x00, 0x00, 0x00, 0x00,
            0x00, 0x00, 0x00, 0x00, 0x03, 0x00, 0x00, 0x01,
        ],
        &[4, 5, 8, 9, 11, 17, 22, 27, 35, 36, 44, 46, 49, 50],
    ),
    (
        Uap::Cat048,
        &[
            0xFF, 0xFF, 0xFF, 0xFE, 0x00, 0x00, 0x00, 0x00, 0x00, 0x01, 0x01, 0x00, 0x00, 0x00,
            0x00, 0x00, 0x00, 0x00, 0x00, 0x00, 0xFE, 0x00, 0x00, 0x00, 0x00, 0x00, 0x00, 0x00,
            0x00, 0x00, 0x00, 0x00, 0x00, 0x00, 0x00, 0x00, 0x00, 0x01, 0x00, 0x00, 0x00, 0x00,
            0x00, 0x00, 0x00, 0x00, 0x00, 0x00, 0x00, 0x00, 0x00, 0x00, 0x00, 0x00, 0x00, 0x00,
            0x01, 0x00, 0x00, 0x00, 0x00, 0x00, 0x00, 0x00, 0x00, 0x00, 0x00, 0x00, 0x00, 0x00,
            0x00, 0xC1, 0x00, 0x00, 0x00, 0x01, 0x00, 0x00, 0x00, 0x00, 0x00, 0x00, 0x00, 0x00,
            0x00, 0x00, 0x00, 0x00, 0x00, 0x00, 0x00, 0x00, 0x00, 0x00, 0x00, 0x00, 0x00, 0x02,
            0x00, 0x01,
        ],
        &[
            6, 9, 12, 16, 18, 20, 28, 31, 37, 46, 48, 52, 56, 58, 62, 63, 65, 69, 71, 82, 84, 91,
            92, 94, 95, 97, 99, 100,
        ],
    ),
    (
        Uap::Cat062,
        &[
            0xB7, 0x5F, 0x21, 0x04, 0x00, 0x00, 0x00, 0x00, 0x00, 0x00, 0x00, 0x00, 0x00, 0x00,
            0x00, 0x00, 0x00, 0x00, 0x00, 0x00, 0x00, 0x00, 0x80, 0x00, 0x00, 0x00, 0x00, 0x00,
            0x00, 0x00, 0x00, 0x00, 0x70, 0x00, 0x00, 0x00, 0x00, 0x00, 0x80, 0x00, 0x00, 0x00,
            0x00,
        ],
        &[6, 7, 10, 16, 20, 22, 26, 28, 32, 36, 38, 43],
    ),
    (
        Uap::Cat063,
        &[
            0xFF, 0x80, 0x00, 0x00, 0x00, 0x00, 0x00, 0x00, 0x00, 0x00, 0x00, 0x00, 0x00, 0x00,
            0x00, 0x00, 0x00, 0x00, 0x00,
        ],
        &[4, 5, 8, 10, 11, 13, 17, 19],
    ),
    (
        Uap::Cat065,
        &[0xFC, 0x00, 0x00, 0x00, 0x00, 0x00, 0x00, 0x00, 0x00, 0x00],
        &[3, 4, 5, 8, 9, 10],
    ),
];

// Whether the items of a record, and it, end there.
fn ends_so(alloc: Global, uap: Uap, record: &[u8], ends: &[usize]) -> bool {
    if record.is_empty() || record.len() > 200 {
        return false;
    }
    let block = Block {
        cat: uap.category(),
        at: 0,
        body: record,
    };
    let Ok(got) = walk_record(alloc, uap, &block, 0) else {
        return false;
    };
    got.next == record.len()
        && got.frns.iter().map(|item| item.2).eq(ends.iter().copied())
        && uap.table().iter().filter(|item| item.is_item()).count() == ends.len()
}

#[test]
fn walks_all_items(rt: HostRuntime) {
    for (uap, record, ends) in WHOLE {
        assert!(rt; ends_so(rt.alloc(), uap, record, ends), "{uap:?}");
    }
}

// The record of an end of batch, and one whose last item needs four octets of FSPEC.
#[test]
fn writes_records(rt: HostRuntime) -> Result<(), Fail> {
    let mut short = RecordWriter::new(Vec::new(rt.alloc()));
    short.put(1, &[0x01, 0x63])?;
    short.put(2, &[0x02])?;
    short.put(3, &[0x01])?;
    short.put(4, &[0x46, 0x50, 0x80])?;
    short.put(5, &[0x07])?;
    let octets = short.finish();
    let end_of_batch = [0xF8, 0x01, 0x63, 0x02, 0x01, 0x46, 0x50, 0x80, 0x07];
    assert_eq!(rt; octets.as_slice(), end_of_batch.as_slice());
    let mut long = RecordWriter::new(octets);
    long.put(1, &[0x01, 0x63])?;
    long.put(8, &[0x00, 0x05])?;
    long.put(27, &[0x80, 0x00, 0x01, 0x00, 0x02])?;
    let wanted = [
        0x81, 0x81, 0x01, 0x04, 0x01, 0x63, 0x00, 0x05, 0x80, 0x00, 0x01, 0x00, 0x02,
    ];
    assert_eq!(rt; long.finish().as_slice(), wanted.as_slice());
    Ok(())
}

#[test]
fn packs_records(rt: HostRuntime) -> Result<(), Fail> {
    let packing = Packing::new(rt.alloc(), 62);
    let packing = packing.add(rt.alloc(), &[1; 1_000])?;
    let packing = packing.add(rt.alloc(), &[2; 397])?;
    let packing = packing.add(rt.alloc(), &[3; 2])?;
    let blocks = packing.finish()?;
    assert_eq!(rt; blocks.len(), 2);
    let first = blocks.as_slice()[0].as_slice();
    assert_eq!(rt;
        (first.len(), first.get(..4)),
        (1_400, Some([0x3E, 0x05, 0x78, 1].as_slice()))
    );
    assert_eq!(rt;
        blocks.as_slice()[1].as_slice(),
        [0x3E, 0x00, 0x05, 3, 3].as_slice()
    );
    assert!(rt; BlockWriter::new(rt.alloc(), 62).finish().is_empty());
    Ok(())
}
