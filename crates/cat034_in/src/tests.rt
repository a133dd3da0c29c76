use crate::{ReadError, Service, read034};
use asterix_frame::{Malformed, first_block};
use std::alloc::Global;
use std::process::Abort;

// What is told of a datagram of one block.
fn read(rt: &impl Abort, alloc: Global, datagram: &[u8]) -> Result<Vec<Service>, ReadError> {
    assert!(rt; !datagram.is_empty());
    let block = first_block(datagram, 0).expect(rt, "a block");
    assert_eq!(rt; block.cat, 34);
    read034(alloc, &block)
}

#[test]
fn reads_a_north_marker(rt: HostRuntime) {
    let datagram = [0x22, 0x00, 0x0A, 0xE0, 0x01, 0x01, 0x01, 0x46, 0x50, 0x00];
    let services = read(&rt, rt.alloc(), &datagram).expect(&rt, "a service message");
    let north_marker = Service {
        source: Some((1, 1)),
        kind: Some(1),
        tod: Some(4_608_000),
        sector: None,
        rotation: None,
    };
    assert_eq!(rt; services.as_slice(), [north_marker].as_slice());
}

// A sector crossing with each item of the category, and a record without items.
#[test]
fn reads_each_item(rt: HostRuntime) {
    let datagram = [
        0x22, 0x00, 0x36, 0xFF, 0xFE, 0x63, 0x2A, 0x02, 0xA8, 0xBF, 0xFF, 0x40, 0x02, 0x01, 0x9C,
        0x00, 0x00, 0x00, 0x00, 0x00, 0x9C, 0x00, 0x00, 0x00, 0x00, 0x02, 0x00, 0x00, 0x00, 0x00,
        0x00, 0x00, 0x00, 0x00, 0x00, 0x00, 0x00, 0x00, 0x00, 0x00, 0x00, 0x00, 0x00, 0x00, 0x00,
        0x00, 0x00, 0x00, 0x00, 0x03, 0x00, 0x00, 0x01, 0x00,
    ];
    let services = read(&rt, rt.alloc(), &datagram).expect(&rt, "two service messages");
    let sector_crossing = Service {
        source: Some((0x63, 0x2A)),
        kind: Some(2),
        tod: Some(11_059_199),
        sector: Some(0x40),
        rotation: Some(513),
    };
    let nothing = Service {
        source: None,
        kind: None,
        tod: None,
        sector: None,
        rotation: None,
    };
    assert_eq!(rt; services.as_slice(), [sector_crossing, nothing].as_slice());
}

// A block of category 34, and its first fault: each cause in each kind of item that can have it.
const FAULTS: [(&[u8], usize, u8); 11] = [
    (&[0x22, 0x00, 0x04, 0x01], 4, 3),
    (&[0x22, 0x00, 0x06, 0x01, 0x01, 0x80], 5, 4),
    // an item of so many octets, a repeated one, one that counts its octets, and a compound one in
    // its primary field and in a subfield
    (&[0x22, 0x00, 0x05, 0x80, 0x01], 4, 5),
    (&[0x22, 0x00, 0x07, 0x01, 0x80, 0x01, 0x00], 5, 5),
    (&[0x22, 0x00, 0x06, 0x01, 0x04, 0x02], 5, 5),
    (&[0x22, 0x00, 0x05, 0x04, 0x01], 4, 5),
    (&[0x22, 0x00, 0x06, 0x04, 0x04, 0x00], 4, 5),
    (&[0x22, 0x00, 0x06, 0x01, 0x04, 0x00], 5, 6),
    // in the first and in the second octet of a primary field
    (&[0x22, 0x00, 0x05, 0x04, 0x40], 4, 7),
    (&[0x22, 0x00, 0x06, 0x04, 0x81, 0x80], 5, 7),
    // after a good record, and before an item that is cut short
    (
        &[0x22, 0x00, 0x09, 0x40, 0x01, 0x30, 0xA8, 0xC0, 0x00],
        6,
        8,
    ),
];

#[test]
fn tells_each_fault(rt: HostRuntime) {
    for (datagram, offset, cause) in FAULTS {
        let fault = Malformed { offset, cause };
        let got = read(&rt, rt.alloc(), datagram).err();
        assert_eq!(rt; got, Some(ReadError::Malformed(fault)));
    }
}
