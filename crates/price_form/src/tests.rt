// Price files octet by octet.
ghost use Rattle.price_form.specs.Files.{IsRecord};

use crate::{
    PriceRecord, PricesError, certificate_offsets, check, check_at, prefix_fault, put_cert,
    read_prices, start_prices, write_cert, write_edition,
};
use std::alloc::Global;
use trk_base::TryCopy;

// An edition, and the certificate of one plot that gets no track: a price file, of which the last
// octet is the plot's price of 4,097.
const ONE: [u8; 63] = [
    0x4D, 0x52, 0x50, 0x31, 0x01, 0, 0, 0, 0, 0, 0, 0, 1, 0, 0, 0, 0, 0, 0, 0, 2, 0x02, 0, 0, 0, 0,
    0, 0x01, 0x19, 0x40, 0, 0, 0, 0, 1, 0, 0, 0, 0, 0, 0, 0, 0, 0, 0, 0, 0, 0, 0, 0, 0, 0xFF, 0xFF,
    0xFF, 0xFF, 0, 0, 0, 0, 0, 0, 0x10, 0x01,
];

// Two plots and two tracks, where each plot costs 1 with the first track and 2 with the second. The
// pairing is 0, 1, the prices of the plots are 2 and 2, and those of the tracks -1 and 0.
const TIE: [u8; 138] = [
    0x4D, 0x52, 0x50, 0x31, 0x02, 0, 0, 0, 0, 0, 0x01, 0x19, 0x40, 0, 0, 0, 0, 2, 0, 0, 0, 2, 0, 0,
    0, 0, 0, 0, 0, 2, 0, 0, 0, 0, 0, 0, 0, 3, 0, 0, 0, 0, 0, 0, 0, 0, 0, 0, 0, 0, 0, 0, 0, 1, 0, 0,
    0, 4, 0, 0, 0, 0, 0, 0, 0, 0, 0, 1, 0, 0, 0, 0, 0, 0, 0, 1, 0, 2, 0, 0, 0, 1, 0, 0, 0, 0, 0, 1,
    0, 0, 0, 1, 0, 0, 0, 1, 0, 2, 0, 0, 0, 0, 0, 0, 0, 1, 0, 0, 0, 0, 0, 0, 0, 2, 0, 0, 0, 0, 0, 0,
    0, 2, 0xFF, 0xFF, 0xFF, 0xFF, 0xFF, 0xFF, 0xFF, 0xFF, 0, 0, 0, 0, 0, 0, 0, 0,
];

// Where the numbers of the tie stand.
const FIRST_U: usize = 106;

const SECOND_U: usize = 114;

const FIRST_V: usize = 122;

const SECOND_V: usize = 130;

fn with_octet(mut file: [u8; 138], at: usize, octet: u8) -> [u8; 138] {
    if at < file.len() {
        file[at] = octet;
    }
    file
}

fn with_price(mut file: [u8; 138], at: usize, price: i64) -> [u8; 138] {
    for (i, octet) in price.to_be_bytes().iter().enumerate() {
        if at < 128 {
            file[at + i] = *octet;
        }
    }
    file
}

// Whether each certificate of a file proves, judged as it is read and where it stands.
fn judged(alloc: Global, file: &[u8]) -> Option<bool> {
    let records = read_prices(alloc, file).ok()?;
    let mut all = true;
    for record in &records {
        if let PriceRecord::Cert { cert, .. } = record {
            all = all && check(cert);
        }
    }
    let offsets = certificate_offsets(alloc, file).ok()?;
    let mut in_place = true;
    for offset in &offsets {
        in_place = in_place && check_at(file, *offset);
    }
    (in_place == all).then_some(all)
}

// A record in octets; a certificate is copied first, and put at the end of none.
fn record_octets(alloc: Global, written: &PriceRecord) -> Option<Vec<u8>>
    requires { IsRecord written.now }
{
    match written {
        PriceRecord::Edition { number, cut } => write_edition(alloc, *number, *cut).ok(),
        PriceRecord::Cert { cert, .. } => {
            let copy = cert.copy(alloc).ok()?;
            let mut octets = Vec::new(alloc);
            put_cert(&mut octets, &copy).ok()?;
            (octets == write_cert(alloc, cert).ok()?).then_some(octets)
        }
    }
}

// The records of a file, written again.
fn written(alloc: Global, file: &[u8]) -> Option<Vec<u8>> {
    let records = read_prices(alloc, file).ok()?;
    let mut octets = Vec::from_slice(alloc, &start_prices()).ok()?;
    for record in &records {
        let more = record_octets(alloc, record)?;
        octets.extend_from_slice(&more).ok()?;
    }
    Some(octets)
}

#[test]
fn reads_and_writes(rt: HostRuntime) {
    for (file, offset) in [(ONE.as_slice(), 21), (TIE.as_slice(), 4)] {
        let octets = written(rt.alloc(), file).expect(&rt, "a price file");
        assert_eq!(rt; octets.as_slice(), file);
        let offsets = certificate_offsets(rt.alloc(), file).expect(&rt, "a price file");
        assert_eq!(rt; offsets.as_slice(), [offset].as_slice());
    }
    let edition = write_edition(rt.alloc(), 1, 2).expect(&rt, "a record");
    assert_eq!(rt; edition.as_slice(), &ONE[4..21]);
}

#[test]
fn refuses_other_prices(rt: HostRuntime) {
    let alloc = rt.alloc();
    let mut other = ONE;
    other[62] = 2;
    assert_eq!(rt; judged(alloc, &other), Some(false));
    assert_eq!(rt; judged(alloc, &ONE), Some(true));
    assert_eq!(rt; judged(alloc, &TIE), Some(true));
    // The sum is 4; an edge of 1 has prices of 2; a track's price is above 0.
    assert_eq!(rt; judged(alloc, &with_price(TIE, SECOND_U, 3)), Some(false));
    let undercut = with_price(with_price(TIE, FIRST_V, 0), SECOND_V, -1);
    assert_eq!(rt; judged(alloc, &undercut), Some(false));
    let ones = with_price(with_price(TIE, FIRST_U, 1), SECOND_U, 1);
    let paid = with_price(with_price(ones, FIRST_V, 0), SECOND_V, 1);
    assert_eq!(rt; judged(alloc, &paid), Some(false));
    // Both plots have the first track, at the prices 1, 1 and 0, 0.
    let twice = with_octet(with_price(ones, FIRST_V, 0), 105, 0);
    assert_eq!(rt; judged(alloc, &twice), Some(false));
}

// How many records a file has, or its fault.
fn count(alloc: Global, file: &[u8]) -> Result<usize, PricesError> {
    Ok(read_prices(alloc, file)?.len())
}

#[test]
fn tells_the_first_fault(rt: HostRuntime) {
    for (end, offset) in [(3, 0), (20, 4), (62, 21)] {
        let fault = PricesError::Fault { offset };
        assert_eq!(rt; count(rt.alloc(), &ONE[..end]), Err(fault));
    }
    assert_eq!(rt; count(rt.alloc(), &ONE[..21]), Ok(1));
}

// The fault of a file, and of the prefix of it that ends at a place.
fn faults(alloc: Global, file: &[u8], end: usize) -> Option<(usize, usize)> {
    if file.len() < end {
        return None;
    }
    match read_prices(alloc, file) {
        Err(PricesError::Fault { offset }) => Some((offset, prefix_fault(&file[..end]))),
        _ => None,
    }
}

#[test]
fn tells_the_fault_of_a_prefix(rt: HostRuntime) {
    let alloc = rt.alloc();
    // A place of the tie, a wrong octet for it, and where the number that it makes wrong ends: the
    // first octet, no plots, an edge's plot, track and cost, an edge again, and a paired track.
    for (at, octet, end) in [
        (4, 3, 5),
        (17, 0, 18),
        (61, 2, 62),
        (65, 2, 66),
        (66, 0x11, 68),
        (75, 0, 76),
        (101, 2, 102),
    ] {
        let file = with_octet(TIE, at, octet);
        assert_eq!(rt; faults(alloc, &file, end), Some((4, 4)));
        assert_eq!(rt; faults(alloc, &file, end - 1), Some((4, end - 1)));
    }
}

#[test]
fn tells_the_end_of_a_prefix(rt: HostRuntime) {
    // In the four octets, after a record, in an edition, in each part of a certificate, and after it.
    for end in [0, 3, 4, 21, 30, 62, 63] {
        assert_eq!(rt; prefix_fault(&ONE[..end]), end);
    }
    for end in [5, 16, 20, 40, 56, 60, 76, 100, 120, 138] {
        assert_eq!(rt; prefix_fault(&TIE[..end]), end);
    }
    // Other octets than the four.
    assert_eq!(rt; prefix_fault(&[0x4D, 0x53]), 0);
    assert_eq!(rt; prefix_fault(&ONE[1..]), 0);
}

#[test]
fn asks_no_memory_for_counts_alone(rt: HostRuntime) {
    let alloc = rt.alloc();
    // 2^32 - 1 plots; as many tracks, which is more than there may be; as many edges, of which four
    // are there.
    for (from, end, prefix) in [(14, 138, 138), (18, 138, 4), (54, 98, 98)] {
        let mut file = TIE;
        for at in from..from + 4 {
            file = with_octet(file, at, 0xFF);
        }
        assert_eq!(rt; faults(alloc, &file[..end], end), Some((4, prefix)));
    }
}
