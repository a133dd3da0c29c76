// `check`: price files that are proved, not proved, and none.
use super::{Run, compare};
use crate::{Spot, Status};
use io_traits::Way;
use std::test::Fail;

/// A price file of one edition and one certificate: a plot that no track gates, and its price.
const ONE_CERTIFICATE: [u8; 63] = [
    0x4D, 0x52, 0x50, 0x31, //
    0x01, 0, 0, 0, 0, 0, 0, 0, 1, 0, 0, 0, 0, 0, 0, 0, 2, //
    0x02, 0, 0, 0, 0, 0, 1, 0x19, 0x40, 0, 0, 0, 0, 1, 0, 0, 0, 0, //
    0, 0, 0, 0, 0, 0, 0, 0, 0, 0, 0, 0, 0xFF, 0xFF, 0xFF, 0xFF, //
    0, 0, 0, 0, 0, 0, 0x10, 0x01,
];

/// What Prices is bound to.
const CHECKED: [Option<(Way, &str)>; 4] = [None, None, None, Some((Way::Read, "p"))];

const PROVED: &str = "certificates 1 proved\n";

// A check of a price file, with so many octets of screen.
fn checked<'a>(
    prices: &'a [u8],
    room: usize,
    fails: &'a [u64],
    status: Status,
    screen: &'a str,
) -> Run<'a> {
    Run {
        words: &["check", "p"],
        settings: &[],
        input: &[],
        prices,
        room: [0, 0, room],
        fails,
        status,
        output: &[],
        priced: &[],
        screen,
        bound: CHECKED,
    }
}

/// A check with room for what it tells, in which no call fails.
fn judged<'a>(prices: &'a [u8], status: Status, screen: &'a str) -> Run<'a> {
    checked(prices, 1000, &[], status, screen)
}

/// Where the price of the plot is one more than its pairing costs, the first such certificate is told: the only one, and
/// the second of three.
#[test]
fn verdicts(rt: HostRuntime) -> Result<(), Fail> {
    let alloc = rt.alloc();
    let mut other = ONE_CERTIFICATE;
    other[62] = 2;
    let mut three = Vec::from_slice(alloc, &ONE_CERTIFICATE)?;
    three.extend_from_slice(&other[4..])?;
    three.extend_from_slice(&other[21..])?;
    let only = Status::NotProved {
        index: 0,
        offset: 21,
    };
    let second = Status::NotProved {
        index: 1,
        offset: 80,
    };
    let runs = [
        judged(&ONE_CERTIFICATE, Status::Done, PROVED),
        judged(
            &ONE_CERTIFICATE[..4],
            Status::Done,
            "certificates 0 proved\n",
        ),
        judged(&other, only, "not proved: certificate 0 at offset 21\n"),
        judged(&three, second, "not proved: certificate 1 at offset 80\n"),
    ];
    assert_eq!(rt; only.code(), 8);
    compare(&rt, alloc, &runs)
}

/// The fault of a file is told, also where it comes after a certificate that isn't proved.
#[test]
fn faults_of_a_price_file(rt: HostRuntime) -> Result<(), Fail> {
    let alloc = rt.alloc();
    let mut longer = Vec::from_slice(alloc, &ONE_CERTIFICATE[..62])?;
    longer.extend_from_slice(&[2, 3])?;
    let empty = Status::Input { offset: 0 };
    let cut = Status::Input { offset: 21 };
    let end = Status::Input { offset: 63 };
    let runs = [
        judged(&[], empty, "input: offset 0\n"),
        judged(&ONE_CERTIFICATE[..62], cut, "input: offset 21\n"),
        judged(&longer, end, "input: offset 63\n"),
    ];
    compare(&rt, alloc, &runs)
}

/// The calls are the binding of Prices, a read of all of it and one at its end, and one write to Screen.
#[test]
fn faults_of_a_check(rt: HostRuntime) -> Result<(), Fail> {
    let prices = Status::Read(Spot::Prices);
    let screen = Status::Write(Spot::Screen);
    let runs = [
        checked(&ONE_CERTIFICATE, 1000, &[0], prices, "read: Prices\n"),
        checked(&ONE_CERTIFICATE, 1000, &[1], prices, "read: Prices\n"),
        checked(&ONE_CERTIFICATE, 1000, &[2], prices, "read: Prices\n"),
        checked(&ONE_CERTIFICATE, 1000, &[3], screen, "write: Screen\n"),
        checked(&ONE_CERTIFICATE, 13, &[], screen, "certificates "),
    ];
    compare(&rt, rt.alloc(), &runs)
}
