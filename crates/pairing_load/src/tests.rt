// Loads over a host in memory.
ghost use Rattle.price_form.specs.Files.{IsRecord};

use crate::run::run_load;
use crate::status::Status;
use io_traits::{MemHost, Place};
use price_form::{PriceRecord, check, read_prices};
use std::alloc::Global;
use std::test::Fail;

// What came of a run: how it ended, what Output and Screen got, and how often Output failed.
#[derive(Drop)]
struct End {
    status: Status,
    output: Vec<u8>,
    screen: Vec<u8>,
    faults: u64,
}

// Carries out the words over a host with room for so many octets of output and of screen, and these
// calls that fail.
fn run(alloc: Global, texts: &[&str], room: [usize; 2], fails: &[u64]) -> Result<End, Fail> {
    let mut words = Vec::new(alloc);
    for text in texts {
        words.push(String::from_str(alloc, text)?)?;
    }
    let rooms = vec![in alloc; (Place::Output, room[0]), (Place::Screen, room[1])]?;
    let fails = Vec::from_slice(alloc, fails)?;
    let mut host = MemHost::new(alloc, Vec::new(alloc), rooms, fails)?;
    let status = run_load(alloc, &words, &mut host);
    Ok(End {
        status,
        output: Vec::from_slice(alloc, host.got(Place::Output))?,
        screen: Vec::from_slice(alloc, host.got(Place::Screen))?,
        faults: host.faults(Place::Output),
    })
}

// Loads of problems, and the lines that tell their sums. These were found by a program of another
// language, which draws the same words and tries all pairings.
const SUMS: [(&str, &str, &str, &str, &str); 4] = [
    ("2", "3", "random", "1", "problems 2 cost 4584\n"),
    (
        "5",
        "6",
        "random",
        "18446744073709551615",
        "problems 5 cost 28197\n",
    ),
    ("2", "3", "equal", "1", "problems 2 cost 12288\n"),
    ("0", "1000", "random", "0", "problems 0 cost 0\n"),
];

#[test]
fn sums_the_least_costs(rt: HostRuntime) -> Result<(), Fail> {
    for (count, size, costs, seed, line) in &SUMS {
        let words = ["pairings", *count, *size, *costs, *seed];
        let end = run(rt.alloc(), &words, [0, 64], &[])?;
        assert_eq!(rt; end.status, Status::Done);
        assert_eq!(rt; end.screen.as_slice(), line.as_bytes());
    }
    Ok(())
}

// The costs of the first certificates are those that the same other program draws.
const COSTS: [[u16; 9]; 2] = [
    [1927, 2357, 62, 406, 2462, 1697, 505, 1274, 3390],
    [1460, 1019, 3675, 163, 2043, 1950, 3214, 3769, 1660],
];

// Whether a record is certificate number k, or the edition where k is none, and proves its pairing.
fn is_load_record(found: &PriceRecord, k: Option<usize>) -> bool
    requires { IsRecord found.now }
{
    match (found, k) {
        (PriceRecord::Edition { number, cut }, None) => (*number, *cut) == (1, 0),
        (PriceRecord::Cert { cert, .. }, Some(k)) => {
            let mut drawn = true;
            if k < 2 {
                for (edge, cost) in cert.costs.edges.as_slice().iter().zip(&COSTS[k]) {
                    drawn = drawn && edge.2 == *cost;
                }
            }
            drawn && cert.slot == k as u64 && cert.costs.edges.len() == 9 && check(cert)
        }
        _ => false,
    }
}

// How many certificates the price file of a load has, if these octets are one.
fn certificates(alloc: Global, octets: &[u8]) -> Option<usize> {
    let records = read_prices(alloc, octets).ok()?;
    for (i, record) in records.iter().enumerate() {
        if !is_load_record(record, i.checked_sub(1)) {
            return None;
        }
    }
    records.len().checked_sub(1)
}

#[test]
fn writes_certificates_that_prove(rt: HostRuntime) -> Result<(), Fail> {
    let words = ["prices", "40", "1", "out"];
    let end = run(rt.alloc(), &words, [10_000, 0], &[])?;
    assert_eq!(rt; end.status, Status::Done);
    assert_eq!(rt; end.output.len(), 21 + 220 * 40);
    assert_eq!(rt; certificates(rt.alloc(), &end.output), Some(40));
    Ok(())
}

// How much room Output has, which calls fail, and how much Output then got of two certificates:
// binding fails, writing the beginning, and writing each certificate; then room is wanting.
const STOPS: [(usize, &[u64], usize); 5] = [
    (461, &[0], 0),
    (461, &[1], 0),
    (461, &[2], 21),
    (461, &[3], 241),
    (460, &[], 460),
];

#[test]
fn stops_where_output_fails(rt: HostRuntime) -> Result<(), Fail> {
    for (room, fails, octets) in &STOPS {
        let words = ["prices", "2", "1", "out"];
        let end = run(rt.alloc(), &words, [*room, 0], fails)?;
        assert_eq!(rt; end.status, Status::Write(Place::Output));
        assert_eq!(rt; (end.output.len(), end.faults), (*octets, 1));
    }
    Ok(())
}

#[test]
fn stops_where_screen_fails(rt: HostRuntime) -> Result<(), Fail> {
    let words = ["pairings", "2", "3", "random", "1"];
    let end = run(rt.alloc(), &words, [0, 9], &[])?;
    assert_eq!(rt; end.status, Status::Write(Place::Screen));
    assert_eq!(rt; end.screen.as_slice(), b"problems ".as_slice());
    Ok(())
}

// Of each of these the first words, so many, are no load.
const OTHERS: [(&str, &str, &str, &str, &str, usize); 14] = [
    ("", "", "", "", "", 0),
    ("pairings", "", "", "", "", 1),
    ("prices", "1", "1", "", "", 3),
    ("prices", "1", "18446744073709551616", "out", "", 4),
    ("pairings", "1", "1", "drawn", "1", 5),
    ("pairings", "4294967296", "1", "equal", "1", 5),
    ("pairings", "1", "0", "equal", "1", 5),
    ("pairings", "1", "1001", "equal", "1", 5),
    ("pairings", "1", "01", "equal", "1", 5),
    ("pairings", "1", "+1", "equal", "1", 5),
    ("pairings", "1", "-1", "equal", "1", 5),
    ("pairings", "1", "", "equal", "1", 5),
    ("pairings", "1", "1 ", "equal", "1", 5),
    ("pairings", "1", "x", "equal", "1", 5),
];

// Other words are told so, and nothing is written.
#[test]
fn refuses_other_words(rt: HostRuntime) -> Result<(), Fail> {
    for (command, count, size, costs, seed, words) in &OTHERS {
        let texts = [*command, *count, *size, *costs, *seed];
        if *words <= texts.len() {
            let end = run(rt.alloc(), &texts[..*words], [64, 64], &[])?;
            assert_eq!(rt; end.status, Status::Usage);
            assert!(rt; end.screen.is_empty() && end.output.is_empty());
        }
    }
    Ok(())
}
