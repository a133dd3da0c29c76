ghost use Rattle.std.specs.Prelude.{◌≡◌, ◌+◌, ◌<◌};
ghost use Rattle.trk_base.specs.Ranges.{IsCode, IsLevel};

use crate::*;
use std::marker::Brand;
use std::sync::ledger::{Blank, Ledger};
use std::test::Fail;

// The largest divisor and dividend that `round_div` takes.
const GREATEST: i128 = (1 << 125) - 1;

#[test]
fn rounds_halves_upwards(rt: HostRuntime) {
    assert_eq!(rt; round_div(1, 2), 1);
    assert_eq!(rt; round_div(-1, 2), 0);
    assert_eq!(rt; round_div(-3, 2), -1);
    assert_eq!(rt; round_div(5, 3), 2);
    assert_eq!(rt; round_div(-5, 3), -2);
    assert_eq!(rt; round_div(-4, 3), -1);
    assert_eq!(rt; round_div(0, 7), 0);
    assert_eq!(rt; round_div(GREATEST, 1), GREATEST);
    assert_eq!(rt; round_div(-GREATEST, 1), -GREATEST);
    assert_eq!(rt; round_div(GREATEST, GREATEST), 1);
}

#[test]
fn takes_roots(rt: HostRuntime) {
    let greatest: u128 = 0xFFFF_FFFF_FFFF_FFFF;
    for (n, want) in [
        (0, 0),
        (1, 1),
        (3, 1),
        (4, 2),
        (99, 9),
        (100, 10),
        // The floating-point number next to it has a root that is one greater.
        (94_906_267 * 94_906_267 - 1, 94_906_266),
        (0xFFFF_FFFF * 0xFFFF_FFFF - 1, 0xFFFF_FFFE),
        (0xFFFF_FFFF * 0xFFFF_FFFF, 0xFFFF_FFFF),
        ((1 << 64) - 1, 0xFFFF_FFFF),
        (1 << 64, 1 << 32),
        (greatest * greatest - 1, 0xFFFF_FFFF_FFFF_FFFE),
        (greatest * greatest, 0xFFFF_FFFF_FFFF_FFFF),
        (u128::MAX, 0xFFFF_FFFF_FFFF_FFFF),
    ] {
        let n: u128 = n;
        assert_eq!(rt; isqrt(n), want, "root of {n}");
    }
}

#[test]
fn takes_powers_of_two(rt: HostRuntime) {
    for (q, want) in [
        (0, 1_073_741_824),
        (32_768, 805_306_368),
        (65_536, 536_870_912),
        (30 * 65_536, 1),
        (31 * 65_536 - 1, 1),
        (31 * 65_536, 0),
        (u64::MAX, 0),
    ] {
        assert_eq!(rt; exp2_lin(q), want, "at {q}");
    }
}

#[test]
fn counts_on_over_midnight(rt: HostRuntime) {
    assert_eq!(rt; unwrap_tod(5, 11_059_100), 11_059_205);
    assert_eq!(rt; slot_of(11_059_205), 172_800);
    assert_eq!(rt; unwrap_tod(11_059_100, 0), 0);
    assert_eq!(rt; unwrap_tod(11_059_100, 11_059_205), 11_059_100);

    // Half a day before is taken, and half a day after is not.
    assert_eq!(rt; unwrap_tod(0, DAY / 2), 0);
    assert_eq!(rt; unwrap_tod(0, DAY / 2 + 1), DAY);
    assert_eq!(rt; slot_of(63), 0);
    assert_eq!(rt; slot_of(64), 1);
}

#[test]
fn orders_keys(rt: HostRuntime) {
    let keys = [
        Key {
            slot: 1,
            radar: 0,
            time: 65,
            arrival: 9,
        },
        Key {
            slot: 1,
            radar: 1,
            time: 64,
            arrival: 7,
        },
        Key {
            slot: 1,
            radar: 1,
            time: 64,
            arrival: 8,
        },
        Key {
            slot: 1,
            radar: 1,
            time: 65,
            arrival: 0,
        },
        Key {
            slot: 2,
            radar: 0,
            time: 128,
            arrival: 1,
        },
    ];
    assert!(rt; keys.is_sorted_by(|a, b| a < b));
}

// A plot of one radar at one time.
fn reported(rho: u16, code: Option<u16>, level: Option<i16>) -> RawPlot
    requires code { IsCode code }
    requires level { IsLevel level }
{
    RawPlot {
        sac: 25,
        sic: 201,
        tod: 100,
        rho,
        theta: 3,
        kind: 5,
        spi: false,
        code,
        level,
        address: None,
    }
}

#[test]
fn orders_reported_plots(rt: HostRuntime) {
    let plots = [
        reported(2, None, None),
        reported(2, None, Some(-4)),
        reported(2, None, Some(3)),
        reported(2, Some(0), None),
        reported(9, None, None),
    ];
    assert!(rt; plots.is_sorted_by(|a, b| a < b));
    assert!(rt; plots[0] == plots[0]);
}

// What is left of a ticket for `n` steps once one is spent.
fn left_of_charged<L: Ledger>(n: u64, blank: Blank) -> Ticket
    requires name { blank.name ≡ L.name }
    requires parts { blank.parts ≡ L.parts }
    requires one { blank.parts ≡ 1 }
    requires some { 0 < n }
    ensures { result + 1 ≡ n }
{
    let mut steps = Steps::<L>::new(blank);
    let mut ticket = charge(n, &mut steps);
    ticket.spend();
    ticket
}

#[test]
fn spends_what_was_charged(rt: HostRuntime) {
    let mut ticket = left_of_charged::<Brand>(3, Blank::new(1));
    ticket.spend();
    ticket.spend();
    one_home();
    raw_plot_order();
    assert!(rt; MISS_COST == u32::from(GATE_COST) + 1);
    assert!(rt; PLANE_BOUND == 64 * 4_000_000);
    assert!(rt; COUNT_LIMIT - 1 == u64::MAX / 4);
}

#[test]
fn copies_lists(rt: HostRuntime) -> Result<(), Fail> {
    let alloc = rt.alloc();
    let mut datagrams = Sequence::new(alloc);
    assert!(rt; datagrams.is_empty());
    datagrams.push(Sequence::of(vec![in alloc; 48u8, 0, 3]?))?;
    datagrams.push(Sequence::of(vec![in alloc; 34u8]?))?;
    let copy = datagrams.copy(alloc)?;
    assert_eq!(rt; copy.len(), 2);
    assert!(rt; copy == datagrams);
    let first = copy.as_slice().first().map(|datagram| datagram.as_slice());
    assert!(rt; first == Some([48, 0, 3].as_slice()));

    let edges = Sequence::of(vec![in alloc; (0u32, 1u32, 7u16), (2, 3, 9)]?);
    let copy = edges.copy(alloc)?.into_vec();
    assert_eq!(rt; copy.as_slice(), [(0, 1, 7), (2, 3, 9)].as_slice());
    let levels = Sequence::of(vec![in alloc; Some(5u32), None]?);
    assert!(rt; levels.copy(alloc)? == levels);
    Ok(())
}
