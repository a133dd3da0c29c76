// What goes wrong in a replay: faults of what is read, and places and memory that fail.
use super::{ALL, BOTH, EDITION, FIRST, ONE_PLOT, OPENED, PRICES, REPLAY, Run, SETTINGS, compare};
use crate::{Spot, Status};
use io_traits::Way;
use settings_text::{KeyPath, SettingsFault};
use std::test::Fail;

const LINE: &str =
    "editions 1 admitted 1 unknown 0 early 0 ahead 0 notplots 0 malformed 0 other 0 old 0\n";

const NO_SERVICE: &[u8] =
    b"[system]\nsac = 1\nsic = 99\n[[radar]]\nsac = 1\nsic = 1\nx = 0\ny = 0\nrange_sigma = 50\nazimuth_sigma = 12\n";

const MANY_HITS: &[u8] =
    b"[system]\nsac = 1\nsic = 99\nservice = 1\nhits = 9\n[[radar]]\nsac = 1\nsic = 1\nx = 0\ny = 0\nrange_sigma = 50\nazimuth_sigma = 12\n";

const TWICE: &[u8] =
    b"[system]\nsac = 1\nsic = 99\nservice = 1\n[[radar]]\nsac = 1\nsic = 1\nx = 0\ny = 0\nrange_sigma = 50\nazimuth_sigma = 12\n[[radar]]\nsac = 1\nsic = 1\nx = 0\ny = 0\nrange_sigma = 50\nazimuth_sigma = 12\n";

// A replay under these settings that ends with their fault, at which these calls fail.
fn refused<'a>(
    settings: &'a [u8],
    fault: SettingsFault,
    fails: &'a [u64],
    screen: &'a str,
) -> Run<'a> {
    Run {
        words: &REPLAY,
        settings,
        input: &ONE_PLOT,
        prices: &[],
        room: [1000, 1000, 1000],
        fails,
        status: Status::Settings(fault),
        output: &[],
        priced: &[],
        screen,
        bound: FIRST,
    }
}

/// A fault of each kind is told, and then Input and Output are left alone. A text that can't be written leaves the status.
#[test]
fn settings_faults(rt: HostRuntime) -> Result<(), Fail> {
    let service = SettingsFault::Missing(KeyPath {
        radar: None,
        key: 3,
    });
    let hits = SettingsFault::Range(KeyPath {
        radar: None,
        key: 5,
    });
    let twice = SettingsFault::Duplicate { radar: 1, first: 0 };
    let runs = [
        refused(NO_SERVICE, service, &[], "settings: missing key 3\n"),
        refused(MANY_HITS, hits, &[], "settings: range of key 5\n"),
        refused(TWICE, twice, &[], "settings: radar 1 repeats radar 0\n"),
        refused(b"system", SettingsFault::Syntax, &[3], ""),
    ];
    compare(&rt, rt.alloc(), &runs)
}

// A replay of the plot that breaks off where these calls fail.
fn broken<'a>(
    fails: &'a [u64],
    status: Status,
    screen: &'a str,
    bound: [Option<(Way, &'a str)>; 4],
) -> Run<'a> {
    Run {
        words: &REPLAY,
        settings: SETTINGS,
        input: &ONE_PLOT,
        prices: &[],
        room: [1000, 1000, 1000],
        fails,
        status,
        output: &[],
        priced: &[],
        screen,
        bound,
    }
}

/// The calls are the binding of Settings, a read of all of it and one at its end, the same of Input, the
/// bindings of Output and Prices, one write to Prices, one to Output and one to Prices for the edition, and
/// one to Screen. In the last run the text isn't written either.
#[test]
fn faults_of_places(rt: HostRuntime) -> Result<(), Fail> {
    let settings = Status::Read(Spot::Settings);
    let input = Status::Read(Spot::Input);
    let output = Status::Write(Spot::Output);
    let prices = Status::Write(Spot::Prices);
    let runs = [
        broken(&[0], settings, "read: Settings\n", FIRST),
        broken(&[1], settings, "read: Settings\n", FIRST),
        broken(&[2], settings, "read: Settings\n", FIRST),
        broken(&[3], input, "read: Input\n", BOTH),
        broken(&[4], input, "read: Input\n", BOTH),
        broken(&[5], input, "read: Input\n", BOTH),
        broken(&[6], output, "write: Output\n", OPENED),
        broken(&[7], prices, "write: Prices\n", ALL),
        broken(&[8], prices, "write: Prices\n", ALL),
        broken(&[4, 5], input, "", BOTH),
    ];
    compare(&rt, rt.alloc(), &runs)
}

// A replay of these octets, with so much room.
fn replayed<'a>(
    input: &'a [u8],
    room: [usize; 3],
    fails: &'a [u64],
    status: Status,
    got: [&'a [u8]; 2],
    screen: &'a str,
) -> Run<'a> {
    Run {
        words: &REPLAY,
        settings: SETTINGS,
        input,
        prices: &[],
        room,
        fails,
        status,
        output: got[0],
        priced: got[1],
        screen,
        bound: ALL,
    }
}

/// A truncated input, told and not told; a screen that fails; and writes that take the prefix that there is
/// room for, after which the next fails: of the edition, and of its prices.
#[test]
fn ends_of_writing(rt: HostRuntime) -> Result<(), Fail> {
    let output = Status::Write(Spot::Output);
    let prices = Status::Write(Spot::Prices);
    let screen = Status::Write(Spot::Screen);
    let fault = Status::Input { offset: 27 };
    let cut = &ONE_PLOT[..32];
    let room = [1000, 1000, 1000];
    let begun: [&[u8]; 2] = [&[], &PRICES[..4]];
    let whole: [&[u8]; 2] = [&EDITION, &PRICES];
    let in_output: [&[u8]; 2] = [&EDITION[..10], &PRICES[..4]];
    let in_prices: [&[u8]; 2] = [&EDITION, &PRICES[..30]];
    let runs = [
        replayed(cut, room, &[], fault, begun, "input: offset 27\n"),
        replayed(cut, room, &[9], fault, begun, ""),
        replayed(&ONE_PLOT, room, &[11], screen, whole, "write: Screen\n"),
        replayed(
            &ONE_PLOT,
            [10, 1000, 1000],
            &[],
            output,
            in_output,
            "write: Output\n",
        ),
        replayed(
            &ONE_PLOT,
            [1000, 30, 1000],
            &[],
            prices,
            in_prices,
            "write: Prices\n",
        ),
        replayed(&ONE_PLOT, [1000, 1000, 9], &[], screen, whole, "editions "),
        replayed(&ONE_PLOT, room, &[], Status::Done, whole, LINE),
    ];
    compare(&rt, rt.alloc(), &runs)
}
