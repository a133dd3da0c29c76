// `exercise`: what it tells, and that its settings are those of a document.
use super::{NONE, Run, compare};
use crate::scene_settings::scene_settings;
use crate::{Spot, Status};
use settings_text::read_settings;
use std::test::Fail;

/// The settings of a scene as a document: `examples/scene.toml` without its comments, which `runs/run` compares with
/// what the built program tells.
const DOCUMENT: &[u8] =
    b"[system]\nsac = 1\nsic = 99\nservice = 1\nhits = 3\n[[radar]]\nsac = 1\nsic = 1\nx = 0\ny = 0\nrange_sigma = 50\nazimuth_sigma = 12\n[[radar]]\nsac = 1\nsic = 2\nx = 80000\ny = 0\nrange_sigma = 50\nazimuth_sigma = 12\n[[radar]]\nsac = 1\nsic = 3\nx = 0\ny = 90000\nrange_sigma = 50\nazimuth_sigma = 12\n";

// An exercise: no place is bound, and Screen alone gets anything.
fn exercised<'a>(
    words: &'a [&'a str],
    fails: &'a [u64],
    status: Status,
    screen: &'a str,
) -> Run<'a> {
    Run {
        words,
        settings: &[],
        input: &[],
        prices: &[],
        room: [0, 0, 1000],
        fails,
        status,
        output: &[],
        priced: &[],
        screen,
        bound: NONE,
    }
}

/// What another program counts of the scenes.
#[test]
fn exercises(rt: HostRuntime) -> Result<(), Fail> {
    let one = ["exercise", "1", "1", "1", "0"];
    let three = ["exercise", "7", "3", "40", "100"];
    let none =
        "editions 11 admitted 0 unknown 0 early 0 ahead 0 notplots 0 malformed 0 other 0 old 0\ntracks 0 octets 924 certificates 0\n";
    let late =
        "editions 50 admitted 66 unknown 0 early 0 ahead 0 notplots 0 malformed 0 other 0 old 0\ntracks 3 octets 9788 certificates 759\n";
    let failed = Status::Write(Spot::Screen);
    let runs = [
        exercised(&one, &[], Status::Done, none),
        exercised(&three, &[], Status::Done, late),
        exercised(&one, &[0], failed, "write: Screen\n"),
    ];
    compare(&rt, rt.alloc(), &runs)
}

/// The document has the settings under which scenes are replayed.
#[test]
fn one_document(rt: HostRuntime) -> Result<(), Fail> {
    let used = scene_settings(rt.alloc())?;
    assert_eq!(rt; read_settings(rt.alloc(), DOCUMENT), Ok(used));
    Ok(())
}
