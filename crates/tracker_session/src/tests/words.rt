// Words that are a command, and words that are none.
use super::{NONE, ONE_PLOT, Run, SETTINGS, compare, words_of};
use crate::{Command, Status, WordsError, parse_words};
use std::alloc::Global;
use std::process::Abort;
use std::test::Fail;

const USAGE: &str = "usage: tracker replay, check, scene, exercise or serve\n";

// Compares what the words are parsed as.
fn compare_words(
    rt: &impl Abort,
    alloc: Global,
    texts: &[&str],
    parsed: Result<Command, WordsError>,
) -> Result<(), Fail> {
    let words = words_of(alloc, texts)?;
    assert_eq!(rt; parse_words(alloc, &words), parsed, "at {texts:?}");
    Ok(())
}

#[test]
fn words_of_commands(rt: HostRuntime) -> Result<(), Fail> {
    let alloc = rt.alloc();
    let replay = Command::Replay {
        settings: String::from_str(alloc, "a")?,
        input: String::from_str(alloc, "b")?,
        output: String::from_str(alloc, "c")?,
        prices: String::from_str(alloc, "d")?,
        workers: 1,
    };
    let check = Command::Check {
        prices: String::from_str(alloc, "p")?,
    };
    let scene = Command::Scene {
        seed: 18_446_744_073_709_551_615,
        aircraft: 2000,
        seconds: 3600,
        late: 100,
        output: String::from_str(alloc, "r")?,
    };
    let numbers = ["scene", "18446744073709551615", "2000", "3600", "100", "r"];
    compare_words(&rt, alloc, &numbers, Ok(scene))?;
    compare_words(&rt, alloc, &["replay", "a", "b", "c", "d"], Ok(replay))?;
    compare_words(&rt, alloc, &["check", "p"], Ok(check))
}

#[test]
fn words_for_workers(rt: HostRuntime) -> Result<(), Fail> {
    let alloc = rt.alloc();
    let replay = Command::Replay {
        settings: String::from_str(alloc, "a")?,
        input: String::from_str(alloc, "b")?,
        output: String::from_str(alloc, "c")?,
        prices: String::from_str(alloc, "d")?,
        workers: 16,
    };
    let exercise = Command::Exercise {
        seed: 1,
        aircraft: 20,
        seconds: 30,
        late: 2,
        workers: 4,
    };
    assert_eq!(rt; replay.workers(), 16);
    let sixteen = ["replay", "a", "b", "c", "d", "--workers=16"];
    let four = ["exercise", "1", "20", "30", "2", "--workers=4"];
    compare_words(&rt, alloc, &sixteen, Ok(replay))?;
    compare_words(&rt, alloc, &four, Ok(exercise))
}

// A run of other words.
fn refused<'a>(words: &'a [&'a str]) -> Run<'a> {
    Run {
        words,
        settings: SETTINGS,
        input: &ONE_PLOT,
        prices: &[],
        room: [1000, 1000, 1000],
        fails: &[],
        status: Status::Usage,
        output: &[],
        priced: &[],
        screen: USAGE,
        bound: NONE,
    }
}

#[test]
fn other_words_are_refused(rt: HostRuntime) -> Result<(), Fail> {
    let lines: [&[&str]; 31] = [
        &[],
        &["replay", "a", "b", "c"],
        &["replay", "a", "b", "", "d"],
        &["replay", "--a", "b", "c", "d"],
        &["replay", "a", "b", "c", "d", "--workers=0"],
        &["replay", "a", "b", "c", "d", "--workers=17"],
        &["replay", "a", "b", "c", "d", "--workers=02"],
        &["replay", "a", "b", "c", "d", "--workers="],
        &["replay", "a", "b", "c", "d", "--workers 2"],
        &["replay", "a", "b", "c", "d", "2"],
        &["replay", "--workers=2", "a", "b", "c", "d"],
        &["replay", "a", "b", "c", "d", "--workers=2", "--workers=2"],
        &["exercise", "1", "20", "30", "--workers=2", "2"],
        &["check", "p", "--workers=2"],
        &["scene", "1", "20", "30", "2", "r", "--workers=2"],
        &["serve", "a", "b", "c", "d"],
        &["exercise", "1", "20", "30", "101"],
        &["exercise", "1", "20", "30", "2", "x"],
        &["exercise", "+1", "20", "30", "2"],
        &["exercise", "1", "0", "30", "2"],
        &["check"],
        &["check", "a", "b"],
        &["check", "--a"],
        &["check", ""],
        &["scene", "1", "0", "30", "2", "r"],
        &["scene", "1", "2001", "30", "2", "r"],
        &["scene", "1", "20", "03", "2", "r"],
        &["scene", "+1", "20", "30", "2", "r"],
        &["scene", "18446744073709551616", "20", "30", "2", "r"],
        &["scene", "1", "20", "30", "101", "r"],
        &["scene", "1", "20", "30", "2", "--r"],
    ];
    for words in lines {
        compare_words(&rt, rt.alloc(), words, Err(WordsError::Usage))?;
        compare(&rt, rt.alloc(), &[refused(words)])?;
    }
    Ok(())
}
