// Which fault comes first.
use super::{RADAR, SYSTEM, entries, fault_of, joined, tells};
use crate::{SETTINGS_LIMIT, SettingsError, SettingsFault, read_settings};
use std::alloc::AllocError;

const SECOND: &str =
    "[[radar]]\nsac = 1\nsic = 2\nx = 0\ny = 0\nrange_sigma = 50\nazimuth_sigma = 12\n";

// The parts of a text, and what is told of it.
const FAULTS: [(&[&str], &str); 32] = [
    (&[SYSTEM, RADAR], ""),
    // no document
    (&[SYSTEM, "="], "settings: not a document"),
    // an integer that no document can hold makes it none, wherever it stands
    (
        &["large = 9_223_372_036_854_775_808\n", SYSTEM, RADAR],
        "settings: not a document",
    ),
    (
        &["large = -9_223_372_036_854_775_809\n", SYSTEM, RADAR],
        "settings: not a document",
    ),
    (
        &[
            "large = [{ larger = 0xFFFF_FFFF_FFFF_FFFF }]\n",
            SYSTEM,
            RADAR,
        ],
        "settings: not a document",
    ),
    (
        &["[system]\nhits = 9_223_372_036_854_775_808\n", RADAR],
        "settings: not a document",
    ),
    (
        &[SYSTEM, RADAR, "height = 9_223_372_036_854_775_808\n"],
        "settings: not a document",
    ),
    // the greatest and the least that one holds are read, and are out of range
    (
        &["[system]\nsac = 9_223_372_036_854_775_807\n", RADAR],
        "settings: range of key 1",
    ),
    (
        &[SYSTEM, "[[radar]]\nsac = -9_223_372_036_854_775_808\n"],
        "settings: range of key 8 of radar 0",
    ),
    // the system's keys come first, whatever else is wrong and wherever they stand
    (&["extra = 1\n"], "settings: missing key 1"),
    (&["extra = 1\n", "radar = 1\n"], "settings: missing key 1"),
    (&["extra = 1\n", RADAR], "settings: missing key 1"),
    (&["system = 1\n", "radar = 1\n"], "settings: kind of key 1"),
    (&["[[system]]\nsac = 1\n", RADAR], "settings: kind of key 1"),
    (
        &["radar = 1\n", "[system]\nsac = 1\nsic = 256\n"],
        "settings: range of key 2",
    ),
    (
        &["[system]\nsac = 1\nsic = 99\nhits = 1\n", RADAR],
        "settings: missing key 3",
    ),
    (
        &[
            "[system]\nsac = 1\nsic = 99\nservice = 1\nhits = 9\n",
            RADAR,
        ],
        "settings: range of key 5",
    ),
    // then the radars' keys, of which the first stands for the whole too
    (
        &[SYSTEM, "extra = 1\n"],
        "settings: missing key 8 of radar 0",
    ),
    (
        &["extra = 1\nradar = []\n", SYSTEM],
        "settings: missing key 8 of radar 0",
    ),
    (&["[radar]\n", SYSTEM], "settings: kind of key 8 of radar 0"),
    (
        &["radar = 1\n", SYSTEM],
        "settings: kind of key 8 of radar 0",
    ),
    (
        &["radar = [1]\n", SYSTEM],
        "settings: kind of key 8 of radar 0",
    ),
    (
        &[SYSTEM, "[[radar]]\nsac = 1\nsic = 1.5\n"],
        "settings: kind of key 9 of radar 0",
    ),
    (
        &[SYSTEM, "[[radar]]\nsac = 1\nsic = 1\nextra = 1\n"],
        "settings: missing key 10 of radar 0",
    ),
    (
        &[SYSTEM, RADAR, RADAR, SECOND, "north = -1\n"],
        "settings: range of key 13 of radar 2",
    ),
    // then a key that isn't known, at any level
    (
        &[
            "[system]\nsac = 1\nsic = 99\nservice = 1\nextra = 1\n",
            RADAR,
        ],
        "settings: unknown key",
    ),
    (&["radars = 1\n", SYSTEM, RADAR], "settings: unknown key"),
    (&[SYSTEM, RADAR, "window = 32\n"], "settings: unknown key"),
    (
        &[SYSTEM, RADAR, RADAR, "extra = 1\n"],
        "settings: unknown key",
    ),
    // then the least radar that repeats an earlier one, though another repeats the first of all
    (&[SYSTEM, RADAR, RADAR], "settings: radar 1 repeats radar 0"),
    (
        &[SYSTEM, RADAR, SECOND, SECOND, RADAR],
        "settings: radar 2 repeats radar 1",
    ),
    (&[SYSTEM, RADAR, SECOND], ""),
];

#[test]
fn tells_the_first_fault(rt: HostRuntime) -> Result<(), AllocError> {
    for (parts, want) in FAULTS {
        let text = joined(rt.alloc(), parts)?;
        assert!(rt; tells(rt.alloc(), text.as_str(), want)?);
    }
    Ok(())
}

// How many radars there are, the entries after them, and what is told. A 33rd radar is out of
// range, whatever its entry is; what is wrong with the first 32 comes before.
const MANY: [(u8, &str, &str); 10] = [
    (32, "", ""),
    (33, "", "settings: range of key 8 of radar 32"),
    (32, "1", "settings: range of key 8 of radar 32"),
    (32, "[]", "settings: range of key 8 of radar 32"),
    (32, "{}", "settings: range of key 8 of radar 32"),
    (32, "{ sac = 256 }", "settings: range of key 8 of radar 32"),
    (32, "{ extra = 1 }", "settings: range of key 8 of radar 32"),
    (
        32,
        "1, 1, { sac = true }",
        "settings: range of key 8 of radar 32",
    ),
    (31, "1, 1", "settings: kind of key 8 of radar 31"),
    (
        31,
        "{ sac = 1, sic = 7, x = 0, y = 0, range_sigma = 50, azimuth_sigma = 12 }",
        "settings: radar 31 repeats radar 7",
    ),
];

#[test]
fn takes_32_radars(rt: HostRuntime) -> Result<(), AllocError> {
    for (count, more, want) in MANY {
        let mut text = entries(rt.alloc(), count, more)?;
        text.push_str(SYSTEM)?;
        assert!(rt; tells(rt.alloc(), text.as_str(), want)?);
    }
    Ok(())
}

#[test]
fn takes_65_536_octets_of_utf8(rt: HostRuntime) -> Result<(), AllocError> {
    let alloc = rt.alloc();
    let mut text = joined(alloc, &[SYSTEM, RADAR])?;
    for _ in text.len()..SETTINGS_LIMIT {
        text.push_str("#")?;
    }
    assert!(rt; fault_of(alloc, text.as_str())? == None);
    text.push_str("#")?;
    assert!(rt; fault_of(alloc, text.as_str())? == Some(SettingsFault::Syntax));
    let no_text = read_settings(alloc, b"\xff");
    assert!(rt; no_text == Err(SettingsError::Fault(SettingsFault::Syntax)));
    Ok(())
}
