// The range of each key: the numbers just outside of it are refused, by the number of the key.
use super::fault_of;
use crate::{KeyPath, SettingsFault};
use std::alloc::{AllocError, Global};

// Each key with its name, and the numbers just below and just above its range.
const ENDS: [(u8, &str, i64, i64); 19] = [
    (1, "sac", -1, 256),
    (2, "sic", -1, 256),
    (3, "service", -1, 256),
    (4, "window", 1, 121),
    (5, "hits", 0, 9),
    (6, "keep_tentative", 0, 61),
    (7, "keep_confirmed", 0, 61),
    (8, "sac", -1, 256),
    (9, "sic", -1, 256),
    (10, "x", -1_000_001, 1_000_001),
    (11, "y", -1_000_001, 1_000_001),
    (12, "height", -501, 9_001),
    (13, "north", -1, 65_536),
    (14, "range_gain", -10_001, 10_001),
    (15, "range_bias", -1_001, 1_001),
    (16, "azimuth_bias", -1_001, 1_001),
    (17, "time_bias", -1_281, 1_281),
    (18, "range_sigma", 9, 1_001),
    (19, "azimuth_sigma", 0, 201),
];

// A document with the least number at each key, but for one key.
fn document(alloc: Global, changed: u8, number: i64) -> Result<String, AllocError> {
    let mut text = String::from_str(alloc, "[system]\n")?;
    for (key, name, below, _) in &ENDS {
        if *key == 8 {
            text.push_str("[[radar]]\n")?;
        }
        let number = if *key == changed {
            number
        } else {
            below.saturating_add(1)
        };
        let line = format!(in alloc; "{name} = {number}\n")?;
        text.push_str(line.as_str())?;
    }
    Ok(text)
}

// What is wrong with a document with that number at a key.
fn fault_at(alloc: Global, key: u8, number: i64) -> Result<Option<SettingsFault>, AllocError> {
    let text = document(alloc, key, number)?;
    fault_of(alloc, text.as_str())
}

#[test]
fn keeps_the_ranges(rt: HostRuntime) -> Result<(), AllocError> {
    for (key, _, below, above) in ENDS {
        let radar = (key > 7).then_some(0);
        let range = Some(SettingsFault::Range(KeyPath { radar, key }));
        for (number, want) in [
            (below, range),
            (above.saturating_sub(1), None),
            (above, range),
        ] {
            assert!(rt; fault_at(rt.alloc(), key, number)? == want);
        }
    }
    Ok(())
}
