// Track numbers: who is given which.
use super::{LIFE, plot_of, table_of};
use crate::numbers::give_numbers;
use crate::{Table, Track, assign_numbers};
use std::alloc::Global;
use std::test::Fail;
use trk_base::{Key, NoMemory};

// A track by the arrival of its first plot and whether it is confirmed, and its number before
// and after numbers were given.
type Row = (u64, bool, Option<u16>, Option<u16>);

const ROWS: [&[Row]; 7] = [
    // Arrivals that are the same modulo 65,535.
    &[
        (0, true, None, Some(1)),
        (65_535, true, None, Some(2)),
        (131_070, true, None, Some(3)),
    ],
    // Who has a number keeps it, tentative or not, and nobody else gets it, earlier or later.
    &[
        (0, true, Some(1), Some(1)),
        (65_535, true, Some(2), Some(2)),
    ],
    &[
        (7, true, None, Some(9)),
        (3, false, Some(8), Some(8)),
        (8, true, None, Some(10)),
    ],
    // From 65,535 on the next one is 1.
    &[
        (65_534, true, None, Some(65_535)),
        (131_069, true, None, Some(1)),
        (0, true, None, Some(2)),
    ],
    &[
        (9, true, Some(65_535), Some(65_535)),
        (5, true, Some(1), Some(1)),
        (65_534, true, None, Some(2)),
    ],
    // A tentative track waits until it is confirmed.
    &[(7, false, None, None), (7, true, None, Some(8))],
    // No track is given number 0, but one may hold it.
    &[
        (65_534, true, Some(0), Some(0)),
        (65_534, true, None, Some(65_535)),
    ],
];

fn track_of(arrival: u64, confirmed: bool, number: Option<u16>) -> Track {
    Track {
        birth: Key {
            slot: 72_000,
            radar: 0,
            time: 4_608_000,
            arrival,
        },
        confirmed,
        number,
        ..Track::begin(&plot_of(4_608_000, 0, 2, None), &LIFE)
    }
}

fn tracks_of(alloc: Global, rows: &[Row]) -> Result<Vec<Track>, NoMemory> {
    let mut tracks = Vec::with_capacity(alloc, rows.len())?;
    for row in rows {
        tracks.push(track_of(row.0, row.1, row.2))?;
    }
    Ok(tracks)
}

// Whether each track has the number that its row tells after numbers were given.
fn are_given(alloc: Global, rows: &[Row]) -> Result<bool, NoMemory> {
    let mut tracks = tracks_of(alloc, rows)?;
    give_numbers(alloc, &mut tracks)?;
    Ok(
        tracks
            .iter()
            .zip(rows)
            .all(|(track, row)| track.number == row.3),
    )
}

// Tracks that hold all numbers but one, and then one that waits.
fn crowd(alloc: Global, free: u16) -> Result<Vec<Track>, NoMemory> {
    let mut tracks = Vec::with_capacity(alloc, 65_536)?;
    for number in 1..=65_535 {
        if number != free {
            tracks.push(track_of(0, true, Some(number)))?;
        }
    }
    tracks.push(track_of(9, true, None))?;
    Ok(tracks)
}

// The number of the last track of such a crowd after numbers were given.
fn number_in_crowd(alloc: Global, free: u16) -> Result<Option<u16>, NoMemory> {
    let mut tracks = crowd(alloc, free)?;
    give_numbers(alloc, &mut tracks)?;
    Ok(tracks.last().and_then(|track| track.number))
}

#[test]
fn numbers(rt: HostRuntime) -> Result<(), Fail> {
    let alloc = rt.alloc();
    for rows in ROWS {
        assert!(rt; are_given(alloc, rows)?);
    }
    for (free, number) in [
        (0, None),
        (9, Some(9)),
        (10, Some(10)),
        (65_535, Some(65_535)),
    ] {
        assert_eq!(rt; number_in_crowd(alloc, free)?, number);
    }
    Ok(())
}

// The number of a table's last track.
fn last_number(table: &Table) -> Option<u16> {
    table.tracks().last().and_then(|track| track.number)
}

#[test]
fn table(rt: HostRuntime) -> Result<(), Fail> {
    let alloc = rt.alloc();
    let mut table = table_of(alloc, track_of(0, true, None))?;
    assign_numbers(alloc, &mut table)?;
    assert_eq!(rt; last_number(&table), Some(1));
    assign_numbers(alloc, &mut table)?;
    assert_eq!(rt; last_number(&table), Some(1));
    Ok(())
}
