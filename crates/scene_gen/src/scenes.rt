// A scene, from its seed to its recording.
ghost use Rattle.std.specs.Prelude.{◌≡◌, ◌≤◌, ◌++◌, ◌^◌, IfOk, OnOk};
ghost use Rattle.std.specs.List.{flat_map};
ghost use Rattle.recording.specs.Items.{item_octets};
ghost use Rattle.scene_gen.specs.Scenes.{north_markers, scene, tick_at};

use crate::datagrams::{SECOND, START, north_octets};
use crate::draws::generator_of;
use crate::fleet::next_fleet;
use crate::radars::RADARS;
use crate::sky::Sky;
use recording::{Item, write_item, write_start};
use std::alloc::Global;
use trk_base::NoMemory;

// How many seconds a scene goes on when no more plots are seen, so that all have come.
const LAST_SECONDS: u32 = 10;

// Puts the north markers of a time behind the octets.
fn put_north_markers(seconds: u16, time: u32, octets: &mut Vec<u8>) -> Result<(), NoMemory>
    ensures { OnOk result (octets.new.items ≡ octets.old.items ++ flat_map item_octets (north_markers seconds time)) }
{
    if time >= SECOND * u32::from(seconds) {
        return Ok(());
    }
    for radar in &RADARS {
        if time % radar.period == 0 {
            octets.extend_from_slice(&north_octets(radar, time))?;
        }
    }
    Ok(())
}

// Puts the tick of a time behind the octets, where there is one.
fn put_tick(alloc: Global, time: u32, octets: &mut Vec<u8>) -> Result<(), NoMemory>
    ensures { OnOk result (octets.new.items ≡ octets.old.items ++ flat_map item_octets (tick_at time)) }
{
    if time % SECOND == 0 && time > 0 {
        let tick = write_item(alloc, &Item::Tick(START + u64::from(time)))?;
        octets.extend_from_slice(&tick)?;
    }
    Ok(())
}

// The most octets that a scene has, when no aircraft leaves the range of a radar: the header, a plot
// of each aircraft and a north marker for each turn that a radar has begun, and the ticks.
fn room(aircraft: u16, seconds: u16) -> usize {
    let time = SECOND * u32::from(seconds);
    let turns = time / RADARS[0].period + time / RADARS[1].period + time / RADARS[2].period + 3;
    let turn = 26 * usize::from(aircraft) + 14;
    9 + turns as usize * turn + 6 * (usize::from(seconds) + LAST_SECONDS as usize)
}

/// The recording of a scene of a seed: so many aircraft are seen by three radars for so many
/// seconds, and of a hundred plots about so many come late.
///
/// One seed has one recording, octet for octet. It begins at 10:00:00 with the first header, and
/// has the radars' plots and north markers and a tick each second, until ten seconds after the
/// last plot was seen.
pub fn scene(
    alloc: Global,
    seed: u64,
    aircraft: u16,
    seconds: u16,
    late: u8,
) -> Result<Vec<u8>, NoMemory>
    ensures { IfOk result (λ v. v.items ≡ scene seed aircraft seconds late) }
{
    let mut generator = generator_of(seed);
    let fleet = next_fleet(alloc, aircraft, &mut generator)?;
    let mut sky = Sky::over(alloc, &fleet, generator, seconds, late)?;
    let mut octets = Vec::with_capacity(alloc, room(aircraft, seconds))?;
    octets.extend_from_slice(&write_start(START))?;
    for time in 0..SECOND * (u32::from(seconds) + LAST_SECONDS) + 1 {
        sky.see(time)?;
        put_north_markers(seconds, time, &mut octets)?;
        sky.put_plots(time, &mut octets)?;
        put_tick(alloc, time, &mut octets)?;
    }
    Ok(octets)
}
