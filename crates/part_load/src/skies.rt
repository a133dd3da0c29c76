// Aircraft that fly straight on, and the plots that three radars have of them.
ghost use Rattle.std.specs.Prelude.{◌≤◌, ◌<◌, ◌^◌, unsigned_abs};
ghost use Rattle.trk_base.specs.Limits.{plane_bound};
ghost use Rattle.trk_base.specs.Ranges.{IsCode, IsAddress};

use crate::words::{Load, Telling};
use plot_geometry::PlanePlot;
use rand_core::utils::NextWord;
use rand_pcg::Pcg32;
use std::alloc::Global;
use trk_base::{Key, NoMemory, PLANE_BOUND, slot_of};

/// The slot that aircraft are first seen in.
pub const FIRST_SLOT: u64 = 72_000;

// Its start, in 1/128 s.
const START: u64 = 64 * FIRST_SLOT;

// A radar: where it stands in 1/64 m, and how long a turn takes in 1/128 s.
const RADARS: [(i64, i64, u64); 3] = [(0, 0, 512), (5_120_000, 0, 640), (0, 5_760_000, 1_280)];

/// An aircraft at the start.
#[derive(Clone, Copy)]
pub struct Aircraft {
    // To the east and to the north, in 1/64 m.
    x: i64,
    y: i64,
    // In m/s.
    vx: i64,
    vy: i64,
    code: Option<u16>,
    address: Option<u32>,
    // When each radar first points at it, in 1/128 s from the start.
    phases: [u32; 3],
    ghost code_range: { IsCode code },
    ghost address_range: { IsAddress address },
}

// A number below a limit, by the generator's next word.
fn draw(limit: u32, generator: &mut Pcg32) -> u32
    requires { 0 < limit }
    ensures { result < limit }
{
    generator.next_word() % limit
}

// What an aircraft tells: a code and an address.
fn telling(load: Load, number: u32, code: u16) -> (Option<u16>, Option<u32>)
    requires few { number < 10000 }
    requires code { code < 4096 }
    ensures code { IsCode result.0 }
    ensures address { IsAddress result.1 }
{
    let shared = (load.telling, number % 10);
    match shared {
        (Telling::Primary, _) | (Telling::Mixed, 0) => (None, None),
        (Telling::Mixed, 1) => (Some(0o7000), None),
        (Telling::Coded, _) | (Telling::Mixed, 2 | 3) => (Some(code), None),
        _ => (Some(code), Some(number)),
    }
}

// A coordinate at the start, in 1/64 m: up to 150 km either way.
fn place(generator: &mut Pcg32) -> i64 {
    64 * (i64::from(draw(300_001, generator)) - 150_000)
}

// A velocity on one axis, in m/s.
fn velocity(generator: &mut Pcg32) -> i64 {
    i64::from(draw(401, generator)) - 200
}

// The next aircraft.
fn next_aircraft(load: Load, number: u32, generator: &mut Pcg32) -> Aircraft
    requires { number < 10000 }
{
    let (x, y) = (place(generator), place(generator));
    let (vx, vy) = (velocity(generator), velocity(generator));
    let (code, address) = telling(load, number, draw(4_096, generator) as u16);
    Aircraft {
        x,
        y,
        vx,
        vy,
        code,
        address,
        phases: [
            draw(512, generator),
            draw(640, generator),
            draw(1_280, generator),
        ],
    }
}

/// The aircraft of a load, spread over 300 km by 300 km.
pub fn fleet(alloc: Global, load: Load) -> Result<Vec<Aircraft>, NoMemory> {
    let mut generator = Pcg32::new(1, 1);
    let mut fleet = Vec::with_capacity(alloc, load.aircraft as usize)?;
    for number in 0..load.aircraft {
        fleet.push(next_aircraft(load, number, &mut generator))?;
    }
    Ok(fleet)
}

// A coordinate after some time in 1/128 s.
fn place_after(x: i64, v: i64, d: i64) -> i64
    ensures { unsigned_abs result ≤ plane_bound }
{
    x.saturating_add(v.saturating_mul(d) / 2)
        .clamp(-PLANE_BOUND, PLANE_BOUND)
}

// The variance of a coordinate by how far the radar is, in (1/64 m)^2.
fn variance(east: i64, north: i64) -> u64
    ensures least { 1 ≤ result }
    ensures most { result ≤ 2 ^ 46 }
{
    let far = east.unsigned_abs().max(north.unsigned_abs()).min(1 << 30);
    10_240_000 + 12 * far
}

// The plot of an aircraft by a radar. Its number and its time give its place among all plots.
fn plot_of(
    aircraft: &Aircraft,
    radar: u8,
    from: (i64, i64),
    time: u64,
    arrival: u64,
    told: bool,
) -> PlanePlot {
    let d = time.saturating_sub(START).min(1 << 40) as i64;
    let x = place_after(aircraft.x, aircraft.vx, d);
    let y = place_after(aircraft.y, aircraft.vy, d);
    let r = variance(x.saturating_sub(from.0), y.saturating_sub(from.1));
    PlanePlot {
        key: Key {
            slot: slot_of(time),
            radar,
            time,
            arrival,
        },
        x,
        y,
        rx: r,
        ry: r,
        kind: if told { 5 } else { 1 },
        spi: false,
        code: if told { aircraft.code } else { None },
        level: None,
        address: if told { aircraft.address } else { None },
    }
}

// Puts the plots of one radar at one time behind others.
fn add_plots(
    load: Load,
    fleet: &[Aircraft],
    radar: u8,
    time: u64,
    plots: &mut Vec<PlanePlot>,
) -> Result<(), NoMemory>
    requires { radar < 3 }
{
    let (x, y, turn) = RADARS[usize::from(radar)];
    let at = time % turn;
    for aircraft in fleet {
        if u64::from(aircraft.phases[usize::from(radar)]) == at {
            let arrival = plots.len() as u64;
            let told = load.telling != Telling::Lossy || arrival % 10 != 0;
            plots.push(plot_of(aircraft, radar, (x, y), time, arrival, told))?;
        }
    }
    Ok(())
}

/// Puts the plots of a slot behind others, in the order of their keys.
pub fn add_slot(
    load: Load,
    fleet: &[Aircraft],
    slot: u64,
    plots: &mut Vec<PlanePlot>,
) -> Result<(), NoMemory>
    requires { slot < 1000000 }
{
    for radar in 0..3 {
        for unit in 0..64 {
            add_plots(load, fleet, radar, 64 * slot + unit, plots)?;
        }
    }
    Ok(())
}
