// What a radar measures of an aircraft.
ghost use Rattle.std.specs.Prelude.{◌≡◌, ◌≤◌, ◌^◌, unsigned_abs, option_map};
ghost use Rattle.scene_gen.specs.Answers.{polar_of};
ghost use Rattle.scene_gen.specs.Sightings.{coordinate, height, range, sighting, slant};

use crate::bearings::{Directions, Point, bearing};
use crate::fleet::Aircraft;
use crate::radars::SceneRadar;
use trk_base::{isqrt, round_div};

/// What a radar measures, I048/040.
#[derive(Clone, Copy)]
pub(crate) struct Polar {
    /// RHO: the slant range in 1/256 NM.
    pub rho: u16,
    /// THETA: the azimuth in 360/65,536 degrees.
    pub theta: u16,
}

// A coordinate in 1/64 m, as it is from a place in m after a time in 1/128 s.
fn coordinate(from: i32, velocity: i32, place: i32, time: u32) -> i64
    ensures value { result ≡ coordinate from velocity place time }
    ensures bound { unsigned_abs result ≤ 2 ^ 54 }
{
    let moved = round_div(i128::from(velocity) * i128::from(time), 2_048);
    (i128::from(from) + moved - 64 * i128::from(place)) as i64
}

// A level in 1/4 FL as a height in 1/64 m.
fn height(level: u16) -> u64
    ensures value { result ≡ height level }
    ensures bound { result ≤ 2 ^ 32 }
{
    (2 * (48_768 * u64::from(level)) + 100) / (2 * 100)
}

// The slant range in 1/64 m.
fn slant(point: Point, high: u64) -> u64
    requires x { unsigned_abs point.0 ≤ 2 ^ 54 }
    requires y { unsigned_abs point.1 ≤ 2 ^ 54 }
    requires high { high ≤ 2 ^ 32 }
    ensures value { result ≡ slant point.0 point.1 high }
    ensures bound { result ≤ 2 ^ 56 }
{
    let x = u128::from(point.0.unsigned_abs());
    let y = u128::from(point.1.unsigned_abs());
    let flat = u128::from(isqrt(x * x + y * y));
    let high = u128::from(high);
    isqrt(flat * flat + high * high)
}

// The slant range in 1/256 NM.
fn range(point: Point, level: u16) -> u64
    requires x { unsigned_abs point.0 ≤ 2 ^ 54 }
    requires y { unsigned_abs point.1 ≤ 2 ^ 54 }
    ensures { result ≡ range point.0 point.1 level }
{
    (2 * slant(point, height(level)) + 463) / (2 * 463)
}

// The aircraft's position from the radar, in 1/64 m.
fn position(radar: &SceneRadar, aircraft: &Aircraft, time: u32) -> Point
    ensures east { result.0 ≡ coordinate aircraft.now.x aircraft.now.vx radar.now.x time }
    ensures north { result.1 ≡ coordinate aircraft.now.y aircraft.now.vy radar.now.y time }
    ensures east_bound { unsigned_abs result.0 ≤ 2 ^ 54 }
    ensures north_bound { unsigned_abs result.1 ≤ 2 ^ 54 }
{
    (
        coordinate(aircraft.x, aircraft.vx, radar.x, time),
        coordinate(aircraft.y, aircraft.vy, radar.y, time),
    )
}

/// What the radar measures of the aircraft at a time in 1/128 s since the start.
pub(crate) fn sighting(
    directions: &mut Directions,
    radar: &SceneRadar,
    aircraft: &Aircraft,
    time: u32,
) -> Option<Polar>
    ensures { option_map polar_of result ≡ sighting radar.now time aircraft.now }
{
    let point = position(radar, aircraft, time);
    let rho = range(point, aircraft.level);
    if rho > 0xFFFF {
        return None;
    }
    Some(Polar {
        rho: rho as u16,
        theta: bearing(directions, point),
    })
}
