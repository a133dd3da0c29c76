// The aircraft of a scene.
ghost use Rattle.std.specs.Prelude.{◌≡◌, ◌*◌, IfOk, OnOk, pos, ◌-ℤ◌, ◌*ℤ◌};
ghost use Rattle.scene_gen.specs.Draws.{after, drawn};
ghost use Rattle.scene_gen.specs.Fleets.{aircraft_of, fleet_from};

use crate::draws::draw;
use rand_pcg::Pcg32;
use std::alloc::Global;
use trk_base::NoMemory;

/// An aircraft that flies straight on.
#[derive(Clone, Copy)]
pub(crate) struct Aircraft {
    /// The position to the east at the start, in 1/64 m.
    pub x: i32,
    /// The position to the north at the start, in 1/64 m.
    pub y: i32,
    /// The velocity to the east, in 1/1024 m/s.
    pub vx: i32,
    /// The velocity to the north, in 1/1024 m/s.
    pub vy: i32,
    /// Mode 3/A code, 12 bits, I048/070.
    pub code: u16,
    /// Flight level in 1/4 FL, I048/090.
    pub level: u16,
    /// Aircraft address, 24 bits, I048/220.
    pub address: u32,
    /// When the antenna of each radar first points at it, in 1/128 s since the start.
    pub phases: [u32; 3],
}

// A coordinate at the start, in 1/64 m.
fn next_place(generator: &mut Pcg32) -> i32
    ensures place { result ≡ pos 64 *ℤ (pos (drawn 300001 generator.old) -ℤ pos 150000) }
    ensures after { generator.new ≡ after 1 generator.old }
{
    64 * (draw(300_001, generator) as i32 - 150_000)
}

// A velocity on one axis, in 1/1024 m/s.
fn next_velocity(generator: &mut Pcg32) -> i32
    ensures velocity { result ≡ pos 1024 *ℤ (pos (drawn 401 generator.old) -ℤ pos 200) }
    ensures after { generator.new ≡ after 1 generator.old }
{
    1_024 * (draw(401, generator) as i32 - 200)
}

// The next aircraft.
fn next_aircraft(number: u16, generator: &mut Pcg32) -> Aircraft
    ensures aircraft { result ≡ aircraft_of generator.old number }
    ensures after { generator.new ≡ after 9 generator.old }
{
    let x = next_place(generator);
    let y = next_place(generator);
    let vx = next_velocity(generator);
    let vy = next_velocity(generator);
    let code = draw(4_096, generator) as u16;
    let level = 4 * (50 + draw(350, generator) as u16);
    let phases = [
        draw(512, generator),
        draw(640, generator),
        draw(1_280, generator),
    ];
    Aircraft {
        x,
        y,
        vx,
        vy,
        code,
        level,
        address: u32::from(number) + 1,
        phases,
    }
}

/// So many aircraft, by the generator's next words.
pub(crate) fn next_fleet(
    alloc: Global,
    count: u16,
    generator: &mut Pcg32,
) -> Result<Vec<Aircraft>, NoMemory>
    ensures fleet { IfOk result (λ v. v.items ≡ fleet_from generator.old count) }
    ensures after { OnOk result (generator.new ≡ after (9 * count) generator.old) }
{
    let mut fleet = Vec::with_capacity(alloc, usize::from(count))?;
    for number in 0..count {
        fleet.push(next_aircraft(number, generator))?;
    }
    Ok(fleet)
}
