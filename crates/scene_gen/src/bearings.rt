// In which direction a point lies, in 360/65,536 degrees clockwise from north.
ghost use Rattle.std.specs.Prelude.{◌≡◌, ◌≤◌, ◌+◌, ◌^◌, unsigned_abs};
ghost use Rattle.scene_gen.specs.Bearings.{bearing, bearing_from, direction, lies_on, quarter};

use plot_geometry::rotate;
use std::alloc::Global;
use std::marker::Model;
use trk_base::NoMemory;

/// A point of the plane: to the east and to the north.
pub(crate) type Point = (i64, i64);

/// How many angles there are.
const ANGLES: usize = 1 << 16;

/// The binary digits of an angle within a quarter turn.
const DIGITS: u32 = 14;

/// The directions of angles, each as a point 2^20 from the origin. One is made when it is first
/// asked for, and kept: a bearing asks for 14 of them.
#[derive(Drop)]
pub(crate) struct Directions {
    // Those that are made, by their angles.
    made: Vec<Option<Point>>,
}

impl Model for Directions {
    ghost use Rattle.std.specs.Prelude.{⊤};
    ghost use Rattle.scene_gen.specs.Bearings.{AreDirections};

    ghost Value = { ⊤ };

    ghost view = { λ d. tt };

    ghost invariant = { λ d. AreDirections d.made.items };
}

impl Directions {
    /// None is made yet.
    pub fn new(alloc: Global) -> Result<Directions, NoMemory> {
        let mut made = Vec::with_capacity(alloc, ANGLES)?;
        for _ in 0..ANGLES {
            made.push(None)?;
        }
        Ok(Directions { made })
    }

    /// The direction of an angle.
    fn of(&mut self, angle: u16) -> Point
        ensures { result ≡ direction angle }
    {
        let index = usize::from(angle);
        if let Some(point) = self.made[index] {
            return point;
        }
        let point = rotate(angle, 1 << 20);
        self.made[index] = Some(point);
        point
    }
}

// The quarter turn from which on a point lies.
fn quarter(point: Point) -> u16
    ensures value { result ≡ quarter point.0 point.1 }
    ensures whole { result + 2 ^ 14 ≤ 2 ^ 16 }
{
    let (x, y) = point;
    if x >= 0 && y > 0 {
        0
    } else if x > 0 && y <= 0 {
        0x4000
    } else if x <= 0 && y < 0 {
        0x8000
    } else {
        0xC000
    }
}

// The point lies in this direction, or on from it clockwise by less than a half turn.
fn lies_on(direction: Point, point: Point) -> bool
    requires x { unsigned_abs point.0 ≤ 2 ^ 54 }
    requires y { unsigned_abs point.1 ≤ 2 ^ 54 }
    ensures { result ≡ lies_on direction point.0 point.1 }
{
    let (x, y) = point;
    let (east, north) = direction;
    i128::from(x) * i128::from(north) - i128::from(y) * i128::from(east) >= 0
}

// The angle of a point from a quarter turn on, digit by digit.
fn bearing_from(directions: &mut Directions, start: u16, point: Point) -> u16
    requires whole { start + 2 ^ 14 ≤ 2 ^ 16 }
    requires x { unsigned_abs point.0 ≤ 2 ^ 54 }
    requires y { unsigned_abs point.1 ≤ 2 ^ 54 }
    ensures { result ≡ bearing_from 14 start point.0 point.1 }
{
    let mut angle = start;
    for k in (0..DIGITS).rev() {
        let next = angle + (1 << k);
        if lies_on(directions.of(next), point) {
            angle = next;
        }
    }
    angle
}

/// The angle of a point; 0 for the origin.
pub(crate) fn bearing(directions: &mut Directions, point: Point) -> u16
    requires x { unsigned_abs point.0 ≤ 2 ^ 54 }
    requires y { unsigned_abs point.1 ≤ 2 ^ 54 }
    ensures { result ≡ bearing point.0 point.1 }
{
    if point == (0, 0) {
        0
    } else {
        bearing_from(directions, quarter(point), point)
    }
}
