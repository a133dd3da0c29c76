// A coarse gate, which needs neither mixing nor a prediction.
ghost use Rattle.std.specs.Prelude.{◌↔◌, pos, IsTrue};
ghost use Rattle.trk_base.specs.Numbers.{IsBetween};
ghost use Rattle.fixed_imm.specs.Constants.{greatest_time_step};
ghost use Rattle.fixed_imm.specs.Bounds.{IsPosition};
ghost use Rattle.gating.specs.Coarse.{IsIn, IsCoarseGate};

use crate::gates::REACH;
use fixed_imm::Aim;
use plot_geometry::PlanePlot;

/// A rectangle in the plane, by its edges in 1/64 m (a rectangular coarse gate: Blackman and
/// Popoli, "Design and Analysis of Modern Tracking Systems", gating).
#[derive(Clone, Copy, Debug, PartialEq, Eq)]
pub struct CoarseGate {
    /// The least position to the east.
    pub west: i64,
    /// The greatest position to the east.
    pub east: i64,
    /// The least position to the north.
    pub south: i64,
    /// The greatest position to the north.
    pub north: i64,
}

// Whether `x` is neither below `least` nor above `greatest`.
fn is_between(least: i64, x: i64, greatest: i64) -> bool
    ensures { IsTrue result ↔ IsBetween least x greatest }
{
    least <= x && x <= greatest
}

impl CoarseGate {
    /// The rectangle outside of which a track gates no plot that was measured at most `span` units
    /// of 1/128 s, from 0 to 7,744, before or after the track's time.
    pub fn of(aim: &Aim, span: i32) -> CoarseGate
        requires { IsBetween (pos 0) span greatest_time_step }
        ensures { IsCoarseGate aim.now span result }
    {
        let reach = REACH as i64;
        let (west, east) = aim.x.extent(span);
        let (south, north) = aim.y.extent(span);
        CoarseGate {
            west: west - reach,
            east: east + reach,
            south: south - reach,
            north: north + reach,
        }
    }

    /// Whether a plot lies in it, the edges included.
    pub fn contains(&self, plot: &PlanePlot) -> bool
        ensures { IsTrue result ↔ IsIn self.now plot.now }
    {
        let CoarseGate {
            west,
            east,
            south,
            north,
        } = *self;
        is_between(west, plot.x, east) && is_between(south, plot.y, north)
    }
}

#[cfg(test)]
mod tests {
    use super::*;
    use fixed_imm::Axis;
    use trk_base::Key;

    fn plot_at(x: i64, y: i64) -> PlanePlot
        requires x { IsPosition x }
        requires y { IsPosition y }
    {
        PlanePlot {
            key: Key {
                slot: 72_001,
                radar: 0,
                time: 4_608_118,
                arrival: 1,
            },
            x,
            y,
            rx: 18_496,
            ry: 18_496,
            kind: 2,
            spi: false,
            code: None,
            level: None,
            address: None,
        }
    }

    #[test]
    fn reaches_as_far_as_a_track_flies(rt: HostRuntime) {
        let aim = Aim {
            x: Axis::start(0, 10_240_000).update(512, 64_000, 10_240_000),
            y: Axis::start(1_000, 18_496),
            time: 4_608_000,
            address: None,
            code: None,
        };
        let coarse = CoarseGate::of(&aim, 128);
        assert_eq!(rt; (coarse.west, coarse.east), (-464_064, 591_842));
        assert_eq!(rt; (coarse.south, coarse.north), (-511_001, 513_001));
        assert_eq!(rt; coarse.contains(&plot_at(591_842, -511_001)), true);
        assert_eq!(rt; coarse.contains(&plot_at(591_843, 0)), false);
        assert_eq!(rt; coarse.contains(&plot_at(0, -511_002)), false);
    }
}
