// Gates of a track for plots.
ghost use Rattle.std.specs.Prelude.{◌≡◌, ◌≤◌, ◌^◌, unsigned_abs};
ghost use Rattle.trk_base.specs.Ranges.{IsCode, IsAddress};
ghost use Rattle.fixed_imm.specs.Aims.{AimState, mixed_aim};
ghost use Rattle.fixed_imm.specs.Bounds.{IsTimeStep, IsPosition, IsVariance, time_step};
ghost use Rattle.gating.specs.Gating.{axis_cost, within_gate, cost_of, is_another, gate};
ghost use Rattle.gating.specs.MixedGating.{mixed_innovation, mixed_variance, mixed_cost};

use fixed_imm::{Aim, MixedAim, MixedAxis, time_step};
use plot_geometry::PlanePlot;
use trk_base::GATE_COST;

/// The farthest that a plot may lie from its track in either axis: 8 km, in 1/64 m.
pub const REACH: u64 = 512_000;

// The square of an innovation by its variance, in 1/256.
fn axis_cost(e: i64, s: u64) -> u64
    requires reach { unsigned_abs e ≤ 512000 }
    requires some { 1 ≤ s }
    requires most { s ≤ 2 ^ 56 }
    ensures value { result ≡ axis_cost e s }
    ensures size { result ≤ 2 ^ 47 }
{
    let size = e.unsigned_abs();
    (2 * (256 * size * size) + s) / (2 * s)
}

// The cost of both axes, where it is within the gate.
fn within_gate(x: u64, y: u64) -> Option<u16>
    requires first { x ≤ 2 ^ 47 }
    requires second { y ≤ 2 ^ 47 }
    ensures { result ≡ within_gate x y }
{
    let cost = x + y;
    if cost > u64::from(GATE_COST) {
        return None;
    }
    Some(cost as u16)
}

/// The cost of pairing a track with a plot that lies `ex` to the east and `ey` to the north of
/// where it is expected, in 1/64 m, with the variances `sx` and `sy` in (1/64 m)².
///
/// The cost is the normalized innovation squared, in 1/256, each axis rounded by itself. There is
/// none where the plot is farther than 8 km away in either axis, or where the cost is above 4,096.
pub fn cost_of(ex: i64, sx: u64, ey: i64, sy: u64) -> Option<u16>
    requires x_near { unsigned_abs ex ≤ 2 ^ 31 }
    requires x_some { 1 ≤ sx }
    requires x_most { sx ≤ 2 ^ 56 }
    requires y_near { unsigned_abs ey ≤ 2 ^ 31 }
    requires y_some { 1 ≤ sy }
    requires y_most { sy ≤ 2 ^ 56 }
    ensures { result ≡ cost_of ex sx ey sy }
{
    if ex.unsigned_abs() > REACH {
        return None;
    }
    if ey.unsigned_abs() > REACH {
        return None;
    }
    within_gate(axis_cost(ex, sx), axis_cost(ey, sy))
}

/// Whether a plot is of another aircraft than one with this address (I048/220) and code (I048/070):
/// their addresses differ, or else, unless both have an address, their codes do. It has no gate then.
pub fn is_another(address: Option<u32>, code: Option<u16>, plot: &PlanePlot) -> bool
    ensures { result ≡ is_another address code plot.now }
{
    match (address, plot.address) {
        (Some(aircraft), Some(other)) => aircraft != other,
        _ => match (code, plot.code) {
            (Some(squawk), Some(other)) => squawk != other,
            _ => false,
        },
    }
}

// How far a measured position lies from where it is expected.
fn innovation(axis: &MixedAxis, d: i32, z: i64) -> i64
    requires step { IsTimeStep d }
    requires position { IsPosition z }
    ensures value { result ≡ mixed_innovation axis.now d z }
    ensures near { unsigned_abs result ≤ 2 ^ 31 }
{
    z - axis.position(d)
}

// The variance of that, where the position was measured with the variance `r`.
fn innovation_variance(axis: &MixedAxis, d: i32, r: u64) -> u64
    requires step { IsTimeStep d }
    requires variance { IsVariance r }
    ensures value { result ≡ mixed_variance axis.now d r }
    ensures some { 1 ≤ result }
    ensures most { result ≤ 2 ^ 56 }
{
    axis.variance(d) as u64 + r
}

// The cost of pairing a target that flies by these axes with a plot `d` units of 1/128 s later.
//
// Positions take less work than variances, and most plots are out of reach.
fn mixed_cost(x: &MixedAxis, y: &MixedAxis, d: i32, plot: &PlanePlot) -> Option<u16>
    requires { IsTimeStep d }
    ensures { result ≡ mixed_cost x.now y.now d plot.now }
{
    let ex = innovation(x, d, plot.x);
    if ex.unsigned_abs() > REACH {
        return None;
    }
    let ey = innovation(y, d, plot.y);
    if ey.unsigned_abs() > REACH {
        return None;
    }
    let cost_x = axis_cost(ex, innovation_variance(x, d, plot.rx));
    if cost_x > u64::from(GATE_COST) {
        return None;
    }
    within_gate(cost_x, axis_cost(ey, innovation_variance(y, d, plot.ry)))
}

/// The cost of pairing a track with a plot, from half a second before the track's time to 60.5 s
/// after it.
///
/// There is none where the plot is of another aircraft, by its address (I048/220) or, unless both
/// have one, by its Mode 3/A code (I048/070), nor where `cost_of` has none.
pub fn gate(aim: &Aim, plot: &PlanePlot) -> Option<u16>
    requires { IsTimeStep (time_step aim.now.time plot.now.key.time) }
    ensures { result ≡ gate aim.now plot.now }
{
    if is_another(aim.address, aim.code, plot) {
        return None;
    }
    let d = time_step(aim.time, plot.key.time);
    let x = aim.x.mixed();
    if innovation(&x, d, plot.x).unsigned_abs() > REACH {
        return None;
    }
    mixed_cost(&x, &aim.y.mixed(), d, plot)
}

/// The same for an aim that is mixed already: of one track against many plots, each gate then
/// takes but a prediction.
pub fn gate_mixed(aim: &MixedAim, plot: &PlanePlot) -> Option<u16>
    requires { IsTimeStep (time_step aim.now.time plot.now.key.time) }
    ensures { (a : AimState) → aim.now ≡ mixed_aim a → result ≡ gate a plot.now }
{
    if is_another(aim.address, aim.code, plot) {
        return None;
    }
    let d = time_step(aim.time, plot.key.time);
    mixed_cost(&aim.x, &aim.y, d, plot)
}

#[cfg(test)]
mod tests {
    use super::*;
    use fixed_imm::Axis;
    use trk_base::Key;

    #[test]
    fn closes_at_sixteen(rt: HostRuntime) {
        assert_eq!(rt; cost_of(400, 10_000, 0, 1), Some(4_096));
        assert_eq!(rt; cost_of(401, 10_000, 0, 1), None);
        assert_eq!(rt; cost_of(-512_000, 1 << 40, 512_000, 1 << 40), Some(122));
        assert_eq!(rt; cost_of(0, 1, 512_001, 1 << 56), None);
    }

    // The gate of a track at the origin for a plot 118 units later, 50,000 units to the east, taken
    // both ways.
    fn gates_of(
        codes: (Option<u16>, Option<u16>),
        addresses: (Option<u32>, Option<u32>),
    ) -> (Option<u16>, Option<u16>)
        requires known_code { IsCode codes.0 }
        requires code { IsCode codes.1 }
        requires known_address { IsAddress addresses.0 }
        requires address { IsAddress addresses.1 }
    {
        let axis = Axis::start(0, 18_496);
        let aim = Aim {
            x: axis,
            y: axis,
            time: 4_608_000,
            address: addresses.0,
            code: codes.0,
        };
        let plot = PlanePlot {
            key: Key {
                slot: 72_001,
                radar: 0,
                time: 4_608_118,
                arrival: 1,
            },
            x: 50_000,
            y: 0,
            rx: 18_496,
            ry: 18_496,
            kind: 2,
            spi: false,
            code: codes.1,
            level: None,
            address: addresses.1,
        };
        (gate(&aim, &plot), gate_mixed(&aim.mixed(), &plot))
    }

    #[test]
    fn compares_addresses_first(rt: HostRuntime) {
        let open = (Some(2_042), Some(2_042));
        let shut = (None, None);
        assert_eq!(rt; gates_of((None, None), (None, None)), open);
        assert_eq!(rt; gates_of((Some(1), Some(2)), (None, Some(1))), shut);
        assert_eq!(rt; gates_of((Some(1), Some(2)), (Some(1), Some(1))), open);
        assert_eq!(rt; gates_of((Some(1), Some(1)), (Some(2), Some(1))), shut);
    }
}
