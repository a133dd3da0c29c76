// A plot's position in the plane, and its variances.
ghost use Rattle.std.specs.Prelude.{◌≡◌, ◌<◌, ◌≤◌, ◌^◌, ◌+◌, ◌-◌, ◌*◌, ℤ, pos, ◌+ℤ◌, ◌*ℤ◌, unsigned_abs};
ghost use Rattle.trk_base.specs.Limits.{plane_bound};
ghost use Rattle.plot_geometry.specs.Plane.{slant_range, azimuth, height_above, ground_range, cross_range_sigma, squared_sine, axis_variance};
ghost use Rattle.plot_geometry.specs.PlanePlots.{plane_plot};

use crate::turns::{scaled, sine_cosine};
use crate::{PlanePlot, RadarSettings};
use trk_base::{Key, RawPlot, isqrt, round_div};

/// The squares of a sine and of a cosine add up to this: one, in units of 2^-20.
const WHOLE: u64 = 1 << 20;

// The slant range in 1/64 m, of a measured one in 1/256 NM, freed of the bias and the gain.
pub(crate) fn slant_range(rho: u16, bias: i16, gain: i16) -> u64
    requires bias { unsigned_abs bias ≤ 1000 }
    requires gain { unsigned_abs gain ≤ 10000 }
    ensures value { result ≡ slant_range rho bias gain }
    ensures bound { result ≤ 2 ^ 26 }
{
    let measured = 463 * i128::from(rho) - 926 * i128::from(bias);
    let range = round_div(100_000 * measured, 100_000 + i128::from(gain));
    range.max(0) as u64
}

// The azimuth from the plane's north, of one from the radar's, freed of its bias.
pub(crate) fn azimuth(theta: u16, bias: i16, north: u16) -> u16
    ensures { result ≡ azimuth theta bias north }
{
    (i32::from(theta) - i32::from(bias) + i32::from(north)).rem_euclid(0x1_0000) as u16
}

// How far above the radar a level in 1/4 FL is, in 1/64 m.
pub(crate) fn height_above(level: i16, height: i16) -> i128
    ensures value { result ≡ height_above level height }
    ensures bound { unsigned_abs result ≤ 2 ^ 30 }
{
    round_div(48_768 * i128::from(level), 100) - 64 * i128::from(height)
}

// The range over the ground in 1/64 m: the other leg of the triangle of the slant range and the
// height, where a level tells it.
pub(crate) fn ground_range(slant: u64, level: Option<i16>, height: i16) -> u64
    requires { slant ≤ 2 ^ 26 }
    ensures value { result ≡ ground_range slant level height }
    ensures bound { result ≤ slant }
{
    match level {
        None => slant,
        Some(level) => {
            let above = height_above(level, height).unsigned_abs();
            let slant = u128::from(slant);
            isqrt((slant * slant).saturating_sub(above * above))
        }
    }
}

// The standard deviation across the line of sight in 1/64 m.
fn cross_range_sigma(range: u64, sigma: u16) -> u64
    requires range { range ≤ 2 ^ 26 }
    requires sigma { sigma ≤ 200 }
    ensures value { result ≡ cross_range_sigma range sigma }
    ensures bound { result ≤ 2 ^ 21 }
{
    round_div(i128::from(range) * i128::from(sigma) * 710, 113 * 65_536) as u64
}

// The square of a sine in units of 2^-40, in units of 2^-20.
fn squared_sine(sine: i128) -> u64
    requires { unsigned_abs sine ≤ 2 ^ 41 }
    ensures value { result ≡ squared_sine sine }
    ensures bound { result ≤ WHOLE }
{
    round_div(sine * sine, 1 << 60).clamp(0, i128::from(WHOLE)) as u64
}

// The variance on an axis in (1/64 m)^2, of the standard deviations along and across the line of
// sight and of the square of the cosine between that line and the axis, in units of 2^-20.
fn axis_variance(along: u64, across: u64, cosine: u64) -> u64
    requires along { along ≤ 64000 }
    requires across { across ≤ 2 ^ 21 }
    requires cosine { cosine ≤ WHOLE }
    ensures value { result ≡ axis_variance along across cosine (WHOLE - cosine) }
    ensures least { 1 ≤ result }
    ensures bound { result ≤ 2 ^ 46 }
{
    let along = i128::from(along * along) * i128::from(cosine);
    let across = i128::from(across * across) * i128::from(WHOLE - cosine);
    (round_div(along + across, i128::from(WHOLE)) as u64).max(1)
}

// A coordinate in 1/64 m, of a radar's in m and what a plot lies on from there in 1/64 m.
fn coordinate(radar: i32, onward: i64) -> i64
    requires radar { unsigned_abs radar ≤ 1000000 }
    requires onward { unsigned_abs onward ≤ 2 ^ 27 }
    ensures value { result ≡ pos 64 *ℤ radar +ℤ onward }
    ensures bound { unsigned_abs result ≤ plane_bound }
{
    64 * i64::from(radar) + onward
}

/// A raw plot of a radar, put into the plane: its position, freed of the radar's biases, and the
/// variances of that position on the plane's axes. All else stays as the plot has it.
pub fn to_plane(radar: &RadarSettings, plot: &RawPlot, key: Key) -> PlanePlot
    ensures { result ≡ plane_plot radar.now plot.now key }
{
    let slant = slant_range(plot.rho, radar.range_bias, radar.range_gain);
    let range = ground_range(slant, plot.level, radar.height);
    let (sine, cosine) = sine_cosine(azimuth(plot.theta, radar.azimuth_bias, radar.north));
    let along = 64 * u64::from(radar.range_sigma);
    let across = cross_range_sigma(range, radar.azimuth_sigma);
    let share = squared_sine(sine);
    PlanePlot {
        key,
        x: coordinate(radar.x, scaled(range as i64, sine)),
        y: coordinate(radar.y, scaled(range as i64, cosine)),
        rx: axis_variance(along, across, share),
        ry: axis_variance(along, across, WHOLE - share),
        kind: plot.kind,
        spi: plot.spi,
        code: plot.code,
        level: plot.level,
        address: plot.address,
    }
}
