// What is shown of a track.
ghost use Rattle.std.specs.Prelude.{◌≡◌, ◌≤◌, unsigned_abs};
ghost use Rattle.std.specs.Option.{option_map};
ghost use Rattle.trk_base.specs.Limits.{plane_bound};
ghost use Rattle.fixed_imm.specs.Bounds.{IsCombinedVariance, IsTimeStep, time_step};
ghost use Rattle.fixed_imm.specs.Constants.{velocity_bound};
ghost use Rattle.cat062_out.specs.Tracks.{IsAge, IsPosition};
ghost use Rattle.edition_form.specs.Pictures.{number_of};
ghost use Rattle.edition_form.specs.Lines.{IsCombined, age, deviation, half_metres, line_with, quarter_metres, shown_line};

use cat062_out::TrackLine;
use fixed_imm::time_step;
use track_life::Track;
use trk_base::{Key, isqrt, round_div};

// A track coasts where its last plot is older than 12 s, in 1/128 s (I062/080 CST).
const COAST_AGE: u64 = 1_536;

/// The line of a track that is shown, with the track's birth: the number of a track that is ended may
/// be given to another, so a track is told by both.
#[derive(Clone, Copy, Debug)]
pub struct ShownLine {
    /// The key of the track's first plot.
    pub birth: Key,
    /// Its line, in which `first` and `ended` are false.
    pub line: TrackLine,
}

#[tactic(auto, unfolding(crate::specs::Lines::line_of))]
// A track with a number as it is shown at a time, as the filter has it then.
pub(crate) fn shown_line(track: &Track, number: u16, time: u64) -> ShownLine
    requires number { number ≡ number_of track.now }
    requires earlier { track.now.aim.time ≤ time }
    requires step { IsTimeStep (time_step track.now.aim.time time) }
    ensures { result ≡ shown_line time track.now }
{
    let step = time_step(track.aim.time, time);
    let x = track.aim.x.combined(step);
    let y = track.aim.y.combined(step);
    ShownLine {
        birth: track.birth,
        line: line_with(track, number, track.level, time, x, y),
    }
}

// The line of a track with these positions, velocities and variances at a time.
fn line_with(
    track: &Track,
    number: u16,
    level: Option<i16>,
    time: u64,
    x: (i64, i64, i64),
    y: (i64, i64, i64),
) -> TrackLine
    requires number { number ≡ number_of track.now }
    requires level { level ≡ track.now.level }
    requires earlier { track.now.aim.time ≤ time }
    requires x { IsCombined x }
    requires y { IsCombined y }
    ensures { result ≡ line_with time track.now x y }
{
    TrackLine {
        number,
        x: half_metres(x.0),
        y: half_metres(y.0),
        vx: quarter_metres(x.1),
        vy: quarter_metres(y.1),
        code: track.aim.code,
        address: track.aim.address,
        level,
        psr: age_of(time, track.psr),
        ssr: age_of(time, track.ssr),
        mds: age_of(time, track.mds),
        mono: track.mono,
        spi: track.spi,
        coast: time - track.aim.time > COAST_AGE,
        first: false,
        ended: false,
        sx: deviation(x.2),
        sy: deviation(y.2),
    }
}

// A position in 1/64 m, in 1/2 m (I062/100).
fn half_metres(position: i64) -> i32
    requires { unsigned_abs position ≤ plane_bound }
    ensures value { result ≡ half_metres position }
    ensures range { IsPosition result }
{
    round_div(i128::from(position), 32) as i32
}

// A velocity in 1/1024 m/s, in 1/4 m/s (I062/185).
fn quarter_metres(velocity: i64) -> i16
    requires { unsigned_abs velocity ≤ velocity_bound }
    ensures { result ≡ quarter_metres velocity }
{
    round_div(i128::from(velocity), 256) as i16
}

// The standard deviation of a variance in (1/64 m)^2, in 1/2 m, at most 65,535 (I062/500).
fn deviation(variance: i64) -> u16
    requires { IsCombinedVariance variance }
    ensures { result ≡ deviation variance }
{
    let root = isqrt(variance as u128);
    round_div(i128::from(root), 32).min(65_535) as u16
}

// The time since a detection, where there was one, in 1/4 s, at most 255 (I062/290).
fn age_of(time: u64, moment: Option<u64>) -> Option<u8>
    ensures value { result ≡ option_map (age time) moment }
    ensures range { IsAge result }
{
    match moment {
        Some(moment) => Some((time.saturating_sub(moment) / 32).min(255) as u8),
        None => None,
    }
}
