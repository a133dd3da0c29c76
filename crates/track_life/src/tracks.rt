// Tracks, and how plots make and continue them.
use crate::LifeSettings;
use fixed_imm::{Aim, Axis, MixedAim, time_step};
use plot_geometry::PlanePlot;
use std::marker::Model;
use trk_base::Key;

/// What is known of a target: where it is expected, what it calls itself, and by which plots.
#[derive(Clone, Copy, Debug)]
pub struct Track {
    /// The key of its first plot, by which tracks are in order.
    pub birth: Key,
    /// Where it is, at the time of its last plot, and its address and code as they were told last.
    pub aim: Aim,
    /// The flight level that was told last, in 1/4 FL.
    pub level: Option<i16>,
    /// The time of its last primary plot, in 1/128 s.
    pub psr: Option<u64>,
    /// The time of its last secondary plot, not counting Mode S.
    pub ssr: Option<u64>,
    /// The time of its last Mode S plot.
    pub mds: Option<u64>,
    /// The index of its first plot's radar in the settings.
    pub radar: u8,
    /// Whether all its plots are of that radar.
    pub mono: bool,
    /// Whether its last plot had the special position identification.
    pub spi: bool,
    /// How many plots it has, at most 2^32 - 1.
    pub plots: u32,
    /// Whether it is confirmed, and no longer tentative.
    pub confirmed: bool,
    /// Its track number, from 1 to 65,535, once it has one.
    pub number: Option<u16>,
}

impl Model for Track {
    ghost use Rattle.track_life.specs.Tracks.{TrackState, IsTrack};

    ghost Value = { TrackState };

    ghost view = { λ t. record { birth = t.birth; aim = t.aim; level = t.level; psr = t.psr; ssr = t.ssr; mds = t.mds; radar = t.radar; mono = t.mono; spi = t.spi; plots = t.plots; confirmed = t.confirmed; number = t.number } };

    ghost invariant = { λ t. IsTrack (record { birth = t.birth; aim = t.aim; level = t.level; psr = t.psr; ssr = t.ssr; mds = t.mds; radar = t.radar; mono = t.mono; spi = t.spi; plots = t.plots; confirmed = t.confirmed; number = t.number }) };

    ghost inverse = { λ t. record { birth = t.birth; aim = t.aim; level = t.level; psr = t.psr; ssr = t.ssr; mds = t.mds; radar = t.radar; mono = t.mono; spi = t.spi; plots = t.plots; confirmed = t.confirmed; number = t.number } };
}

impl Track {
    ghost use Rattle.std.specs.Prelude.{◌≡◌};
    ghost use Rattle.fixed_imm.specs.Aims.{mixed_aim};
    ghost use Rattle.fixed_imm.specs.Bounds.{IsTimeStep, time_step};
    ghost use Rattle.track_life.specs.Tracks.{begun, continued};
    ghost use Rattle.track_life.specs.Tables.{is_kept};

    /// The track of a first plot: tentative, unless one plot confirms, and without a number.
    #[tactic(auto, using(crate::proofs::Detected::detected), unfolding(crate::specs::Tracks::begun))]
    pub fn begin(plot: &PlanePlot, life: &LifeSettings) -> Track
        ensures { result ≡ begun life.now.hits plot.now }
    {
        let time = plot.key.time;
        Track {
            birth: plot.key,
            aim: first_aim(plot),
            level: plot.level,
            psr: last_seen(is_primary(plot.kind), time, None),
            ssr: last_seen(is_secondary(plot.kind), time, None),
            mds: last_seen(is_mode_s(plot.kind), time, None),
            radar: plot.key.radar,
            mono: true,
            spi: plot.spi,
            plots: 1,
            confirmed: life.hits <= 1,
            number: None,
        }
    }

    /// The track after a plot that belongs to it, from half a second before its time to 60.5 s
    /// after it. It is confirmed with as many plots as the settings ask, and stays so.
    pub fn update(&self, plot: &PlanePlot, life: &LifeSettings) -> Track
        requires { IsTimeStep (time_step self.now.aim.time plot.now.key.time) }
        ensures { result ≡ continued life.now.hits self.now plot.now }
    {
        self.update_mixed(&self.aim.mixed(), plot, life)
    }

    /// The same track, by its aim that was mixed before: who has gated the track mixed it for that,
    /// and needn't mix it again.
    #[tactic(auto, using(crate::proofs::Detected::detected), unfolding(crate::specs::Tracks::continued))]
    pub fn update_mixed(&self, mixed: &MixedAim, plot: &PlanePlot, life: &LifeSettings) -> Track
        requires mixed { mixed.now ≡ mixed_aim self.now.aim }
        requires step { IsTimeStep (time_step self.now.aim.time plot.now.key.time) }
        ensures { result ≡ continued life.now.hits self.now plot.now }
    {
        let time = plot.key.time;
        let plots = self.plots.saturating_add(1);
        Track {
            birth: self.birth,
            aim: next_aim(mixed, plot),
            level: plot.level.or(self.level),
            psr: last_seen(is_primary(plot.kind), time, self.psr),
            ssr: last_seen(is_secondary(plot.kind), time, self.ssr),
            mds: last_seen(is_mode_s(plot.kind), time, self.mds),
            radar: self.radar,
            mono: self.mono && plot.key.radar == self.radar,
            spi: plot.spi,
            plots,
            confirmed: self.confirmed || u32::from(life.hits) <= plots,
            number: self.number,
        }
    }

    /// Whether it hasn't expired at the start of a slot: its last plot isn't more seconds before it
    /// than the settings keep a confirmed track, or a tentative one.
    pub fn is_kept(&self, slot: u64, life: &LifeSettings) -> bool
        ensures { result ≡ is_kept life.now slot self.now }
    {
        64 * u128::from(slot)
            <= u128::from(self.aim.time) + 128 * u128::from(keep(self.confirmed, life))
    }
}

ghost use Rattle.std.specs.Prelude.{◌≡◌};
ghost use Rattle.fixed_imm.specs.Aims.{AimState, mixed_aim};
ghost use Rattle.fixed_imm.specs.Bounds.{IsTimeStep, time_step};
ghost use Rattle.track_life.specs.Tracks.{is_primary, is_secondary, is_mode_s, last_seen, first_aim, aim_after};
ghost use Rattle.track_life.specs.Tables.{keep};

// Where a track is after its first plot.
fn first_aim(plot: &PlanePlot) -> Aim
    ensures { result ≡ first_aim plot.now }
{
    Aim {
        x: Axis::start(plot.x, plot.rx),
        y: Axis::start(plot.y, plot.ry),
        time: plot.key.time,
        address: plot.address,
        code: plot.code,
    }
}

// Where it is after a further plot, of the aim that was mixed.
fn next_aim(mixed: &MixedAim, plot: &PlanePlot) -> Aim
    requires { IsTimeStep (time_step mixed.now.time plot.now.key.time) }
    ensures { (a : AimState) → mixed.now ≡ mixed_aim a → result ≡ aim_after a plot.now }
{
    let d = time_step(mixed.time, plot.key.time);
    Aim {
        x: mixed.x.update(d, plot.x, plot.rx),
        y: mixed.y.update(d, plot.y, plot.ry),
        time: plot.key.time,
        address: plot.address.or(mixed.address),
        code: plot.code.or(mixed.code),
    }
}

// Whether a detection (I048/020 TYP) has a primary plot: 1, 3, 6 or 7.
fn is_primary(kind: u8) -> bool
    ensures { result ≡ is_primary kind }
{
    kind == 1 || kind == 3 || kind == 6 || kind == 7
}

// Whether it has a secondary plot: 2 or 3.
fn is_secondary(kind: u8) -> bool
    ensures { result ≡ is_secondary kind }
{
    kind == 2 || kind == 3
}

// Whether it is of Mode S: 4 to 7.
fn is_mode_s(kind: u8) -> bool
    ensures { result ≡ is_mode_s kind }
{
    4 <= kind && kind <= 7
}

// The time of the last plot of a kind.
fn last_seen(now: bool, time: u64, before: Option<u64>) -> Option<u64>
    ensures { result ≡ last_seen now time before }
{
    if now { Some(time) } else { before }
}

// For how many seconds a track is kept without a plot.
fn keep(confirmed: bool, life: &LifeSettings) -> u8
    ensures { result ≡ keep life.now confirmed }
{
    if confirmed {
        life.keep_confirmed
    } else {
        life.keep_tentative
    }
}
