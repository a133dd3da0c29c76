// The filter of one axis.
use crate::Motion;
use crate::mixed::MixedAxis;
use crate::mixing::{mixed, share};
use crate::modes::{MANOEUVRE, Mode, STEADY};
use crate::weighing::predicted_weights;
use std::marker::Model;

// The standard deviation of the first velocity is 300 m/s.
const FIRST_VELOCITY_VARIANCE: i64 = 300 * 300 * 1024 * 1024;

// A first plot is three times as likely of a target that flies straight on as of one that
// manoeuvres, in 1/65,536.
const FIRST_WEIGHTS: (u32, u32) = (49_152, 16_384);

/// The filter of one axis: two models of the target's motion, and how far each is believed.
///
/// The positions are at most 4,000 km and the velocities at most 1,024 m/s either way, the
/// variances are from 1 to 2^46, and the square of a covariance is at most the product of its
/// variances.
#[derive(Clone, Copy, Debug, PartialEq, Eq)]
pub struct Axis {
    /// Model 0, which flies straight on, and model 1, which manoeuvres.
    pub motion: (Motion, Motion),
    /// The models' weights in 1/65,536. Each is from 64 to 65,472, and their sum is 65,536.
    pub weight: (u32, u32),
}

impl Model for Axis {
    ghost use Rattle.fixed_imm.specs.Values.{AxisState};

    ghost Value = { AxisState };

    ghost use Rattle.fixed_imm.specs.Bounds.{IsAxis};

    ghost view = { λ a. record { motion = a.motion; weight = a.weight } };

    ghost invariant = { λ a. IsAxis (record { motion = a.motion; weight = a.weight }) };

    ghost inverse = { λ a. record { motion = a.motion; weight = a.weight } };
}

impl Axis {
    ghost use Rattle.std.specs.Prelude.{◌≡◌, ◌≤◌, ◌^◌, pos, unsigned_abs};
    ghost use Rattle.trk_base.specs.Limits.{plane_bound};
    ghost use Rattle.trk_base.specs.Numbers.{IsBetween};
    ghost use Rattle.fixed_imm.specs.Constants.{velocity_bound, greatest_time_step};
    ghost use Rattle.fixed_imm.specs.Bounds.{IsAxis, IsBounded, IsCombinedVariance, IsTimeStep, IsPosition, IsVariance};
    ghost use Rattle.fixed_imm.specs.Filter.{started, mixed_model, mixed_axis, predicted, combined, updated, IsExtent};

    /// The axis of a target that was seen for the first time, at the position `z` in 1/64 m with
    /// the variance `r`.
    pub fn start(z: i64, r: u64) -> Axis
        requires position { IsPosition z }
        requires variance { IsVariance r }
        ensures value { result ≡ started z r }
        ensures bounds { IsAxis result }
    {
        let motion = Motion {
            p: z,
            v: 0,
            p11: r as i64,
            p12: 0,
            p22: FIRST_VELOCITY_VARIANCE,
        };
        Axis {
            motion: (motion, motion),
            weight: FIRST_WEIGHTS,
        }
    }

    /// Both models mixed, and weighed by a step of the Markov chain: what predictions for any time
    /// start from (Bar-Shalom, 11.6.6, steps 1 and 2).
    ///
    /// Who asks for several times mixes once, as a gate does for many plots.
    pub fn mixed(&self) -> MixedAxis
        ensures { result ≡ mixed_axis self.now }
    {
        MixedAxis {
            motion: (self.mix(&STEADY), self.mix(&MANOEUVRE)),
            weight: predicted_weights(self.weight),
        }
    }

    // Both models mixed by how likely a target that now flies by `mode` came from each.
    fn mix(&self, mode: &Mode) -> Motion
        ensures value { result ≡ mixed_model mode.now.from_steady mode.now.from_manoeuvre self.now }
        ensures bounds { IsBounded result }
    {
        let from_steady = mode.from_steady * u64::from(self.weight.0);
        let from_manoeuvre = mode.from_manoeuvre * u64::from(self.weight.1);
        mixed(
            share(from_steady, from_manoeuvre),
            &self.motion.0,
            &self.motion.1,
        )
    }

    /// The axis `d` units of 1/128 s later, from half a second back to 60.5 s ahead.
    pub fn predict(&self, d: i32) -> Axis
        requires { IsTimeStep d }
        ensures value { result ≡ predicted self.now d }
        ensures bounds { IsAxis result }
    {
        self.mixed().predict(d)
    }

    /// Position, velocity and the variance of the position, of both models together, `d` units of
    /// 1/128 s later.
    pub fn combined(&self, d: i32) -> (i64, i64, i64)
        requires { IsTimeStep d }
        ensures value { result ≡ combined self.now d }
        ensures position { unsigned_abs result.0 ≤ plane_bound }
        ensures velocity { unsigned_abs result.1 ≤ velocity_bound }
        ensures variance { IsCombinedVariance result.2 }
    {
        self.mixed().combined(d)
    }

    /// The least and the greatest position, in 1/64 m, that both models together can have at any
    /// time at most `span` units of 1/128 s before or after.
    ///
    /// It takes no mixing: no mean lies outside of what it is of, so neither model starts outside of
    /// both positions, nor flies faster than the faster of both.
    pub fn extent(&self, span: i32) -> (i64, i64)
        requires { IsBetween (pos 0) span greatest_time_step }
        ensures extent { IsExtent self.now span result }
        ensures least { unsigned_abs result.0 ≤ 2 ^ 28 }
        ensures greatest { unsigned_abs result.1 ≤ 2 ^ 28 }
    {
        let (steady, manoeuvre) = (&self.motion.0, &self.motion.1);
        let speed = steady.v.unsigned_abs().max(manoeuvre.v.unsigned_abs());
        let margin = (speed * u64::from(span.unsigned_abs()) / 2_048) as i64 + 1;
        (
            steady.p.min(manoeuvre.p) - margin,
            steady.p.max(manoeuvre.p) + margin,
        )
    }

    /// The axis after a position `z` in 1/64 m was measured with the variance `r`, `d` units of
    /// 1/128 s later.
    pub fn update(&self, d: i32, z: i64, r: u64) -> Axis
        requires step { IsTimeStep d }
        requires position { IsPosition z }
        requires variance { IsVariance r }
        ensures value { result ≡ updated self.now d z r }
        ensures bounds { IsAxis result }
    {
        self.mixed().update(d, z, r)
    }
}

#[cfg(test)]
mod tests {
    use super::*;
    use crate::{Aim, GREATEST_TIME_STEP, LEAST_TIME_STEP, time_step};

    #[test]
    fn follows_a_target(rt: HostRuntime) {
        let seen = Axis::start(0, 10_240_000);
        let axis = seen.update(512, 64_000, 10_240_000);
        let (first, second) = axis.motion;
        assert_eq!(rt;
            (first.p, first.v, first.p11),
            (63_889, 255_115, 10_222_284)
        );
        assert_eq!(rt; (second.p, second.v), (63_889, 255_236));
        assert_eq!(rt; axis.weight, (48_335, 17_201));
    }

    #[test]
    fn predicts_a_first_plot(rt: HostRuntime) {
        let x = Axis::start(0, 18_496);
        assert_eq!(rt; x.combined(118), (0, 0, 313_326_663));
        let y = Axis::start(3_704, 10_240_000).mixed();
        assert_eq!(rt; (y.position(118), y.variance(118)), (3_704, 323_548_167));
        let aim = Aim {
            x,
            y: x,
            time: 4_608_000,
            address: None,
            code: None,
        };
        let mixed = aim.mixed();
        assert_eq!(rt; mixed.x.combined(118), (0, 0, 313_326_663));
        assert_eq!(rt;
            (mixed.time, mixed.address, mixed.code),
            (4_608_000, None, None)
        );
    }

    #[test]
    fn bounds_where_it_may_be(rt: HostRuntime) {
        let axis = Axis::start(0, 10_240_000).update(512, 64_000, 10_240_000);
        assert_eq!(rt; axis.extent(0), (63_888, 63_890));
        assert_eq!(rt; axis.extent(128), (47_936, 79_842));
        assert_eq!(rt; axis.combined(128).0, 79_836);
    }

    #[test]
    fn steps_in_time(rt: HostRuntime) {
        assert_eq!(rt; time_step(4_608_064, 4_608_000), LEAST_TIME_STEP);
        assert_eq!(rt; time_step(4_608_000, 4_615_744), GREATEST_TIME_STEP);
    }
}
