// A mixed axis, from which the axis at any time follows.
use crate::correcting::corrected_model;
use crate::mixing::{covariance, mean};
use crate::modes::{MANOEUVRE, STEADY};
use crate::predicting::{predicted_motion, predicted_position, predicted_variance};
use crate::weighing::posterior_weights;
use crate::{Axis, Motion};
use std::marker::Model;

/// An axis whose models are mixed, as `Axis::mixed` makes it.
///
/// Mixing doesn't depend on the time that a prediction is for, and takes about as long as a
/// prediction of both models does.
#[derive(Clone, Copy)]
pub struct MixedAxis {
    // Model 0 and model 1, each as a target that now flies by it was, of either model before.
    pub(crate) motion: (Motion, Motion),
    // The weights after a step of the Markov chain.
    pub(crate) weight: (u32, u32),
}

impl Model for MixedAxis {
    ghost use Rattle.fixed_imm.specs.Values.{AxisState};

    ghost Value = { AxisState };

    ghost use Rattle.fixed_imm.specs.Bounds.{IsAxis};

    ghost view = { λ a. record { motion = a.motion; weight = a.weight } };

    ghost invariant = { λ a. IsAxis (record { motion = a.motion; weight = a.weight }) };

    ghost inverse = { λ a. record { motion = a.motion; weight = a.weight } };
}

impl MixedAxis {
    ghost use Rattle.std.specs.Prelude.{◌≡◌, ◌≤◌, unsigned_abs};
    ghost use Rattle.trk_base.specs.Limits.{plane_bound};
    ghost use Rattle.fixed_imm.specs.Constants.{velocity_bound};
    ghost use Rattle.fixed_imm.specs.Bounds.{IsAxis, IsCombinedVariance, IsTimeStep, IsPosition, IsVariance};
    ghost use Rattle.fixed_imm.specs.Filter.{moved, together, measured};

    /// The axis `d` units of 1/128 s after that for which it was mixed.
    pub fn predict(&self, d: i32) -> Axis
        requires { IsTimeStep d }
        ensures value { result ≡ moved self.now d }
        ensures bounds { IsAxis result }
    {
        let time = i64::from(d);
        Axis {
            motion: (
                predicted_motion(STEADY.noise, time, &self.motion.0),
                predicted_motion(MANOEUVRE.noise, time, &self.motion.1),
            ),
            weight: self.weight,
        }
    }

    /// The position of both models together then.
    pub fn position(&self, d: i32) -> i64
        requires { IsTimeStep d }
        ensures value { result ≡ (together (moved self.now d)).0 }
        ensures size { unsigned_abs result ≤ plane_bound }
    {
        let time = i64::from(d);
        mean(
            i64::from(self.weight.0),
            predicted_position(time, &self.motion.0),
            predicted_position(time, &self.motion.1),
        )
    }

    // The velocity of both models together, which is the same at any time.
    fn velocity(&self, d: i32) -> i64
        requires { IsTimeStep d }
        ensures value { result ≡ (together (moved self.now d)).1 }
        ensures size { unsigned_abs result ≤ velocity_bound }
    {
        let (steady, manoeuvre) = (&self.motion.0, &self.motion.1);
        mean(i64::from(self.weight.0), steady.v, manoeuvre.v)
    }

    /// The variance of that position.
    pub fn variance(&self, d: i32) -> i64
        requires { IsTimeStep d }
        ensures value { result ≡ (together (moved self.now d)).2 }
        ensures range { IsCombinedVariance result }
    {
        let time = i64::from(d);
        let (steady, manoeuvre) = (&self.motion.0, &self.motion.1);
        let apart = predicted_position(time, steady) - predicted_position(time, manoeuvre);
        covariance(
            i64::from(self.weight.0),
            predicted_variance(STEADY.noise, time, steady),
            predicted_variance(MANOEUVRE.noise, time, manoeuvre),
            apart * apart,
        )
    }

    /// Position, velocity and the variance of the position, of both models together, `d` units of
    /// 1/128 s later.
    pub fn combined(&self, d: i32) -> (i64, i64, i64)
        requires { IsTimeStep d }
        ensures value { result ≡ together (moved self.now d) }
        ensures position { unsigned_abs result.0 ≤ plane_bound }
        ensures velocity { unsigned_abs result.1 ≤ velocity_bound }
        ensures variance { IsCombinedVariance result.2 }
    {
        (self.position(d), self.velocity(d), self.variance(d))
    }

    /// The axis after a position `z` in 1/64 m was measured with the variance `r`, `d` units of
    /// 1/128 s later.
    pub fn update(&self, d: i32, z: i64, r: u64) -> Axis
        requires step { IsTimeStep d }
        requires position { IsPosition z }
        requires variance { IsVariance r }
        ensures value { result ≡ measured (moved self.now d) z r }
        ensures bounds { IsAxis result }
    {
        let predicted = self.predict(d);
        let (steady, steady_likelihood) = corrected_model(&predicted.motion.0, z, r);
        let (manoeuvre, manoeuvre_likelihood) = corrected_model(&predicted.motion.1, z, r);
        Axis {
            motion: (steady, manoeuvre),
            weight: posterior_weights(predicted.weight, (steady_likelihood, manoeuvre_likelihood)),
        }
    }
}
