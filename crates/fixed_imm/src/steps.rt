// Steps of time.
ghost use Rattle.std.specs.Prelude.{◌≡◌};
ghost use Rattle.fixed_imm.specs.Constants.{least_time_step, greatest_time_step};
ghost use Rattle.fixed_imm.specs.declared.steps.TheConstants.{LEAST_TIME_STEP, GREATEST_TIME_STEP};
ghost use Rattle.fixed_imm.specs.Bounds.{IsTimeStep, time_step};

/// The filter goes at most half a second back, in 1/128 s: a plot of the same slot may be that
/// much older than the one before it.
pub const LEAST_TIME_STEP: i32 = -64;

/// It goes at most 60.5 s ahead, in 1/128 s: a track that is older has expired.
pub const GREATEST_TIME_STEP: i32 = 7_744;

/// How much later the time `to` is than `from`, in 1/128 s.
#[inline]
pub fn time_step(from: u64, to: u64) -> i32
    requires { IsTimeStep (time_step from to) }
    ensures { result ≡ time_step from to }
{
    (i128::from(to) - i128::from(from)) as i32
}

/// The range of a time step is the definitions' own.
pub fn one_time_step()
    ensures least { LEAST_TIME_STEP ≡ least_time_step }
    ensures greatest { GREATEST_TIME_STEP ≡ greatest_time_step }
{}
