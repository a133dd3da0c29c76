// What becomes of one message, and of a change of biases.
ghost use Rattle.std.specs.Prelude.{◌≡◌, ◌≢◌, ◌<◌, ◌^◌, pos, ◌-ℤ◌, Err, IfErr, OnOk};
ghost use Rattle.trk_base.specs.Ranges.{IsTimeOfDay};
ghost use Rattle.plot_geometry.specs.Plane.{not_below_zero};
ghost use Rattle.admission_log.specs.Outcomes.{judged_report, judged_time, outcome_of, time_bias_of, time_at, counted_radar};
ghost use Rattle.admission_log.specs.Histories.{low_at};
ghost use Rattle.admission_log.specs.Changes.{IsOpenChange, IsRefusal};

use crate::{Admitted, BiasError, Outcome, Settings};
use cat048_in::Report;
use trk_base::{slot_of, unwrap_tod};

/// How far ahead of the last tick a plot's time may be, in 1/128 s.
pub const AHEAD_LIMIT: u64 = 512;

/// What becomes of a target report after a last tick, where the next plot that is admitted has the
/// arrival `next`. It takes no memory.
///
/// The first of these that applies: it tells no plot; its SAC and SIC are those of no radar; the
/// slot of its time is before the horizon; its time is too far ahead; it is admitted.
pub fn judge(settings: &Settings, last: u64, next: u64, report: &Report) -> Outcome
    requires { last < 2 ^ 40 }
    ensures { result ≡ outcome_of (judged_report settings.now last next report.now) }
{
    match admission(settings, last, next, report) {
        Ok(admitted) => Outcome::Admitted(admitted.arrival),
        Err(outcome) => outcome,
    }
}

// The plot that is admitted, or what is told of the report.
pub(crate) fn admission(
    settings: &Settings,
    last: u64,
    arrival: u64,
    report: &Report,
) -> Result<Admitted, Outcome>
    requires { last < 2 ^ 40 }
    ensures { result ≡ judged_report settings.now last arrival report.now }
{
    let plot = match report.plot() {
        Ok(plot) => plot,
        Err(why) => return Err(Outcome::NotPlot(why)),
    };
    let Some(radar) = settings.radar(plot.sac, plot.sic) else {
        return Err(Outcome::UnknownRadar);
    };
    within(
        settings,
        last,
        Admitted {
            arrival,
            radar,
            time: time_of(settings, last, radar, plot.tod),
            plot,
        },
    )
}

// The time of a plot of a radar.
fn time_of(settings: &Settings, last: u64, radar: u8, tod: u32) -> u64
    requires in_range { last < 2 ^ 40 }
    requires in_day { IsTimeOfDay tod }
    ensures { result ≡ time_at settings.now last radar tod }
{
    freed(unwrap_tod(tod, last), time_bias(settings, radar))
}

// What each time of a radar is too late by.
fn time_bias(settings: &Settings, radar: u8) -> i16
    ensures { result ≡ time_bias_of settings.now.radars radar }
{
    match settings.radars.as_slice().get(radar as usize) {
        Some(radar) => radar.time_bias,
        None => 0,
    }
}

// A time, freed of a bias.
fn freed(time: u64, bias: i16) -> u64
    requires { time < 2 ^ 41 }
    ensures { result ≡ not_below_zero (pos time -ℤ bias) }
{
    (time as i64 - i64::from(bias)).max(0) as u64
}

// The plot, if its slot and its time are open.
fn within(settings: &Settings, last: u64, admitted: Admitted) -> Result<Admitted, Outcome>
    requires { last < 2 ^ 40 }
    ensures { result ≡ judged_time settings.now last admitted }
{
    let slot = slot_of(admitted.time);
    let low = low_at(settings, last);
    let high = last + AHEAD_LIMIT;
    if slot < low {
        Err(Outcome::BeforeHorizon { slot, low })
    } else if admitted.time > high {
        Err(Outcome::Ahead {
            time: admitted.time,
            high,
        })
    } else {
        Ok(admitted)
    }
}

// The horizon: the first slot that is open after a last tick.
fn low_at(settings: &Settings, last: u64) -> u64
    ensures { result ≡ low_at settings.now.window last }
{
    slot_of(last).saturating_sub(u64::from(settings.window))
}

/// Whether a change of the biases of the radar of an index is taken after a last tick, where it is
/// to hold from a slot on, and else why not. It takes no memory.
///
/// The first of these that applies: no radar has that index; the slot is before the horizon; it is
/// taken.
pub fn judge_bias(settings: &Settings, last: u64, radar: u8, slot: u64) -> Result<(), BiasError>
    ensures open { OnOk result (IsOpenChange settings.now last radar slot) }
    ensures refusal { IfErr result (IsRefusal settings.now last radar slot) }
    ensures no_memory { result ≢ Err BiasError.NoMemory }
{
    let radars = settings.radars.len() as u8;
    if radar >= radars {
        return Err(BiasError::UnknownRadar { radars });
    }
    let low = low_at(settings, last);
    if slot < low {
        return Err(BiasError::BeforeHorizon { slot, low });
    }
    Ok(())
}

// The radar that a service message counts for.
pub(crate) fn counted_radar(
    settings: &Settings,
    source: Option<(u8, u8)>,
    kind: Option<u8>,
) -> Option<u8>
    ensures { result ≡ counted_radar settings.now source kind }
{
    match (source, kind) {
        (Some((sac, sic)), Some(1 | 2)) => settings.radar(sac, sic),
        _ => None,
    }
}
