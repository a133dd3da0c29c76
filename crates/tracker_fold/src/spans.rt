// A span of entries as plots, and what is folded of them as states again.
ghost use Rattle.std.specs.Prelude.{◌≡◌, ◌↔◌, map, IfOk, IfSome, IsSome};
ghost use Rattle.tracker_fold.specs.Spans.{AreAllPlots, AreWhole};
ghost use Rattle.tracker_fold.specs.Steps.{planes};

use crate::step::plane;
use crate::{PricedCerts, TrackerState};
use admission_log::Entry;
use plot_geometry::{PlanePlot, RadarSettings};
use slot_step::KeyedCert;
use std::alloc::Global;
use track_life::{LifeSettings, Table};
use trk_base::{NoMemory, Sequence, TryCopy};

/// The plots of entries in the plane, by these radars, in the order of the entries. `None` where an
/// entry is a change of biases, or a plot of a radar that isn't there.
pub fn span_plots(
    alloc: Global,
    radars: &[RadarSettings],
    entries: &[Entry],
) -> Result<Option<Vec<PlanePlot>>, NoMemory>
    ensures plots { IfOk result (λ r. IfSome r (λ v. v.items ≡ planes radars.now entries.now)) }
    ensures all { IfOk result (λ r. IsSome r ↔ AreAllPlots radars.now entries.now) }
{
    let mut plots = Vec::with_capacity(alloc, entries.len())?;
    for entry in entries {
        match plane(radars, entry) {
            Some(plot) => plots.push(plot)?,
            None => return Ok(None),
        }
    }
    Ok(Some(plots))
}

/// The states with these tracks. All else is that of the state that the span began with, since its
/// entries change no biases: how long tracks live, and the radars.
pub fn span_states(
    alloc: Global,
    life: LifeSettings,
    radars: &Sequence<RadarSettings>,
    tables: Vec<Table>,
) -> Result<Vec<TrackerState>, NoMemory>
    ensures { IfOk result (λ v. v.items ≡ map (λ ts. record { life = life; radars = radars.now; table = ts }) tables.items) }
{
    let mut states = Vec::with_capacity(alloc, tables.len())?;
    for table in tables {
        let radars = radars.copy(alloc)?;
        states.push(TrackerState {
            life,
            radars,
            table,
        })?;
    }
    Ok(states)
}

/// The certificates of each slot, with what a price file has of them.
pub fn span_outs(
    alloc: Global,
    told: Vec<Sequence<KeyedCert>>,
) -> Result<Vec<PricedCerts>, NoMemory>
    requires { AreWhole told.items }
    ensures { IfOk result (λ v. v.items ≡ told.items) }
{
    let mut outs = Vec::with_capacity(alloc, told.len())?;
    for certs in told {
        outs.push(PricedCerts::new(alloc, certs)?)?;
    }
    Ok(outs)
}
