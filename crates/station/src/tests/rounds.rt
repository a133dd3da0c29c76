// A conductor that publishes editions of no events.
ghost use Rattle.std.specs.Prelude.{◌≡◌, ◌+◌, ◌<◌, ◌^◌, [], ◌∷◌, IfOk, IfSome};
ghost use Rattle.std.specs.Arc.{arc_value};
ghost use Rattle.edition_form.specs.Editions.{IsEdition};
ghost use Rattle.station.specs.Tokens.{IsConductorOf};
ghost use Rattle.station.specs.Tests.{PublishesNone};

use super::START;
use crate::{Conductor, Station};
use admission_log::Settings;
use edition_form::{Edition, Pictured, pictured};
use plot_geometry::RadarSettings;
use std::alloc::Global;
use std::sync::{Arc, Wait};
use track_life::Table;
use trk_base::{NoMemory, Sequence};

// How many datagrams of an edition tell no track: the state of the radar, the state of the service
// and the end of the batch.
const STATES: usize = 3;

// The edition of that number, of no events, under settings of this one radar.
fn edition_under(
    alloc: Global,
    settings: &Settings,
    radar: &RadarSettings,
    number: u64,
) -> Result<Edition, NoMemory>
    requires { settings.now.radars ≡ radar.now ∷ [] }
    ensures { IfOk result (IsEdition settings.now (record { start = 4608000; events = [] }) 0 number) }
{
    let Pictured { datagrams, .. } = pictured(
        alloc,
        settings,
        &[radar.bias()],
        &Table::empty(alloc),
        &[None],
        START,
        number,
        &[],
    )?;
    Ok(Edition {
        number,
        cut: 0,
        before: 0,
        time: START,
        datagrams,
        certs: Sequence::new(alloc),
    })
}

// .. where there is one radar.
fn edition_of_none(
    alloc: Global,
    settings: &Settings,
    number: u64,
) -> Result<Arc<Edition>, NoMemory>
    ensures { IfOk result (λ e. IsEdition settings.now (record { start = 4608000; events = [] }) 0 number (arc_value e)) }
{
    let [radar] = settings.radars.as_slice() else {
        return Err(NoMemory);
    };
    let edition = edition_under(alloc, settings, radar, number)?;
    Ok(Arc::new(alloc, edition)?)
}

// Takes a tick, gathers and publishes the next edition. Answers the indices of the tick and of the
// edition.
pub(super) fn conduct_round<W: Wait>(
    rt: &W,
    alloc: Global,
    station: &Station,
    settings: &Settings,
    conductor: &mut Conductor,
    number: u64,
) -> Option<(u64, u64)>
    requires few { number < 2 ^ 32 }
    requires ready { PublishesNone station.now settings.now 4608000 conductor.old number }
    ensures own { IsConductorOf station.now conductor.new }
    ensures ready { IfSome result (λ r. PublishesNone station.now settings.now 4608000 conductor.new (number + 1)) }
{
    let Ok(edition) = edition_of_none(alloc, settings, number) else {
        return None;
    };
    let Ok(ticked) = station.tick(rt, conductor, START + number) else {
        return None;
    };
    let Ok(_events) = station.gather(rt, conductor) else {
        return None;
    };
    let Ok(published) = station.publish(rt, conductor, edition) else {
        return None;
    };
    Some((ticked, published))
}

// Whether an edition tells no track, and shows no event.
pub(super) fn is_of_none(edition: &Edition) -> bool {
    edition.cut == 0 && edition.before == 0 && edition.datagrams.len() == STATES
}
