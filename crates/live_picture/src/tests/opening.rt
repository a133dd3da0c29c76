// A station of two feeds and two readers under one radar, with what is moved to threads.
ghost use Rattle.std.specs.Prelude.{◌≡◌, ◌++◌, All, EachIndex, IfOk, IsSomeAnd, slice_get};
ghost use Rattle.std.specs.Arc.{arc_value};
ghost use Rattle.admission_log.specs.Legality.{IsLegal};
ghost use Rattle.station.specs.Tokens.{settings_of, start_of, log_with, IsFeederOf, IsConductorOf, IsSubscriberOf};
ghost use Rattle.live_picture.specs.Rounds.{Follows};

use super::START;
use super::sites::Site;
use crate::Live;
use admission_log::Settings;
use plot_geometry::RadarSettings;
use station::{Closed, Conductor, Feeder, Opened, Station, Subscriber};
use std::alloc::Global;
use std::sync::Arc;
use track_life::LifeSettings;
use tracker_engine::Engine;
use trk_base::{NoMemory, Sequence};

// Settings of one radar (1, 1) at the plane's origin.
pub(super) fn one_radar(alloc: Global) -> Result<Settings, NoMemory> {
    let mut radars = Sequence::new(alloc);
    radars.push(RadarSettings {
        sac: 1,
        sic: 1,
        x: 0,
        y: 0,
        height: 0,
        north: 0,
        range_gain: 0,
        range_bias: 0,
        azimuth_bias: 0,
        time_bias: 0,
        range_sigma: 50,
        azimuth_sigma: 12,
    })?;
    Ok(Settings {
        sac: 1,
        sic: 99,
        service: 1,
        window: 32,
        life: LifeSettings {
            hits: 3,
            keep_tentative: 15,
            keep_confirmed: 30,
        },
        radars,
    })
}

// The first two feeders.
fn two_feeders(station: &Station, feeders: Vec<Feeder>) -> Result<(Feeder, Feeder), NoMemory>
    requires own { All (IsFeederOf station.now) feeders.items }
    requires feeds { EachIndex feeders.items (λ n. IsSomeAnd (slice_get feeders.items n) (λ x. x.feed ≡ n)) }
    ensures own { IfOk result (λ r. IsFeederOf station.now r.0 × IsFeederOf station.now r.1) }
    ensures feeds { IfOk result (λ r. (r.0.feed ≡ 0) × (r.1.feed ≡ 1)) }
{
    let mut feeders = feeders.into_iter();
    let Some(one) = feeders.next() else {
        return Err(NoMemory);
    };
    let Some(other) = feeders.next() else {
        return Err(NoMemory);
    };
    Ok((one, other))
}

// The first two subscribers.
fn two_subscribers(
    station: &Station,
    subscribers: Vec<Subscriber>,
) -> Result<(Subscriber, Subscriber), NoMemory>
    requires own { All (IsSubscriberOf station.now) subscribers.items }
    requires readers { EachIndex subscribers.items (λ n. IsSomeAnd (slice_get subscribers.items n) (λ x. x.reader ≡ n)) }
    ensures own { IfOk result (λ r. IsSubscriberOf station.now r.0 × IsSubscriberOf station.now r.1) }
    ensures readers { IfOk result (λ r. (r.0.reader ≡ 0) × (r.1.reader ≡ 1)) }
{
    let mut subscribers = subscribers.into_iter();
    let Some(one) = subscribers.next() else {
        return Err(NoMemory);
    };
    let Some(other) = subscribers.next() else {
        return Err(NoMemory);
    };
    Ok((one, other))
}

// The station, its sites, and the conductor with an engine that has taken in nothing.
pub(super) fn opened(
    alloc: Global,
    settings: &Arc<Settings>,
) -> Result<(Station, (Site, Site), Live), NoMemory>
    ensures counts { IfOk result (λ r. (r.0.feeds ≡ 2) × (r.0.readers ≡ 2)) }
    ensures settings { IfOk result (λ r. settings_of r.0 ≡ arc_value settings.now) }
    ensures start { IfOk result (λ r. start_of r.0 ≡ 4608000) }
    ensures feeders { IfOk result (λ r. IsFeederOf r.0 r.1.0.0 × IsFeederOf r.0 r.1.1.0) }
    ensures feeds { IfOk result (λ r. (r.1.0.0.feed ≡ 0) × (r.1.1.0.feed ≡ 1)) }
    ensures subscribers { IfOk result (λ r. IsSubscriberOf r.0 r.1.0.1 × IsSubscriberOf r.0 r.1.1.1) }
    ensures readers { IfOk result (λ r. (r.1.0.1.reader ≡ 0) × (r.1.1.1.reader ≡ 1)) }
    ensures follows { IfOk result (λ r. Follows r.0 r.2) }
{
    let engine = Engine::new(alloc, Arc::try_clone(settings)?, START)?;
    let Opened {
        station,
        feeders,
        conductor,
        subscribers,
    } = Station::open(alloc, Arc::try_clone(settings)?, START, 2, 2)?;
    let (one, other) = two_feeders(&station, feeders)?;
    let (first, second) = two_subscribers(&station, subscribers)?;
    let live = Live::new(&station, conductor, engine);
    Ok((station, ((one, first), (other, second)), live))
}

// Closes it, for its tokens.
pub(super) fn closed(
    alloc: Global,
    station: Station,
    one: Site,
    other: Site,
    conductor: Conductor,
) -> Result<Closed, NoMemory>
    requires counts { (station.feeds ≡ 2) × (station.readers ≡ 2) }
    requires own { IsFeederOf station one.0 × IsFeederOf station other.0 × IsConductorOf station conductor × IsSubscriberOf station one.1 × IsSubscriberOf station other.1 }
    requires numbers { (one.0.feed ≡ 0) × (other.0.feed ≡ 1) × (one.1.reader ≡ 0) × (other.1.reader ≡ 1) }
    ensures start { IfOk result (λ c. c.start ≡ start_of station) }
    ensures legal { IfOk result (λ c. IsLegal (settings_of station) (log_with station c.events.items)) }
{
    let mut feeders = Vec::with_capacity(alloc, 2)?;
    let mut subscribers = Vec::with_capacity(alloc, 2)?;
    let (feeder, subscriber) = one;
    feeders.push_reserved(feeder);
    subscribers.push_reserved(subscriber);
    let (feeder, subscriber) = other;
    feeders.push_reserved(feeder);
    subscribers.push_reserved(subscriber);
    Ok(station.close(feeders, conductor, subscribers))
}
