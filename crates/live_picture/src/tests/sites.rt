// Two sites: each has a feed that is admitted, and takes the editions that are published meanwhile.
ghost use Rattle.std.specs.Prelude.{◌≡◌};
ghost use Rattle.station.specs.Tokens.{IsFeederOf, IsSubscriberOf};

use super::START;
use admission_log::Receipt;
use edition_form::Edition;
use station::{Feeder, Station, Subscriber};
use std::alloc::Global;
use std::sync::{Arc, Wait};

// How many aircraft each site sees, one after the other.
pub(super) const AIRCRAFT: u16 = 24;

// How often each of them is seen, once in each slot from the start on.
pub(super) const REPORTS: u16 = 8;

// How often a site looks at the last number, at most, until there is a newer one.
const PATIENCE: u32 = 1_000_000;

// A datagram of one report of the radar (1, 1), fifty nautical miles away, with a time of day and an
// azimuth.
fn report(tod: u32, azimuth: u16) -> [u8; 14] {
    let [_, high, middle, low] = tod.to_be_bytes();
    let [more, less] = azimuth.to_be_bytes();
    [
        0x30, 0, 14, 0xF0, 1, 1, high, middle, low, 0xA0, 0x32, 0, more, less,
    ]
}

// Where a site sees its aircraft: no two aircraft are near each other.
fn azimuth_of(feed: u8, aircraft: u16) -> u16 {
    aircraft
        .wrapping_mul(2)
        .wrapping_add(u16::from(feed))
        .wrapping_mul(1_300)
}

// The tokens of a site.
pub(super) type Site = (Feeder, Subscriber);

// What a subscriber knows: the number of the last edition that it took, and the last number that it
// was told.
#[derive(Clone, Copy, Debug, PartialEq, Eq)]
pub(super) struct Known {
    pub taken: u64,
    pub told: u64,
}

// What a site was told of its datagrams, the editions that it took, and what it knows.
#[derive(Drop)]
pub(super) struct Served {
    pub receipts: Vec<Receipt>,
    pub editions: Vec<Arc<Edition>>,
    pub known: Known,
}

// The number of an edition, or 0.
fn number_of(edition: &Option<Arc<Edition>>) -> u64 {
    match edition {
        Some(edition) => edition.number,
        None => 0,
    }
}

// What is known after the next edition, or after none. None where it goes back, or there was a newer
// one.
fn known_after(known: Known, newest: u64, next: u64) -> Option<Known> {
    let taken = if next == 0 { known.taken } else { next };
    let goes_on = known.told <= newest && newest <= taken && (next == 0 || known.taken < next);
    if goes_on {
        Some(Known { taken, told: taken })
    } else {
        None
    }
}

// Asks for the newest edition, for the next one and for the last number, and keeps the edition that
// was handed out. None where one goes back.
pub(super) fn ask<W: Wait>(
    rt: &W,
    station: &Station,
    subscriber: &mut Subscriber,
    served: &mut Served,
) -> Option<()>
    requires own { IsSubscriberOf station.now subscriber.old }
    ensures own { IsSubscriberOf station.now subscriber.new }
    ensures reader { subscriber.new.reader ≡ subscriber.old.reader }
{
    let newest = number_of(&station.latest(rt, subscriber).ok()?);
    let next = subscriber.next(rt, station).ok()?;
    let told = station.fresh(subscriber);
    let known = known_after(served.known, newest, number_of(&next))?;
    if told < known.taken {
        return None;
    }
    served.known = Known { told, ..known };
    if let Some(edition) = next {
        served.editions.push(edition).ok()?;
    }
    Some(())
}

// Admits the reports of one aircraft.
fn admit_reports<W: Wait>(
    rt: &W,
    station: &Station,
    feeder: &mut Feeder,
    azimuth: u16,
    receipts: &mut Vec<Receipt>,
) -> Option<()>
    requires own { IsFeederOf station.now feeder.old }
    ensures own { IsFeederOf station.now feeder.new }
    ensures feed { feeder.new.feed ≡ feeder.old.feed }
{
    for place in 0..REPORTS {
        let tod = 4_608_000 + 64 * u32::from(place);
        let receipt = station.admit(rt, feeder, &report(tod, azimuth)).ok()?;
        receipts.push(receipt).ok()?;
    }
    Some(())
}

// Looks until a newer number is told than this one, but not for ever.
fn await_news(station: &Station, subscriber: &mut Subscriber, told: u64)
    requires own { IsSubscriberOf station.now subscriber.old }
    ensures own { IsSubscriberOf station.now subscriber.new }
    ensures reader { subscriber.new.reader ≡ subscriber.old.reader }
{
    for _ in 0..PATIENCE {
        if station.fresh(subscriber) > told {
            return;
        }
    }
}

// Admits an aircraft, and takes the edition that is published next.
fn serve_once<W: Wait>(
    rt: &W,
    station: &Station,
    feed: u8,
    aircraft: u16,
    site: &mut Site,
    served: &mut Served,
) -> Option<()>
    requires own { IsFeederOf station.now site.old.0 × IsSubscriberOf station.now site.old.1 }
    ensures own { IsFeederOf station.now site.new.0 × IsSubscriberOf station.now site.new.1 }
    ensures same { (site.new.0.feed ≡ site.old.0.feed) × (site.new.1.reader ≡ site.old.1.reader) }
{
    let azimuth = azimuth_of(feed, aircraft);
    admit_reports(rt, station, &mut site.0, azimuth, &mut served.receipts)?;
    await_news(station, &mut site.1, served.known.told);
    ask(rt, station, &mut site.1, served)
}

// Admits all aircraft of a site. None where a call fails, or an answer goes back.
pub(super) fn serve<W: Wait>(
    rt: &W,
    alloc: Global,
    station: &Station,
    feed: u8,
    mut site: Site,
) -> (Site, Option<Served>)
    requires own { IsFeederOf station.now site.0 × IsSubscriberOf station.now site.1 }
    ensures own { IsFeederOf station.now result.0.0 × IsSubscriberOf station.now result.0.1 }
    ensures same { (result.0.0.feed ≡ site.0.feed) × (result.0.1.reader ≡ site.1.reader) }
{
    let mut served = Served {
        receipts: Vec::new(alloc),
        editions: Vec::new(alloc),
        known: Known { taken: 0, told: 0 },
    };
    for aircraft in 0..AIRCRAFT {
        let done = serve_once(rt, station, feed, aircraft, &mut site, &mut served);
        if done.is_none() {
            return (site, None);
        }
    }
    (site, Some(served))
}
