// Two feeders, the conductor and a subscriber, each in a thread of its own.
ghost use Rattle.std.specs.Prelude.{◌≡◌, All, EachIndex, IfOk, IsSomeAnd, slice_get};
ghost use Rattle.std.specs.Arc.{arc_value};
ghost use denote.Param.Send.{IsSync};
ghost use Rattle.station.specs.Tokens.{IsFeederOf, IsConductorOf, IsSubscriberOf};
ghost use Rattle.station.specs.Tests.{PublishesNone};

use super::judging::{Course, are_conducted, are_received, count_admitted, course_of};
use super::rounds::{conduct_round, is_of_none};
use super::{START, one_radar, report};
use crate::*;
use admission_log::{Receipt, Settings};
use edition_form::Edition;
use std::alloc::Global;
use std::sync::{Arc, Wait};
use std::test::Fail;
use std::thread::{Threads, join};
use trk_base::NoMemory;

// How many datagrams each feeder admits, how many rounds the conductor takes, and how often the
// subscriber asks.
const TURNS: u64 = 10_000;

// ---- what each of them does

// Admits datagrams of one plot, and answers what was told of them.
fn admit_all<W: Wait>(
    rt: &W,
    alloc: Global,
    station: &Station,
    mut feeder: Feeder,
) -> (Feeder, Option<Vec<Receipt>>)
    requires own { IsFeederOf station.now feeder }
    ensures own { IsFeederOf station.now result.0 }
    ensures feed { result.0.feed ≡ feeder.feed }
{
    let mut receipts = Vec::new(alloc);
    let datagram = report(4_608_000);
    for _ in 0..TURNS {
        let Ok(receipt) = station.admit(rt, &mut feeder, &datagram) else {
            return (feeder, None);
        };
        if receipts.push(receipt).is_err() {
            return (feeder, None);
        }
    }
    (feeder, Some(receipts))
}

// Takes all rounds of a conductor. Answers the indices of its ticks and editions.
fn conduct_all<W: Wait>(
    rt: &W,
    alloc: Global,
    station: &Station,
    settings: &Settings,
    mut conductor: Conductor,
) -> (Conductor, Option<Vec<u64>>)
    requires ready { PublishesNone station.now settings.now 4608000 conductor 1 }
    ensures own { IsConductorOf station.now result.0 }
{
    let mut indices = Vec::new(alloc);
    for turn in 0..TURNS {
        let Some((ticked, published)) = conduct_round(
            rt,
            alloc,
            station,
            settings,
            &mut conductor,
            turn + 1,
        ) else {
            return (conductor, None);
        };
        if indices.push(ticked).is_err() || indices.push(published).is_err() {
            return (conductor, None);
        }
    }
    (conductor, Some(indices))
}

// What a subscriber knows: the number of the last edition that it took, and the last number that it
// was told.
#[derive(Clone, Copy, Debug, PartialEq, Eq)]
struct Known {
    taken: u64,
    told: u64,
}

// The number of an edition, or 0. None where it isn't as it was published.
fn number_of(edition: &Option<Arc<Edition>>) -> Option<u64> {
    match edition {
        Some(edition) if is_of_none(edition) => Some(edition.number),
        Some(_) => None,
        None => Some(0),
    }
}

// What is known after the next edition, or after none. None where it goes back, or there was a newer
// one.
fn known_after(known: Known, newest: u64, next: u64) -> Option<Known> {
    let taken = if next == 0 { known.taken } else { next };
    let goes_on = known.told <= newest && newest <= taken && (next == 0 || known.taken < next);
    if goes_on {
        Some(Known { taken, told: taken })
    } else {
        None
    }
}

// Asks for the newest edition, for the next one and for the last number. None where one goes back.
fn ask<W: Wait>(
    rt: &W,
    station: &Station,
    subscriber: &mut Subscriber,
    known: Known,
) -> Option<Known>
    requires own { IsSubscriberOf station.now subscriber.old }
    ensures own { IsSubscriberOf station.now subscriber.new }
    ensures reader { subscriber.new.reader ≡ subscriber.old.reader }
{
    let newest = number_of(&station.latest(rt, subscriber).ok()?)?;
    let next = number_of(&subscriber.next(rt, station).ok()?)?;
    let told = station.fresh(subscriber);
    let known = known_after(known, newest, next)?;
    if told < known.taken {
        return None;
    }
    Some(Known { told, ..known })
}

// Asks again and again, and answers what is known then.
fn ask_all<W: Wait>(
    rt: &W,
    station: &Station,
    mut subscriber: Subscriber,
) -> (Subscriber, Option<Known>)
    requires own { IsSubscriberOf station.now subscriber }
    ensures own { IsSubscriberOf station.now result.0 }
    ensures reader { result.0.reader ≡ subscriber.reader }
{
    let mut known = Known { taken: 0, told: 0 };
    for _ in 0..TURNS {
        let Some(more) = ask(rt, station, &mut subscriber, known) else {
            return (subscriber, None);
        };
        known = more;
    }
    (subscriber, Some(known))
}

// ---- threads of their own

// A token that comes back from a thread, with what was done there.
type Fed = (Feeder, Option<Vec<Receipt>>);

type Conducted = (Conductor, Option<Vec<u64>>);

type Asked = (Subscriber, Option<Known>);

fn feed_beside<R: Threads + Wait + Sync>(
    rt: &R,
    alloc: Global,
    station: &Station,
    one: Feeder,
    other: Feeder,
) -> (Fed, Fed)
    requires own { IsFeederOf station.now one × IsFeederOf station.now other }
    ensures own { IsFeederOf station.now result.0.0 × IsFeederOf station.now result.1.0 }
    ensures feeds { (result.0.0.feed ≡ one.feed) × (result.1.0.feed ≡ other.feed) }
{
    join(
        rt,
        move || -> Fed
            requires { IsFeederOf station.now one }
            ensures { IsFeederOf station.entry.now result.0 × (result.0.feed ≡ one.feed) }
        { admit_all(rt, alloc, station, one) },
        move || -> Fed
            requires { IsFeederOf station.now other }
            ensures { IsFeederOf station.entry.now result.0 × (result.0.feed ≡ other.feed) }
        { admit_all(rt, alloc, station, other) },
    )
}

fn conduct_beside<R: Threads + Wait + Sync>(
    rt: &R,
    alloc: Global,
    station: &Station,
    settings: &Settings,
    conductor: Conductor,
    subscriber: Subscriber,
) -> (Conducted, Asked)
    requires own { PublishesNone station.now settings.now 4608000 conductor 1 × IsSubscriberOf station.now subscriber }
    ensures own { IsConductorOf station.now result.0.0 × IsSubscriberOf station.now result.1.0 }
    ensures reader { result.1.0.reader ≡ subscriber.reader }
{
    join(
        rt,
        move || -> Conducted
            requires { PublishesNone station.now settings.now 4608000 conductor 1 }
            ensures { IsConductorOf station.entry.now result.0 }
        { conduct_all(rt, alloc, station, settings, conductor) },
        move || -> Asked
            requires { IsSubscriberOf station.now subscriber }
            ensures { IsSubscriberOf station.entry.now result.0 × (result.0.reader ≡ subscriber.reader) }
        { ask_all(rt, station, subscriber) },
    )
}

// What all of them bring back.
type Brought = ((Fed, Fed), (Conducted, Asked));

fn all_beside<R: Threads + Wait + Sync>(
    rt: &R,
    alloc: Global,
    station: &Station,
    settings: &Settings,
    feeders: (Feeder, Feeder),
    others: (Conductor, Subscriber),
) -> Brought
    requires feeders { IsFeederOf station.now feeders.0 × IsFeederOf station.now feeders.1 }
    requires others { PublishesNone station.now settings.now 4608000 others.0 1 × IsSubscriberOf station.now others.1 }
    ensures feeders { IsFeederOf station.now result.0.0.0 × IsFeederOf station.now result.0.1.0 }
    ensures feeds { (result.0.0.0.feed ≡ feeders.0.feed) × (result.0.1.0.feed ≡ feeders.1.feed) }
    ensures others { IsConductorOf station.now result.1.0.0 × IsSubscriberOf station.now result.1.1.0 }
    ensures reader { result.1.1.0.reader ≡ others.1.reader }
{
    let (one, other) = feeders;
    let (conductor, subscriber) = others;
    join(
        rt,
        move || -> (Fed, Fed)
            requires { IsSync R.row × IsFeederOf station.now one × IsFeederOf station.now other }
            ensures { IsFeederOf station.entry.now result.0.0 × IsFeederOf station.entry.now result.1.0 × (result.0.0.feed ≡ one.feed) × (result.1.0.feed ≡ other.feed) }
        { feed_beside(rt, alloc, station, one, other) },
        move || -> (Conducted, Asked)
            requires { IsSync R.row × PublishesNone station.now settings.now 4608000 conductor 1 × IsSubscriberOf station.now subscriber }
            ensures { IsConductorOf station.entry.now result.0.0 × IsSubscriberOf station.entry.now result.1.0 × (result.1.0.reader ≡ subscriber.reader) }
        { conduct_beside(rt, alloc, station, settings, conductor, subscriber) },
    )
}

// ---- before and after

// The first two feeders.
fn two_of(station: &Station, feeders: Vec<Feeder>) -> Result<(Feeder, Feeder), NoMemory>
    requires own { All (IsFeederOf station.now) feeders.items }
    requires feeds { EachIndex feeders.items (λ n. IsSomeAnd (slice_get feeders.items n) (λ x. x.feed ≡ n)) }
    ensures own { IfOk result (λ r. IsFeederOf station.now r.0 × IsFeederOf station.now r.1) }
    ensures feeds { IfOk result (λ r. (r.0.feed ≡ 0) × (r.1.feed ≡ 1)) }
{
    let mut feeders = feeders.into_iter();
    let Some(one) = feeders.next() else {
        return Err(NoMemory);
    };
    let Some(other) = feeders.next() else {
        return Err(NoMemory);
    };
    Ok((one, other))
}

// The first subscriber.
fn one_of(station: &Station, subscribers: Vec<Subscriber>) -> Result<Subscriber, NoMemory>
    requires own { All (IsSubscriberOf station.now) subscribers.items }
    requires readers { EachIndex subscribers.items (λ n. IsSomeAnd (slice_get subscribers.items n) (λ x. x.reader ≡ n)) }
    ensures own { IfOk result (λ by. IsSubscriberOf station.now by) }
    ensures reader { IfOk result (λ by. by.reader ≡ 0) }
{
    match subscribers.into_iter().next() {
        Some(subscriber) => Ok(subscriber),
        None => Err(NoMemory),
    }
}

// A station of two feeds and one reader, with its tokens.
fn opened(
    alloc: Global,
    settings: &Arc<Settings>,
) -> Result<(Station, (Feeder, Feeder), (Conductor, Subscriber)), NoMemory>
    ensures counts { IfOk result (λ r. (r.0.feeds ≡ 2) × (r.0.readers ≡ 1)) }
    ensures feeders { IfOk result (λ r. IsFeederOf r.0 r.1.0 × IsFeederOf r.0 r.1.1) }
    ensures feeds { IfOk result (λ r. (r.1.0.feed ≡ 0) × (r.1.1.feed ≡ 1)) }
    ensures others { IfOk result (λ r. PublishesNone r.0 (arc_value settings.now) 4608000 r.2.0 1 × IsSubscriberOf r.0 r.2.1) }
    ensures reader { IfOk result (λ r. r.2.1.reader ≡ 0) }
{
    let settings = Arc::try_clone(settings)?;
    let Opened {
        station,
        feeders,
        conductor,
        subscribers,
    } = Station::open(alloc, settings, START, 2, 1)?;
    let (one, other) = two_of(&station, feeders)?;
    let subscriber = one_of(&station, subscribers)?;
    Ok((station, (one, other), (conductor, subscriber)))
}

// Closes it, for its tokens.
fn closed(
    alloc: Global,
    station: Station,
    one: Feeder,
    other: Feeder,
    conductor: Conductor,
    subscriber: Subscriber,
) -> Result<Closed, NoMemory>
    requires counts { (station.feeds ≡ 2) × (station.readers ≡ 1) }
    requires own { IsFeederOf station one × IsFeederOf station other × IsConductorOf station conductor × IsSubscriberOf station subscriber }
    requires numbers { (one.feed ≡ 0) × (other.feed ≡ 1) × (subscriber.reader ≡ 0) }
{
    let mut feeders = Vec::with_capacity(alloc, 2)?;
    let mut subscribers = Vec::with_capacity(alloc, 1)?;
    feeders.push_reserved(one);
    feeders.push_reserved(other);
    subscribers.push_reserved(subscriber);
    Ok(station.close(feeders, conductor, subscribers))
}

#[test]
fn four_threads_make_one_history(rt: HostRuntime) -> Result<(), Fail> {
    let settings = Arc::new(rt.alloc(), one_radar(rt.alloc())?)?;
    let (station, feeders, others) = opened(rt.alloc(), &settings)?;
    let ((one, other), (conducted, asked)) = all_beside(
        &rt,
        rt.alloc(),
        &station,
        &settings,
        feeders,
        others,
    );
    let (one, first) = one;
    let (other, second) = other;
    let (conductor, rounds) = conducted;
    let (mut subscriber, known) = asked;
    let known = ask(&rt, &station, &mut subscriber, known.ok_or("number")?);
    let last = Known {
        taken: TURNS,
        told: TURNS,
    };
    assert_eq!(rt; known, Some(last));
    let closed = closed(rt.alloc(), station, one, other, conductor, subscriber)?;
    let events = closed.events.as_slice();
    let (first, second) = (first.ok_or("receipts")?, second.ok_or("receipts")?);
    let course = Course {
        last: START + TURNS,
        next: count_admitted(&first).saturating_add(count_admitted(&second)) as u64,
        number: TURNS + 1,
    };
    assert_eq!(rt; course_of(events), Some(course));
    assert!(rt; are_received(events, 0, &first) && are_received(events, 1, &second));
    assert!(rt; are_conducted(events, &rounds.ok_or("rounds")?));
    assert!(rt; closed.start == START && number_of(&closed.latest) == Some(TURNS));
    Ok(())
}
