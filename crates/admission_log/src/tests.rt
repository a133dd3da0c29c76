// A log under one radar: what becomes of messages, ticks, changes of biases and editions.
ghost use Rattle.std.specs.Prelude.{◌≡◌, ◌+◌, ◌<◌, ◌≤◌, ◌^◌, length, unsigned_abs};

use crate::*;
use asterix_frame::{Malformed, cause};
use cat048_in::NotPlot;
use plot_geometry::{Bias, RadarSettings};
use std::alloc::Global;
use std::test::Fail;
use track_life::LifeSettings;
use trk_base::{DAY, Key, NoMemory, RawPlot, Sequence, TryCopy, slot_of};

const START: u64 = 4_608_000;

// Settings of a radar (1, 1) at the plane's origin whose times are too late by so much.
fn settings_with(alloc: Global, time_bias: i16) -> Result<Settings, NoMemory>
    requires { unsigned_abs time_bias ≤ 1280 }
{
    let mut radars = Sequence::new(alloc);
    radars.push(RadarSettings {
        sac: 1,
        sic: 1,
        x: 0,
        y: 0,
        height: 0,
        north: 0,
        range_gain: 0,
        range_bias: 0,
        azimuth_bias: 0,
        time_bias,
        range_sigma: 50,
        azimuth_sigma: 12,
    })?;
    Ok(Settings {
        sac: 1,
        sic: 99,
        service: 1,
        window: 32,
        life: LifeSettings {
            hits: 1,
            keep_tentative: 15,
            keep_confirmed: 30,
        },
        radars,
    })
}

// A datagram of one report of a radar (1, sic), one nautical mile to the north, with a time of day.
fn report(sic: u8, tod: u32) -> [u8; 14] {
    let [_, high, middle, low] = tod.to_be_bytes();
    [
        0x30, 0, 14, 0xF0, 1, sic, high, middle, low, 0xA0, 1, 0, 0, 0,
    ]
}

// A datagram of one service message of a radar (1, sic) with a type.
fn service(sic: u8, kind: u8) -> [u8; 10] {
    [0x22, 0, 10, 0xE0, 1, sic, kind, 0x46, 0x50, 0]
}

// What one thread makes and others may read and drop.
fn crosses_threads<T: Send + Sync>(_: &T) {}

// Whether radars are found by their sources alone.
fn finds_radars(settings: &Settings) -> bool {
    settings.radar(1, 1) == Some(0)
        && settings.radar(1, 2).is_none()
        && settings.radar(2, 1).is_none()
}

#[test]
fn finds_radars_and_copies(rt: HostRuntime) -> Result<(), Fail> {
    let settings = settings_with(rt.alloc(), 0)?;
    let copy = settings.copy(rt.alloc())?;
    assert!(rt; finds_radars(&settings) && copy == settings);
    crosses_threads(&settings);
    Ok(())
}

// A datagram, and the offset and the cause of its first fault.
const FAULTS: [(&[u8], usize, u8); 10] = [
    (&[0x30, 0], 0, cause::BLOCK_SHORT),
    (&[0x30, 0, 2], 1, cause::BLOCK_LENGTH),
    (&[0x30, 0, 4, 0x81], 4, cause::FSPEC_END),
    (&[0x30, 0, 8, 1, 1, 1, 1, 0x80], 7, cause::SPARE_FRN),
    (&[0x30, 0, 5, 0x80, 1], 4, cause::ITEM_END),
    (&[0x30, 0, 8, 1, 1, 1, 2, 0], 7, cause::LENGTH_ZERO),
    (&[0x30, 0, 6, 2, 1, 0x80], 5, cause::UNKNOWN_SUBFIELD),
    (&[0x30, 0, 7, 0x40, 0xA8, 0xC0, 0], 4, cause::TIME_RANGE),
    // a fault of the records, before one of the next head
    (&[0x30, 0, 5, 0x80, 1, 0x30, 0, 2], 4, cause::ITEM_END),
    // a good record before a bad one is refused with it
    (
        &[
            0x30, 0, 16, 0xF0, 1, 1, 0x46, 0x50, 10, 0xA0, 1, 0, 0, 0, 0x80, 1,
        ],
        15,
        cause::ITEM_END,
    ),
];

// Whether each datagram is refused by its fault.
fn are_refused(log: &mut Log, settings: &Settings, rows: &[(&[u8], usize, u8)]) -> bool {
    for (datagram, offset, cause) in rows {
        let fault = Malformed {
            offset: *offset,
            cause: *cause,
        };
        if !is_refused(log, settings, datagram, fault) {
            return false;
        }
    }
    true
}

// .. this one.
fn is_refused(log: &mut Log, settings: &Settings, datagram: &[u8], fault: Malformed) -> bool {
    datagram.len() <= 65_535
        && log.admit(settings, 0, datagram).err() == Some(AdmitError::Malformed(fault))
}

#[test]
fn tells_the_first_fault(rt: HostRuntime) -> Result<(), Fail> {
    let settings = settings_with(rt.alloc(), 0)?;
    let mut log = Log::new(rt.alloc(), START);
    assert!(rt; are_refused(&mut log, &settings, &FAULTS));
    assert!(rt; log.events().is_empty());
    Ok(())
}

// Datagrams without a plot, what becomes of their messages, and how many blocks are passed over.
const WITHOUT_PLOTS: [(&[u8], Option<Outcome>, u32); 5] = [
    (&[], None, 0),
    (&[0x30, 0, 3], None, 0),
    (&[0x15, 0, 5, 0xAA, 0xBB], None, 1),
    (
        &[0x30, 0, 7, 0x40, 0xA8, 0xBF, 0xFF],
        Some(Outcome::NotPlot(NotPlot::NoSource)),
        0,
    ),
    (
        &[0x30, 0, 6, 1, 0x20, 0],
        Some(Outcome::NotPlot(NotPlot::NoSource)),
        0,
    ),
];

// Whether each such datagram has its event, read at once and apart from the log.
fn have_events(
    alloc: Global,
    settings: &Settings,
    rows: &[(&[u8], Option<Outcome>, u32)],
) -> Result<bool, AdmitError> {
    for (datagram, outcome, other) in rows {
        let want = event_without_plots(alloc, *outcome, *other)?;
        if !has_event(alloc, settings, datagram, &want)? {
            return Ok(false);
        }
    }
    Ok(true)
}

// The event of a datagram without plots.
fn event_without_plots(
    alloc: Global,
    outcome: Option<Outcome>,
    other: u32,
) -> Result<Event, NoMemory> {
    let mut outcomes = Sequence::new(alloc);
    if let Some(outcome) = outcome {
        outcomes.push(outcome)?;
    }
    Ok(Event::Deliver {
        feed: 3,
        admitted: Sequence::new(alloc),
        outcomes,
        other,
    })
}

// Whether a datagram has this event.
fn has_event(
    alloc: Global,
    settings: &Settings,
    datagram: &[u8],
    want: &Event,
) -> Result<bool, AdmitError> {
    if datagram.len() > 65_535 {
        return Ok(false);
    }
    let messages = read_messages(alloc, datagram)?;
    let judged = judge_messages(alloc, settings, START, 0, 3, &messages)?;
    let delivered = deliver(alloc, settings, START, 0, 3, datagram)?;
    Ok(judged == *want && delivered == *want)
}

#[test]
fn admits_what_has_no_plots(rt: HostRuntime) -> Result<(), Fail> {
    let settings = settings_with(rt.alloc(), 0)?;
    assert!(rt; have_events(rt.alloc(), &settings, &WITHOUT_PLOTS)?);
    Ok(())
}

// Three reports, of the radars (1, 1), (1, 2) and (1, 1).
const THREE_REPORTS: [u8; 36] = [
    0x30, 0, 36, 0xF0, 1, 1, 0x46, 0x50, 10, 0xA0, 1, 0, 0, 0, 0xF0, 1, 2, 0x46, 0x50, 10, 0xA0, 1,
    0, 0, 0, 0xF0, 1, 1, 0x46, 0x50, 10, 0xA0, 1, 0, 0, 0,
];

// Whether the first and the third of them are admitted.
fn are_known(log: &Log, receipt: &Receipt) -> bool {
    let told = [
        Outcome::Admitted(0),
        Outcome::UnknownRadar,
        Outcome::Admitted(1),
    ];
    let Some(Event::Deliver { admitted, .. }) = log.events().first() else {
        return false;
    };
    let [one, two] = admitted.as_slice() else {
        return false;
    };
    receipt.at == 0
        && receipt.outcomes.as_slice() == told.as_slice()
        && log.next() == 2
        && is_of_report(one, 0)
        && is_of_report(two, 1)
}

// Whether a plot is that of such a report, under an arrival.
fn is_of_report(admitted: &Admitted, arrival: u64) -> bool {
    let plot = admitted.plot;
    (admitted.arrival, admitted.radar, admitted.time) == (arrival, 0, 4_608_010)
        && (plot.sic, plot.tod, plot.rho, plot.kind) == (1, 4_608_010, 256, 5)
}

#[test]
fn admits_the_known_among_unknown(rt: HostRuntime) -> Result<(), Fail> {
    let settings = settings_with(rt.alloc(), 0)?;
    let mut log = Log::new(rt.alloc(), START);
    let receipt = log.admit(&settings, 0, &THREE_REPORTS)?;
    assert!(rt; are_known(&log, &receipt));
    Ok(())
}

// The time of a report after a tick at 4,608,128, and what becomes of it.
const WINDOW: [(u32, Outcome); 4] = [
    (4_606_080, Outcome::Admitted(7)),
    (
        4_606_079,
        Outcome::BeforeHorizon {
            slot: 71_969,
            low: 71_970,
        },
    ),
    (
        4_608_641,
        Outcome::Ahead {
            time: 4_608_641,
            high: 4_608_640,
        },
    ),
    (4_608_640, Outcome::Admitted(7)),
];

// Whether each report has its outcome after a tick at 4,608,128.
fn have_outcomes(
    alloc: Global,
    settings: &Settings,
    rows: &[(u32, Outcome)],
) -> Result<bool, AdmitError> {
    for (tod, outcome) in rows {
        let event = deliver(alloc, settings, 4_608_128, 7, 0, &report(1, *tod))?;
        if first_outcome(&event) != Some(*outcome) {
            return Ok(false);
        }
    }
    Ok(true)
}

#[test]
fn keeps_the_edges_of_the_window(rt: HostRuntime) -> Result<(), Fail> {
    let settings = settings_with(rt.alloc(), 0)?;
    assert!(rt; have_outcomes(rt.alloc(), &settings, &WINDOW)?);
    Ok(())
}

// What an event tells of its first message.
fn first_outcome(event: &Event) -> Option<Outcome> {
    match event {
        Event::Deliver { outcomes, .. } => outcomes.as_slice().first().copied(),
        _ => None,
    }
}

// The time of the one plot of an event.
fn time_of(event: &Event) -> Option<u64> {
    match event {
        Event::Deliver { admitted, .. } => Some(admitted.as_slice().first()?.time),
        _ => None,
    }
}

// A last tick, a bias of time, a time of day, and the time of the plot.
const TIMES: [(u64, i16, u32, u64); 4] = [
    (11_059_100, 0, 5, 11_059_205),
    (START, 10, 4_608_010, 4_608_000),
    (START, -10, 4_608_010, 4_608_020),
    // a time that would be negative is 0
    (0, 10, 5, 0),
];

// Whether each report has its time, and its event a copy.
fn have_times(alloc: Global, rows: &[(u64, i16, u32, u64)]) -> Result<bool, AdmitError> {
    for (last, time_bias, tod, time) in rows {
        if *last >= 1 << 40 || time_bias.unsigned_abs() > 1280 {
            return Ok(false);
        }
        let settings = settings_with(alloc, *time_bias)?;
        let event = deliver(alloc, &settings, *last, 0, 0, &report(1, *tod))?;
        if time_of(&event) != Some(*time) || event.copy(alloc)? != event {
            return Ok(false);
        }
    }
    Ok(true)
}

#[test]
fn counts_on_over_midnight_and_frees_of_bias(rt: HostRuntime) -> Result<(), Fail> {
    assert!(rt; have_times(rt.alloc(), &TIMES)?);
    assert_eq!(rt; slot_of(11_059_205), 172_800);
    Ok(())
}

// The SIC and the type of a service message, and the radar that it counts for.
const SERVICES: [(u8, u8, Option<u8>); 4] = [
    (1, 1, Some(0)),
    (1, 2, Some(0)),
    (1, 3, None),
    (2, 1, None),
];

// Whether each service message counts for its radar.
fn count_for(
    alloc: Global,
    settings: &Settings,
    rows: &[(u8, u8, Option<u8>)],
) -> Result<bool, AdmitError> {
    for (sic, kind, radar) in rows {
        let event = deliver(alloc, settings, START, 0, 0, &service(*sic, *kind))?;
        if first_outcome(&event) != Some(Outcome::Service(*radar)) {
            return Ok(false);
        }
    }
    Ok(true)
}

#[test]
fn counts_service_messages_of_two_types(rt: HostRuntime) -> Result<(), Fail> {
    let settings = settings_with(rt.alloc(), 0)?;
    assert!(rt; count_for(rt.alloc(), &settings, &SERVICES)?);
    Ok(())
}

// Biases of the range alone, in 1/128 NM.
fn range_bias(range: i16) -> Bias
    requires { unsigned_abs range ≤ 1000 }
{
    Bias {
        gain: 0,
        range,
        azimuth: 0,
    }
}

// A call of a log.
#[derive(Clone, Copy)]
enum Call {
    // A datagram of one report, by its time of day.
    Report(u32),
    Tick(u64),
    // A number and a cut.
    Publish(u64, u64),
    // A radar, a slot and a bias of range.
    Bias(u8, u64, i16),
}

// What it answers.
#[derive(Clone, Copy, PartialEq)]
enum Answer {
    // The index of its event.
    At(u64),
    Tick(TickError),
    Bias(BiasError),
    // It isn't taken, or wasn't made.
    Nothing,
}

// Calls of a log that starts at 4,608,000, and their answers.
const CALLS: [(Call, Answer); 8] = [
    (Call::Tick(4_608_128), Answer::At(0)),
    (
        Call::Tick(4_608_128),
        Answer::Tick(TickError::Old { last: 4_608_128 }),
    ),
    (Call::Publish(1, 1), Answer::At(1)),
    (
        Call::Bias(1, 71_970, 2),
        Answer::Bias(BiasError::UnknownRadar { radars: 1 }),
    ),
    (
        Call::Bias(0, 71_969, 2),
        Answer::Bias(BiasError::BeforeHorizon {
            slot: 71_969,
            low: 71_970,
        }),
    ),
    (Call::Bias(0, 71_970, 2), Answer::At(2)),
    (Call::Report(4_608_200), Answer::At(3)),
    (Call::Publish(2, 4), Answer::At(4)),
];

// What a log answers to a call.
fn answer_of(log: &mut Log, settings: &Settings, call: Call) -> Answer {
    match call {
        Call::Report(tod) => match log.admit(settings, 0, &report(1, tod)) {
            Ok(receipt) => Answer::At(receipt.at),
            Err(_) => Answer::Nothing,
        },
        Call::Tick(time) => tick(log, time),
        Call::Publish(number, cut) => publish(log, number, cut),
        Call::Bias(radar, slot, range) => bias(log, settings, radar, slot, range),
    }
}

// .. to a tick.
fn tick(log: &mut Log, time: u64) -> Answer {
    if time >= 1 << 40 {
        return Answer::Nothing;
    }
    match log.tick(time) {
        Ok(index) => Answer::At(index),
        Err(error) => Answer::Tick(error),
    }
}

// .. to an edition.
fn publish(log: &mut Log, number: u64, cut: u64) -> Answer {
    let events = log.events().len() as u64;
    if number != log.published() + 1 || cut < log.cut() || cut > events {
        return Answer::Nothing;
    }
    match log.publish(number, cut) {
        Ok(index) => Answer::At(index),
        Err(_) => Answer::Nothing,
    }
}

// .. to a change of biases.
fn bias(log: &mut Log, settings: &Settings, radar: u8, slot: u64, range: i16) -> Answer {
    if slot >= 1 << 34 || range.unsigned_abs() > 1000 {
        return Answer::Nothing;
    }
    match log.bias(settings, radar, slot, range_bias(range)) {
        Ok(index) => Answer::At(index),
        Err(error) => Answer::Bias(error),
    }
}

// Whether each call has its answer.
fn have_answers(log: &mut Log, settings: &Settings, rows: &[(Call, Answer)]) -> bool {
    for (call, want) in rows {
        if answer_of(log, settings, *call) != *want {
            return false;
        }
    }
    true
}

// Whether the log has come to the end of those calls.
fn has_come(log: &Log) -> bool {
    (log.start(), log.last(), log.next()) == (START, 4_608_128, 1)
        && (log.published(), log.cut()) == (2, 4)
}

// Whether the events but the datagram's are those of the calls, and all have a copy.
fn are_events(alloc: Global, events: Vec<Event>) -> Result<bool, NoMemory> {
    let events = Sequence::of(events);
    let copy = events.copy(alloc)?;
    let [tick, first, change, _, second] = copy.as_slice() else {
        return Ok(false);
    };
    let bias = Event::Bias {
        radar: 0,
        slot: 71_970,
        bias: range_bias(2),
    };
    Ok(
        *tick == Event::Tick(4_608_128)
            && *first == Event::Publish { number: 1, cut: 1 }
            && *change == bias
            && *second == Event::Publish { number: 2, cut: 4 }
            && copy == events,
    )
}

#[test]
fn takes_ticks_editions_and_biases(rt: HostRuntime) -> Result<(), Fail> {
    let settings = settings_with(rt.alloc(), 0)?;
    let mut log = Log::new(rt.alloc(), START);
    assert!(rt; have_answers(&mut log, &settings, &CALLS) && has_come(&log));
    crosses_threads(&log);
    assert!(rt; are_events(rt.alloc(), log.into_events())?);
    Ok(())
}

// The event that a summary gives for a call, if it takes it.
fn event_of(
    alloc: Global,
    summary: &mut LogSummary,
    settings: &Settings,
    call: Call,
) -> Option<Event> {
    match call {
        Call::Report(tod) => summary.admit(alloc, settings, 0, &report(1, tod)).ok(),
        Call::Tick(time) => {
            if time >= 1 << 40 {
                return None;
            }
            summary.tick(time).ok()
        }
        Call::Publish(number, cut) => {
            if number != summary.published() + 1 || cut < summary.cut() || cut > summary.count() {
                return None;
            }
            summary.publish(number, cut).ok()
        }
        Call::Bias(radar, slot, range) => {
            if slot >= 1 << 34 || range.unsigned_abs() > 1000 {
                return None;
            }
            summary.bias(settings, radar, slot, range_bias(range)).ok()
        }
    }
}

// Whether a summary gives the events of a log, call by call, and tells what the log tells.
fn goes_along(
    alloc: Global,
    log: &mut Log,
    settings: &Settings,
    rows: &[(Call, Answer)],
) -> Result<bool, NoMemory> {
    let mut summary = LogSummary::new(START);
    let mut events = Vec::new(alloc);
    for (call, _) in rows {
        let _ = answer_of(log, settings, *call);
        if let Some(event) = event_of(alloc, &mut summary, settings, *call) {
            events.push(event)?;
        }
    }
    Ok(tells_the_same(&summary, log) && events.as_slice() == log.events())
}

// Whether a summary tells what a log tells.
fn tells_the_same(summary: &LogSummary, log: &Log) -> bool {
    (summary.start(), summary.last(), summary.next()) == (log.start(), log.last(), log.next())
        && (summary.published(), summary.cut()) == (log.published(), log.cut())
        && summary.count() == log.events().len() as u64
}

#[test]
fn goes_on_without_events(rt: HostRuntime) -> Result<(), Fail> {
    let settings = settings_with(rt.alloc(), 0)?;
    let mut log = Log::new(rt.alloc(), START);
    assert!(rt; goes_along(rt.alloc(), &mut log, &settings, &CALLS)? && log.next() == 1);
    Ok(())
}

// Changes of the bias of range in the order of the log, each with the slot from which it holds, and
// how far to the north a plot of the slot 72,000 then lies, measured at 256/256 NM. A nautical mile
// has 118,528/64 m.
const CHANGES: [([(u64, i16); 2], i64); 4] = [
    // from the next slot on alone, or a change that comes later
    ([(72_001, 1), (72_001, 2)], 118_528),
    ([(72_000, 1), (72_001, 2)], 117_602),
    // the later slot decides, and then the later event
    ([(71_999, 1), (71_998, 2)], 117_602),
    ([(71_999, 1), (71_999, 2)], 116_676),
];

// The positions to the north of the plots of a log.
fn norths(alloc: Global, settings: &Settings, log: &Log) -> Result<Vec<i64>, NoMemory> {
    let mut norths = Vec::new(alloc);
    for plot in &plots_of(alloc, settings, log)? {
        norths.push(plot.y)?;
    }
    Ok(norths)
}

// Whether each plot lies where its biases say, once its slot is over.
fn lie_to_the_north(
    alloc: Global,
    settings: &Settings,
    rows: &[([(u64, i16); 2], i64)],
) -> Result<bool, NoMemory> {
    for (changes, north) in rows {
        let [(first_slot, first), (second_slot, second)] = *changes;
        let calls = [
            Call::Report(4_608_000),
            Call::Bias(0, first_slot, first),
            Call::Bias(0, second_slot, second),
        ];
        if !lies_to_the_north(alloc, settings, &calls, *north)? {
            return Ok(false);
        }
    }
    Ok(true)
}

// .. the one of these calls.
fn lies_to_the_north(
    alloc: Global,
    settings: &Settings,
    calls: &[Call],
    north: i64,
) -> Result<bool, NoMemory> {
    let mut log = Log::new(alloc, START);
    for call in calls {
        let _ = answer_of(&mut log, settings, *call);
    }
    let open = norths(alloc, settings, &log)?;
    let _ = tick(&mut log, 4_608_128);
    let over = norths(alloc, settings, &log)?;
    Ok(open.is_empty() && over.as_slice() == [north].as_slice())
}

#[test]
fn frees_plots_of_the_biases_of_their_slots(rt: HostRuntime) -> Result<(), Fail> {
    let settings = settings_with(rt.alloc(), 0)?;
    assert!(rt; lie_to_the_north(rt.alloc(), &settings, &CHANGES)?);
    Ok(())
}

// A plot of the radar (1, 1) as `report` has it, at a time of the first day.
fn plot_at(time: u64, radar: u8, arrival: u64, rho: u16) -> Entry {
    Entry::Plot {
        key: Key {
            slot: slot_of(time),
            radar,
            time,
            arrival,
        },
        raw: RawPlot {
            sac: 1,
            sic: 1,
            tod: (time % DAY) as u32,
            rho,
            theta: 0,
            kind: 5,
            spi: false,
            code: None,
            level: None,
            address: None,
        },
    }
}

// A change of a radar's bias of range.
fn change(slot: u64, place: u64, radar: u8, range: i16) -> Entry
    requires { unsigned_abs range ≤ 1000 }
{
    Entry::Bias {
        slot,
        place,
        radar,
        bias: range_bias(range),
    }
}

#[test]
fn orders_entries(rt: HostRuntime) {
    let entries = [
        change(1, 7, 5, 9),
        change(2, 0, 1, 0),
        change(2, 3, 0, 0),
        change(2, 3, 0, 1),
        change(2, 3, 1, 0),
        plot_at(128, 0, 9, 0),
        plot_at(128, 0, 9, 1),
        plot_at(129, 0, 8, 0),
        plot_at(128, 1, 0, 0),
        change(3, 0, 0, 0),
        plot_at(192, 0, 0, 0),
    ];
    assert!(rt; entries.is_sorted_by(|a, b| a < b));
    crosses_threads(&entries);
}

// The entries of a report, of a change of biases and of a tick.
fn entries_of_three(alloc: Global, settings: &Settings) -> Result<Vec<Entry>, AdmitError> {
    let mut entries = Vec::new(alloc);
    let event = deliver(alloc, settings, START, 4, 0, &report(1, 4_608_010))?;
    event.append_entries(8, &mut entries)?;
    let event = Event::Bias {
        radar: 0,
        slot: 72_000,
        bias: range_bias(2),
    };
    event.append_entries(9, &mut entries)?;
    Event::Tick(4_608_128).append_entries(10, &mut entries)?;
    Ok(entries)
}

#[test]
fn lists_the_entries_of_events(rt: HostRuntime) -> Result<(), Fail> {
    let settings = settings_with(rt.alloc(), 0)?;
    let entries = entries_of_three(rt.alloc(), &settings)?;
    let want = [plot_at(4_608_010, 0, 4, 256), change(72_000, 9, 0, 2)];
    assert!(rt; entries.as_slice() == want.as_slice());
    let [plot, change] = want;
    assert_eq!(rt; (plot.slot(), change.slot()), (72_000, 72_000));
    Ok(())
}
