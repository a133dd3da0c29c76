// The raw form: data blocks alone.
ghost use Rattle.std.specs.Prelude.{◌≡◌, ◌<◌, ◌≤◌, ◌^◌, ◌+◌, ◌∷◌, [], ◌++◌, ℕ, List, All, None, IfOk, IfSome, OnOk, slice_get, length};
ghost use Rattle.std.specs.Option.{option_and_then, option_map, option_or};
ghost use Rattle.std.specs.List.{AllByRecursion};
ghost use Rattle.trk_base.specs.Numbers.{day};
ghost use Rattle.asterix_frame.specs.Blocks.{BeginsNone, encoded};
ghost use Rattle.recording.specs.Blocks.{BlocksEnd};
ghost use Rattle.recording.specs.Raw.{TimedBlock, last_tick, latest, second, tick_at, tick_before, ticks, whole_seconds};
ghost use Rattle.recording.specs.Playing.{InRange, HasPlayed, PlaysAll};
ghost use Rattle.recording.specs.Readings.{HasContents, HasHeader};
ghost use Rattle.recording.specs.Answers.{items_of};
ghost use Rattle.recording.specs.Times.{HasTimes};

use crate::Item;
use crate::ending::Ending;
use crate::reading::Reading;
use crate::times::times_of;
use asterix_frame::first_block;
use std::alloc::Global;
use trk_base::{NoMemory, unwrap_tod};

/// The units of time, of 1/128 s, in a second.
const SECOND: u64 = 128;
/// No tick is as late as this, in 1/128 s.
const TICK_END: u64 = 1 << 40;

/// What the times of day in the blocks so far say of the time, in 1/128 s.
#[derive(Clone, Copy)]
pub(crate) struct Clock {
    /// The first time of day, in whole seconds.
    start: u64,
    /// The last tick, or the start.
    last: u64,
}

/// The items of blocks that are taken one after the other.
#[derive(Drop)]
pub(crate) struct Player<'a> {
    /// None until the first time of day.
    clock: Option<Clock>,
    items: Vec<Item<'a>>,
}

// The start and the last tick, where a time of day has come.
fn clock_with(clock: Option<Clock>, times: &[u32]) -> Option<Clock>
    requires in_range { IfSome clock InRange }
    requires times { All (λ tod. tod < day) times.now }
    ensures clock { result ≡ option_or clock (option_map (λ time. record { start = whole_seconds time; last = whole_seconds time }) (slice_get times.now 0)) }
    ensures in_range { IfSome result InRange }
{
    if clock.is_some() {
        return clock;
    }
    let first = times.first()?;
    let start = u64::from(*first) / SECOND * SECOND;
    Some(Clock { start, last: start })
}

// The latest of the times of day, counted on over midnights by the last tick.
fn latest_of(last: u64, times: &[u32]) -> u64
    requires last { last < 2 ^ 40 }
    requires times { All (λ tod. tod < day) times.now }
    ensures { result ≡ latest last times.now }
{
    let mut latest = 0;
    for tod in times {
        latest = unwrap_tod(*tod, last).max(latest);
    }
    latest
}

// The time, if a tick can have it.
fn tick_at(time: u64) -> Option<u64>
    ensures tick { result ≡ tick_at time }
    ensures in_range { IfSome result (λ time. time < 2 ^ 40) }
{
    if time < TICK_END { Some(time) } else { None }
}

// The tick before a block with these times of day.
fn tick_before(last: u64, times: &[u32]) -> Option<u64>
    requires last { last < 2 ^ 40 }
    requires times { All (λ tod. tod < day) times.now }
    ensures tick { result ≡ tick_before last times.now }
    ensures in_range { IfSome result (λ time. time < 2 ^ 40) }
{
    let latest = latest_of(last, times);
    if latest < last + SECOND {
        return None;
    }
    tick_at(latest / SECOND * SECOND)
}

// The tick before a block with these times of day, once a time of day has come.
fn tick_of(clock: Option<Clock>, times: &[u32]) -> Option<u64>
    requires in_range { IfSome clock InRange }
    requires times { All (λ tod. tod < day) times.now }
    ensures tick { result ≡ option_and_then (λ k. tick_before k.last times.now) clock }
    ensures in_range { IfSome result (λ time. time < 2 ^ 40) }
{
    tick_before(clock?.last, times)
}

// The clock after that tick.
fn clock_after(clock: Option<Clock>, tick: Option<u64>) -> Option<Clock>
    requires clock { IfSome clock InRange }
    requires tick { IfSome tick (λ time. time < 2 ^ 40) }
    ensures clock { result ≡ option_map (λ k. record { start = k.start; last = last_tick k.last tick }) clock }
    ensures in_range { IfSome result InRange }
{
    let Clock { start, last } = clock?;
    let last = tick.unwrap_or(last);
    Some(Clock { start, last })
}

// Puts a tick after the items, where there is one.
fn push_tick(items: &mut Vec<Item<'_>>, tick: Option<u64>) -> Result<(), NoMemory>
    ensures { OnOk result (items_of items.new.items ≡ items_of items.old.items ++ ticks tick) }
{
    if let Some(time) = tick {
        items.push(Item::Tick(time))?;
    }
    Ok(())
}

// The tick after the last block, where there is one and no fault.
fn closing_tick(items: &[Item<'_>], last: u64, fault: Option<usize>) -> Option<u64>
    requires { last < 2 ^ 40 }
    ensures none { items.now ≡ [] → result ≡ None }
    ensures faulty { IfSome fault (λ place. result ≡ None) }
    ensures follows { 0 < length items.now → fault ≡ None → result ≡ tick_at (last + second) }
{
    if items.is_empty() || fault.is_some() {
        return None;
    }
    tick_at(last + SECOND)
}

// Why no block begins where one should.
fn no_block(octets: &[u8]) -> Ending
    requires { (inside : ℕ) × (cause : ℕ) × BeginsNone octets.now inside cause }
    ensures { BlocksEnd result octets.now }
{
    match octets {
        [_, 0, 0..=2, ..] => Ending::Other,
        _ => Ending::Truncated,
    }
}

impl<'a> Player<'a> {
    // Takes a block with these times of day: the tick before it, and its octets.
    fn take(&mut self, octets: &'a [u8], times: &[u32]) -> Result<(), NoMemory>
        requires in_range { IfSome self.old.clock InRange }
        requires times { All (λ tod. tod < day) times.now }
        ensures played { OnOk result ((bs : List TimedBlock) (b : TimedBlock) → b.times ≡ times.now → encoded b.block ≡ octets.now → HasPlayed bs self.old → HasPlayed (bs ++ b ∷ []) self.new) }
        ensures in_range { OnOk result (IfSome self.new.clock InRange) }
    {
        let clock = clock_with(self.clock, times);
        let tick = tick_of(clock, times);
        push_tick(&mut self.items, tick)?;
        self.items.push(Item::Datagram {
            feed: 0,
            bytes: octets,
        })?;
        self.clock = clock_after(clock, tick);
        Ok(())
    }
}

/// The blocks that octets begin with, as they are played, and how the octets end.
#[derive(Drop)]
struct Played<'a> {
    player: Player<'a>,
    ending: Ending,
    /// Where the ending stands.
    place: usize,
}

// Plays blocks up to what begins none.
fn play(alloc: Global, bytes: &[u8]) -> Result<Played<'_>, NoMemory>
    ensures all { IfOk result (λ p. PlaysAll bytes.now p.player p.ending p.place) }
    ensures in_range { IfOk result (λ p. IfSome p.player.clock InRange) }
{
    let mut player = Player {
        clock: None,
        items: Vec::new(alloc),
    };
    let mut from = 0;
    while from < bytes.len() {
        let Ok(block) = first_block(bytes, from) else {
            let ending = no_block(&bytes[from..]);
            return Ok(Played {
                player,
                ending,
                place: from,
            });
        };
        let times = times_of(alloc, &block)?;
        player.take(&bytes[from..block.end()], &times)?;
        from = block.end();
    }
    Ok(Played {
        player,
        ending: Ending::Nothing,
        place: from,
    })
}

/// Reads octets of the raw form.
pub(crate) fn read_raw(alloc: Global, bytes: &[u8], goes_on: bool) -> Result<Reading<'_>, NoMemory>
    requires other_beginning { HasHeader None bytes.now }
    ensures reads { IfOk result (λ r. HasContents bytes.now goes_on r.header r.start (items_of r.items.items) r.fault) }
    ensures header { IfOk result (λ r. HasHeader r.header bytes.now) }
    ensures start_fits { IfOk result (λ r. r.start < 2 ^ 40) }
{
    let Played {
        player: Player { clock, mut items },
        ending,
        place,
    } = play(alloc, bytes)?;
    let fault = ending.fault(goes_on, place, bytes.len());
    let Clock { start, last } = clock.unwrap_or(Clock { start: 0, last: 0 });
    let tick = closing_tick(&items, last, fault);
    push_tick(&mut items, tick)?;
    Ok(Reading {
        header: None,
        start,
        items,
        fault,
    })
}
