// `exercise`: the replay of a scene in memory, of which nothing but counts is kept.
ghost use Rattle.std.specs.Prelude.{◌≡◌, ◌<◌, ◌≤◌, ◌^◌, IfOk, string_bytes};
ghost use Rattle.std.specs.Arc.{arc_value};
ghost use Rattle.std.specs.List.{AllByRecursion};
ghost use Rattle.recording.specs.Answers.{items_of};
ghost use Rattle.recording.specs.Items.{IsItem};
ghost use Rattle.recording.specs.declared.header.Header.{Header};
ghost use Rattle.tracker_session.specs.Editions.{AreGiven};
ghost use Rattle.tracker_session.specs.Exercise.{HaveTotals, IsExerciseText, exercise_lines};
ghost use Rattle.tracker_session.specs.Replay.{empty_log};
ghost use Rattle.tracker_session.specs.Words.{IsWish};
ghost use Rattle.tracker_session.specs.Work.{IsSpentOnItems, IsSpentOnScene};

use crate::counts::{Counts, counts_line, more};
use crate::editions::Editions;
use crate::scene_settings::scene_settings;
use crate::taking::Run;
use crate::totals::{Totals, more_octets, totals_line};
use admission_log::Settings;
use cluster_pool::Pool;
use recording::{Reading, read_recording};
use std::alloc::{AllocError, Global};
use std::sync::Arc;
use std::sync::ledger::Ledger;
use trk_base::{NoMemory, Steps};

// What came of a scene that was replayed.
#[derive(Clone, Copy)]
struct Tally {
    counts: Counts,
    totals: Totals,
}

/// Draws a scene, replays its recording under the scene's settings, and tells what came of it.
pub fn exercise<P: Pool, L: Ledger>(
    alloc: Global,
    seed: u64,
    aircraft: u16,
    seconds: u16,
    late: u8,
    pool: &mut P,
    workers: u8,
    steps: &mut Steps<L>,
) -> Result<String, NoMemory>
    requires { IsWish workers }
    ensures text { IfOk result (λ s. IsExerciseText seed aircraft seconds late (string_bytes s)) }
    ensures rises { steps.old ≤ steps.new }
    ensures spent { IsSpentOnScene seed aircraft seconds late steps.old steps.new }
{
    let octets = scene_gen::scene(alloc, seed, aircraft, seconds, late)?;
    let reading = read_recording(alloc, &octets)?;
    let settings = Arc::new(alloc, scene_settings(alloc)?)?;
    let editions = Editions::new(alloc, settings.clone()?, reading.start)?;
    let tally = take_items(alloc, &settings, &reading, editions, pool, workers, steps)?;
    Ok(exercise_lines(alloc, &tally.counts, &tally.totals)?)
}

// Takes the items, and counts each edition that one gives.
fn take_items<P: Pool, L: Ledger>(
    alloc: Global,
    settings: &Settings,
    reading: &Reading<'_>,
    editions: Editions,
    pool: &mut P,
    workers: u8,
    steps: &mut Steps<L>,
) -> Result<Tally, NoMemory>
    requires start { reading.now.start < 2 ^ 40 }
    requires fits { AllByRecursion (IsItem Header.Second) (items_of reading.now.items.items) }
    requires given { AreGiven settings.now (empty_log reading.now.start) editions }
    requires workers { IsWish workers }
    ensures totals { IfOk result (λ e. HaveTotals settings.now reading.now.start (items_of reading.now.items.items) e.counts e.totals) }
    ensures rises { steps.old ≤ steps.new }
    ensures spent { IsSpentOnItems settings.now reading.now.start (items_of reading.now.items.items) steps.old steps.new }
{
    let mut run = Run::new(alloc, reading.start, false);
    let mut editions = editions;
    let mut octets = 0;
    let mut certificates = 0;
    for item in &reading.items {
        if run.take(alloc, settings, *item)? {
            let parts = editions.advance(run.newest(), pool, workers, steps)?;
            run.forget();
            octets = more_octets(octets, parts.datagrams.as_slice());
            certificates = more(certificates, parts.certificates);
        }
    }
    Ok(Tally {
        counts: run.counts,
        totals: Totals {
            tracks: editions.tracks as u64,
            octets,
            certificates,
        },
    })
}

// The two lines of an exercise.
fn exercise_lines(alloc: Global, counts: &Counts, totals: &Totals) -> Result<String, AllocError>
    ensures { IfOk result (λ s. string_bytes s ≡ exercise_lines counts.now totals.now) }
{
    let first = counts_line(alloc, counts)?;
    let second = totals_line(alloc, totals)?;
    format!(in alloc; "{first}{second}")
}
