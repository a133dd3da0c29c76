// What became of the items of a replay, counted, and the line that tells it.
ghost use Rattle.std.specs.Prelude.{◌≡◌, ◌+◌, ◌++◌, ◌∷◌, [], IfOk, string_bytes};
ghost use Rattle.admission_log.specs.Deliveries.{outcomes_in};
ghost use Rattle.tracker_session.specs.Counting.{counted, no_counts, others_in, with_told};
ghost use Rattle.tracker_session.specs.Screen.{biases_text, counts_line, plots_text, others_text};

use admission_log::{Event, Outcome};
use std::alloc::{AllocError, Global};

/// What came of the items of a replay.
#[derive(Clone, Copy, Debug, PartialEq, Eq)]
pub struct Counts {
    /// The ticks taken, each of which gave an edition.
    pub editions: u64,
    /// The plots admitted.
    pub admitted: u64,
    /// The plots of a source that is no radar of the settings.
    pub unknown: u64,
    /// The plots before the horizon.
    pub early: u64,
    /// The plots too far ahead of the last tick.
    pub ahead: u64,
    /// The reports that are no plots.
    pub not_plots: u64,
    /// The datagrams that are malformed, of which nothing else is counted.
    pub malformed: u64,
    /// The blocks of other categories, which were passed over.
    pub other: u64,
    /// The ticks that weren't above the last one.
    pub old: u64,
    /// Whether the input can have changes of biases, so that the line tells them.
    pub tells_biases: bool,
    /// The changes of biases that were taken.
    pub biases: u64,
    /// The changes of biases of no radar, or before the horizon.
    pub refused: u64,
}

impl Counts {
    /// Those of a replay that has taken no item.
    pub fn none(tells_biases: bool) -> Counts
        ensures { result ≡ no_counts tells_biases }
    {
        Counts {
            editions: 0,
            admitted: 0,
            unknown: 0,
            early: 0,
            ahead: 0,
            not_plots: 0,
            malformed: 0,
            other: 0,
            old: 0,
            tells_biases,
            biases: 0,
            refused: 0,
        }
    }
}

/// A count, and what is to be added to it. It stands still at its type's end.
pub fn more(count: u64, added: u64) -> u64
    ensures { result ≡ counted (count + added) }
{
    count.saturating_add(added)
}

/// Counts what was told of the messages of a datagram.
pub fn count_outcomes(counts: &mut Counts, outcomes: &[Outcome])
    ensures { counts.exit.now ≡ with_told outcomes.now counts.entry.now }
{
    for outcome in outcomes {
        count_outcome(counts, outcome);
    }
}

// Counts what was told of a message. Services aren't counted.
fn count_outcome(counts: &mut Counts, outcome: &Outcome)
    ensures { counts.exit.now ≡ with_told (outcome.now ∷ []) counts.entry.now }
{
    match outcome {
        Outcome::Admitted(_) => counts.admitted = more(counts.admitted, 1),
        Outcome::UnknownRadar => counts.unknown = more(counts.unknown, 1),
        Outcome::BeforeHorizon { .. } => counts.early = more(counts.early, 1),
        Outcome::Ahead { .. } => counts.ahead = more(counts.ahead, 1),
        Outcome::NotPlot(_) => counts.not_plots = more(counts.not_plots, 1),
        Outcome::Service(_) => {}
    }
}

/// What an event tells of each message of a datagram.
pub fn outcomes_of(event: &Event) -> &[Outcome]
    ensures { result.now ≡ outcomes_in event.now }
{
    match event {
        Event::Deliver { outcomes, .. } => outcomes.as_slice(),
        _ => &[],
    }
}

/// How many blocks of a datagram an event passed over.
pub fn others_of(event: &Event) -> u64
    ensures { result ≡ others_in event.now }
{
    match event {
        Event::Deliver { other, .. } => u64::from(*other),
        _ => 0,
    }
}

/// The line of a replay that was done.
pub fn counts_line(alloc: Global, counts: &Counts) -> Result<String, AllocError>
    ensures { IfOk result (λ s. string_bytes s ≡ counts_line counts.now) }
{
    let editions = counts.editions;
    let plots = plots_text(alloc, counts)?;
    let others = others_text(alloc, counts)?;
    let biases = biases_text(alloc, counts)?;
    format!(in alloc; "editions {editions} {plots} {others}{biases}\n")
}

// What came of the plots of a replay.
fn plots_text(alloc: Global, counts: &Counts) -> Result<String, AllocError>
    ensures { IfOk result (λ s. string_bytes s ≡ plots_text counts.now) }
{
    let Counts {
        admitted,
        unknown,
        early,
        ahead,
        ..
    } = *counts;
    format!(in alloc; "admitted {admitted} unknown {unknown} early {early} ahead {ahead}")
}

// What was no plot, or no more than passed over.
fn others_text(alloc: Global, counts: &Counts) -> Result<String, AllocError>
    ensures { IfOk result (λ s. string_bytes s ≡ others_text counts.now) }
{
    let Counts {
        not_plots,
        malformed,
        other,
        old,
        ..
    } = *counts;
    format!(in alloc; "notplots {not_plots} malformed {malformed} other {other} old {old}")
}

// What came of the changes of biases, where the input can have any.
fn biases_text(alloc: Global, counts: &Counts) -> Result<String, AllocError>
    ensures { IfOk result (λ s. string_bytes s ≡ biases_text counts.now) }
{
    if !counts.tells_biases {
        return Ok(String::new(alloc));
    }
    let Counts {
        biases,
        refused,
        ..
    } = *counts;
    format!(in alloc; " biases {biases} refused {refused}")
}
