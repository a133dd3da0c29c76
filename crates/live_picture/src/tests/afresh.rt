// The edition of a log's first events, told by an engine that takes them in anew.
ghost use Rattle.std.specs.Prelude.{◌≡◌, ◌≤◌, ◌<◌, ◌++◌, ◌^◌, ℕ, IfOk};
ghost use Rattle.std.specs.Arc.{arc_value};
ghost use Rattle.admission_log.specs.declared.settings.Settings.{Settings};
ghost use Rattle.admission_log.specs.Histories.{History};
ghost use Rattle.admission_log.specs.Legality.{IsLegal};
ghost use Rattle.tracker_engine.specs.Engines.{StandsFor, Continues, with_events};
ghost use Rattle.live_picture.specs.Rounds.{Tells};

use crate::advancing::advance;
use admission_log::{Event, Settings};
use cluster_pool::Inline;
use edition_form::{Built, Edition};
use std::alloc::Global;
use std::sync::Arc;
use std::sync::ledger::Ledger;
use std::thread::Threads;
use tracker_engine::Engine;
use trk_base::{NoMemory, Steps};

// Takes in events, and tells the edition of all that were taken in.
fn told_with<R: Threads + Sync, L: Ledger>(
    engine: &mut Engine,
    events: &[Event],
    number: u64,
    steps: &mut Steps<L>,
) -> Result<Built, NoMemory>
    requires from_one { 1 ≤ number }
    requires continues { Continues engine.old events.now }
    ensures { (settings : Settings) (log : History) (settled before : ℕ) → StandsFor settings log settled before engine.old → IsLegal settings (with_events log events.now) → IfOk result (λ b. Tells settings (with_events log events.now) before number engine.new b) }
{
    engine.absorb(events)?;
    advance(engine, number, &mut Inline::<R>::new(), 1, steps)
}

// The edition of two stretches of a log, told against that of the first one.
fn told_afresh<R: Threads + Sync, L: Ledger>(
    alloc: Global,
    settings: &Arc<Settings>,
    start: u64,
    earlier: &[Event],
    later: &[Event],
    number: u64,
    steps: &mut Steps<L>,
) -> Result<Edition, NoMemory>
    requires start { start < 2 ^ 40 }
    requires from_one { 1 ≤ number }
    requires legal { IsLegal (arc_value settings.now) (record { start = start; events = earlier.now ++ later.now }) }
{
    let mut engine = Engine::new(alloc, Arc::try_clone(settings)?, start)?;
    let told = told_with::<R, L>(&mut engine, earlier, number, steps)?;
    let Built { shown, .. } = told;
    engine.show(earlier.len() as u64, shown.into_vec());
    let told = told_with::<R, L>(&mut engine, later, number, steps)?;
    let Built { edition, .. } = told;
    Ok(edition)
}

// The cuts of the edition with this number and of the one before it.
fn cuts_of(events: &[Event], number: u64) -> Option<(usize, usize)> {
    let mut before = 0;
    for event in events {
        if let Event::Publish { number: own, cut } = event {
            let cut = *cut as usize;
            if *own == number {
                return Some((before, cut));
            }
            before = cut;
        }
    }
    None
}

// Whether an edition is that of the log at its own cut.
fn is_told<R: Threads + Sync, L: Ledger>(
    alloc: Global,
    settings: &Arc<Settings>,
    start: u64,
    events: &[Event],
    edition: &Edition,
    steps: &mut Steps<L>,
) -> Result<bool, NoMemory>
    requires start { start < 2 ^ 40 }
    requires legal { IsLegal (arc_value settings.now) (record { start = start; events = events.now }) }
{
    let Some((before, cut)) = cuts_of(events, edition.number) else {
        return Ok(false);
    };
    if edition.number == 0 || before > cut || cut > events.len() {
        return Ok(false);
    }
    let (shown, _) = events.split_at(cut);
    let (earlier, later) = shown.split_at(before);
    let told = told_afresh::<R, L>(
        alloc,
        settings,
        start,
        earlier,
        later,
        edition.number,
        steps,
    )?;
    Ok(
        told.cut == edition.cut
            && told.before == edition.before
            && told.time == edition.time
            && told.datagrams == edition.datagrams
            && told.certs == edition.certs,
    )
}

// Whether each of these editions is.
pub(super) fn are_told<R: Threads + Sync, L: Ledger>(
    alloc: Global,
    settings: &Arc<Settings>,
    start: u64,
    events: &[Event],
    editions: &[Arc<Edition>],
    steps: &mut Steps<L>,
) -> Result<bool, NoMemory>
    requires start { start < 2 ^ 40 }
    requires legal { IsLegal (arc_value settings.now) (record { start = start; events = events.now }) }
{
    for edition in editions {
        if !is_told::<R, L>(alloc, settings, start, events, edition, steps)? {
            return Ok(false);
        }
    }
    Ok(true)
}
