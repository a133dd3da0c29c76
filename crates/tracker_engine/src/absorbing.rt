// What an engine takes of events.
ghost use Rattle.std.specs.Prelude.{◌≡◌, ◌+◌, ◌<◌, ◌^◌, ◌++◌, length, fold, IfOk};
ghost use Rattle.std.specs.List.{flat_map, enumerate_from};
ghost use Rattle.admission_log.specs.Entries.{entries_in};
ghost use Rattle.tracker_engine.specs.Hearing.{heard, noted, tick_after, services_after};

use admission_log::{Entry, Event, Outcome};
use std::alloc::Global;
use trk_base::NoMemory;

/// The entries of events, of which the first has this index in the log.
pub fn entries_of(alloc: Global, index: u64, events: &[Event]) -> Result<Vec<Entry>, NoMemory>
    requires { index + length events.now < 2 ^ 64 }
    ensures { IfOk result (λ v. v.items ≡ flat_map (λ at. entries_in at.0 at.1) (enumerate_from index events.now)) }
{
    let mut entries = Vec::new(alloc);
    let mut place = index;
    for event in events {
        event.append_entries(place, &mut entries)?;
        place += 1;
    }
    Ok(entries)
}

/// Takes the ticks and the service messages of events.
pub fn note_all(last: &mut u64, services: &mut [Option<u64>], events: &[Event])
    ensures { (last.new, services.new) ≡ fold noted (last.old, services.old) events.now }
{
    for event in events {
        note(last, services, event);
    }
}

// .. of one event.
fn note(last: &mut u64, services: &mut [Option<u64>], event: &Event)
    ensures last { last.new ≡ tick_after last.old event.now }
    ensures services { services.new ≡ services_after last.old services.old event.now }
{
    match event {
        Event::Tick(time) => *last = (*last).max(*time),
        Event::Deliver { outcomes, .. } => hear_all(*last, services, outcomes.as_slice()),
        Event::Publish { .. } | Event::Bias { .. } => {}
    }
}

// Of each radar the last tick at its newest service message, if these messages came at that last
// tick.
fn hear_all(last: u64, services: &mut [Option<u64>], outcomes: &[Outcome])
    ensures { services.new ≡ fold (heard last) services.old outcomes.now }
{
    for outcome in outcomes {
        hear(last, services, outcome);
    }
}

// .. if this message came then.
fn hear(last: u64, services: &mut [Option<u64>], outcome: &Outcome)
    ensures { services.new ≡ heard last services.old outcome.now }
{
    if let Outcome::Service(Some(radar)) = outcome {
        let index = usize::from(*radar);
        if index < services.len() {
            services[index] = Some(last);
        }
    }
}
