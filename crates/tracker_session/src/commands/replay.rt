// `replay`: the editions of an input under settings.
ghost use Rattle.std.specs.Prelude.{◌≡◌, ◌⊎◌, ◌<◌, ◌≤◌, ◌^◌, ◌∷◌, [], None, Ok, IfErr, IfOk, OnOk, string_bytes};
ghost use Rattle.std.specs.Arc.{arc_value};
ghost use Rattle.std.specs.List.{AllByRecursion};
ghost use Rattle.io_traits.specs.Host.{IsBoundFor};
ghost use Rattle.io_traits.specs.Touching.{Touches};
ghost use Rattle.io_traits.specs.declared.host.Place.{Place};
ghost use Rattle.io_traits.specs.declared.host.Way.{Way};
ghost use Rattle.recording.specs.Answers.{items_of};
ghost use Rattle.recording.specs.Items.{IsItem};
ghost use Rattle.recording.specs.declared.header.Header.{Header};
ghost use Rattle.session_script.specs.Scripts.{Follows, end_of};
ghost use Rattle.settings_text.specs.Answers.{IsSettingsAnswer};
ghost use Rattle.tracker_session.specs.Editions.{AreGiven, EditionBroke, EditionWritten};
ghost use Rattle.tracker_session.specs.Replay.{empty_log};
ghost use Rattle.tracker_session.specs.ReplayScript.{IsEndAt, StopsJudging, ending, input_script, items_script, octets_script, prices_script, replay_script};
ghost use Rattle.tracker_session.specs.Words.{IsWish};
ghost use Rattle.tracker_session.specs.Work.{IsSpentOnInput, IsSpentOnItems, IsSpentOnOctets, IsSpentOnReplay};

use crate::counts::{Counts, counts_line};
use crate::editions::{EditionOctets, Editions};
use crate::input::{read_octets, tells_biases};
use crate::taking::Run;
use admission_log::Settings;
use cluster_pool::Pool;
use io_traits::{Host, Place};
use price_form::start_prices;
use recording::Reading;
use session_script::{Status, open_file, read_file, write_file};
use settings_text::{SettingsError, read_settings};
use std::alloc::Global;
use std::sync::Arc;
use std::sync::ledger::Ledger;
use trk_base::{NoMemory, Steps};

/// Reads the settings and judges them, and then replays under them.
pub fn replay<H: Host, P: Pool, L: Ledger>(
    alloc: Global,
    settings: String,
    input: String,
    output: String,
    prices: String,
    host: &mut H,
    pool: &mut P,
    workers: u8,
    steps: &mut Steps<L>,
) -> Result<String, Status>
    requires unbound { (p : Place) → (H.state host.old).bound p ≡ None }
    requires workers { IsWish workers }
    ensures follows { Follows (replay_script (string_bytes settings) (string_bytes input) (string_bytes output) (string_bytes prices)) (end_of result) (H.state host.old) (H.state host.new) }
    ensures rises { steps.old ≤ steps.new }
    ensures spent { (steps.new ≡ steps.old) ⊎ IsSpentOnReplay (H.state host.old) (H.state host.new) steps.old steps.new }
{
    let document = read_file(alloc, Place::Settings, settings, host)?;
    let settings = settings_of(alloc, &document)?;
    replay_under(
        alloc, settings, input, output, prices, host, pool, workers, steps,
    )
}

// The settings of a document, or the status that tells its first fault.
fn settings_of(alloc: Global, document: &[u8]) -> Result<Arc<Settings>, Status>
    ensures ok { IfOk result (λ settings. IsSettingsAnswer document.now (Ok (arc_value settings))) }
    ensures stops { IfErr result (StopsJudging document.now) }
{
    match read_settings(alloc, document) {
        Ok(settings) => Ok(shared(alloc, settings)?),
        Err(SettingsError::Fault(fault)) => Err(Status::Settings(fault)),
        Err(SettingsError::NoMemory) => Err(Status::Memory),
    }
}

// The settings, to be shared with the engine.
fn shared(alloc: Global, settings: Settings) -> Result<Arc<Settings>, NoMemory>
    ensures { IfOk result (λ shared. arc_value shared ≡ settings) }
{
    Ok(Arc::new(alloc, settings)?)
}

// Reads Input, opens Output and Prices, and takes the items.
fn replay_under<H: Host, P: Pool, L: Ledger>(
    alloc: Global,
    settings: Arc<Settings>,
    input: String,
    output: String,
    prices: String,
    host: &mut H,
    pool: &mut P,
    workers: u8,
    steps: &mut Steps<L>,
) -> Result<String, Status>
    requires input { (H.state host.old).bound Place.Input ≡ None }
    requires output { (H.state host.old).bound Place.Output ≡ None }
    requires prices { (H.state host.old).bound Place.Prices ≡ None }
    requires workers { IsWish workers }
    ensures follows { Follows (input_script (string_bytes input) (string_bytes output) (string_bytes prices) (arc_value settings)) (end_of result) (H.state host.old) (H.state host.new) }
    ensures touches { Touches (Place.Input ∷ Place.Output ∷ Place.Prices ∷ []) (Place.Input ∷ []) (Place.Output ∷ Place.Prices ∷ []) (H.state host.old) (H.state host.new) }
    ensures rises { steps.old ≤ steps.new }
    ensures spent { (steps.new ≡ steps.old) ⊎ IsSpentOnInput (arc_value settings) (H.state host.old) (H.state host.new) steps.old steps.new }
{
    let octets = read_file(alloc, Place::Input, input, host)?;
    open_file(Place::Output, output, host)?;
    open_file(Place::Prices, prices, host)?;
    begin_prices(alloc, settings, &octets, host, pool, workers, steps)
}

// Begins the price file, and replays the octets.
fn begin_prices<H: Host, P: Pool, L: Ledger>(
    alloc: Global,
    settings: Arc<Settings>,
    octets: &[u8],
    host: &mut H,
    pool: &mut P,
    workers: u8,
    steps: &mut Steps<L>,
) -> Result<String, Status>
    requires output { IsBoundFor Way.Write (H.state host.old) Place.Output }
    requires prices { IsBoundFor Way.Write (H.state host.old) Place.Prices }
    requires workers { IsWish workers }
    ensures follows { Follows (prices_script (arc_value settings) octets.now) (end_of result) (H.state host.old) (H.state host.new) }
    ensures touches { Touches [] [] (Place.Output ∷ Place.Prices ∷ []) (H.state host.old) (H.state host.new) }
    ensures rises { steps.old ≤ steps.new }
    ensures spent { IsSpentOnOctets (arc_value settings) octets.now steps.old steps.new }
{
    write_file(Place::Prices, &start_prices(), host)?;
    replay_octets(alloc, settings, octets, host, pool, workers, steps)
}

// Reads the octets as items, and takes them.
fn replay_octets<H: Host, P: Pool, L: Ledger>(
    alloc: Global,
    settings: Arc<Settings>,
    octets: &[u8],
    host: &mut H,
    pool: &mut P,
    workers: u8,
    steps: &mut Steps<L>,
) -> Result<String, Status>
    requires output { IsBoundFor Way.Write (H.state host.old) Place.Output }
    requires prices { IsBoundFor Way.Write (H.state host.old) Place.Prices }
    requires workers { IsWish workers }
    ensures follows { Follows (octets_script (arc_value settings) octets.now) (end_of result) (H.state host.old) (H.state host.new) }
    ensures touches { Touches [] [] (Place.Output ∷ Place.Prices ∷ []) (H.state host.old) (H.state host.new) }
    ensures rises { steps.old ≤ steps.new }
    ensures spent { IsSpentOnOctets (arc_value settings) octets.now steps.old steps.new }
{
    let reading = read_octets(alloc, octets)?;
    let editions = Editions::new(alloc, settings.clone()?, reading.start)?;
    let tells_biases = tells_biases(octets);
    take_items(
        alloc,
        &settings,
        tells_biases,
        &reading,
        editions,
        host,
        pool,
        workers,
        steps,
    )
}

// Takes the items, and writes each edition that one gives, to Output and to Prices.
fn take_items<H: Host, P: Pool, L: Ledger>(
    alloc: Global,
    settings: &Settings,
    tells_biases: bool,
    reading: &Reading<'_>,
    editions: Editions,
    host: &mut H,
    pool: &mut P,
    workers: u8,
    steps: &mut Steps<L>,
) -> Result<String, Status>
    requires start { reading.now.start < 2 ^ 40 }
    requires fits { AllByRecursion (IsItem Header.Second) (items_of reading.now.items.items) }
    requires given { AreGiven settings.now (empty_log reading.now.start) editions }
    requires output { IsBoundFor Way.Write (H.state host.old) Place.Output }
    requires prices { IsBoundFor Way.Write (H.state host.old) Place.Prices }
    requires workers { IsWish workers }
    ensures follows { Follows (items_script settings.now (ending tells_biases reading.now.fault (items_of reading.now.items.items)) (empty_log reading.now.start) (items_of reading.now.items.items)) (end_of result) (H.state host.old) (H.state host.new) }
    ensures touches { Touches [] [] (Place.Output ∷ Place.Prices ∷ []) (H.state host.old) (H.state host.new) }
    ensures rises { steps.old ≤ steps.new }
    ensures spent { IsSpentOnItems settings.now reading.now.start (items_of reading.now.items.items) steps.old steps.new }
{
    let mut run = Run::new(alloc, reading.start, tells_biases);
    let mut editions = editions;
    for item in &reading.items {
        if run.take(alloc, settings, *item)? {
            let octets = editions.next(alloc, run.newest(), pool, workers, steps)?;
            write_edition(&octets, host)?;
            run.forget();
        }
    }
    end_at(alloc, reading.fault, &run.counts)
}

// Writes an edition to Output, and its prices to Prices.
fn write_edition<H: Host>(octets: &EditionOctets, host: &mut H) -> Result<(), Status>
    requires output { IsBoundFor Way.Write (H.state host.old) Place.Output }
    requires prices { IsBoundFor Way.Write (H.state host.old) Place.Prices }
    ensures written { OnOk result (EditionWritten octets.now.output.items octets.now.prices.items (H.state host.old) (H.state host.new)) }
    ensures broke { IfErr result (λ s. EditionBroke octets.now.output.items octets.now.prices.items s (H.state host.old) (H.state host.new)) }
    ensures touches { Touches [] [] (Place.Output ∷ Place.Prices ∷ []) (H.state host.old) (H.state host.new) }
{
    write_file(Place::Output, &octets.output, host)?;
    write_file(Place::Prices, &octets.prices, host)
}

// The line of the counts, or the first fault.
fn end_at(alloc: Global, fault: Option<usize>, counts: &Counts) -> Result<String, Status>
    ensures { IsEndAt fault counts.now (end_of result) }
{
    match fault {
        Some(offset) => Err(Status::Input { offset }),
        None => Ok(counts_line(alloc, counts)?),
    }
}
