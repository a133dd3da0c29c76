// A load, from its words to what its places get.
ghost use Rattle.std.specs.Prelude.{◌≡◌, ◌≤◌, [], ◌∷◌, ℕ, List, None};
ghost use Rattle.io_traits.specs.declared.host.Place.{Place};
ghost use Rattle.io_traits.specs.Places.{HasFailed, NoneFailed};
ghost use Rattle.io_traits.specs.Touching.{Touches};
ghost use Rattle.pairing_load.specs.PriceFiles.{PrefixWritten};
ghost use Rattle.pairing_load.specs.Runs.{SolvingEnds, WritingEnds};
ghost use Rattle.pairing_load.specs.Words.{AreLoad, AreWordsOfPairings, AreWordsOfPrices, texts};
ghost use Rattle.pairing_load.specs.declared.words.PairingLoad.{PairingLoad};
ghost use Rattle.pairing_load.specs.declared.words.PriceLoad.{PriceLoad};

use crate::price_file::write_file;
use crate::problems::SIZE_LIMIT;
use crate::solving::{total_cost, total_line};
use crate::status::Status;
use crate::words::{PairingLoad, PriceLoad, pairings_of, prices_of};
use io_traits::{Failed, Host, Place, Way, write_all};
use std::alloc::Global;

// Solves the problems, and tells Screen the sum of their least costs.
fn run_pairings<H: Host>(alloc: Global, load: PairingLoad, host: &mut H) -> Status
    requires some { 1 ≤ load.size }
    requires few { load.size ≤ SIZE_LIMIT }
    ensures ends { SolvingEnds result load (H.state host.old) (H.state host.new) }
    ensures kept { result ≡ Status.Done → NoneFailed (H.state host.old) (H.state host.new) }
    ensures uses { Touches [] [] (Place.Screen ∷ []) (H.state host.old) (H.state host.new) }
{
    let Ok(total) = total_cost(alloc, load) else {
        return Status::Memory;
    };
    let Ok(line) = total_line(alloc, load.count, total) else {
        return Status::Memory;
    };
    match write_all(host, Place::Screen, line.as_bytes()) {
        Ok(()) => Status::Done,
        Err(Failed) => Status::Write(Place::Screen),
    }
}

// Makes the file of this name, and writes the certificates to it.
#[tactic(auto, using(crate::proofs::Filing::bound_written, crate::proofs::Filing::bound_only, crate::proofs::Filing::bound_none))]
fn run_prices<H: Host>(alloc: Global, load: PriceLoad, output: &str, host: &mut H) -> Status
    requires { (H.state host.old).bound Place.Output ≡ None }
    ensures ends { WritingEnds result load output.now (H.state host.old) (H.state host.new) }
    ensures prefix { PrefixWritten load.seed load.count (H.state host.old) (H.state host.new) }
    ensures kept { result ≡ Status.Done → NoneFailed (H.state host.old) (H.state host.new) }
    ensures uses { Touches (Place.Output ∷ []) [] (Place.Output ∷ []) (H.state host.old) (H.state host.new) }
{
    let Ok(name) = String::from_str(alloc, output) else {
        return Status::Memory;
    };
    let Ok(()) = host.bind(Place::Output, Way::Write, name) else {
        return Status::Write(Place::Output);
    };
    match write_file(alloc, load, host) {
        Ok(()) => Status::Done,
        Err(status) => status,
    }
}

/// Carries out the load that the words are, over places of which none is bound yet.
///
/// - `pairings COUNT SIZE random|equal SEED` solves so many assignment problems of so many plots and tracks with all
///   edges, and tells Screen the sum of their least costs.
/// - `prices COUNT SEED OUTPUT` writes a price file of so many certificates to Output.
///
/// `Usage` comes exactly for other words, `Write` where a place couldn't be opened or written, and `Memory` where
/// memory is wanting.
pub fn run_load<H: Host>(alloc: Global, words: &[String], host: &mut H) -> Status
    requires { (p : Place) → (H.state host.old).bound p ≡ None }

    // Usage comes exactly for other words, and then nothing was done.
    ensures usage { result ≡ Status.Usage → AreLoad (texts words.now) → ⊥ }
    ensures other { (AreLoad (texts words.now) → ⊥) → result ≡ Status.Usage }
    ensures usage_uses { result ≡ Status.Usage → H.state host.new ≡ H.state host.old }

    // Of a load of problems Screen alone is written: it got the line of the sum of the least costs, or a prefix of it where it failed.
    ensures pairings { (load : PairingLoad) → AreWordsOfPairings (texts words.now) load → SolvingEnds result load (H.state host.old) (H.state host.new) }
    ensures pairings_uses { (load : PairingLoad) → AreWordsOfPairings (texts words.now) load → Touches [] [] (Place.Screen ∷ []) (H.state host.old) (H.state host.new) }

    // Of a load of certificates Output alone is bound and written: it got exactly the price file, or a prefix of one where it stopped.
    ensures prices { (load : PriceLoad) (output : List ℕ) → AreWordsOfPrices (texts words.now) load output → WritingEnds result load output (H.state host.old) (H.state host.new) }
    ensures prefix { (load : PriceLoad) (output : List ℕ) → AreWordsOfPrices (texts words.now) load output → PrefixWritten load.seed load.count (H.state host.old) (H.state host.new) }
    ensures prices_uses { (load : PriceLoad) (output : List ℕ) → AreWordsOfPrices (texts words.now) load output → Touches (Place.Output ∷ []) [] (Place.Output ∷ []) (H.state host.old) (H.state host.new) }

    // A place is told only where it failed.
    ensures write { (place : Place) → result ≡ Status.Write place → HasFailed place (H.state host.old) (H.state host.new) }
    ensures kept { result ≡ Status.Done → NoneFailed (H.state host.old) (H.state host.new) }
{
    if let Some(load) = pairings_of(words) {
        return run_pairings(alloc, load, host);
    }
    match prices_of(words) {
        Some((load, output)) => run_prices(alloc, load, output, host),
        None => Status::Usage,
    }
}
