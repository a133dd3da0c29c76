// The top call: the words are a command, the command is carried out, and Screen is told how it ended.
ghost use Rattle.std.specs.Prelude.{◌≡◌, ◌≢◌, ◌≤◌, None};
ghost use Rattle.io_traits.specs.Places.{HasFailed};
ghost use Rattle.io_traits.specs.declared.host.Place.{Place};
ghost use Rattle.session_script.specs.Ends.{ComesTo, Ended, IsForetold, MayHold};
ghost use Rattle.session_script.specs.Scripts.{Follows, end_of};
ghost use Rattle.session_script.specs.declared.status.Status.{Status};
ghost use Rattle.tracker_session.specs.Commands.{CommandGives, script_of};
ghost use Rattle.tracker_session.specs.Words.{line_of, other, texts};
ghost use Rattle.tracker_session.specs.Work.{IsSpent};

use crate::commands::run_command;
use crate::words::{WordsError, parse_words};
use cluster_pool::Pool;
use io_traits::{Host, Place};
use session_script::{Status, tell};
use std::alloc::Global;
use std::sync::ledger::Ledger;
use std::thread::Threads;
use trk_base::Steps;

// Follows the script of the words.
fn run_words<R: Threads + Sync, H: Host, P: Pool, L: Ledger>(
    rt: &R,
    alloc: Global,
    words: &[String],
    host: &mut H,
    pool: &mut P,
    steps: &mut Steps<L>,
) -> Result<String, Status>
    requires { (p : Place) → (H.state host.old).bound p ≡ None }
    ensures follows { Follows (script_of (line_of (texts words.now))) (end_of result) (H.state host.old) (H.state host.new) }
    ensures rises { steps.old ≤ steps.new }
    ensures spent { IsSpent (line_of (texts words.now)) (H.state host.old) (H.state host.new) steps.old steps.new }
{
    match parse_words(alloc, words) {
        Ok(command) => run_command(rt, alloc, command, host, pool, steps),
        Err(WordsError::Usage) => Err(Status::Usage),
        Err(WordsError::NoMemory) => Err(Status::Memory),
    }
}

/// Carries out the command that the words are, over places of which none is bound yet. Threads may be
/// started; none outlives the call, and none is waited for but those.
///
/// `replay SETTINGS INPUT OUTPUT PRICES [--workers=N]` reads the settings, and then what Input is bound to, a
/// recording or data blocks alone. Each datagram is admitted to one log, and each change of biases put
/// into it. Each tick above the last one writes an edition of the log: to Output its datagrams, and then
/// to Prices its record and its certificates. Prices begins with four octets of its own. A malformed
/// datagram, an old tick and a change of biases that isn't open are passed over and counted.
///
/// `check PRICES` reads a price file, judges the grammar of all of it, and then its certificates, many at
/// a time.
///
/// `scene SEED AIRCRAFT SECONDS LATE OUTPUT` draws the recording of a scene, and writes it to Output.
///
/// `exercise SEED AIRCRAFT SECONDS LATE [--workers=N]` replays the recording of a scene under the settings of a scene, in
/// memory, and keeps nothing but counts. It touches no place but Screen.
///
/// Of these two the pool may run N parts of the tracks beside each other, or one without that word. What
/// comes of the command doesn't hang on the pool, nor on N. The counter rises with the steps that the
/// tracks take: none without a good settings document and an input that was read.
///
/// - `Usage` comes exactly for other words.
/// - `Settings` comes in `replay` exactly where Settings was read, and tells its first fault.
/// - `Read` comes where Settings, Input or Prices couldn't be opened or read, `Write` where Output or, in
///   `replay`, Prices couldn't be opened or written or Screen couldn't be written, and `Memory` where
///   memory is wanting.
/// - `Input` comes at the first fault of the input, or of the price file, which may have 1,073,741,824
///   octets at most.
/// - `NotProved` comes in `check` at the first certificate that doesn't prove.
/// - `Done` comes else.
///
/// Screen gets the command's line where all was done (of `exercise` two), and else the text of the status; a text that
/// can't be written leaves the status.
pub fn run_batch<R: Threads + Sync, H: Host, P: Pool, L: Ledger>(
    rt: &R,
    alloc: Global,
    words: &[String],
    host: &mut H,
    pool: &mut P,
    steps: &mut Steps<L>,
) -> Status
    requires { (p : Place) → (H.state host.old).bound p ≡ None }

    // Usage comes only for words of no command; that it comes for those, `outcome` says.
    ensures usage { result ≡ Status.Usage → line_of (texts words.now) ≡ other }

    // The steps of the command were done in their order, each behind all before it, and then Screen was told.
    ensures came { Ended (script_of (line_of (texts words.now))) result (H.state host.old) (H.state host.new) }

    // The places held something of which the command gives this, by its definition: these places were bound, each file got
    // exactly that, and the status and Screen say the end; or it broke off, where memory is wanting or a file failed.
    ensures outcome { ComesTo (CommandGives (line_of (texts words.now)) (MayHold (H.state host.old))) result (H.state host.old) (H.state host.new) }

    // Where no file failed and memory isn't wanting, the status is that of the command's end, also where Screen fails.
    ensures complete { ((p : Place) → p ≢ Place.Screen → HasFailed p (H.state host.old) (H.state host.new) → ⊥) → result ≢ Status.Memory → IsForetold (CommandGives (line_of (texts words.now)) (MayHold (H.state host.old))) result }

    // The counter only rises.
    ensures rises { steps.old ≤ steps.new }

    // It rises, whatever the status, by at most 31 for each slot that an edition of the log takes up anew; in `replay` not
    // at all where settings or input weren't read, or the settings have a fault, and in `check` and `scene` never.
    ensures spent { IsSpent (line_of (texts words.now)) (H.state host.old) (H.state host.new) steps.old steps.new }
{
    let end = run_words(rt, alloc, words, host, pool, steps);
    tell(alloc, end, host)
}
