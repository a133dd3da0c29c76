// The commands, a module each.
ghost use Rattle.std.specs.Prelude.{◌≡◌, ◌≤◌, None};
ghost use Rattle.io_traits.specs.declared.host.Place.{Place};
ghost use Rattle.session_script.specs.Scripts.{Follows, end_of};
ghost use Rattle.tracker_session.specs.Commands.{script_of};
ghost use Rattle.tracker_session.specs.Words.{IsWish, line_for, workers_of};
ghost use Rattle.tracker_session.specs.Work.{IsSpent};

mod check;
mod exercise;
mod replay;
mod scene;

use crate::words::Command;
use cluster_pool::Pool;
use io_traits::{Host, Place};
use session_script::Status;
use std::alloc::Global;
use std::sync::ledger::Ledger;
use std::thread::Threads;
use trk_base::Steps;

/// Carries out a command: its script is followed, and what Screen is to get is answered.
pub fn run_command<R: Threads + Sync, H: Host, P: Pool, L: Ledger>(
    rt: &R,
    alloc: Global,
    command: Command,
    host: &mut H,
    pool: &mut P,
    steps: &mut Steps<L>,
) -> Result<String, Status>
    requires unbound { (p : Place) → (H.state host.old).bound p ≡ None }
    requires workers { IsWish (workers_of command) }
    ensures follows { Follows (script_of (line_for command)) (end_of result) (H.state host.old) (H.state host.new) }
    ensures rises { steps.old ≤ steps.new }
    ensures spent { IsSpent (line_for command) (H.state host.old) (H.state host.new) steps.old steps.new }
{
    match command {
        Command::Replay {
            settings,
            input,
            output,
            prices,
            workers,
        } => replay::replay(
            alloc, settings, input, output, prices, host, pool, workers, steps,
        ),
        Command::Check { prices } => check::check(rt, alloc, prices, host),
        Command::Scene {
            seed,
            aircraft,
            seconds,
            late,
            output,
        } => scene::scene(alloc, seed, aircraft, seconds, late, output, host),
        Command::Exercise {
            seed,
            aircraft,
            seconds,
            late,
            workers,
        } => Ok(exercise::exercise(alloc, seed, aircraft, seconds, late, pool, workers, steps)?),
    }
}
