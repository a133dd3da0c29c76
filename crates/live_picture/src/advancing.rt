// An engine is brought up to the last event that it has taken in, and tells the edition there.
ghost use Rattle.std.specs.Prelude.{◌≤◌, ℕ, IfOk};
ghost use Rattle.admission_log.specs.declared.settings.Settings.{Settings};
ghost use Rattle.admission_log.specs.Histories.{History};
ghost use Rattle.live_picture.specs.Rounds.{Stands, IsStanding, Tells};

use cluster_pool::Pool;
use edition_form::Built;
use std::sync::ledger::Ledger;
use tracker_engine::Engine;
use trk_base::{NoMemory, Steps};

/// Settles, and tells the edition of all events that were taken in. It isn't shown yet. Whatever it
/// answers, the engine stands for these events.
pub fn advance<P: Pool, L: Ledger>(
    engine: &mut Engine,
    number: u64,
    pool: &mut P,
    wish: u8,
    steps: &mut Steps<L>,
) -> Result<Built, NoMemory>
    requires least { 1 ≤ wish }
    requires most { wish ≤ 16 }
    requires from_one { 1 ≤ number }
    requires standing { IsStanding engine.old }
    ensures stands { (settings : Settings) (log : History) (before : ℕ) → Stands settings log before engine.old → Stands settings log before engine.new }
    ensures tells { (settings : Settings) (log : History) (before : ℕ) → Stands settings log before engine.old → IfOk result (λ b. Tells settings log before number engine.new b) }
{
    engine.settle(pool, wish, steps)?;
    engine.edition(number)
}
