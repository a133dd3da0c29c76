// A span run in parts.
ghost use Rattle.std.specs.Prelude.{◌≡◌, ◌<◌, ◌≤◌, ◌+◌, ◌*◌, length, IfOk};
ghost use Rattle.late_window.specs.Folding.{Rises, BeforeFirst, slots, states, AreOutsOf};
ghost use Rattle.span_clusters.specs.Interleavings.{EachPair};
ghost use Rattle.span_clusters.specs.Parts.{DontCross, IsSplitting};

use crate::Pool;
use crate::joining::{join_all, run_again};
use crate::walking::merged_runs;
use span_clusters::{Done, Separable, crossings, partition};
use std::alloc::Global;
use std::sync::ledger::Ledger;
use trk_base::{NoMemory, Steps};

/// The state and the out after each filled slot of the items, as the run of the whole gives them:
/// from one to `wish` parts are run by the pool, and those that cross are joined and run again. With
/// a wish of 1 all is one part.
///
/// The counter rises by the slots of each part that was run, which together are at most those of the
/// whole for each of up to `wish` parts at first, and for each join of two: 31 times with 16 parts.
/// That holds whatever is answered, which is either the run or, where memory is wanting, `NoMemory`.
pub fn run_in_parts<F: Separable + Send, P: Pool, L: Ledger>(
    alloc: Global,
    pool: &mut P,
    state: &F::State,
    items: &[F::Item],
    wish: u8,
    steps: &mut Steps<L>,
) -> Result<(Vec<F::State>, Vec<F::Out>), NoMemory>
where
    F::State: Send,
    F::Item: Send,
    F::Out: Send,
    requires least { 1 ≤ wish }
    requires most { wish ≤ 16 }
    requires rising { Rises F.Item.cmp F.key_of items.now }
    requires before { BeforeFirst F.is_before F.slot_of state.now items.now }
    ensures states { IfOk result (λ r. r.0.items ≡ states F.next F.slot_of state.now items.now) }
    ensures outs { IfOk result (λ r. AreOutsOf F.next F.slot_of F.is_out state.now items.now r.1.items) }
    ensures rises { steps.old ≤ steps.new }
    ensures bound { steps.new ≤ steps.old + 31 * length (slots F.slot_of items.now) }
    ensures wished { steps.new + length (slots F.slot_of items.now) ≤ steps.old + 2 * wish * length (slots F.slot_of items.now) }
{
    if items.is_empty() {
        return Ok((Vec::new(alloc), Vec::new(alloc)));
    }
    let done = run_apart::<F, P, L>(alloc, pool, state, items, wish, steps)?;
    merged_runs::<F>(alloc, items, done)
}

// The runs of parts of which no two cross.
fn run_apart<F: Separable + Send, P: Pool, L: Ledger>(
    alloc: Global,
    pool: &mut P,
    state: &F::State,
    items: &[F::Item],
    wish: u8,
    steps: &mut Steps<L>,
) -> Result<Vec<Done<F>>, NoMemory>
where
    F::State: Send,
    F::Item: Send,
    F::Out: Send,
    requires least { 1 ≤ wish }
    requires most { wish ≤ 16 }
    requires some { 0 < length items.now }
    requires rising { Rises F.Item.cmp F.key_of items.now }
    requires before { BeforeFirst F.is_before F.slot_of state.now items.now }
    ensures splitting { IfOk result (λ done. IsSplitting F.slot_of F.is_before F.is_beside F.merged state.now items.now done.items) }
    ensures clear { IfOk result (λ done. EachPair (DontCross F.next F.slot_of F.gates) done.items) }
    ensures rises { steps.old ≤ steps.new }
    ensures wished { steps.new + length (slots F.slot_of items.now) ≤ steps.old + 2 * wish * length (slots F.slot_of items.now) }
{
    let jobs = partition::<F, L>(alloc, state, items, wish, steps)?;
    let mut done = pool.run(alloc, jobs)?;
    'joins: loop {
        let pairs = crossings(alloc, &done)?;
        if pairs.is_empty() {
            return Ok(done);
        }
        let (made, left) = join_all(alloc, done, &pairs, steps)?;
        let next = run_again(alloc, pool, made, left)?;
        done = next;
    }
}
