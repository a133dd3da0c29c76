// Parts that cross, joined two at a time.
ghost use Rattle.std.specs.Prelude.{◌≡◌, ◌≢◌, ◌⊎◌, ◌<◌, ◌≤◌, ◌+◌, ◌*◌, ℕ, List, ◌++◌, length, slice_index_or, Contains, MatchOption, IfOk, OnOk, OnErr};
ghost use Rattle.std.specs.Option.{option_to_list};
ghost use Rattle.late_window.specs.Folding.{Rises, slots};
ghost use Rattle.span_clusters.specs.Parts.{Part, IsSplitting};
ghost use Rattle.span_clusters.specs.Jobs.{AreParts};
ghost use Rattle.cluster_pool.specs.Joins.{LackNumber, HaveNumbers, AreTaken, AreNumbers, AreOne, ComesFrom};

use crate::Pool;
use late_window::Fold;
use span_clusters::{Done, Job, Separable, join_parts};
use std::alloc::Global;
use std::sync::ledger::Ledger;
use trk_base::{NoMemory, Steps};

// The place of the part with the number.
fn place_of<F: Fold>(done: &[Done<F>], number: u8) -> Option<usize>
    ensures { MatchOption result (LackNumber number done.now) (λ i. (i < length done.now) × ((d : _) → (slice_index_or done.now i d).number ≡ number)) }
{
    for place in 0..done.len() {
        if done[place].number() == number {
            return Some(place);
        }
    }
    None
}

// Takes the parts of two numbers out, where both are there.
fn take_both<F: Fold>(done: &mut Vec<Done<F>>, pair: (u8, u8)) -> Option<(Done<F>, Done<F>)>
    requires { pair.0 ≢ pair.1 }
    ensures { MatchOption result ((done.new.items ≡ done.old.items) × (LackNumber pair.0 done.old.items ⊎ LackNumber pair.1 done.old.items)) (λ both. AreTaken both.0 both.1 done.old.items done.new.items × HaveNumbers pair.0 pair.1 both.0 both.1) }
{
    let first = place_of(done, pair.0)?;
    let second = place_of(done, pair.1)?;
    let later = done.remove(first.max(second));
    let earlier = done.remove(first.min(second));
    Some((later, earlier))
}

// Joins the parts of two numbers, where both are there.
fn join_pair<F: Separable, L: Ledger>(
    alloc: Global,
    done: &mut Vec<Done<F>>,
    pair: (u8, u8),
    steps: &mut Steps<L>,
) -> Result<Option<Job<F>>, NoMemory>
    requires differ { pair.0 ≢ pair.1 }
    requires parts { AreParts F.slot_of F.key_of F.is_before F.is_beside done.old.items }
    ensures none { IfOk result (λ job. MatchOption job ((done.new.items ≡ done.old.items) × (steps.new ≡ steps.old) × (LackNumber pair.0 done.old.items ⊎ LackNumber pair.1 done.old.items))
        (λ made. (p q : Part F.State F.Item) × AreTaken p q done.old.items done.new.items × AreOne F.Item.cmp F.key_of F.merged p q made × (steps.new ≡ steps.old + length (slots F.slot_of made.items)) × HaveNumbers pair.0 pair.1 p q)) }
    ensures err { OnErr result (steps.new ≡ steps.old) }
{
    match take_both(done, pair) {
        Some((one, other)) => {
            let job = join_parts(alloc, one, other, steps)?;
            Ok(Some(job))
        }
        None => Ok(None),
    }
}

// The pair at a place.
fn pair_at(pairs: &[(u8, u8)], place: usize) -> (u8, u8)
    requires { place < length pairs.now }
    ensures { result ≡ slice_index_or pairs.now place result }
{
    pairs[place]
}

// One more job before the others, if there is one.
fn put_first<F: Fold>(jobs: &mut Vec<Job<F>>, job: Option<Job<F>>) -> Result<(), NoMemory>
    ensures { OnOk result (jobs.new.items ≡ option_to_list job ++ jobs.old.items) }
{
    if let Some(job) = job {
        jobs.insert(0, job)?;
    }
    Ok(())
}

/// Joins the two parts of each pair, where neither was joined in an earlier pair: gives the jobs
/// that were made, and the parts that are left as they are.
pub(crate) fn join_all<F: Separable, L: Ledger>(
    alloc: Global,
    mut done: Vec<Done<F>>,
    pairs: &[(u8, u8)],
    steps: &mut Steps<L>,
) -> Result<(Vec<Job<F>>, Vec<Done<F>>), NoMemory>
    requires some { 0 < length pairs.now }
    requires there { (a b : ℕ) → Contains pairs.now (a, b) → AreNumbers a b done.items }
    requires parts { AreParts F.slot_of F.key_of F.is_before F.is_beside done.items }
    ensures joined { IfOk result (λ r. ComesFrom F.slot_of F.Item.cmp F.key_of F.is_before F.is_beside F.merged done.items (r.0.items ++ r.1.items) steps.old steps.new) }
    ensures fewer { IfOk result (λ r. length r.0.items + length r.1.items < length done.items) }
    ensures rises { steps.old ≤ steps.new }
    ensures bound { (s : F.State) (zs : List F.Item) → Rises F.Item.cmp F.key_of zs → IsSplitting F.slot_of F.is_before F.is_beside F.merged s zs done.items
        → steps.new + length (slots F.slot_of zs) ≤ steps.old + length (slots F.slot_of zs) * length done.items }
{
    let mut jobs = Vec::new(alloc);
    for place in 0..pairs.len() {
        let pair = pair_at(pairs, place);
        let job = join_pair(alloc, &mut done, pair, steps)?;
        put_first(&mut jobs, job)?;
    }
    Ok((jobs, done))
}

/// Runs the jobs: their dones, and then those that are left.
pub(crate) fn run_again<F: Separable + Send, P: Pool>(
    alloc: Global,
    pool: &mut P,
    jobs: Vec<Job<F>>,
    mut left: Vec<Done<F>>,
) -> Result<Vec<Done<F>>, NoMemory>
where
    F::State: Send,
    F::Item: Send,
    F::Out: Send,
    ensures { IfOk result (λ done. done.items ≡ jobs.items ++ left.items) }
{
    let mut done = pool.run(alloc, jobs)?;
    done.append(&mut left)?;
    Ok(done)
}
