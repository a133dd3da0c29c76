// Two parts that cross, as one.
ghost use Rattle.std.specs.Prelude.{◌≡◌, ◌≢◌, ◌+◌, length, IfOk, OnErr, min};
ghost use Rattle.std.specs.List.{AllByRecursion};
ghost use Rattle.late_window.specs.Folding.{Rises, slots};
ghost use Rattle.span_clusters.specs.Interleavings.{Interleaved, KeysDiffer};

use crate::jobs::charged;
use crate::{Done, Job, Separable};
use late_window::Fold;
use std::alloc::Global;
use std::sync::ledger::Ledger;
use trk_base::{NoMemory, Steps};

// The items of both, in rising order.
pub(crate) fn merged_items<F: Fold>(
    alloc: Global,
    one: &[F::Item],
    other: &[F::Item],
) -> Result<Vec<F::Item>, NoMemory>
    requires one_rises { Rises F.Item.cmp F.key_of one.now }
    requires other_rises { Rises F.Item.cmp F.key_of other.now }
    requires differ { KeysDiffer F.key_of one.now other.now }
    ensures both { IfOk result (λ items. Interleaved one.now other.now items.items) }
    ensures rising { IfOk result (λ items. Rises F.Item.cmp F.key_of items.items) }
{
    let mut items = Vec::with_capacity(alloc, one.len())?;
    let mut left = one;
    let mut right = other;
    while !left.is_empty() && !right.is_empty() {
        if left[0] < right[0] {
            items.push(left[0])?;
            left = left.split_at(1).1;
        } else {
            items.push(right[0])?;
            right = right.split_at(1).1;
        }
    }
    items.extend_from_slice(left)?;
    items.extend_from_slice(right)?;
    Ok(items)
}

/// Two parts as one job, to be run again: it has the lower of their numbers, the members of both
/// and the items of both. The counter rises by the slots that these fill; where memory is
/// wanting it stays.
pub fn join_parts<F: Separable, L: Ledger>(
    alloc: Global,
    one: Done<F>,
    other: Done<F>,
    steps: &mut Steps<L>,
) -> Result<Job<F>, NoMemory>
    requires numbers { one.number ≢ other.number }
    requires beside { F.is_beside one.start other.start }
    requires keys { KeysDiffer F.key_of one.items other.items }
    requires one_before { AllByRecursion (λ x. F.is_before one.start (F.slot_of x)) other.items }
    requires other_before { AllByRecursion (λ x. F.is_before other.start (F.slot_of x)) one.items }
    ensures number { IfOk result (λ job. job.number ≡ min one.number other.number) }
    ensures start { IfOk result (λ job. job.start ≡ F.merged one.start other.start) }
    ensures items { IfOk result (λ job. Interleaved one.items other.items job.items) }
    ensures steps { IfOk result (λ job. steps.new ≡ steps.old + length (slots F.slot_of job.items)) }
    ensures err { OnErr result (steps.new ≡ steps.old) }
{
    let items = merged_items::<F>(alloc, &one.items, &other.items)?;
    let start = F::merge(alloc, &one.start, &other.start)?;
    Ok(charged(one.number.min(other.number), start, items, steps))
}
