// The walk over the slots of a run.
ghost use Rattle.std.specs.Prelude.{◌≡◌, ◌≤◌, take, drop};
ghost use Rattle.std.specs.List.{AllByRecursion};
ghost use Rattle.late_window.specs.Folding.{Rises, group_count, states};
ghost use Rattle.span_clusters.specs.Runs.{IsLeftOf};

use late_window::{Fold, group_len};

// The items at the beginning that are of this slot, and those after them.
pub(crate) fn split_group<F: Fold>(items: &[F::Item], slot: u64) -> (&[F::Item], &[F::Item])
    ensures group { result.0.now ≡ take (group_count F.slot_of slot items.now) items.now }
    ensures others { result.1.now ≡ drop (group_count F.slot_of slot items.now) items.now }
{
    items.split_at(group_len::<F>(items, slot))
}

// What is left of a run from a slot on: the state before it, the items and the states from it on.
pub(crate) fn run_from<'a, F: Fold>(
    start: &'a F::State,
    items: &'a [F::Item],
    run: &'a [F::State],
    slot: u64,
) -> (&'a F::State, &'a [F::Item], &'a [F::State])
    requires rising { Rises F.Item.cmp F.key_of items.now }
    requires folded { run.now ≡ states F.next F.slot_of start.now items.now }
    ensures left { IsLeftOf F.next F.slot_of F.Item.cmp F.key_of start.now items.now slot result.0.now result.1.now result.2.now }
    ensures above { AllByRecursion (λ x. slot ≤ F.slot_of x) result.1.now }
{
    let mut state = start;
    let mut rest = items;
    let mut left = run;
    while !rest.is_empty() {
        let first = F::slot(&rest[0]);
        if slot <= first {
            return (state, rest, left);
        }
        state = &left[0];
        left = left.split_at(1).1;
        rest = split_group::<F>(rest, first).1;
    }
    (state, rest, left)
}
