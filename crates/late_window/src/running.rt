// The fold of a span of items, slot by slot.
ghost use Rattle.std.specs.Prelude.{◌≡◌, ◌≤◌, ◌<◌, ◌+◌, length, take, drop, IfOk};
ghost use Rattle.late_window.specs.Folding.{Rises, BeforeFirst, group_count, slots, states, AreOutsOf, latest, below, from};

use crate::Fold;
use std::alloc::Global;
use trk_base::{NoMemory, Ticket};

/// The number of items at the beginning that are of a slot.
pub fn group_len<F: Fold>(items: &[F::Item], slot: u64) -> usize
    ensures { result ≡ group_count F.slot_of slot items.now }
{
    let mut count = 0;
    for item in items {
        if F::slot(item) != slot {
            return count;
        }
        count += 1;
    }
    count
}

// The number of items below a slot, where the items rise.
pub(crate) fn len_below<F: Fold>(items: &[F::Item], slot: u64) -> usize
    requires rising { Rises F.Item.cmp F.key_of items.now }
    ensures within { result ≤ length items.now }
    ensures below { take result items.now ≡ below F.slot_of slot items.now }
    ensures rest { drop result items.now ≡ from F.slot_of slot items.now }
{
    items.partition_point(|item| F::slot(item) < slot)
}

/// The last of the states after a start, or the start itself.
pub fn latest_of<'a, S>(start: &'a S, states: &'a [S]) -> &'a S
    ensures { result.now ≡ latest start.now states.now }
{
    states.last().unwrap_or(start)
}

/// The number of filled slots of items that rise.
pub fn count_slots<F: Fold>(items: &[F::Item]) -> usize
    requires rising { Rises F.Item.cmp F.key_of items.now }
    ensures { result ≡ length (slots F.slot_of items.now) }
{
    let mut count = 0;
    let mut rest = items;
    while !rest.is_empty() {
        let slot = F::slot(&rest[0]);
        let (_, after) = rest.split_at(group_len::<F>(rest, slot));
        count += 1;
        rest = after;
    }
    count
}

/// The state and the out after each filled slot. No state is copied: each step reads the one before
/// it where that stands.
pub fn run_slots<F: Fold>(
    alloc: Global,
    start: &F::State,
    items: &[F::Item],
    ticket: &mut Ticket,
) -> Result<(Vec<F::State>, Vec<F::Out>), NoMemory>
    requires before { BeforeFirst F.is_before F.slot_of start.now items.now }
    requires rising { Rises F.Item.cmp F.key_of items.now }
    requires paid { length (slots F.slot_of items.now) ≤ ticket.old }
    ensures states { IfOk result (λ r. r.0.items ≡ states F.next F.slot_of start.now items.now) }
    ensures outs { IfOk result (λ r. AreOutsOf F.next F.slot_of F.is_out start.now items.now r.1.items) }
{
    let mut states: Vec<F::State> = Vec::new(alloc);
    let mut outs: Vec<F::Out> = Vec::new(alloc);
    let mut rest = items;
    while !rest.is_empty() {
        let slot = F::slot(&rest[0]);
        let (group, after) = rest.split_at(group_len::<F>(rest, slot));
        let (next, out) = F::step(alloc, latest_of(start, &states), slot, group, ticket)?;
        states.push(next)?;
        outs.push(out)?;
        rest = after;
    }
    Ok((states, outs))
}
