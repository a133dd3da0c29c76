// Which parts of a span cross.
ghost use Rattle.std.specs.Prelude.{◌≡◌, ◌↔◌, ◌⊎◌, ℕ, IfOk, OnOk, IsTrue, Contains, min, max};
ghost use Rattle.std.specs.List.Sorted.{IsStrictlySortedBy};
ghost use Rattle.std.specs.List.{AllByRecursion};
ghost use Rattle.std.specs.BTreeSet.{contains};
ghost use Rattle.late_window.specs.Folding.{Rises, BeforeFirst, states};
ghost use Rattle.span_clusters.specs.Interleavings.{EachPair, Interleaved, AllInterleaved, IsWithin, IsBelowFirst, KeysDiffer};
ghost use Rattle.span_clusters.specs.Parts.{ReachesItems, ReachesPart, all_items};
ghost use Rattle.span_clusters.specs.Jobs.{AreParts, ReachesAs, ReachesOneAs, CrossAs, pair_cmp};

use crate::joining::merged_items;
use crate::walking::{run_from, split_group};
use crate::{Done, Separable};
use late_window::Fold;
use std::alloc::Global;
use std::collections::BTreeSet;
use trk_base::NoMemory;

// Whether in some slot a member of the own run gates one of the other items. Both are gone over
// once, side by side.
fn reaches_items<F: Separable>(
    alloc: Global,
    start: &F::State,
    own: &[F::Item],
    run: &[F::State],
    others: &[F::Item],
) -> Result<bool, NoMemory>
    requires own_rises { Rises F.Item.cmp F.key_of own.now }
    requires others_rise { Rises F.Item.cmp F.key_of others.now }
    requires folded { run.now ≡ states F.next F.slot_of start.now own.now }
    requires own_before { BeforeFirst F.is_before F.slot_of start.now own.now }
    requires others_before { AllByRecursion (λ x. F.is_before start.now (F.slot_of x)) others.now }
    ensures { IfOk result (λ b. IsTrue b ↔ ReachesItems F.next F.slot_of F.gates start.now own.now others.now) }
{
    let mut state = start;
    let mut mine = own;
    let mut left = run;
    let mut rest = others;
    while !rest.is_empty() {
        let slot = F::slot(&rest[0]);
        let (group, later) = split_group::<F>(rest, slot);
        let (before, items, after) = run_from::<F>(state, mine, left, slot);
        if F::crosses(alloc, before, slot, split_group::<F>(items, slot).0, group)? {
            return Ok(true);
        }
        state = before;
        mine = items;
        left = after;
        rest = later;
    }
    Ok(false)
}

// Whether in some slot a member of the one's run gates an item of the other.
fn reaches<F: Separable>(alloc: Global, one: &Done<F>, other: &Done<F>) -> Result<bool, NoMemory>
    requires { AllByRecursion (λ x. F.is_before one.now.start (F.slot_of x)) other.now.items }
    ensures { IfOk result (λ b. IsTrue b ↔ ReachesPart F.next F.slot_of F.gates one.now other.now) }
{
    reaches_items::<F>(alloc, &one.start, &one.items, &one.states, &other.items)
}

// The numbers of two parts, the lower first.
fn pair_of<F: Separable>(one: &Done<F>, other: &Done<F>) -> (u8, u8)
    ensures lower { result.0 ≡ min one.now.number other.now.number }
    ensures higher { result.1 ≡ max one.now.number other.now.number }
{
    (one.number.min(other.number), one.number.max(other.number))
}

// The items of all parts, in rising order.
fn items_of_all<F: Separable>(alloc: Global, done: &[Done<F>]) -> Result<Vec<F::Item>, NoMemory>
    requires { EachPair (λ p q. KeysDiffer F.key_of p.items q.items) done.now }
    ensures all { IfOk result (λ items. AllInterleaved (all_items done.now) items.items) }
    ensures rising { IfOk result (λ items. Rises F.Item.cmp F.key_of items.items) }
{
    let mut all = Vec::new(alloc);
    let mut rest = done;
    while !rest.is_empty() {
        let one = &rest[0];
        all = merged_items::<F>(alloc, &all, &one.items)?;
        rest = rest.split_at(1).1;
    }
    Ok(all)
}

// Whether the item is below the first of these, where there is one.
fn is_below_first<F: Fold>(item: &F::Item, items: &[F::Item]) -> bool
    ensures { IsTrue result ↔ IsBelowFirst F.Item.cmp item.now items.now }
{
    items.is_empty() || *item < items[0]
}

// The items that aren't among the own ones.
fn items_without<F: Fold>(
    alloc: Global,
    all: &[F::Item],
    own: &[F::Item],
) -> Result<Vec<F::Item>, NoMemory>
    requires within { IsWithin own.now all.now }
    requires rising { Rises F.Item.cmp F.key_of all.now }
    ensures { IfOk result (λ others. Interleaved own.now others.items all.now) }
{
    let mut others = Vec::new(alloc);
    let mut left = all;
    let mut mine = own;
    while !left.is_empty() {
        if is_below_first::<F>(&left[0], mine) {
            others.push(left[0])?;
        } else {
            mine = mine.split_at(1).1;
        }
        left = left.split_at(1).1;
    }
    Ok(others)
}

// One more pair, where two parts have different numbers and the one reaches the other.
fn add_pair<F: Separable>(
    alloc: Global,
    one: &Done<F>,
    other: &Done<F>,
    found: &mut BTreeSet<(u8, u8), Global>,
) -> Result<(), NoMemory>
    requires { AllByRecursion (λ x. F.is_before one.now.start (F.slot_of x)) other.now.items }
    ensures { OnOk result ((a b : ℕ) → IsTrue (contains pair_cmp found.new (a, b)) ↔ (IsTrue (contains pair_cmp found.old (a, b)) ⊎ ReachesAs F.next F.slot_of F.gates one.now other.now a b)) }
{
    if one.number == other.number {
        return Ok(());
    }
    if !reaches(alloc, one, other)? {
        return Ok(());
    }
    found.insert(pair_of(one, other))?;
    Ok(())
}

// The pairs that a part makes with those that it reaches.
fn add_pairs<F: Separable>(
    alloc: Global,
    one: &Done<F>,
    done: &[Done<F>],
    found: &mut BTreeSet<(u8, u8), Global>,
) -> Result<(), NoMemory>
    requires { AllByRecursion (λ q. AllByRecursion (λ x. F.is_before one.now.start (F.slot_of x)) q.items) done.now }
    ensures { OnOk result ((a b : ℕ) → IsTrue (contains pair_cmp found.new (a, b)) ↔ (IsTrue (contains pair_cmp found.old (a, b)) ⊎ ReachesOneAs F.next F.slot_of F.gates one.now done.now a b)) }
{
    for other in done {
        add_pair(alloc, one, other, found)?;
    }
    Ok(())
}

// The same of one of the parts, where all are the items of all of them. All others are asked for at
// once, since the question costs about a step of the part's slot, however many items it is put for.
fn add_reached<F: Separable>(
    alloc: Global,
    one: &Done<F>,
    done: &[Done<F>],
    all: &[F::Item],
    found: &mut BTreeSet<(u8, u8), Global>,
) -> Result<(), NoMemory>
    requires parts { AreParts F.slot_of F.key_of F.is_before F.is_beside done.now }
    requires one { Contains done.now one.now }
    requires all { AllInterleaved (all_items done.now) all.now }
    requires rising { Rises F.Item.cmp F.key_of all.now }
    ensures { OnOk result ((a b : ℕ) → IsTrue (contains pair_cmp found.new (a, b)) ↔ (IsTrue (contains pair_cmp found.old (a, b)) ⊎ ReachesOneAs F.next F.slot_of F.gates one.now done.now a b)) }
{
    let others = items_without::<F>(alloc, all, &one.items)?;
    if !reaches_items::<F>(alloc, &one.start, &one.items, &one.states, &others)? {
        return Ok(());
    }
    add_pairs(alloc, one, done, found)
}

// The pairs of a set, in rising order.
fn pairs_in_order(
    alloc: Global,
    mut found: BTreeSet<(u8, u8), Global>,
) -> Result<Vec<(u8, u8)>, NoMemory>
    ensures items { IfOk result (λ pairs. pairs.items ≡ found.keys) }
    ensures rising { IfOk result (λ pairs. IsStrictlySortedBy pair_cmp pairs.items) }
{
    let mut pairs = Vec::with_capacity(alloc, found.len())?;
    while let Some(pair) = found.pop_first() {
        pairs.push(pair)?;
    }
    Ok(pairs)
}

/// The numbers of each two parts that cross, once, the lower first, in rising order: in some slot a
/// member of one's own run, as it stands there, gates an item of the other.
pub fn crossings<F: Separable>(alloc: Global, done: &[Done<F>]) -> Result<Vec<(u8, u8)>, NoMemory>
    requires parts { AreParts F.slot_of F.key_of F.is_before F.is_beside done.now }
    ensures exact { IfOk result (λ pairs. (a b : ℕ) → Contains pairs.items (a, b) ↔ CrossAs F.next F.slot_of F.gates done.now a b) }
    ensures rising { IfOk result (λ pairs. IsStrictlySortedBy pair_cmp pairs.items) }
{
    let all = items_of_all(alloc, done)?;
    let mut found = BTreeSet::new(alloc);
    for one in done {
        add_reached(alloc, one, done, &all, &mut found)?;
    }
    pairs_in_order(alloc, found)
}
