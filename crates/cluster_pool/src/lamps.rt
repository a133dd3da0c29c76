// Two lamps that count the items at their places: a fold of two members, for tests.
ghost use Rattle.std.specs.Prelude.{◌≡◌, ◌<◌, ◌≤◌, ◌+◌, ◌↔◌, ◌⊎◌, ◌==◌, ℕ, List, length, fold, slice_index, IfOk, OnOk, IsTrue, IsSome, All};
ghost use Rattle.std.specs.List.{AllByRecursion};
ghost use Rattle.cluster_pool.specs.Lamps.{Item, is_left, is_right, count_at, lit, told, either, present, kept, count, gates, both};
ghost use Rattle.span_clusters.specs.Parts.{Reaches};
ghost use Rattle.late_window.specs.Folding.{Rises};
ghost use Rattle.span_clusters.specs.Interleavings.{IsJoin};

use late_window::Fold;
use span_clusters::Separable;
use std::alloc::Global;
use trk_base::{NoMemory, Ticket};

/// The left lamp, below place 10, and the right one, from there on. Each may be missing; one that is
/// there has counted the items at its place.
pub(crate) type Lamps = (Option<u64>, Option<u64>);

// How many of the items, each of a slot and a place, are at the left lamp's place.
fn count_left(items: &[(u64, u64)]) -> u64
    ensures exact { result ≡ count_at is_left items.now }
    ensures few { result ≤ length items.now }
{
    match items {
        [] => 0,
        [first, rest @ ..] => {
            if first.1 < 10 {
                1 + count_left(rest)
            } else {
                count_left(rest)
            }
        }
    }
}

// How many are at the right one's.
fn count_right(items: &[(u64, u64)]) -> u64
    ensures exact { result ≡ count_at is_right items.now }
    ensures few { result ≤ length items.now }
{
    match items {
        [] => 0,
        [first, rest @ ..] => {
            if first.1 < 10 {
                count_right(rest)
            } else {
                1 + count_right(rest)
            }
        }
    }
}

// A lamp after so many items at its place.
fn lit_lamp(lamp: Option<u64>, items: u64) -> Result<Option<u64>, NoMemory>
    ensures { IfOk result (λ after. after ≡ lit lamp items) }
{
    match lamp {
        None => Ok(None),
        Some(so_far) => Ok(Some(so_far.checked_add(items).ok_or(NoMemory)?)),
    }
}

// What a lamp tells of so many items at its place.
fn told_by(lamp: Option<u64>, items: u64) -> u64
    ensures { result ≡ told lamp items }
{
    match lamp {
        None => 0,
        Some(_) => items,
    }
}

// Whether one of the lamps has an item, of so many at the left one's place and at the right one's.
fn lights_some(lamps: &Lamps, left: u64, right: u64) -> bool
    ensures { IsTrue result ↔ ((0 < told lamps.now.0 left) ⊎ (0 < told lamps.now.1 right)) }
{
    told_by(lamps.0, left) > 0 || told_by(lamps.1, right) > 0
}

// Whether one of the lamps is at the place of one of the items.
fn reaches(lamps: &Lamps, items: &[(u64, u64)]) -> bool
    ensures { (n : ℕ) (own : List Item) → IsTrue result ↔ Reaches gates lamps.now n own items.now }
{
    lights_some(lamps, count_left(items), count_right(items))
}

// The lamp that is there.
fn either_lamp(one: Option<u64>, other: Option<u64>) -> Option<u64>
    ensures { result ≡ either one other }
{
    match one {
        None => other,
        Some(so_far) => Some(so_far),
    }
}

// The lamp, where its number is the part's.
fn kept_lamp(lamp: Option<u64>, numbers: &[u8], at: usize, part: u8) -> Option<u64>
    requires { IsSome lamp → at < length numbers.now }
    ensures { result ≡ kept (λ k. k == part) lamp (slice_index numbers.now at) }
{
    match lamp {
        None => None,
        Some(so_far) => {
            if numbers[at] == part {
                Some(so_far)
            } else {
                None
            }
        }
    }
}

// The two outs of one slot, put together.
fn sum_of(one: (u64, u64), other: (u64, u64)) -> Result<(u64, u64), NoMemory>
    ensures { IfOk result (λ out. out ≡ both one other) }
{
    let left = one.0.checked_add(other.0).ok_or(NoMemory)?;
    let right = one.1.checked_add(other.1).ok_or(NoMemory)?;
    Ok((left, right))
}

// The sum of outs, from one on.
fn sum_from(so_far: (u64, u64), outs: &[(u64, u64)]) -> Result<(u64, u64), NoMemory>
    ensures { IfOk result (λ out. out ≡ fold both so_far outs.now) }
{
    match outs {
        [] => Ok(so_far),
        [first, rest @ ..] => sum_from(sum_of(so_far, *first)?, rest),
    }
}

// One more number, where the lamp is there.
fn push_present(
    lamp: Option<u64>,
    number: u8,
    wish: u8,
    numbers: &mut Vec<u8>,
) -> Result<(), NoMemory>
    requires few { number < wish }
    requires below { AllByRecursion (λ k. k < wish) numbers.old.items }
    ensures count { OnOk result (length numbers.new.items ≡ length numbers.old.items + present lamp) }
    ensures below { OnOk result (AllByRecursion (λ k. k < wish) numbers.new.items) }
{
    match lamp {
        None => Ok(()),
        Some(_) => {
            numbers.push(number)?;
            Ok(())
        }
    }
}

// The number of an item: the left lamp's, or that of its tens, which is the right one's at most.
fn number_of(item: &(u64, u64), left: u8, right: u8, wish: u8) -> u8
    requires left { left < wish }
    requires right { right < wish }
    ensures { result < wish }
{
    if item.1 < 10 {
        return left;
    }
    u8::try_from(item.1 / 10).unwrap_or(right).min(right)
}

// A number below the wish for each lamp that is there, then for each item. Items from place 10 on
// are all at the right lamp's place, but go ten places to a number, up to that lamp's: so with a
// right number above 1 there are parts that cross.
fn numbers_of(
    alloc: Global,
    lamps: &Lamps,
    items: &[(u64, u64)],
    left: u8,
    right: u8,
    wish: u8,
) -> Result<Vec<u8>, NoMemory>
    requires left { left < wish }
    requires right { right < wish }
    ensures count { IfOk result (λ numbers. length numbers.items ≡ count lamps.now + length items.now) }
    ensures below { IfOk result (λ numbers. All (λ k. k < wish) numbers.items) }
{
    let mut numbers = Vec::new(alloc);
    push_present(lamps.0, left, wish, &mut numbers)?;
    push_present(lamps.1, right, wish, &mut numbers)?;
    for item in items {
        numbers.push(number_of(item, left, right, wish))?;
    }
    Ok(numbers)
}

/// Whether each item is below the next.
pub(crate) fn rises<F: Fold>(items: &[F::Item]) -> bool
    ensures { IsTrue result → Rises F.Item.cmp (λ x. x) items.now }
{
    if items.len() < 2 {
        return true;
    }
    let (first, rest) = items.split_at(1);
    first[0] < rest[0] && rises::<F>(rest)
}

/// The fold of two lamps.
pub(crate) struct TwoLamps;

impl Fold for TwoLamps {
    ghost use Rattle.std.specs.Prelude.{ℕ, List};
    ghost use Rattle.std.specs.Ordering.{nat_cmp};
    ghost use Rattle.std.proofs.lemmas.Map.Lookups.{exact_pairs, exact_unsigned};
    ghost use Rattle.late_window.specs.SlotFirst.{slot_first, same_first};
    ghost use Rattle.cluster_pool.specs.Lamps.{next, IsTold, IsReady};

    type State = Lamps;

    type Item = (u64, u64);

    type Out = (u64, u64);

    type Key = (u64, u64);

    ghost next = { next };

    ghost is_out = { IsTold };

    ghost slot_of = { λ x. x.0 };

    ghost key_of = { λ x. x };

    ghost is_before = { IsReady };

    ghost stays_before = { λ s a b le before. tt };

    ghost goes_before = { λ s n items of_slot rising before. tt };

    ghost in_order = { λ x y less. slot_first (λ z. z.0) (λ z w. nat_cmp z.1 w.1) x y less };

    ghost exact = { exact_pairs nat_cmp nat_cmp exact_unsigned exact_unsigned };

    ghost slot_in_key = { λ x y same. same_first x y same };

    fn slot(item: &(u64, u64)) -> u64 {
        item.0
    }

    fn step(
        _: Global,
        state: &Lamps,
        _: u64,
        items: &[(u64, u64)],
        ticket: &mut Ticket,
    ) -> Result<(Lamps, (u64, u64)), NoMemory> {
        ticket.spend();
        let left = count_left(items);
        let right = count_right(items);
        let next = (lit_lamp(state.0, left)?, lit_lamp(state.1, right)?);
        Ok((next, (told_by(state.0, left), told_by(state.1, right))))
    }

    fn copy(_: Global, state: &Lamps) -> Result<Lamps, NoMemory> {
        Ok(*state)
    }
}

impl Separable for TwoLamps {
    ghost use Rattle.std.specs.Prelude.{ℕ, List, length};
    ghost use Rattle.cluster_pool.specs.Lamps.{count, picked, merged, AreBeside, gates, both};
    ghost use Rattle.cluster_pool.specs.LampLaws.{picks_all, picks_beside, picks_merged, beside_back, beside_merged, beside_next, merged_back, merged_rest, gates_merged, next_merged, out_merged, out_alone, next_rested, out_rested, gates_rested};

    ghost count = { count };

    ghost picked = { picked };

    ghost merged = { merged };

    ghost is_beside = { AreBeside };

    ghost gates = { gates };

    ghost both = { both };

    ghost picks_all = { picks_all };

    ghost picks_before = { λ s numbers f n same before. tt };

    ghost picks_beside = { λ s numbers f g n same before never. picks_beside s numbers f g never };

    ghost picks_merged = { λ s numbers f g n same before never. picks_merged s numbers f g };

    ghost beside_back = { beside_back };

    ghost beside_merged = { beside_merged };

    ghost beside_next = { λ s t n xs ys apart one other one_slot other_slot one_rises other_rises keys. beside_next s t n xs ys apart };

    ghost merged_back = { merged_back };

    ghost merged_rest = { λ s t r one two three. merged_rest s t r };

    ghost merged_before = { λ s t n apart one other. tt };

    ghost gates_merged = { λ s t n xs ys zs x two apart gate. gates_merged s t n xs ys zs x gate };

    ghost next_merged = { λ s t n xs ys zs two apart. next_merged s t n xs ys zs two.items two.beside apart };

    ghost out_merged = { λ s t n xs ys zs a b two apart one other own others. out_merged s t n xs ys zs a b two.items two.beside apart own others };

    ghost out_alone = { λ s t n xs a two apart some own. out_alone s t n xs a two.beside apart own };

    ghost next_rested = { λ s a b items before less. next_rested s a b items };

    ghost out_rested = { λ s a b items out before less told. out_rested s a b items out told };

    ghost gates_rested = { λ s a b items x before less gate. gates_rested s a b items x gate };

    fn members(state: &Lamps) -> u32 {
        let left = if state.0.is_some() { 1 } else { 0 };
        let right = if state.1.is_some() { 1 } else { 0 };
        left + right
    }

    fn choose(
        alloc: Global,
        state: &Lamps,
        items: &[(u64, u64)],
        wish: u8,
    ) -> Result<Vec<u8>, NoMemory> {
        numbers_of(alloc, state, items, 0, wish - 1, wish)
    }

    fn split(_: Global, state: &Lamps, numbers: &[u8], part: u8) -> Result<Lamps, NoMemory> {
        let right_at = if state.0.is_some() { 1 } else { 0 };
        let left = kept_lamp(state.0, numbers, 0, part);
        Ok((left, kept_lamp(state.1, numbers, right_at, part)))
    }

    fn crosses(
        _: Global,
        state: &Lamps,
        _: u64,
        _: &[(u64, u64)],
        other: &[(u64, u64)],
    ) -> Result<bool, NoMemory> {
        Ok(reaches(state, other))
    }

    fn merge(_: Global, one: &Lamps, other: &Lamps) -> Result<Lamps, NoMemory> {
        Ok((either_lamp(one.0, other.0), either_lamp(one.1, other.1)))
    }

    fn rest(_: Global, state: &Lamps, _: u64) -> Result<Lamps, NoMemory> {
        Ok(*state)
    }

    fn together(_: Global, outs: Vec<(u64, u64)>) -> Result<(u64, u64), NoMemory>
        requires { 0 < length outs.items }
        ensures { IfOk result (λ out. IsJoin both outs.items out) }
    {
        let [first, rest @ ..] = &outs[..] else {
            unreachable!();
        };
        sum_from(*first, rest)
    }
}
