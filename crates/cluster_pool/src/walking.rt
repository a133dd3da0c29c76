// The runs of parts, walked side by side over the slots of the whole.
ghost use Rattle.std.specs.Prelude.{◌≡◌, ◌↔◌, ◌≤◌, ◌∷◌, ◌++◌, ℕ, List, length, IfOk, OnOk, IsTrue};
ghost use Rattle.std.specs.Option.{option_to_list};
ghost use Rattle.std.specs.List.{AllByRecursion};
ghost use Rattle.late_window.specs.Folding.{Rises, slots, states, AreOutsOf};
ghost use Rattle.span_clusters.specs.Interleavings.{EachPair, IsJoin};
ghost use Rattle.span_clusters.specs.Parts.{DontCross, IsSplitting};
ghost use Rattle.cluster_pool.specs.Walks.{Left, left_states, IsStart, AreAtStart, GoesOn, GoOn, MayMerge, IsMergedSlot};

use late_window::{Fold, group_len};
use span_clusters::{Done, Separable};
use std::alloc::Global;
use std::collections::VecDeque;
use std::marker::Model;
use trk_base::NoMemory;

// What is left of a part's run, and the state before it.
#[derive(Drop)]
struct Walk<F: Fold> {
    state: F::State,
    slots: VecDeque<u64>,
    states: VecDeque<F::State>,
    outs: VecDeque<F::Out>,
}

impl<F: Fold> Model for Walk<F> {
    ghost use Rattle.std.specs.Prelude.{◌≡◌, length};
    ghost use Rattle.cluster_pool.specs.Walks.{Left};

    ghost Value = { Left F.State F.Out };

    ghost view = { λ w. record { state = w.state; slots = w.slots.items; states = w.states.items; outs = w.outs.items } };

    ghost invariant = { λ w. (length w.states.items ≡ length w.slots.items) × (length w.outs.items ≡ length w.slots.items) };
}

// The filled slots of items that rise.
fn slots_of<F: Fold>(alloc: Global, items: &[F::Item]) -> Result<Vec<u64>, NoMemory>
    requires { Rises F.Item.cmp F.key_of items.now }
    ensures { IfOk result (λ filled. filled.items ≡ slots F.slot_of items.now) }
{
    let mut filled = Vec::new(alloc);
    let mut rest = items;
    while !rest.is_empty() {
        let slot = F::slot(&rest[0]);
        filled.push(slot)?;
        rest = rest.split_at(group_len::<F>(rest, slot)).1;
    }
    Ok(filled)
}

// A part's whole run.
fn walk_of<F: Fold>(alloc: Global, done: Done<F>) -> Result<Walk<F>, NoMemory>
    ensures { IfOk result (λ walk. IsStart F.next F.slot_of F.is_out done walk) }
{
    let (state, items, states, outs) = done.into_run();
    let filled = slots_of::<F>(alloc, &items)?;
    Ok(Walk {
        state,
        slots: VecDeque::from(filled),
        states: VecDeque::from(states),
        outs: VecDeque::from(outs),
    })
}

// The whole runs of all parts.
fn walks_of<F: Fold>(alloc: Global, done: Vec<Done<F>>) -> Result<Vec<Walk<F>>, NoMemory>
    ensures { IfOk result (λ walks. AreAtStart F.next F.slot_of F.is_out done.items walks.items) }
{
    let mut walks = Vec::with_capacity(alloc, done.len())?;
    for part in done {
        let walk = walk_of(alloc, part)?;
        walks.push(walk)?;
    }
    Ok(walks)
}

// Whether the slot is the next that the part fills.
fn is_next(slots: &VecDeque<u64>, slot: u64) -> bool
    ensures { IsTrue result ↔ ((ms : List ℕ) × (slots.now.items ≡ slot ∷ ms)) }
{
    match slots.front() {
        Some(first) => *first == slot,
        None => false,
    }
}

// The part after the slot, with its out if it fills it: where it doesn't, it rests.
fn gone_on<F: Separable>(
    alloc: Global,
    walk: Walk<F>,
    slot: u64,
) -> Result<(Walk<F>, Option<F::Out>), NoMemory>
    requires { F.is_before walk.state slot }
    ensures { IfOk result (λ r. GoesOn F.next slot walk r.0 r.1) }
{
    let Walk {
        state,
        mut slots,
        mut states,
        mut outs,
    } = walk;
    if !is_next(&slots, slot) {
        let state = F::rest(alloc, &state, slot)?;
        let rested = Walk {
            state,
            slots,
            states,
            outs,
        };
        return Ok((rested, None));
    }
    slots.pop_front();
    let state = states.pop_front().unwrap();
    let out = outs.pop_front();
    let stepped = Walk {
        state,
        slots,
        states,
        outs,
    };
    Ok((stepped, out))
}

// One more out, if there is one.
fn add_out<O: Drop>(outs: &mut Vec<O>, out: Option<O>) -> Result<(), NoMemory>
    ensures { OnOk result (outs.new.items ≡ outs.old.items ++ option_to_list out) }
{
    if let Some(out) = out {
        outs.push(out)?;
    }
    Ok(())
}

// All parts after the slot, with the outs of those that fill it.
fn all_gone_on<F: Separable>(
    alloc: Global,
    walks: Vec<Walk<F>>,
    slot: u64,
) -> Result<(Vec<Walk<F>>, Vec<F::Out>), NoMemory>
    requires { AllByRecursion (λ w. F.is_before w.state slot) walks.items }
    ensures { IfOk result (λ r. GoOn F.next slot walks.items r.0.items r.1.items) }
{
    let mut after = Vec::with_capacity(alloc, walks.len())?;
    let mut told = Vec::new(alloc);
    for walk in walks {
        let (next, out) = gone_on(alloc, walk, slot)?;
        after.push(next)?;
        add_out(&mut told, out)?;
    }
    Ok((after, told))
}

// The states of two parts as one.
fn state_of_two<F: Separable>(alloc: Global, walks: &[Walk<F>]) -> Result<F::State, NoMemory>
    requires two { length walks.now ≡ 2 }
    requires beside { EachPair F.is_beside (left_states walks.now) }
    ensures { IfOk result (λ state. IsJoin F.merged (left_states walks.now) state) }
{
    let first = &walks[0];
    let second = &walks[1];
    F::merge(alloc, &first.state, &second.state)
}

// The states of three parts as one.
fn state_of_three<F: Separable>(alloc: Global, walks: &[Walk<F>]) -> Result<F::State, NoMemory>
    requires three { length walks.now ≡ 3 }
    requires beside { EachPair F.is_beside (left_states walks.now) }
    ensures { IfOk result (λ state. IsJoin F.merged (left_states walks.now) state) }
{
    let (front, back) = walks.split_at(2);
    let last = &back[0];
    let two = state_of_two(alloc, front)?;
    F::merge(alloc, &two, &last.state)
}

// The states of at least two parts as one, by halves: so a member is copied as often as the parts
// can be halved, and not once for each part.
fn state_of_all<F: Separable>(alloc: Global, walks: &[Walk<F>]) -> Result<F::State, NoMemory>
    requires several { 2 ≤ length walks.now }
    requires beside { EachPair F.is_beside (left_states walks.now) }
    ensures { IfOk result (λ state. IsJoin F.merged (left_states walks.now) state) }
{
    if walks.len() == 2 {
        return state_of_two(alloc, walks);
    }
    if walks.len() == 3 {
        return state_of_three(alloc, walks);
    }
    let (left, right) = walks.split_at(walks.len() / 2);
    let one = state_of_all(alloc, left)?;
    let other = state_of_all(alloc, right)?;
    F::merge(alloc, &one, &other)
}

// One slot of the whole: the parts after it, their states as one, and the outs of those that fill
// it as one.
fn merged_slot<F: Separable>(
    alloc: Global,
    walks: Vec<Walk<F>>,
    slot: u64,
) -> Result<(Vec<Walk<F>>, F::State, F::Out), NoMemory>
    requires { MayMerge F.next F.is_before F.is_beside slot walks.items }
    ensures { IfOk result (λ r. IsMergedSlot F.next F.merged F.both slot walks.items r.0.items r.1 r.2) }
{
    let (after, told) = all_gone_on(alloc, walks, slot)?;
    let state = state_of_all(alloc, &after)?;
    let out = F::together(alloc, told)?;
    Ok((after, state, out))
}

// The state and the out of the whole after each slot, from at least two parts.
fn merged_slots<F: Separable>(
    alloc: Global,
    items: &[F::Item],
    done: Vec<Done<F>>,
) -> Result<(Vec<F::State>, Vec<F::Out>), NoMemory>
    requires several { 2 ≤ length done.items }
    requires rising { Rises F.Item.cmp F.key_of items.now }
    requires splitting { (s : F.State) × IsSplitting F.slot_of F.is_before F.is_beside F.merged s items.now done.items }
    requires clear { EachPair (DontCross F.next F.slot_of F.gates) done.items }
    ensures states { IfOk result (λ r. (s : F.State) → IsSplitting F.slot_of F.is_before F.is_beside F.merged s items.now done.items → r.0.items ≡ states F.next F.slot_of s items.now) }
    ensures outs { IfOk result (λ r. (s : F.State) → IsSplitting F.slot_of F.is_before F.is_beside F.merged s items.now done.items → AreOutsOf F.next F.slot_of F.is_out s items.now r.1.items) }
{
    let mut states = Vec::new(alloc);
    let mut outs = Vec::new(alloc);
    let filled = slots_of::<F>(alloc, items)?;
    let mut walks = walks_of(alloc, done)?;
    for slot in filled {
        let (after, state, out) = merged_slot(alloc, walks, slot)?;
        walks = after;
        states.push(state)?;
        outs.push(out)?;
    }
    Ok((states, outs))
}

/// The state and the out of the whole after each slot. Where there is one part alone, they are its
/// own, by move.
pub(crate) fn merged_runs<F: Separable>(
    alloc: Global,
    items: &[F::Item],
    mut done: Vec<Done<F>>,
) -> Result<(Vec<F::State>, Vec<F::Out>), NoMemory>
    requires rising { Rises F.Item.cmp F.key_of items.now }
    requires splitting { (s : F.State) × IsSplitting F.slot_of F.is_before F.is_beside F.merged s items.now done.items }
    requires clear { EachPair (DontCross F.next F.slot_of F.gates) done.items }
    ensures states { IfOk result (λ r. (s : F.State) → IsSplitting F.slot_of F.is_before F.is_beside F.merged s items.now done.items → r.0.items ≡ states F.next F.slot_of s items.now) }
    ensures outs { IfOk result (λ r. (s : F.State) → IsSplitting F.slot_of F.is_before F.is_beside F.merged s items.now done.items → AreOutsOf F.next F.slot_of F.is_out s items.now r.1.items) }
{
    if done.len() > 1 {
        return merged_slots::<F>(alloc, items, done);
    }
    match done.pop() {
        Some(only) => {
            let (_, _, states, outs) = only.into_run();
            Ok((states, outs))
        }
        None => Ok((Vec::new(alloc), Vec::new(alloc))),
    }
}
