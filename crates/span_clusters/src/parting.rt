// A span cut into parts.
ghost use Rattle.std.specs.Prelude.{◌≡◌, ◌<◌, ◌≤◌, ◌+◌, ◌==◌, ◌↔◌, ◌⊎◌, ℕ, length, map, All, Contains, IfOk, OnErr, IsTrue};
ghost use Rattle.late_window.specs.Folding.{Rises, BeforeFirst};
ghost use Rattle.span_clusters.specs.Parts.{IsSplitting, picked_items, numbered};
ghost use Rattle.span_clusters.specs.Jobs.{NumbersDiffer, AreUsed, IsPartition, filled_slots};

use crate::jobs::charged;
use crate::{Job, Separable};
use late_window::Fold;
use std::alloc::Global;
use std::marker::Model;
use std::sync::ledger::Ledger;
use trk_base::{NoMemory, Steps};

// A part whose slots aren't counted yet.
#[derive(Drop)]
struct Draft<F: Fold> {
    number: u8,
    start: F::State,
    items: Vec<F::Item>,
}

impl<F: Fold> Model for Draft<F> {
    ghost use Rattle.span_clusters.specs.Parts.{Part};
    ghost use Rattle.span_clusters.specs.Jobs.{MayRun};

    ghost Value = { Part F.State F.Item };

    ghost view = { λ d. record { number = d.number; start = d.start; items = d.items.items } };

    ghost invariant = { λ d. MayRun F.Item.cmp F.key_of F.slot_of F.is_before d.start d.items.items };
}

// Whether there is a part of the number: a first one always is.
fn is_used(given: &[u8], part: u8) -> bool
    ensures { IsTrue result ↔ ((part ≡ 0) ⊎ Contains given.now part) }
{
    part == 0 || given.contains(&part)
}

// The numbers that were given, each once, and the first part's.
fn parts_used(alloc: Global, given: &[u8], wish: u8) -> Result<Vec<u8>, NoMemory>
    requires least { 1 ≤ wish }
    requires below { All (λ k. k < wish) given.now }
    ensures { IfOk result (λ parts. AreUsed given.now wish parts.items) }
{
    let mut parts = Vec::with_capacity(alloc, wish as usize)?;
    for part in 0..wish {
        if is_used(given, part) {
            parts.push(part)?;
        }
    }
    Ok(parts)
}

// The items with the number of the part, in their order.
fn items_of<F: Fold>(
    alloc: Global,
    items: &[F::Item],
    numbers: &[u8],
    part: u8,
) -> Result<Vec<F::Item>, NoMemory>
    requires { length numbers.now ≡ length items.now }
    ensures { IfOk result (λ picked. picked.items ≡ picked_items (λ k. k == part) numbers.now items.now) }
{
    let mut picked = Vec::new(alloc);
    let mut left = items;
    let mut rest = numbers;
    while !left.is_empty() {
        if rest[0] == part {
            picked.push(left[0])?;
        }
        left = left.split_at(1).1;
        rest = rest.split_at(1).1;
    }
    Ok(picked)
}

// The part of one number.
fn part_of<F: Separable>(
    alloc: Global,
    state: &F::State,
    items: &[F::Item],
    of_members: &[u8],
    of_items: &[u8],
    part: u8,
) -> Result<Draft<F>, NoMemory>
    requires members { length of_members.now ≡ F.count state.now }
    requires items { length of_items.now ≡ length items.now }
    requires rising { Rises F.Item.cmp F.key_of items.now }
    requires before { BeforeFirst F.is_before F.slot_of state.now items.now }
    ensures { IfOk result (λ draft. draft ≡ numbered F.picked state.now items.now of_members.now of_items.now part) }
{
    Ok(Draft {
        number: part,
        start: F::split(alloc, state, of_members, part)?,
        items: items_of::<F>(alloc, items, of_items, part)?,
    })
}

// The parts of these numbers.
fn parts_of<F: Separable>(
    alloc: Global,
    state: &F::State,
    items: &[F::Item],
    of_members: &[u8],
    of_items: &[u8],
    parts: &[u8],
) -> Result<Vec<Draft<F>>, NoMemory>
    requires members { length of_members.now ≡ F.count state.now }
    requires items { length of_items.now ≡ length items.now }
    requires rising { Rises F.Item.cmp F.key_of items.now }
    requires before { BeforeFirst F.is_before F.slot_of state.now items.now }
    ensures { IfOk result (λ drafts. drafts.items ≡ map (numbered F.picked state.now items.now of_members.now of_items.now) parts.now) }
{
    let mut drafts = Vec::with_capacity(alloc, parts.len())?;
    for part in parts {
        drafts.push(part_of(alloc, state, items, of_members, of_items, *part)?)?;
    }
    Ok(drafts)
}

// The jobs of these parts. The counter rises once there is room for all of them.
fn all_charged<F: Fold, L: Ledger>(
    alloc: Global,
    drafts: Vec<Draft<F>>,
    steps: &mut Steps<L>,
) -> Result<Vec<Job<F>>, NoMemory>
    ensures parts { IfOk result (λ jobs. jobs.items ≡ drafts.items) }
    ensures steps { IfOk result (λ jobs. steps.new ≡ steps.old + filled_slots F.slot_of jobs.items) }
    ensures err { OnErr result (steps.new ≡ steps.old) }
{
    let mut jobs = Vec::with_capacity(alloc, drafts.len())?;
    for draft in drafts {
        let Draft {
            number,
            start,
            items,
        } = draft;
        jobs.push_reserved(charged(number, start, items, steps));
    }
    Ok(jobs)
}

/// A span as jobs, from one to `wish` of them, by the numbers that `choose` gives. Each member goes
/// to one part, and so does each item; a part but the first that would have neither is left out. The
/// counter rises by the slots that the parts fill; where memory is wanting it stays.
pub fn partition<F: Separable, L: Ledger>(
    alloc: Global,
    state: &F::State,
    items: &[F::Item],
    wish: u8,
    steps: &mut Steps<L>,
) -> Result<Vec<Job<F>>, NoMemory>
    requires least { 1 ≤ wish }
    requires most { wish ≤ 16 }
    requires rising { Rises F.Item.cmp F.key_of items.now }
    requires before { BeforeFirst F.is_before F.slot_of state.now items.now }
    ensures some { IfOk result (λ jobs. 1 ≤ length jobs.items) }
    ensures few { IfOk result (λ jobs. length jobs.items ≤ wish) }
    ensures numbers { IfOk result (λ jobs. NumbersDiffer jobs.items) }
    ensures parts { IfOk result (λ jobs. IsPartition F.count F.picked state.now items.now jobs.items) }
    ensures splitting { IfOk result (λ jobs. (n : ℕ) → F.is_before state.now n → IsSplitting F.slot_of F.is_before F.is_beside F.merged state.now items.now jobs.items) }
    ensures steps { IfOk result (λ jobs. steps.new ≡ steps.old + filled_slots F.slot_of jobs.items) }
    ensures err { OnErr result (steps.new ≡ steps.old) }
{
    let numbers = F::choose(alloc, state, items, wish)?;
    let (of_members, of_items) = numbers.split_at(F::members(state) as usize);
    let parts = parts_used(alloc, &numbers, wish)?;
    let drafts = parts_of(alloc, state, items, of_members, of_items, &parts)?;
    all_charged(alloc, drafts, steps)
}
