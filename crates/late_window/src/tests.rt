ghost use Rattle.std.specs.Prelude.{◌≡◌, ◌≢◌, IsTrue};
ghost use Rattle.std.specs.List.{AllByRecursion};

use crate::*;
use std::alloc::Global;
use std::marker::Brand;
use std::process::Abort;
use std::sync::ledger::{Blank, Ledger};
use std::test::Fail;
use trk_base::{NoMemory, Steps, Ticket, charge};

// A sum with a history: each number goes into a mix of all before it, so the order tells. An item
// is a slot and a number.
struct Trails;

#[derive(Clone, Copy, Debug, PartialEq, Eq)]
struct Trail {
    mix: u64,
    // The slot of the last step.
    last: u64,
}

impl Fold for Trails {
    ghost use Rattle.std.specs.Prelude.{◌≡◌, ◌≤◌, ◌+◌, ◌*◌, ◌%◌, ◌^◌, ℕ, List, length};
    ghost use Rattle.std.specs.List.{fold};
    ghost use Rattle.std.specs.Ordering.{nat_cmp};
    ghost use Rattle.std.proofs.lemmas.Map.Lookups.{exact_pairs, exact_unsigned};
    ghost use Rattle.late_window.specs.SlotFirst.{slot_first, still_at_most, one_more, same_first};

    type State = Trail;

    type Item = (u64, u64);

    type Out = usize;

    type Key = (u64, u64);

    ghost next = { λ s n xs. record { mix = fold (λ a x. (a * 31 % 2 ^ 64 + x.1) % 2 ^ 64) s.mix xs; last = n } };

    ghost is_out = { λ s n xs o. o ≡ length xs };

    ghost slot_of = { λ x. x.0 };

    ghost key_of = { λ x. x };

    ghost is_before = { λ s n. s.last ≤ n };

    ghost stays_before = { λ s a b le before. still_at_most s.last a b before le };

    ghost goes_before = { λ s n items of_slot rising before. one_more n };

    ghost in_order = { λ x y less. slot_first (λ z. z.0) (λ z w. nat_cmp z.1 w.1) x y less };

    ghost exact = { exact_pairs nat_cmp nat_cmp exact_unsigned exact_unsigned };

    ghost slot_in_key = { λ x y same. same_first x y same };

    fn slot(item: &(u64, u64)) -> u64 {
        item.0
    }

    fn step(
        _: Global,
        state: &Trail,
        slot: u64,
        items: &[(u64, u64)],
        ticket: &mut Ticket,
    ) -> Result<(Trail, usize), NoMemory> {
        ticket.spend();
        let mut mix = state.mix;
        for item in items {
            mix = mix.wrapping_mul(31).wrapping_add(item.1);
        }
        Ok((Trail { mix, last: slot }, items.len()))
    }

    fn copy(_: Global, state: &Trail) -> Result<Trail, NoMemory> {
        Ok(*state)
    }
}

// The mix of all items below a slot, folded from nothing.
fn mix_below(alloc: Global, items: &[(u64, u64)], upto: u64) -> Result<u64, Fail> {
    let mut items = Vec::from_slice(alloc, items)?;
    items.sort()?;
    let mut mix = 7u64;
    for item in &items {
        if item.0 < upto {
            mix = mix.wrapping_mul(31).wrapping_add(item.1);
        }
    }
    Ok(mix)
}

// Whether the item isn't there.
fn is_new(items: &[(u64, u64)], item: (u64, u64)) -> bool
    ensures { IsTrue result → AllByRecursion (λ y. y ≢ item) items.now }
{
    !items.contains(&item)
}

// A window from slot 10 on, all that came, and the steps that it took.
#[derive(Drop)]
struct Watched<L: Ledger> {
    alloc: Global,
    window: Window<Trails>,
    all: Vec<(u64, u64)>,
    steps: Steps<L>,
}

impl<L: Ledger> Watched<L> {
    fn new(alloc: Global, blank: Blank) -> Watched<L>
        requires name { blank.name ≡ L.name }
        requires parts { blank.parts ≡ L.parts }
        requires one { blank.parts ≡ 1 }
    {
        Watched {
            alloc,
            window: Window::new(alloc, Trail { mix: 7, last: 0 }, 10),
            all: Vec::new(alloc),
            steps: Steps::new(blank),
        }
    }

    // Takes in an item, which is open and new.
    fn insert(&mut self, rt: &impl Abort, slot: u64, number: u64) -> Result<(), Fail> {
        let item = (slot, number);
        assert!(rt; self.window.low() <= slot);
        assert!(rt; is_new(self.window.items(), item));
        self.window.insert(item)?;
        self.all.push(item)?;
        Ok(())
    }

    // Settles, and compares with the fold from nothing.
    fn settle(&mut self, rt: &impl Abort, upto: u64) -> Result<(), Fail> {
        assert!(rt; self.window.upto() <= upto);
        self.window.settle(upto, &mut self.steps)?;
        assert!(rt; self.window.dirty_from() == None);
        let want = mix_below(self.alloc, &self.all, upto)?;
        assert!(rt; self.window.state().mix == want);
        Ok(())
    }

    // Closes the slots below one, and compares the base.
    fn close_below(&mut self, rt: &impl Abort, low: u64) -> Result<(), Fail> {
        assert!(rt; self.window.dirty_from().is_none());
        assert!(rt; self.window.low() <= low && low <= self.window.upto());
        self.window.close_below(low);
        let want = mix_below(self.alloc, &self.all, low)?;
        assert!(rt; self.window.base().mix == want);
        Ok(())
    }

    fn take(&mut self, rt: &impl Abort, step: Step) -> Result<(), Fail> {
        match step {
            Step::Insert(slot, number) => self.insert(rt, slot, number),
            Step::Settle(upto) => self.settle(rt, upto),
            Step::CloseBelow(low) => self.close_below(rt, low),
        }
    }

    // Whether these are the folded slots.
    fn has_folded(&self, slots: &[u64]) -> bool {
        self.window
            .outs()
            .iter()
            .map(|out| out.0)
            .eq(slots.iter().copied())
    }
}

// What is done to a window.
#[derive(Clone, Copy)]
enum Step {
    Insert(u64, u64),
    Settle(u64),
    CloseBelow(u64),
}

// Steps, and after each of them the first filled slot that isn't folded, and the folded ones: a
// late item in each place.
const REOPENS: [(Step, Option<u64>, &[u64]); 16] = [
    (Step::Insert(12, 5), None, &[]),
    (Step::Insert(14, 2), None, &[]),
    (Step::Insert(12, 3), None, &[]),
    (Step::Settle(16), None, &[12, 14]),
    // Ahead of all.
    (Step::Insert(20, 9), None, &[12, 14]),
    // In a folded slot.
    (Step::Insert(14, 1), Some(14), &[12]),
    (Step::Settle(16), None, &[12, 14]),
    // Below the first filled slot.
    (Step::Insert(11, 4), Some(11), &[]),
    // At `low`.
    (Step::Insert(10, 8), Some(10), &[]),
    (Step::Settle(16), None, &[10, 11, 12, 14]),
    (Step::Settle(18), None, &[10, 11, 12, 14]),
    (Step::Settle(20), None, &[10, 11, 12, 14]),
    (Step::CloseBelow(12), None, &[12, 14]),
    (Step::Insert(12, 1), Some(12), &[]),
    (Step::Settle(30), None, &[12, 14, 20]),
    (Step::CloseBelow(30), None, &[]),
];

fn reopens<L: Ledger>(rt: &impl Abort, watched: &mut Watched<L>) -> Result<(), Fail> {
    for (step, dirty, folded) in REOPENS {
        watched.take(rt, step)?;
        assert_eq!(rt; watched.window.dirty_from(), dirty);
        assert!(rt; watched.has_folded(folded));
    }
    assert!(rt; watched.window.items().is_empty());
    Ok(())
}

// Forty items in an order that the seed picks, with ticks and closes between them.
fn agrees<L: Ledger>(rt: &impl Abort, watched: &mut Watched<L>, seed: u64) -> Result<(), Fail> {
    let mut random = seed;
    let mut upto = 10u64;
    let mut low = 10u64;
    for number in 0..40u64 {
        random = random
            .wrapping_mul(6_364_136_223_846_793_005)
            .wrapping_add(1_442_695_040_888_963_407);
        let pick = random >> 40;
        watched.insert(rt, low.saturating_add(pick % 8), number)?;
        if pick % 3 == 0 {
            upto = low.saturating_add(pick % 5).max(upto);
            watched.settle(rt, upto)?;
            if pick % 2 == 0 {
                low = upto;
                watched.close_below(rt, low)?;
            }
        }
    }
    watched.settle(rt, 2_000)
}

fn reopens_with<L: Ledger>(rt: &impl Abort, alloc: Global, blank: Blank) -> Result<(), Fail>
    requires name { blank.name ≡ L.name }
    requires parts { blank.parts ≡ L.parts }
    requires one { blank.parts ≡ 1 }
{
    reopens(rt, &mut Watched::<L>::new(alloc, blank))
}

fn agrees_with<L: Ledger>(
    rt: &impl Abort,
    alloc: Global,
    blank: Blank,
    seed: u64,
) -> Result<(), Fail>
    requires name { blank.name ≡ L.name }
    requires parts { blank.parts ≡ L.parts }
    requires one { blank.parts ≡ 1 }
{
    agrees(rt, &mut Watched::<L>::new(alloc, blank), seed)
}

// Folds elsewhere what is to be folded, and hands it in.
fn places<L: Ledger>(rt: &impl Abort, alloc: Global, blank: Blank) -> Result<(), Fail>
    requires name { blank.name ≡ L.name }
    requires parts { blank.parts ≡ L.parts }
    requires one { blank.parts ≡ 1 }
{
    let mut window = Window::<Trails>::new(alloc, Trail { mix: 7, last: 0 }, 10);
    window.insert_all(&[(12, 5), (11, 9)])?;
    let (state, items) = window.span(13)?;
    let mut steps = Steps::<L>::new(blank);
    let mut ticket = charge(count_slots::<Trails>(&items) as u64, &mut steps);
    let (states, outs) = run_slots::<Trails>(alloc, &state, &items, &mut ticket)?;
    window.place(13, states, outs)?;
    assert!(rt; window.state().mix == (7 * 31 + 9) * 31 + 5);
    assert!(rt; window.outs().iter().map(|out| out.0).eq([11, 12]));
    Ok(())
}

#[test]
fn places_what_was_folded_elsewhere(rt: HostRuntime) -> Result<(), Fail> {
    marks_last::<Trail, (u64, u64)>();
    places::<Brand>(&rt, rt.alloc(), Blank::new(1))
}

#[test]
fn reopens_late_slots(rt: HostRuntime) -> Result<(), Fail> {
    reopens_with::<Brand>(&rt, rt.alloc(), Blank::new(1))
}

#[test]
fn agrees_in_any_order(rt: HostRuntime) -> Result<(), Fail> {
    for seed in 0..300 {
        agrees_with::<Brand>(&rt, rt.alloc(), Blank::new(1), seed)?;
    }
    Ok(())
}
