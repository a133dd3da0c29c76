// What can be folded over the filled slots of items.
ghost use Rattle.std.specs.Prelude.{◌≡◌, ◌<◌, ◌≤◌, ◌+◌, ℕ, List, IfOk};
ghost use Rattle.std.specs.declared.cmp.Ordering.TheVariants.{Less, Equal};
ghost use Rattle.late_window.specs.Folding.{Rises, InSlot};

use std::alloc::Global;
use trk_base::{NoMemory, Ticket};

/// What is folded over the filled slots of items, in the order of the slots. A slot is filled where
/// at least one item is of it; a slot without items is no step.
pub trait Fold {
    /// All that a step needs beside its items.
    type State: Drop;

    /// What is folded. Its order compares the slot first, then the rest of its key, then all else.
    type Item: Copy + Ord;

    /// What a step gives beside the next state.
    type Out: Drop;

    /// What tells items apart that stand together.
    type Key;

    /// The state after the step of a slot.
    ghost next: { Self.State → ℕ → List Self.Item → Self.State };

    /// What the step of a slot may give beside.
    ghost is_out: { Self.State → ℕ → List Self.Item → Self.Out → Type 0 };

    ghost slot_of: { Self.Item → ℕ };

    ghost key_of: { Self.Item → Self.Key };

    /// The state may take the step of the slot.
    ghost is_before: { Self.State → ℕ → Type 0 };

    /// The slot of an item.
    fn slot(item: &Self::Item) -> u64
        ensures { result ≡ slot_of item.now };

    /// The step of one slot, which is paid also where memory is wanting.
    fn step(
        alloc: Global,
        state: &Self::State,
        slot: u64,
        items: &[Self::Item],
        ticket: &mut Ticket,
    ) -> Result<(Self::State, Self::Out), NoMemory>
        requires paid { 0 < ticket.old }
        requires before { is_before state.now slot }
        requires of_slot { InSlot slot_of slot items.now }
        requires rising { Rises Self.Item.cmp key_of items.now }
        ensures next { IfOk result (λ r. r.0 ≡ next state.now slot items.now) }
        ensures out { IfOk result (λ r. is_out state.now slot items.now r.1) }
        ensures spent { ticket.new + 1 ≡ ticket.old };

    /// A copy of a state.
    fn copy(alloc: Global, state: &Self::State) -> Result<Self::State, NoMemory>
        ensures { IfOk result (λ s. s ≡ state.now) };

    /// A state that is before a slot is before each later one.
    ghost stays_before: { (s : Self.State) (a b : ℕ) → a ≤ b → is_before s a → is_before s b };

    /// After its step a state is before each later slot.
    ghost goes_before: { (s : Self.State) (n : ℕ) (items : List Self.Item) → InSlot slot_of n items → Rises Self.Item.cmp key_of items → is_before s n → is_before (next s n items) (n + 1) };

    /// Items in order are in the order of their slots.
    ghost in_order: { (x y : Self.Item) → Self.Item.cmp x y ≡ Less → slot_of x ≤ slot_of y };

    /// The order agrees with equality.
    ghost exact: { (x y : Self.Item) → Self.Item.cmp x y ≡ Equal → x ≡ y };

    /// The slot is part of the key.
    ghost slot_in_key: { (x y : Self.Item) → key_of x ≡ key_of y → slot_of x ≡ slot_of y };
}
