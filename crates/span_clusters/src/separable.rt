// Folds whose states consist of members.
ghost use Rattle.std.specs.Prelude.{◌≡◌, ◌<◌, ◌≤◌, ◌+◌, ◌↔◌, ◌⊎◌, ◌||◌, ◌&&◌, ◌==◌, ℕ, List, [], Bool, true, false, length, IfOk, IsTrue, All};
ghost use Rattle.std.specs.List.{AllByRecursion};
ghost use Rattle.late_window.specs.Folding.{Rises, InSlot};
ghost use Rattle.span_clusters.specs.Interleavings.{KeysDiffer, IsJoin};
ghost use Rattle.span_clusters.specs.Parts.{Reaches, AreTwoInSlot, AreApart};

use late_window::Fold;
use std::alloc::Global;
use trk_base::NoMemory;

/// A fold whose states consist of members, for the tracker its tracks. A state can be split into
/// states of some of its members each, and states that share no member can be merged. Where members
/// of one state gate no item of the other's, each may take its step by itself.
///
/// The laws range over all values, also those that no code makes. `is_before` holds what is valid
/// about a state.
pub trait Separable: Fold {
    /// The number of members.
    ghost count: { Self.State → ℕ };

    /// The members whose number passes the test, in a state that has all else of this one. Each
    /// member has a number, in the order of the members.
    ghost picked: { Self.State → List ℕ → (ℕ → Bool) → Self.State };

    /// The members of both.
    ghost merged: { Self.State → Self.State → Self.State };

    /// No member stands in both, and all but the members is equal.
    ghost is_beside: { Self.State → Self.State → Type 0 };

    /// In the step of the slot with these own items, a member gates the item, as the member stands
    /// when the item's turn comes.
    ghost gates: { Self.State → ℕ → List Self.Item → Self.Item → Type 0 };

    /// Two outs of one slot, put in order as one.
    ghost both: { Self.Out → Self.Out → Self.Out };

    /// The number of members.
    fn members(state: &Self::State) -> u32
        ensures { result ≡ count state.now };

    /// A number below the wish for each member, then for each item: the part that it goes to. Any
    /// numbers are right; members and items that can gate each other within the span should get
    /// the same, and the numbers should fall evenly.
    fn choose(
        alloc: Global,
        state: &Self::State,
        items: &[Self::Item],
        wish: u8,
    ) -> Result<Vec<u8>, NoMemory>
        requires least { 1 ≤ wish }
        requires most { wish ≤ 16 }
        ensures count { IfOk result (λ numbers. length numbers.items ≡ count state.now + length items.now) }
        ensures below { IfOk result (λ numbers. All (λ k. k < wish) numbers.items) };

    /// The members of one part.
    fn split(
        alloc: Global,
        state: &Self::State,
        numbers: &[u8],
        part: u8,
    ) -> Result<Self::State, NoMemory>
        requires { length numbers.now ≡ count state.now }
        ensures { IfOk result (λ s. s ≡ picked state.now numbers.now (λ k. k == part)) };

    /// Whether, in the slot, a member of the part with this state and these own items gates one of
    /// the other items.
    fn crosses(
        alloc: Global,
        state: &Self::State,
        slot: u64,
        own: &[Self::Item],
        other: &[Self::Item],
    ) -> Result<bool, NoMemory>
        requires before { Self.is_before state.now slot }
        requires own_slot { InSlot Self.slot_of slot own.now }
        requires own_rises { Rises Self.Item.cmp Self.key_of own.now }
        requires other_slot { InSlot Self.slot_of slot other.now }
        requires other_rises { Rises Self.Item.cmp Self.key_of other.now }
        ensures { IfOk result (λ b. IsTrue b ↔ Reaches gates state.now slot own.now other.now) };

    /// The members of both.
    fn merge(alloc: Global, one: &Self::State, other: &Self::State) -> Result<Self::State, NoMemory>
        requires { is_beside one.now other.now }
        ensures { IfOk result (λ s. s ≡ merged one.now other.now) };

    /// The step of the slot without items, which needs no ticket: it brings a part up to a slot that
    /// only other parts fill.
    fn rest(alloc: Global, state: &Self::State, slot: u64) -> Result<Self::State, NoMemory>
        requires { Self.is_before state.now slot }
        ensures { IfOk result (λ s. s ≡ Self.next state.now slot []) };

    /// The outs of the parts that have items in one slot, put in order as one.
    fn together(alloc: Global, outs: Vec<Self::Out>) -> Result<Self::Out, NoMemory>
        requires { 0 < length outs.items }
        ensures { IfOk result (λ out. IsJoin both outs.items out) };

    /// All members are the state.
    ghost picks_all: { (s : Self.State) (numbers : List ℕ) (f : ℕ → Bool) → length numbers ≡ count s → AllByRecursion (λ k. f k ≡ true) numbers → picked s numbers f ≡ s };

    /// What is picked of a state before a slot is before it.
    ghost picks_before: { (s : Self.State) (numbers : List ℕ) (f : ℕ → Bool) (n : ℕ) → length numbers ≡ count s → Self.is_before s n → Self.is_before (picked s numbers f) n };

    /// Where no number passes both tests, no member is picked by both.
    ghost picks_beside: { (s : Self.State) (numbers : List ℕ) (f g : ℕ → Bool) (n : ℕ) → length numbers ≡ count s → Self.is_before s n → ((k : ℕ) → (f k && g k) ≡ false) → is_beside (picked s numbers f) (picked s numbers g) };

    /// What two such tests pick, merged, is what either picks.
    ghost picks_merged: { (s : Self.State) (numbers : List ℕ) (f g : ℕ → Bool) (n : ℕ) → length numbers ≡ count s → Self.is_before s n → ((k : ℕ) → (f k && g k) ≡ false) → merged (picked s numbers f) (picked s numbers g) ≡ picked s numbers (λ k. f k || g k) };

    /// To share no member goes both ways.
    ghost beside_back: { (s t : Self.State) → is_beside s t → is_beside t s };

    /// The members of two that are merged are those of both.
    ghost beside_merged: { (s t r : Self.State) → is_beside s t → is_beside s r → is_beside t r → is_beside (merged s t) r };

    /// After the step of one slot, of items with different keys, two states still share no member.
    ghost beside_next: { (s t : Self.State) (n : ℕ) (xs ys : List Self.Item) → is_beside s t → Self.is_before s n → Self.is_before t n → InSlot Self.slot_of n xs → InSlot Self.slot_of n ys
        → Rises Self.Item.cmp Self.key_of xs → Rises Self.Item.cmp Self.key_of ys → KeysDiffer Self.key_of xs ys → is_beside (Self.next s n xs) (Self.next t n ys) };

    /// Merging goes in any order ..
    ghost merged_back: { (s t : Self.State) → is_beside s t → merged s t ≡ merged t s };

    /// .. and in any grouping.
    ghost merged_rest: { (s t r : Self.State) → is_beside s t → is_beside s r → is_beside t r → merged (merged s t) r ≡ merged s (merged t r) };

    /// What is merged of two states before a slot is before it.
    ghost merged_before: { (s t : Self.State) (n : ℕ) → is_beside s t → Self.is_before s n → Self.is_before t n → Self.is_before (merged s t) n };

    /// What gates an item in the merged step gates it in one of the two.
    ghost gates_merged: { (s t : Self.State) (n : ℕ) (xs ys zs : List Self.Item) (x : Self.Item) → AreTwoInSlot Self.Item.cmp Self.key_of Self.slot_of Self.is_before is_beside n s t xs ys zs → AreApart gates n s t xs ys
        → gates (merged s t) n zs x → gates s n xs x ⊎ gates t n ys x };

    /// Where neither reaches the other, the merged step is the two steps merged.
    ghost next_merged: { (s t : Self.State) (n : ℕ) (xs ys zs : List Self.Item) → AreTwoInSlot Self.Item.cmp Self.key_of Self.slot_of Self.is_before is_beside n s t xs ys zs → AreApart gates n s t xs ys
        → Self.next (merged s t) n zs ≡ merged (Self.next s n xs) (Self.next t n ys) };

    /// Where both have items, their outs put in order are an out of the merged step.
    ghost out_merged: { (s t : Self.State) (n : ℕ) (xs ys zs : List Self.Item) (a b : Self.Out) → AreTwoInSlot Self.Item.cmp Self.key_of Self.slot_of Self.is_before is_beside n s t xs ys zs → AreApart gates n s t xs ys
        → 0 < length xs → 0 < length ys → Self.is_out s n xs a → Self.is_out t n ys b → Self.is_out (merged s t) n zs (both a b) };

    /// Where only one has items, members of the other that gate none of them change no out.
    ghost out_alone: { (s t : Self.State) (n : ℕ) (xs : List Self.Item) (a : Self.Out) → AreTwoInSlot Self.Item.cmp Self.key_of Self.slot_of Self.is_before is_beside n s t xs [] xs → AreApart gates n s t xs []
        → 0 < length xs → Self.is_out s n xs a → Self.is_out (merged s t) n xs a };

    /// A state that rested in an earlier slot steps as one that didn't, ..
    ghost next_rested: { (s : Self.State) (a b : ℕ) (items : List Self.Item) → Self.is_before s a → a < b → Self.next (Self.next s a []) b items ≡ Self.next s b items };

    /// .. gives the same outs, ..
    ghost out_rested: { (s : Self.State) (a b : ℕ) (items : List Self.Item) (out : Self.Out) → Self.is_before s a → a < b → Self.is_out s b items out → Self.is_out (Self.next s a []) b items out };

    /// .. and gates nothing more.
    ghost gates_rested: { (s : Self.State) (a b : ℕ) (items : List Self.Item) (x : Self.Item) → Self.is_before s a → a < b → gates (Self.next s a []) b items x → gates s b items x };
}
