// Laws of parts.
ghost use Rattle.std.specs.Prelude.{◌≡◌, ◌≢◌, ◌≤◌, ◌+◌, ◌*◌, ℕ, List, ◌∷◌, length, map, Contains};
ghost use Rattle.std.specs.List.{AllByRecursion};
ghost use Rattle.late_window.specs.Folding.{Rises, at_slot, slots, before, after};
ghost use Rattle.span_clusters.specs.Interleavings.{Interleaved, EachPair, IsJoin};
ghost use Rattle.span_clusters.specs.Parts.{Part, DontCross, IsSplitting, IsFilled, states_after, AreOutsAt, numbered, Without, joined};
ghost use Rattle.span_clusters.specs.Jobs.{NumbersDiffer, AreParts, filled_slots};

use crate::Separable;

/// For any splitting in which no two parts cross, the parts' own runs merged are the fold of the
/// whole: after each filled slot the states merged are its state, and the outs of the parts that
/// have items in the slot, put together, are an out of it.
pub fn merged_parts<F: Separable>()
    ensures states { (s : F.State) (items : List F.Item) (parts : List (Part F.State F.Item)) → Rises F.Item.cmp F.key_of items
        → IsSplitting F.slot_of F.is_before F.is_beside F.merged s items parts → EachPair (DontCross F.next F.slot_of F.gates) parts
        → (n : ℕ) → IsFilled F.slot_of n items → IsJoin F.merged (states_after F.next F.slot_of parts n) (after F.next F.slot_of s items n) }
    ensures outs { (s : F.State) (items : List F.Item) (parts : List (Part F.State F.Item)) → Rises F.Item.cmp F.key_of items
        → IsSplitting F.slot_of F.is_before F.is_beside F.merged s items parts → EachPair (DontCross F.next F.slot_of F.gates) parts
        → (n : ℕ) → IsFilled F.slot_of n items → (outs : List F.Out) (out : F.Out) → AreOutsAt F.next F.slot_of F.is_out n parts outs → IsJoin F.both outs out
        → F.is_out (before F.next F.slot_of s items n) n (at_slot F.slot_of n items) out }
{}

/// However members and items are numbered, the parts of the numbers are a splitting.
pub fn numbered_parts<F: Separable>()
    ensures { (s : F.State) (items : List F.Item) (members of_items : List ℕ) (numbers : List ℕ) (low : ℕ) → length members ≡ F.count s → length of_items ≡ length items
        → EachPair (λ i j. i ≢ j) numbers → 1 ≤ length numbers → AllByRecursion (Contains numbers) members → AllByRecursion (Contains numbers) of_items
        → F.is_before s low → AllByRecursion (λ x. low ≤ F.slot_of x) items
        → IsSplitting F.slot_of F.is_before F.is_beside F.merged s items (map (numbered F.picked s items members of_items) numbers) }
{}

/// Two parts of a splitting joined make a splitting with one part less.
pub fn joined_parts<F: Separable>()
    ensures { (s : F.State) (all : List F.Item) (p q : Part F.State F.Item) (parts others rest : List (Part F.State F.Item)) (items : List F.Item) → Rises F.Item.cmp F.key_of all
        → IsSplitting F.slot_of F.is_before F.is_beside F.merged s all parts → Without p parts others → Without q others rest → Interleaved p.items q.items items → Rises F.Item.cmp F.key_of items
        → IsSplitting F.slot_of F.is_before F.is_beside F.merged s all (joined F.merged p q items ∷ rest) × (length (joined F.merged p q items ∷ rest) + 1 ≡ length parts) }
{}

/// The parts of a splitting of items that rise, where their numbers differ, share no item, and each
/// is before the slots of the others' items: so crossings are told of them, and any two are joined.
pub fn splitting_parts<F: Separable>()
    ensures { (s : F.State) (items : List F.Item) (parts : List (Part F.State F.Item)) → Rises F.Item.cmp F.key_of items
        → IsSplitting F.slot_of F.is_before F.is_beside F.merged s items parts → NumbersDiffer parts → AreParts F.slot_of F.key_of F.is_before F.is_beside parts }
{}

/// Each part of a splitting fills at most the slots of the whole.
pub fn few_slots<F: Separable>()
    ensures each { (s : F.State) (items : List F.Item) (parts : List (Part F.State F.Item)) → IsSplitting F.slot_of F.is_before F.is_beside F.merged s items parts
        → AllByRecursion (λ p. length (slots F.slot_of p.items) ≤ length (slots F.slot_of items)) parts }
    ensures together { (s : F.State) (items : List F.Item) (parts : List (Part F.State F.Item)) → IsSplitting F.slot_of F.is_before F.is_beside F.merged s items parts
        → filled_slots F.slot_of parts ≤ length parts * length (slots F.slot_of items) }
{}
