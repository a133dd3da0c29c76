// Laws of pairings.

ghost use Rattle.std.specs.Prelude.{◌≡◌, ◌≤◌, ◌<◌, ℕ, ℤ, List, Option, None, Bool, true, false, length};
ghost use Rattle.std.specs.List.Sorted.{IsStrictlyIncreasing};
ghost use Rattle.assignment_dual.specs.Pairings.{Row, IsPairing, IsLeast, cost, part, Apart};
ghost use Rattle.assignment_dual.specs.Parts.{part_at, at_plots, AreParts, IsPartOf};
ghost use Rattle.assignment_dual.specs.Problems.{Problem, IsProblem, rows_of, Proves};
ghost use Rattle.assignment_dual.specs.Renumbering.{AreRenumbered, renumbered};
ghost use Rattle.assignment_dual.specs.Rests.{no_row};
ghost use Rattle.assignment_dual.specs.Least.{least_pairing, GateBelow, AreAlike};

/// Where the plots of a batch fall in two sets and no track gates plots of both, the least pairing
/// of the batch is the two least pairings put together, also where the sets interleave.
pub fn disjoint_sets()
    ensures { (sides : List Bool) (rows : List Row) (xs : List (Option ℕ)) → length sides ≡ length rows → length xs ≡ length rows
        → Apart (part true sides rows) (part false sides rows)
        → IsLeast (part true sides rows) (part true sides xs) → IsLeast (part false sides rows) (part false sides xs) → IsLeast rows xs }
{}

/// No pairing costs less than one that prices prove.
pub fn proven_least()
    ensures { (p : Problem) (xs ys : List (Option ℕ)) (us vs : List ℤ) → Proves p xs us vs → IsPairing (rows_of p) ys → cost (rows_of p) xs ≤ cost (rows_of p) ys }
{}

/// The least pairing of a part, which names tracks by their places in a rising list of numbers, is
/// with these numbers in their stead the least pairing of the rows that name tracks by number.
pub fn renumbered_tracks()
    ensures { (numbers : List ℕ) (rows others : List Row) (xs : List (Option ℕ)) → IsStrictlyIncreasing numbers → AreRenumbered numbers rows others
        → IsLeast rows xs → IsLeast others (renumbered numbers xs) }
{}

/// The least pairing of a part's own problem, which names plots and tracks by their places in the
/// part, is the least pairing of the batch's rows of these plots.
pub fn part_of_batch()
    ensures { (p q : Problem) (plots tracks : List ℕ) (xs : List (Option ℕ)) → IsProblem p → IsProblem q → IsStrictlyIncreasing tracks → IsPartOf p plots tracks q
        → IsLeast (rows_of q) xs → IsLeast (at_plots no_row (rows_of p) plots) (renumbered tracks xs) }
{}

/// Where a batch falls in parts and no track gates plots of two, the least pairing of the batch is
/// the least pairings of the parts put together.
pub fn many_parts()
    ensures { (rows : List Row) (xs : List (Option ℕ)) (parts : List (List ℕ)) → length xs ≡ length rows → AreParts rows parts
        → ((i : ℕ) → i < length parts → IsLeast (at_plots no_row rows (part_at parts i)) (at_plots None xs (part_at parts i))) → IsLeast rows xs }
{}

/// The least pairing is a function of the batch's rows: `least_pairing` is a least one wherever its
/// tracks have indices below the number that it is given, and there is no other.
pub fn one_least_pairing()
    ensures is_least { (tracks : ℕ) (rows : List Row) → GateBelow tracks rows → IsLeast rows (least_pairing tracks rows) }
    ensures only { (rows : List Row) (xs ys : List (Option ℕ)) → IsLeast rows xs → IsLeast rows ys → xs ≡ ys }
    ensures of_problem { (p : Problem) (xs : List (Option ℕ)) → IsProblem p → IsLeast (rows_of p) xs → xs ≡ least_pairing p.tracks (rows_of p) }
{}

/// Batches whose rows agree have the same least pairing.
pub fn alike_batches()
    ensures { (rows others : List Row) (xs : List (Option ℕ)) → AreAlike rows others → IsLeast rows xs → IsLeast others xs }
{}

/// The least pairing of a batch, restricted to one of two sets of plots that no track joins, is the
/// least pairing of that set.
pub fn least_of_set()
    ensures { (sides : List Bool) (rows : List Row) (xs : List (Option ℕ)) → length sides ≡ length rows → Apart (part true sides rows) (part false sides rows)
        → IsLeast rows xs → IsLeast (part true sides rows) (part true sides xs) }
{}

/// The least pairing of a batch, restricted to a part of it, is the least pairing of the part.
pub fn least_of_part()
    ensures { (rows : List Row) (xs : List (Option ℕ)) (parts : List (List ℕ)) → AreParts rows parts → IsLeast rows xs
        → (i : ℕ) → IsLeast (at_plots no_row rows (part_at parts i)) (at_plots None xs (part_at parts i)) }
{}
