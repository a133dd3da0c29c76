// Laws of folds.
ghost use Rattle.std.specs.Prelude.{◌≡◌, ℕ, List};
ghost use Rattle.late_window.specs.Folding.{before, after, IsMark};

/// A step that marks what another step gives, and reads no mark, may be run without marks: each
/// state is marked afterwards, against the one before it.
pub fn marks_last<S, I>()
    ensures { (next : S → ℕ → List I → S) (bare : S → S) (mark : S → S → S) (slot : I → ℕ) (s : S) (items : List I) (n : ℕ) → IsMark next bare mark
        → after (λ t m xs. mark t (next t m xs)) slot s items n ≡ mark (before (λ t m xs. mark t (next t m xs)) slot s items n) (after next slot s items n) }
{}
