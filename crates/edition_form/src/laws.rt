// Laws of the definitions.
ghost use Rattle.std.specs.Prelude.{◌≡◌, ℕ, List};
ghost use Rattle.std.specs.Ordering.{nat_cmp};
ghost use Rattle.std.specs.List.Sorted.{IsNonDecreasingBy, IsPermutation, IsStableByKey};
ghost use Rattle.admission_log.specs.declared.settings.Settings.{Settings};
ghost use Rattle.admission_log.specs.Histories.{History, last_of};
ghost use Rattle.admission_log.specs.Legality.{IsLegal};
ghost use Rattle.slot_step.specs.Calls.{AreFromBefore};
ghost use Rattle.edition_form.specs.Folding.{table_before, table_of};
ghost use Rattle.edition_form.specs.Numbered.{in_rising_number};
ghost use Rattle.edition_form.specs.Pictures.{AreEarlier, HaveOwnNumbers};
ghost use Rattle.edition_form.specs.Datagrams.{AreDatagramsOf};

/// A log has the datagrams of an edition, after any cut before and of any number, and has none
/// besides.
pub fn one_edition()
    ensures some { (settings : Settings) (log : History) (before number : ℕ) → (datagrams : List (List ℕ)) × AreDatagramsOf settings log before number datagrams }
    ensures only { (settings : Settings) (log : History) (before number : ℕ) (one other : List (List ℕ)) → AreDatagramsOf settings log before number one → AreDatagramsOf settings log before number other → one ≡ other }
{}

/// A list in rising number is what a stable sort by the number makes of it, and nothing else is.
pub fn one_rising_number<X>()
    ensures moves { (number : X → ℕ) (xs : List X) → IsPermutation xs (in_rising_number number xs) }
    ensures rises { (number : X → ℕ) (xs : List X) → IsNonDecreasingBy number (in_rising_number number xs) }
    ensures stays { (number : X → ℕ) (xs : List X) → IsStableByKey number nat_cmp xs (in_rising_number number xs) }
    ensures only { (number : X → ℕ) (xs ys : List X) → IsNonDecreasingBy number ys → IsStableByKey number nat_cmp xs ys → ys ≡ in_rising_number number xs }
{}

/// The tables of a legal log are what `pictured` asks for: no two tracks have one number, and each is
/// from before the slot, so from before the last tick.
pub fn folded_tables()
    ensures numbers { (settings : Settings) (log : History) (slot : ℕ) → IsLegal settings log → HaveOwnNumbers (table_before settings log slot) }
    ensures before { (settings : Settings) (log : History) (slot : ℕ) → IsLegal settings log → AreFromBefore slot (table_before settings log slot) }
    ensures earlier { (settings : Settings) (log : History) → IsLegal settings log → AreEarlier (last_of log) (table_of settings log) }
{}
