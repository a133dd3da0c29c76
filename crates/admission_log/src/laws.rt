// Laws of the definitions.
ghost use Rattle.std.specs.Prelude.{◌≡◌, ◌<◌, ◌≤◌, ◌^◌, ℕ, List, map, length, All, IsSomeAnd};
ghost use Rattle.std.specs.List.{range_with_len};
ghost use Rattle.std.specs.Cmp.{IsTotalOrder};
ghost use Rattle.std.specs.declared.cmp.Ordering.TheVariants.{Less};
ghost use Rattle.std.proofs.lemmas.Map.Lookups.{CmpEqualImpliesEq};
ghost use Rattle.std.specs.List.Sorted.{IsPermutation, IsSorted, IsStrictlySortedBy};
ghost use Rattle.trk_base.specs.Keys.{key_cmp};
ghost use Rattle.plot_geometry.specs.Plots.{PlanePlot};
ghost use Rattle.plot_geometry.specs.PlotOrder.{plot_cmp};
ghost use Rattle.asterix_frame.specs.Datagrams.{Content};
ghost use Rattle.admission_log.specs.declared.settings.Settings.{Settings};
ghost use Rattle.admission_log.specs.declared.events.Event.{Event};
ghost use Rattle.admission_log.specs.Deliveries.{IsDelivery};
ghost use Rattle.admission_log.specs.Histories.{History, first, last_of, admitted_of, next_of, high_at};
ghost use Rattle.admission_log.specs.Legality.{IsLegal, WasOpen};
ghost use Rattle.plot_geometry.specs.declared.biases.Bias.{Bias};
ghost use Rattle.admission_log.specs.declared.entries.Entry.{Entry};
ghost use Rattle.admission_log.specs.contracts.entries.EntryOrd.TheImpl.{ghosts};
ghost use Rattle.admission_log.specs.Entries.{HaveOwnKeys, entries_of, key_of, slot_in};
ghost use Rattle.admission_log.specs.EntryOrder.{entry_cmp};
ghost use Rattle.admission_log.specs.Biases.{HoldsAt, bias_at};
ghost use Rattle.admission_log.specs.Plots.{in_rising_key, plane_of, plots_of};

/// Plots have exactly one order in rising key: whoever sorts them gets it.
pub fn one_rising_order()
    ensures moves { (plots : List PlanePlot) → IsPermutation plots (in_rising_key plots) }
    ensures rises { (plots : List PlanePlot) → IsSorted plot_cmp (in_rising_key plots) }
    ensures only { (plots others : List PlanePlot) → IsPermutation plots others → IsSorted plot_cmp others → others ≡ in_rising_key plots }
{}

/// The arrivals of a legal log are the numbers from 0 on, in order.
pub fn arrivals_count()
    ensures { (settings : Settings) (log : History) → IsLegal settings log → map (λ a. a.arrival) (admitted_of log) ≡ range_with_len 0 (next_of log) }
{}

/// A datagram of given blocks has exactly one event, after a given last tick and next arrival.
pub fn one_delivery()
    ensures some { (settings : Settings) (last next feed : ℕ) (contents : List Content) → (event : Event) × IsDelivery settings last next feed contents event }
    ensures only { (settings : Settings) (last next feed : ℕ) (contents : List Content) (a b : Event) → IsDelivery settings last next feed contents a → IsDelivery settings last next feed contents b → a ≡ b }
{}

/// For a radar's plots in a slot exactly one bias holds: that of the last change, or its own.
pub fn one_bias()
    ensures holds { (log : History) (own : Bias) (radar n : ℕ) → HoldsAt log own radar n (bias_at log own radar n) }
    ensures only { (log : History) (own : Bias) (radar n : ℕ) (bias : Bias) → HoldsAt log own radar n bias → bias ≡ bias_at log own radar n }
{}

/// The order of `Ord` compares the slots of entries first, it is total, and only an entry itself
/// compares as equal to it.
pub fn entry_order()
    ensures order { (a b : Entry) → ghosts.cmp a b ≡ entry_cmp a b }
    ensures total { IsTotalOrder entry_cmp }
    ensures exact { CmpEqualImpliesEq entry_cmp }
    ensures slots { (a b : Entry) → entry_cmp a b ≡ Less → slot_in a ≤ slot_in b }
    ensures slot_first { (a b : Entry) → slot_in a < slot_in b → entry_cmp a b ≡ Less }
{}

/// No two entries of a legal log have one key: neither the slot and the index of a change's event,
/// nor the key of a plot.
pub fn own_keys()
    ensures { (settings : Settings) (log : History) → IsLegal settings log → HaveOwnKeys (entries_of log) }
{}

/// A legal log was legal at each earlier moment, and its last tick has never fallen and is below
/// 2^40.
pub fn legal_prefixes()
    ensures legal { (settings : Settings) (log : History) (n : ℕ) → IsLegal settings log → IsLegal settings (first n log) }
    ensures rises { (log : History) (n : ℕ) → last_of (first n log) ≤ last_of log }
    ensures in_time { (settings : Settings) (log : History) → IsLegal settings log → log.start < 2 ^ 40 → last_of log < 2 ^ 40 }
{}

/// Each plot that a legal log has admitted was open at some moment, is of a radar of the settings,
/// isn't too far ahead, and has its position and its key in the plane.
pub fn admitted_plots()
    ensures was_open { (settings : Settings) (log : History) → IsLegal settings log → All (WasOpen settings (last_of log)) (admitted_of log) }
    ensures radar { (settings : Settings) (log : History) → IsLegal settings log → All (λ a. a.radar < length settings.radars) (admitted_of log) }
    ensures not_ahead { (settings : Settings) (log : History) → IsLegal settings log → All (λ a. a.time ≤ high_at (last_of log)) (admitted_of log) }
    ensures plane { (settings : Settings) (log : History) → IsLegal settings log → All (λ a. IsSomeAnd (plane_of settings log a) (λ plot. plot.key ≡ key_of a)) (admitted_of log) }
{}

/// The keys of a legal log's plots strictly rise, so no two are the same.
pub fn keys_rise()
    ensures { (settings : Settings) (log : History) → IsLegal settings log → IsStrictlySortedBy key_cmp (map (λ plot. plot.key) (plots_of settings log)) }
{}
