//! Laws of the slot's step.

ghost use Rattle.std.specs.Prelude.{◌≡◌, ◌<◌, ◌≤◌, ◌+◌, ◌++◌, ◌⊎◌, ℕ, Bool, true, List, [], ◌∷◌, length, map, Contains, Option};
ghost use Rattle.std.specs.List.{AllByRecursion, AllZip};
ghost use Rattle.trk_base.specs.declared.keys.Key.{Key};
ghost use Rattle.assignment_dual.specs.Pairings.{IsLeast};
ghost use Rattle.assignment_dual.specs.Problems.{Problem, rows_of};
ghost use Rattle.cluster_split.specs.declared.splitting.Component.{Component};
ghost use Rattle.cluster_split.specs.Components.{AreComponents};
ghost use Rattle.track_life.specs.declared.settings.LifeSettings.{LifeSettings};
ghost use Rattle.track_life.specs.Tracks.{TrackState};
ghost use Rattle.slot_step.specs.Interleavings.{Interleaved, KeysDiffer};
ghost use Rattle.slot_step.specs.Batches.{Tracking, least, batch_step, of_radar, GateNone};
ghost use Rattle.slot_step.specs.Slots.{Ordered, OrderLaws, IsTable, ArePlots, AreInSlot, IsBefore, IsGated, plot_radar, radar_limit, unexpired, batch_table, run};
ghost use Rattle.slot_step.specs.Keyed.{keyed};
ghost use Rattle.slot_step.specs.Problems.{IsProblemOf};
ghost use Rattle.slot_step.specs.Components.{edge_pairs, IsSolved};
ghost use Rattle.slot_step.specs.Tracker.{tracking, ordered, numbering};
ghost use Rattle.slot_step.specs.Numbers.{Numbering, NumberLaws, numbered, slot_step, without_numbers};
ghost use Rattle.slot_step.specs.Certificates.{Certificate, AreCertificates, AreCertificatesOf, AreCertificatesBelow};
ghost use Rattle.slot_step.specs.Parts.{merged, merged_certificates, AreBeside, DontCross, AreTwoParts, Part, all_merged, all_certificates, AreParts};

/// A batch without plots changes nothing.
pub fn empty_batch<T, P>()
    ensures { (k : Tracking T P) (tracks : List T) → batch_step k tracks [] ≡ tracks }
{}

/// Where no track of one table gates a plot of the other batch, the step of both batches, however
/// their tracks and their plots interleave, is the two steps put together.
pub fn two_batches<T, P>()
    ensures { (k : Tracking T P) (one other both : List T) → Interleaved one other both → (plots others all : List P) → Interleaved plots others all
        → GateNone k.gate one others → GateNone k.gate other plots → Interleaved (batch_step k one plots) (batch_step k other others) (batch_step k both all) }
{}

/// The least pairing of the assignment problem whose edges are a batch's gates, by the indices of
/// plots and tracks, is the batch's least pairing.
pub fn problem_of_batch<T, P>()
    ensures { (k : Tracking T P) (tracks : List T) (plots : List P) (p : Problem) → IsProblemOf k.gate tracks plots p → (xs : List (Option ℕ)) → IsLeast (rows_of p) xs → xs ≡ least k tracks plots }
{}

/// The components of a batch's gate graph, each with its own part of the batch's problem solved, give
/// the certificates of the batch: each pairs its plots as the whole batch's least pairing does, each
/// plot stands in one, and they are in the order of their least plots.
pub fn component_certificates<T, P, K>()
    ensures { (k : Tracking T P) (o : Ordered T P K) → OrderLaws k o → (tracks : List T) (batch : List P) (p : Problem) → IsTable o tracks → ArePlots o batch → IsProblemOf k.gate tracks batch p
        → (parts : List Component) (cs : List (Certificate P K)) → AreComponents (length batch) (edge_pairs p.edges) parts → AllZip (IsSolved o tracks batch p) parts cs → AreCertificatesOf k o tracks batch cs }
{}

/// The certificates of a slot are those of its batches, one batch after the other in rising radar.
pub fn batch_certificates<T, P, K>()
    ensures none { (k : Tracking T P) (o : Ordered T P K) → OrderLaws k o → (tracks : List T) (slot : ℕ) (plots : List P) → AreCertificatesBelow k o tracks slot plots 0 [] }
    ensures more { (k : Tracking T P) (o : Ordered T P K) → OrderLaws k o → (tracks : List T) (slot : ℕ) (plots : List P) (radar : ℕ) (cs ds : List (Certificate P K)) → AreInSlot o slot plots → AreCertificatesBelow k o tracks slot plots radar cs
        → AreCertificatesOf k o (batch_table k o tracks slot plots radar) (of_radar (plot_radar o) radar plots) ds → AreCertificatesBelow k o tracks slot plots (radar + 1) (cs ++ ds) }
    ensures all { (k : Tracking T P) (o : Ordered T P K) → OrderLaws k o → (tracks : List T) (slot : ℕ) (plots : List P) (cs : List (Certificate P K)) → AllByRecursion (λ p. plot_radar o p < radar_limit) plots
        → AreCertificatesBelow k o tracks slot plots radar_limit cs → AreCertificates k o tracks slot plots cs }
{}

/// Keys in the one order of all plots meet what is asked of an order, whatever tracks and plots they
/// are of: it is enough that an update keeps a track's birth, that a track's birth is the key of its
/// first plot, and that a track which is kept in a slot was kept in each earlier one.
pub fn keyed_tracks<T, P>()
    ensures { (k : Tracking T P) (birth : T → Key) (key : P → Key) (kept : ℕ → T → Bool) → ((t : T) (p : P) → birth (k.update t p) ≡ birth t) → ((p : P) → birth (k.begin p) ≡ key p)
        → ((t : T) (early late : ℕ) → early ≤ late → kept late t ≡ true → kept early t ≡ true) → OrderLaws k (keyed birth key kept) }
{}

/// Expiry at a slot and then at a later one is expiry at the later one.
pub fn expired_twice<T, P, K>()
    ensures { (k : Tracking T P) (o : Ordered T P K) → OrderLaws k o → (tracks : List T) (early late : ℕ) → early ≤ late → unexpired o late (unexpired o early tracks) ≡ unexpired o late tracks }
{}

/// A table from before a slot is from before each later one. At the start of each batch of the slot
/// the births strictly rise, and after its run the table is from before the next slot.
pub fn tables_before<T, P, K>()
    ensures stays { (k : Tracking T P) (o : Ordered T P K) → OrderLaws k o → (tracks : List T) (early late : ℕ) → early ≤ late → IsBefore o tracks early → IsBefore o tracks late }
    ensures batches { (k : Tracking T P) (o : Ordered T P K) → OrderLaws k o → (tracks : List T) (slot : ℕ) (plots : List P) → AreInSlot o slot plots → ArePlots o plots → IsBefore o tracks slot
        → (radar : ℕ) → IsTable o (batch_table k o tracks slot plots radar) }
    ensures run { (k : Tracking T P) (o : Ordered T P K) → OrderLaws k o → (tracks : List T) (slot : ℕ) (plots : List P) → AreInSlot o slot plots → ArePlots o plots → IsBefore o tracks slot
        → IsBefore o (run k o tracks slot plots) (slot + 1) }
{}

/// Two tables that share no birth, merged, are the one table that both make, in any order and
/// grouping. It shares no birth with a third table that neither does, and after the runs of a slot
/// the two still share none.
pub fn merged_tables<T, P, K>()
    ensures both { (k : Tracking T P) (o : Ordered T P K) → OrderLaws k o → (one other : List T) → AreBeside o one other → Interleaved one other (merged o one other) × IsTable o (merged o one other) }
    ensures only { (k : Tracking T P) (o : Ordered T P K) → OrderLaws k o → (one other all : List T) → AreBeside o one other → Interleaved one other all → IsTable o all → all ≡ merged o one other }
    ensures back { (k : Tracking T P) (o : Ordered T P K) → OrderLaws k o → (one other : List T) → AreBeside o one other → AreBeside o other one × (merged o one other ≡ merged o other one) }
    ensures rest { (k : Tracking T P) (o : Ordered T P K) → OrderLaws k o → (one other third : List T) → AreBeside o one other → AreBeside o one third → AreBeside o other third
        → AreBeside o (merged o one other) third × (merged o (merged o one other) third ≡ merged o one (merged o other third)) }
    ensures before { (k : Tracking T P) (o : Ordered T P K) → OrderLaws k o → (one other : List T) (slot : ℕ) → AreBeside o one other → IsBefore o one slot → IsBefore o other slot → IsBefore o (merged o one other) slot }
    ensures run { (k : Tracking T P) (o : Ordered T P K) → OrderLaws k o → (one other : List T) (slot : ℕ) (plots others : List P) → AreBeside o one other → IsBefore o one slot → IsBefore o other slot
        → AreInSlot o slot plots → AreInSlot o slot others → ArePlots o plots → ArePlots o others → KeysDiffer o.key plots others → AreBeside o (run k o one slot plots) (run k o other slot others) }
{}

/// Where two parts of a slot don't cross, the run of both is the two runs merged, by birth; the
/// certificates of both are the two lists merged, by radar and least plot; and what is gated in the
/// run of both is gated in one of the two. Tracks and plots of the parts may interleave.
pub fn run_in_two_parts<T, P, K>()
    ensures tables { (k : Tracking T P) (o : Ordered T P K) → OrderLaws k o → (one other : List T) (slot : ℕ) (plots others all : List P) → AreTwoParts o slot one other plots others all → DontCross k o slot one other plots others
        → run k o (merged o one other) slot all ≡ merged o (run k o one slot plots) (run k o other slot others) }
    ensures certificates { (k : Tracking T P) (o : Ordered T P K) → OrderLaws k o → (one other : List T) (slot : ℕ) (plots others all : List P) → AreTwoParts o slot one other plots others all → DontCross k o slot one other plots others
        → (cs ds : List (Certificate P K)) → AreCertificates k o one slot plots cs → AreCertificates k o other slot others ds → AreCertificates k o (merged o one other) slot all (merged_certificates o cs ds) }
    ensures alone { (k : Tracking T P) (o : Ordered T P K) → OrderLaws k o → (one other : List T) (slot : ℕ) (plots : List P) → AreTwoParts o slot one other plots [] plots → DontCross k o slot one other plots []
        → (cs : List (Certificate P K)) → AreCertificates k o one slot plots cs → AreCertificates k o (merged o one other) slot plots cs }
    ensures gates { (k : Tracking T P) (o : Ordered T P K) → OrderLaws k o → (one other : List T) (slot : ℕ) (plots others all : List P) → AreTwoParts o slot one other plots others all → DontCross k o slot one other plots others
        → (p : P) → IsGated k o (merged o one other) slot all p → IsGated k o one slot plots p ⊎ IsGated k o other slot others p }
{}

/// The same for any number of parts of which no two cross: their tables and their certificates are
/// merged one after the other.
pub fn run_in_parts<T, P, K>()
    ensures tables { (k : Tracking T P) (o : Ordered T P K) → OrderLaws k o → (slot : ℕ) (part : Part T P) (parts : List (Part T P)) (all : List P) → AreParts k o slot (part ∷ parts) all
        → run k o (all_merged o part.tracks (map (λ p. p.tracks) parts)) slot all ≡ all_merged o (run k o part.tracks slot part.plots) (map (λ p. run k o p.tracks slot p.plots) parts) }
    ensures certificates { (k : Tracking T P) (o : Ordered T P K) → OrderLaws k o → (slot : ℕ) (part : Part T P) (parts : List (Part T P)) (all : List P) (cs : List (Certificate P K)) (css : List (List (Certificate P K)))
        → AreParts k o slot (part ∷ parts) all → AreCertificates k o part.tracks slot part.plots cs → AllZip (λ p ds. AreCertificates k o p.tracks slot p.plots ds) parts css
        → AreCertificates k o (all_merged o part.tracks (map (λ p. p.tracks) parts)) slot all (all_certificates o cs css) }
    ensures gates { (k : Tracking T P) (o : Ordered T P K) → OrderLaws k o → (slot : ℕ) (part : Part T P) (parts : List (Part T P)) (all : List P) (p : P) → AreParts k o slot (part ∷ parts) all
        → IsGated k o (all_merged o part.tracks (map (λ p. p.tracks) parts)) slot all p → (q : Part T P) × Contains (part ∷ parts) q × IsGated k o q.tracks slot q.plots p }
{}

/// A slot without plots is expiry alone. A table that took one steps, certifies and gates in a later
/// slot as one that didn't.
pub fn resting<T, P, K>()
    ensures expires { (k : Tracking T P) (o : Ordered T P K) → OrderLaws k o → (tracks : List T) (slot : ℕ) → run k o tracks slot [] ≡ unexpired o slot tracks }
    ensures run { (k : Tracking T P) (o : Ordered T P K) → OrderLaws k o → (tracks : List T) (early late : ℕ) (plots : List P) → early ≤ late → run k o (run k o tracks early []) late plots ≡ run k o tracks late plots }
    ensures certificates { (k : Tracking T P) (o : Ordered T P K) → OrderLaws k o → (tracks : List T) (early late : ℕ) (plots : List P) (cs : List (Certificate P K)) → early ≤ late
        → AreCertificates k o tracks late plots cs → AreCertificates k o (run k o tracks early []) late plots cs }
    ensures gates { (k : Tracking T P) (o : Ordered T P K) → OrderLaws k o → (tracks : List T) (early late : ℕ) (plots : List P) (p : P) → early ≤ late
        → IsGated k o (run k o tracks early []) late plots p → IsGated k o tracks late plots p }
{}

/// A run reads no numbers: tables that differ in numbers alone run to tables that do. So numbers can
/// be given after all runs, in the order of the slots: they change nothing else, and depend on
/// nothing but the table before and on what isn't a number. A run itself keeps them.
pub fn unread_numbers<T, P, K>()
    ensures run { (k : Tracking T P) (o : Ordered T P K) (m : Numbering T) → OrderLaws k o → NumberLaws k o m → (tracks : List T) (slot : ℕ) (plots : List P)
        → run k o (without_numbers m tracks) slot plots ≡ without_numbers m (run k o tracks slot plots) }
    ensures unread { (k : Tracking T P) (o : Ordered T P K) (m : Numbering T) → OrderLaws k o → NumberLaws k o m → (one other : List T) (slot : ℕ) (plots : List P) → without_numbers m one ≡ without_numbers m other
        → without_numbers m (run k o one slot plots) ≡ without_numbers m (run k o other slot plots) }
    ensures hidden { (k : Tracking T P) (o : Ordered T P K) (m : Numbering T) → OrderLaws k o → NumberLaws k o m → (before tracks : List T) → without_numbers m (numbered o m before tracks) ≡ without_numbers m tracks }
    ensures anew { (k : Tracking T P) (o : Ordered T P K) (m : Numbering T) → OrderLaws k o → NumberLaws k o m → (before one other : List T) → without_numbers m one ≡ without_numbers m other
        → numbered o m before one ≡ numbered o m before other }
    ensures kept { (k : Tracking T P) (o : Ordered T P K) (m : Numbering T) → OrderLaws k o → NumberLaws k o m → (tracks : List T) (slot : ℕ) (plots : List P) → IsBefore o tracks slot → AreInSlot o slot plots
        → slot_step k o m tracks slot plots ≡ m.assigned (run k o tracks slot plots) }
{}

/// The tracker's tracks and plots meet what the laws ask, whatever its settings, and so do their
/// numbers where giving them changes nothing else.
pub fn tracker_laws()
    ensures ordered { (life : LifeSettings) → OrderLaws (tracking life) (ordered life) }
    ensures numbered { (life : LifeSettings) (assigned : List TrackState → List TrackState) → ((tracks : List TrackState) → without_numbers (numbering assigned) (assigned tracks) ≡ without_numbers (numbering assigned) tracks)
        → NumberLaws (tracking life) (ordered life) (numbering assigned) }
{}
