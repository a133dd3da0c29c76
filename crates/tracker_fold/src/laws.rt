// Laws of the tracker's fold.
ghost use Rattle.std.specs.Prelude.{◌≡◌, ◌<◌, ◌≤◌, ◌+◌, ℕ, List, [], map, slice_get};
ghost use Rattle.trk_base.specs.Numbers.{slot_of};
ghost use Rattle.plot_geometry.specs.declared.radars.RadarSettings.{RadarSettings};
ghost use Rattle.plot_geometry.specs.PlotOrder.{plot_cmp};
ghost use Rattle.late_window.specs.Folding.{at_slot, below, slots, states, AreOutsOf, BeforeFirst, OutsAt, Rises};
ghost use Rattle.slot_step.specs.declared.certs.KeyedCert.{KeyedCert};
ghost use Rattle.slot_step.specs.Calls.{AreFromBefore};
ghost use Rattle.slot_step.specs.Told.{AreTold};
ghost use Rattle.slot_step.specs.Tracker.{step_tracks};
ghost use Rattle.admission_log.specs.declared.settings.Settings.{Settings};
ghost use Rattle.admission_log.specs.declared.entries.Entry.{Entry};
ghost use Rattle.admission_log.specs.Histories.{History, last_of};
ghost use Rattle.admission_log.specs.Entries.{entries_of, slot_in};
ghost use Rattle.admission_log.specs.EntryOrder.{entry_cmp};
ghost use Rattle.admission_log.specs.Biases.{radar_among};
ghost use Rattle.admission_log.specs.Plots.{plots_of};
ghost use Rattle.tracker_fold.specs.declared.state.TrackerState.{TrackerState};
ghost use Rattle.tracker_fold.specs.Keys.{key_in};
ghost use Rattle.tracker_fold.specs.Spans.{AreAllPlots, AreWhole, with_table};
ghost use Rattle.tracker_fold.specs.Starts.{start};
ghost use Rattle.tracker_fold.specs.Steps.{next, planes, radars_after, IsBefore, IsOut};
ghost use Rattle.tracker_fold.specs.Folds.{AreEntriesOf, AreFilledFrom, AreCertificatesFrom, state_before, slot_of_plot, tracks_before};

/// The fold keeps the life of tracks, and its radars are the settings' after the changes among the
/// entries below the slot. After a slot each radar has the biases that the log gives for it.
pub fn folded_radars()
    ensures life { (settings : Settings) (all : List Entry) (n : ℕ) → (state_before settings all n).life ≡ settings.life }
    ensures below { (settings : Settings) (log : History) (all : List Entry) → AreEntriesOf log all → (n : ℕ) → (state_before settings all n).radars ≡ radars_after settings.radars (below slot_in n all) }
    ensures next { (settings : Settings) (all : List Entry) (n : ℕ) → (state_before settings all (n + 1)).radars ≡ radars_after (state_before settings all n).radars (at_slot slot_in n all) }
    ensures biases { (settings : Settings) (log : History) (all : List Entry) → AreEntriesOf log all → (n radar : ℕ) → slice_get (state_before settings all (n + 1)).radars radar ≡ radar_among settings (entries_of log) radar n }
{}

/// The fold of a log's entries is that of its plots. Up to the slot of the last tick a slot's entries
/// give the log's plots of the slot, and the table before a slot is that of the fold of all plots.
/// The certificates of a slot are those of the slot's step in that fold, and together they are those
/// of the slots that have plots.
pub fn folded_log()
    ensures plots { (settings : Settings) (log : History) (all : List Entry) → AreEntriesOf log all → (n : ℕ) → n < slot_of (last_of log)
        → planes (radars_after (state_before settings all n).radars (at_slot slot_in n all)) (at_slot slot_in n all) ≡ at_slot slot_of_plot n (plots_of settings log) }
    ensures table { (settings : Settings) (log : History) (all : List Entry) → AreEntriesOf log all → (n : ℕ) → n ≤ slot_of (last_of log) → (state_before settings all n).table ≡ tracks_before settings log n }
    ensures told { (settings : Settings) (log : History) (all : List Entry) → AreEntriesOf log all → (n : ℕ) → n < slot_of (last_of log) → (certs : List KeyedCert) → IsOut (state_before settings all n) n (at_slot slot_in n all) certs
        → AreTold settings.life (tracks_before settings log n) n (at_slot slot_of_plot n (plots_of settings log)) certs }
    ensures certificates { (settings : Settings) (log : History) (all : List Entry) → AreEntriesOf log all → (low : ℕ) (filled : List ℕ) → AreFilledFrom log low filled → (told : List (List KeyedCert))
        → OutsAt next slot_in IsOut (start settings) all filled told → AreCertificatesFrom settings log low told }
{}

/// Entries that are all plots of known radars are folded as their plots are, whatever the state
/// before them: the same slots are filled, the states have the tracks of the plots' fold and all else
/// of the state before, and certificates of the plots' fold are outs of the entries'.
pub fn folded_span()
    ensures slots { (radars : List RadarSettings) (entries : List Entry) → AreAllPlots radars entries → slots slot_in entries ≡ slots slot_of_plot (planes radars entries) }
    ensures rise { (radars : List RadarSettings) (entries : List Entry) → Rises entry_cmp key_in entries → Rises plot_cmp (λ p. p.key) (planes radars entries) }
    ensures before { (s : TrackerState) (entries : List Entry) → AreAllPlots s.radars entries → BeforeFirst IsBefore slot_in s entries → BeforeFirst (λ ts n. AreFromBefore n ts) slot_of_plot s.table (planes s.radars entries) }
    ensures states { (s : TrackerState) (entries : List Entry) → AreAllPlots s.radars entries → states next slot_in s entries ≡ map (with_table s) (states (step_tracks s.life) slot_of_plot s.table (planes s.radars entries)) }
    ensures outs { (s : TrackerState) (entries : List Entry) → AreAllPlots s.radars entries → (told : List (List KeyedCert)) → AreOutsOf (step_tracks s.life) slot_of_plot (AreTold s.life) s.table (planes s.radars entries) told → AreWhole told
        → AreOutsOf next slot_in IsOut s entries told }
{}
