//! Laws of the tracker's fold over plots.

ghost use Rattle.std.specs.Prelude.{List};
ghost use Rattle.std.specs.List.{AllByRecursion};
ghost use Rattle.plot_geometry.specs.Plots.{PlanePlot};
ghost use Rattle.track_life.specs.declared.settings.LifeSettings.{LifeSettings};
ghost use Rattle.track_life.specs.Tracks.{TrackState};
ghost use Rattle.late_window.specs.Folding.{AreOutsOf};
ghost use Rattle.slot_step.specs.declared.certs.KeyedCert.{KeyedCert};
ghost use Rattle.slot_step.specs.Told.{AreTold};
ghost use Rattle.slot_step.specs.Tracker.{step_tracks};
ghost use Rattle.track_parts.specs.Tracking.{next, slot_of_plot, AreCertified};
ghost use Rattle.track_parts.specs.Numbered.{living, AreWhole};

/// The certificates of the fold without numbers are those of the fold with numbers: numbers are part
/// of none. Each is a whole certificate, and tells the tracks of the table with numbers.
pub fn numbered_certificates()
    ensures certified { (life : LifeSettings) (start : List TrackState) (plots : List PlanePlot) (outs : List (List KeyedCert)) → AreOutsOf next slot_of_plot AreCertified (living life start) plots outs
        → AreOutsOf (step_tracks life) slot_of_plot (λ ts. AreCertified (living life ts)) start plots outs }
    ensures told { (life : LifeSettings) (start : List TrackState) (plots : List PlanePlot) (outs : List (List KeyedCert)) → AreOutsOf next slot_of_plot AreCertified (living life start) plots outs
        → AreOutsOf (step_tracks life) slot_of_plot (AreTold life) start plots outs }
    ensures whole { (life : LifeSettings) (start : List TrackState) (plots : List PlanePlot) (outs : List (List KeyedCert)) → AreOutsOf next slot_of_plot AreCertified (living life start) plots outs
        → AllByRecursion AreWhole outs }
{}
