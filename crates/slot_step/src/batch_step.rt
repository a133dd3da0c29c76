// The step of one batch.
ghost use Rattle.std.specs.Prelude.{◌≡◌, ◌<◌, ◌-◌, ◌^◌, length, OnOk};
ghost use Rattle.std.specs.List.{AllByRecursion};
ghost use Rattle.std.specs.List.Sorted.{IsStrictlySortedBy};
ghost use Rattle.trk_base.specs.Keys.{key_cmp};
ghost use Rattle.price_form.specs.Certificates.{IsCert};
ghost use Rattle.slot_step.specs.Batches.{batch_step};
ghost use Rattle.slot_step.specs.Calls.{AreNear};
ghost use Rattle.slot_step.specs.ToldComponents.{AreToldBehind};
ghost use Rattle.slot_step.specs.Tracker.{tracking};

use crate::KeyedCert;
use crate::gates::batch_costs;
use crate::moving::move_tracks;
use crate::pairing::pair;
use plot_geometry::PlanePlot;
use std::alloc::Global;
use track_life::{LifeSettings, Track};
use trk_base::NoMemory;

/// The tracks after a batch: the gates are those of the tracks at its start. Its certificates are put
/// at the end of the others.
///
/// Memory is wanting too where there would be 2^32 - 1 tracks.
pub(crate) fn step_batch(
    alloc: Global,
    tracks: &mut Vec<Track>,
    plots: &[PlanePlot],
    life: &LifeSettings,
    certs: &mut Vec<KeyedCert>,
) -> Result<(), NoMemory>
    requires few { length tracks.old.items < 2 ^ 32 - 1 }
    requires tracks { IsStrictlySortedBy (λ t u. key_cmp t.birth u.birth) tracks.old.items }
    requires plots { IsStrictlySortedBy (λ p q. key_cmp p.key q.key) plots.now }
    requires near { AreNear tracks.old.items plots.now }
    ensures tracks { OnOk result (tracks.new.items ≡ batch_step (tracking life.now) tracks.old.items plots.now) }
    ensures few { OnOk result (length tracks.new.items < 2 ^ 32 - 1) }
    ensures certs { OnOk result (AreToldBehind life.now tracks.old.items plots.now certs.old.items certs.new.items) }
    ensures whole { AllByRecursion (λ c. IsCert c.cert) certs.old.items → OnOk result (AllByRecursion (λ c. IsCert c.cert) certs.new.items) }
{
    if plots.len() > u32::MAX as usize {
        return Err(NoMemory);
    }
    let mut aims = Vec::new(alloc);
    let whole = batch_costs(alloc, tracks, plots, &mut aims)?;
    let pairing = pair(alloc, tracks, plots, &whole, certs)?;
    move_tracks(tracks, plots, &pairing, &aims, life)?;
    if tracks.len() >= u32::MAX as usize {
        return Err(NoMemory);
    }
    Ok(())
}
