// What a batch's pairing does with the tracks.
ghost use Rattle.std.specs.Prelude.{◌≡◌, ◌<◌, List, length, All, IfSome, OnOk};
ghost use Rattle.assignment_dual.specs.Pairings.{Once};
ghost use Rattle.fixed_imm.specs.Aims.{mixed_aim};
ghost use Rattle.fixed_imm.specs.Bounds.{IsTimeStep, time_step};
ghost use Rattle.track_life.specs.Tracks.{TrackState, continued};
ghost use Rattle.slot_step.specs.Calls.{AreNear};
ghost use Rattle.slot_step.specs.Certificates.{IsAt};
ghost use Rattle.slot_step.specs.MixedAims.{AreMixed};
ghost use Rattle.slot_step.specs.Moving.{moved};
ghost use Rattle.slot_step.specs.Tracker.{tracking};

use fixed_imm::MixedAim;
use plot_geometry::PlanePlot;
use track_life::{LifeSettings, Track};
use trk_base::NoMemory;

// The mixed aim of the track at this index, where its gates needed one. The aims stand in rising
// index.
fn aim_of(aims: &[(u32, MixedAim)], index: u32) -> Option<&MixedAim>
    ensures { (ts : List TrackState) (t : TrackState) → AreMixed ts aims.now → IsAt ts index t → IfSome result (λ m. m.now ≡ mixed_aim t.aim) }
{
    let place = aims.partition_point(|aim| aim.0 < index);
    if place >= aims.len() {
        return None;
    }
    let found = &aims[place];
    if found.0 != index {
        return None;
    }
    Some(&found.1)
}

// The track after its plot, of its mixed aim where there is one.
fn update_track(
    before: &Track,
    mixed: Option<&MixedAim>,
    plot: &PlanePlot,
    life: &LifeSettings,
) -> Track
    requires mixed { IfSome mixed (λ m. m.now ≡ mixed_aim before.now.aim) }
    requires step { IsTimeStep (time_step before.now.aim.time plot.now.key.time) }
    ensures { result ≡ continued life.now.hits before.now plot.now }
{
    match mixed {
        Some(mixed) => before.update_mixed(mixed, plot, life),
        None => before.update(plot, life),
    }
}

/// Each track that is paired goes on with its plot, in its place, and each plot that is paired with
/// none begins a track at the end. The aims are those of tracks that were mixed for the gates.
pub(crate) fn move_tracks(
    tracks: &mut Vec<Track>,
    plots: &[PlanePlot],
    pairing: &[Option<u32>],
    aims: &[(u32, MixedAim)],
    life: &LifeSettings,
) -> Result<(), NoMemory>
    requires near { AreNear tracks.old.items plots.now }
    requires count { length pairing.now ≡ length plots.now }
    requires once { Once pairing.now }
    requires aims { AreMixed tracks.old.items aims.now }
    requires inside { All (λ x. IfSome x (λ t. t < length tracks.old.items)) pairing.now }
    ensures { OnOk result (tracks.new.items ≡ moved (tracking life.now) tracks.old.items plots.now pairing.now) }
{
    for (index, plot) in plots.iter().enumerate() {
        match pairing[index] {
            Some(track) => {
                let before = &tracks[track as usize];
                tracks[track as usize] = update_track(before, aim_of(aims, track), plot, life);
            }
            None => tracks.push(Track::begin(plot, life))?,
        }
    }
    Ok(())
}
