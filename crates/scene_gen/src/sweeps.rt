// What the radars see, turn by turn.
ghost use Rattle.std.specs.Prelude.{◌≡◌, ◌++◌, map, get_or, IfOk, OnOk};
ghost use Rattle.std.specs.List.{All, flat_map};
ghost use Rattle.recording.specs.Items.{item_octets};
ghost use Rattle.scene_gen.specs.Radars.{radars};
ghost use Rattle.scene_gen.specs.Sweeps.{AreSweeps, HasByPhase, HavePhases, IsRadar, IsWhole, seen_by};

use crate::bearings::Directions;
use crate::buckets::Buckets;
use crate::datagrams::{PlotOctets, plot_octets};
use crate::fleet::Aircraft;
use crate::radars::{RADARS, SceneRadar};
use crate::sightings::sighting;
use std::alloc::Global;
use trk_base::NoMemory;

/// The aircraft of a radar by their phases: in each turn of the antenna it sees them in this order.
#[derive(Drop)]
pub(crate) struct Sweep {
    /// Whose antenna turns.
    pub radar: SceneRadar,
    /// The aircraft of each phase, in 1/128 s from 0 up to the radar's period.
    pub by_phase: Buckets<Aircraft>,
}

impl Sweep {
    // The aircraft, by their phases.
    fn of(alloc: Global, radar: SceneRadar, fleet: &[Aircraft]) -> Result<Sweep, NoMemory>
        requires radar { IsRadar radar }
        requires phases { HavePhases radar fleet.now }
        ensures radar { IfOk result (λ s. s.radar ≡ radar) }
        ensures whole { IfOk result IsWhole }
        ensures by_phase { IfOk result (HasByPhase fleet.now) }
    {
        let mut by_phase = Buckets::new(alloc, radar.period as usize)?;
        for aircraft in fleet {
            let phase = aircraft.phases[usize::from(radar.feed)];
            by_phase.push(phase as usize, *aircraft)?;
        }
        Ok(Sweep { radar, by_phase })
    }

    // Puts the plots of a time behind those that are there.
    fn look(
        &self,
        directions: &mut Directions,
        time: u32,
        plots: &mut Vec<PlotOctets>,
    ) -> Result<(), NoMemory>
        requires { IsWhole self.now }
        ensures { OnOk result (plots.new.items ≡ plots.old.items ++ map item_octets (seen_by time self.now)) }
    {
        for aircraft in self.by_phase.at((time % self.radar.period) as usize) {
            if let Some(polar) = sighting(directions, &self.radar, aircraft, time) {
                plots.push(plot_octets(&self.radar, aircraft, time, polar))?;
            }
        }
        Ok(())
    }
}

/// The aircraft of each radar.
pub(crate) fn sweeps_of(alloc: Global, fleet: &[Aircraft]) -> Result<Vec<Sweep>, NoMemory>
    requires { All (λ r. HavePhases r fleet.now) radars }
    ensures { IfOk result (λ v. AreSweeps fleet.now v.items) }
{
    let mut sweeps = Vec::with_capacity(alloc, RADARS.len())?;
    for radar in &RADARS {
        sweeps.push(Sweep::of(alloc, *radar, fleet)?)?;
    }
    Ok(sweeps)
}

/// The plots that the radars see at a time in 1/128 s since the start, by radar, then by aircraft.
/// They take the place of those that were there.
pub(crate) fn look_at(
    sweeps: &[Sweep],
    directions: &mut Directions,
    time: u32,
    plots: &mut Vec<PlotOctets>,
) -> Result<(), NoMemory>
    requires { All IsWhole sweeps.now }
    ensures { OnOk result (plots.new.items ≡ map item_octets (flat_map (seen_by time) sweeps.now)) }
{
    plots.clear();
    for sweep in sweeps {
        sweep.look(directions, time, plots)?;
    }
    Ok(())
}
