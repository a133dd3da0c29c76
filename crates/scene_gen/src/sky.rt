// The radars and what they look at, as time goes on.
ghost use Rattle.std.specs.Prelude.{◌≡◌, ◌≤◌, ◌+◌, ◌++◌, ◌^◌, ℕ, List, IfOk, OnOk};
ghost use Rattle.std.specs.List.{All, flat_map};
ghost use Rattle.rand_pcg.specs.Lcg.{Lcg};
ghost use Rattle.recording.specs.Items.{item_octets};
ghost use Rattle.scene_gen.specs.declared.fleet.Aircraft.{Aircraft};
ghost use Rattle.scene_gen.specs.Delays.{delayed};
ghost use Rattle.scene_gen.specs.Radars.{radars};
ghost use Rattle.scene_gen.specs.Scenes.{come_at};
ghost use Rattle.scene_gen.specs.Skies.{IsReady, IsSky, seen_before};
ghost use Rattle.scene_gen.specs.Sweeps.{HavePhases};

use crate::bearings::Directions;
use crate::datagrams::{PlotOctets, SECOND};
use crate::delays::{OnWay, none_on_way, send, take_at};
use crate::fleet::Aircraft;
use crate::sweeps::{Sweep, look_at, sweeps_of};
use rand_pcg::Pcg32;
use std::alloc::Global;
use trk_base::NoMemory;

/// What the radars see of a fleet, and the plots of it that are on their way.
#[derive(Drop)]
pub(crate) struct Sky {
    /// For how many seconds the radars see.
    pub seconds: u16,
    /// How many of a hundred plots are late.
    pub late: u8,
    /// One for each radar, by its feed.
    pub sweeps: Vec<Sweep>,
    /// The directions that bearings have asked for so far.
    pub directions: Directions,
    /// What the delays are drawn from.
    pub generator: Pcg32,
    /// The plots that were seen and haven't come yet.
    pub on_way: OnWay,
    /// The plots of one time; their room serves the next.
    pub plots: Vec<PlotOctets>,
}

impl Sky {
    /// The sky of a fleet at the start, with the generator that the delays are drawn from.
    pub fn over(
        alloc: Global,
        fleet: &[Aircraft],
        generator: Pcg32,
        seconds: u16,
        late: u8,
    ) -> Result<Sky, NoMemory>
        requires { All (λ r. HavePhases r fleet.now) radars }
        ensures ready { IfOk result IsReady }
        ensures start { IfOk result (IsSky fleet.now generator seconds late 0 0) }
    {
        Ok(Sky {
            seconds,
            late,
            sweeps: sweeps_of(alloc, fleet)?,
            directions: Directions::new(alloc)?,
            generator,
            on_way: none_on_way(alloc)?,
            plots: Vec::new(alloc),
        })
    }

    /// What is seen at a time gets on its way.
    pub fn see(&mut self, time: u32) -> Result<(), NoMemory>
        requires ready { IsReady self.old }
        requires time { time ≤ 2 ^ 31 }
        ensures ready { OnOk result (IsReady self.new) }
        ensures seen { (fleet : List Aircraft) (g : Lcg) (seconds late : ℕ) → IsSky fleet g seconds late time time self.old → OnOk result (IsSky fleet g seconds late (time + 1) time self.new) }
    {
        if time < SECOND * u32::from(self.seconds) {
            look_at(&self.sweeps, &mut self.directions, time, &mut self.plots)?;
            send(
                &self.plots,
                time,
                self.late,
                &mut self.generator,
                &mut self.on_way,
            )?;
        }
        Ok(())
    }

    /// Puts the plots that come at a time behind the octets.
    pub fn put_plots(&mut self, time: u32, octets: &mut Vec<u8>) -> Result<(), NoMemory>
        requires ready { IsReady self.old }
        ensures ready { OnOk result (IsReady self.new) }
        ensures come { (fleet : List Aircraft) (g : Lcg) (seconds late : ℕ) → IsSky fleet g seconds late (time + 1) time self.old → OnOk result (octets.new.items ≡ octets.old.items ++ flat_map item_octets (come_at (delayed late g (seen_before fleet seconds (time + 1))) time)) }
        ensures left { (fleet : List Aircraft) (g : Lcg) (seconds late : ℕ) → IsSky fleet g seconds late (time + 1) time self.old → OnOk result (IsSky fleet g seconds late (time + 1) (time + 1) self.new) }
    {
        take_at(time, &mut self.on_way, octets)
    }
}
