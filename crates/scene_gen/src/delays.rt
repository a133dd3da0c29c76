// How long plots take to come, and those that are on their way.
ghost use Rattle.std.specs.Prelude.{◌≡◌, ◌≤◌, ◌+◌, ◌++◌, ◌%◌, ◌^◌, [], List, length, map, get_or, replicate, IfOk, OnOk};
ghost use Rattle.std.specs.List.{flat_map};
ghost use Rattle.recording.specs.Items.{Item, item_octets};
ghost use Rattle.scene_gen.specs.Delays.{Sent, after_delay, after_delays, delay, delayed};
ghost use Rattle.scene_gen.specs.OnWay.{AreOnWay};
ghost use Rattle.scene_gen.specs.Scenes.{come_at, plots_of};

use crate::buckets::Buckets;
use crate::datagrams::PlotOctets;
use crate::draws::draw;
use rand_pcg::Pcg32;
use std::alloc::Global;
use trk_base::NoMemory;

// What a plot takes at least, in 1/128 s.
const LEAST_DELAY: u32 = 64;

// How much longer a late plot may take stays below this, in 1/128 s.
const LATE: u32 = 1_024;

// Longer than any plot takes, in 1/128 s.
const LONGEST: u32 = LEAST_DELAY + LATE;

/// The plots that are on their way. Those that come at a time have its place modulo `LONGEST`.
pub(crate) type OnWay = Buckets<PlotOctets>;

/// No plots on their way.
pub(crate) fn none_on_way(alloc: Global) -> Result<OnWay, NoMemory>
    ensures { IfOk result (AreOnWay [] 0) }
{
    Buckets::new(alloc, LONGEST as usize)
}

// What the next plot takes, in 1/128 s.
fn next_delay(late: u8, generator: &mut Pcg32) -> u32
    ensures delay { result ≡ delay late generator.old }
    ensures least { 64 ≤ result }
    ensures most { result ≤ 1087 }
    ensures after { generator.new ≡ after_delay late generator.old }
{
    if draw(100, generator) < u32::from(late) {
        LEAST_DELAY + draw(LATE, generator)
    } else {
        LEAST_DELAY
    }
}

/// Plots that were seen at this time get on their way, each with a delay of its own.
pub(crate) fn send(
    plots: &[PlotOctets],
    time: u32,
    late: u8,
    generator: &mut Pcg32,
    on_way: &mut OnWay,
) -> Result<(), NoMemory>
    requires time { time ≤ 2 ^ 31 }
    requires count { length on_way.old ≡ 1088 }
    ensures sent { (before : List Sent) (items : List Item) → plots.now ≡ map item_octets items → AreOnWay before time on_way.old → OnOk result (AreOnWay (before ++ delayed late generator.old (plots_of time items)) time on_way.new) }
    ensures after { (items : List Item) → plots.now ≡ map item_octets items → OnOk result (generator.new ≡ after_delays late generator.old (plots_of time items)) }
    ensures count { OnOk result (length on_way.new ≡ 1088) }
{
    for plot in plots {
        let comes = time + next_delay(late, generator);
        on_way.push((comes % LONGEST) as usize, *plot)?;
    }
    Ok(())
}

/// Takes the plots that come at this time, and puts them behind the octets.
pub(crate) fn take_at(time: u32, on_way: &mut OnWay, octets: &mut Vec<u8>) -> Result<(), NoMemory>
    requires count { length on_way.old ≡ 1088 }
    ensures taken { (before : List Sent) → AreOnWay before time on_way.old → OnOk result (octets.new.items ≡ octets.old.items ++ flat_map item_octets (come_at before time)) }
    ensures left { (before : List Sent) → AreOnWay before time on_way.old → OnOk result (AreOnWay before (time + 1) on_way.new) }
    ensures count { OnOk result (length on_way.new ≡ 1088) }
{
    let place = (time % LONGEST) as usize;
    for plot in on_way.at(place) {
        octets.extend_from_slice(plot)?;
    }
    on_way.clear(place);
    Ok(())
}
