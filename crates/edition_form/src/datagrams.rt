// The datagrams of an edition.
ghost use Rattle.std.specs.Prelude.{◌≡◌, ◌<◌, ◌≤◌, ◌++◌, [], ◌∷◌, ℕ, List, map, length, IfOk, OnOk, take};
ghost use Rattle.std.specs.Option.{option_to_list};
ghost use Rattle.asterix_frame.specs.Packing.{ArePacked, IsPackingOf};
ghost use Rattle.cat062_out.specs.TrackRecords.{track_record};
ghost use Rattle.status_out.specs.SensorRecords.{sensor_block};
ghost use Rattle.status_out.specs.ServiceRecords.{service_block};
ghost use Rattle.status_out.specs.declared.service_line.Line065.TheVariants.{Status, End};
ghost use Rattle.edition_form.specs.Datagrams.{AreDatagrams, nogo};
ghost use Rattle.edition_form.specs.Lines.{told_lines};
ghost use Rattle.edition_form.specs.Telling.{Climb, DontFall};

use crate::ShownLine;
use crate::radars::nogo;
use crate::telling::Told;
use asterix_frame::Packing;
use cat062_out::{Stamp, TRACK_ROOM, TrackLine, track_record};
use status_out::{RadarLine, write063, write065_end, write065_status};
use std::alloc::Global;
use trk_base::{NoMemory, Sequence};

// The category of system tracks (ASTERIX, Part 9).
const TRACKS: u8 = 62;

// The datagrams of an edition with these lines of tracks, against those that were shown at the cut
// before, and these states of radars.
pub(crate) fn datagrams(
    alloc: Global,
    stamp: &Stamp,
    number: u64,
    old: &[ShownLine],
    now: &[ShownLine],
    radars: &[RadarLine],
) -> Result<Sequence<Sequence<u8>>, NoMemory>
    requires old { DontFall old.now }
    requires now { Climb now.now }
    requires some_radar { 1 ≤ length radars.now }
    requires few_radars { length radars.now ≤ 32 }
    ensures { IfOk result (λ d. AreDatagrams stamp.now number (told_lines old.now now.now) radars.now d) }
{
    let mut datagrams = track_blocks(alloc, stamp, old, now)?;
    let states = write063(alloc, stamp, radars)?;
    datagrams.push(Sequence::of(states))?;
    let status = write065_status(alloc, stamp, nogo(radars))?;
    datagrams.push(Sequence::of(status))?;
    let end = write065_end(alloc, stamp, (number % 256) as u8)?;
    datagrams.push(Sequence::of(end))?;
    Ok(datagrams)
}

// The blocks of the records of tracks.
fn track_blocks(
    alloc: Global,
    stamp: &Stamp,
    old: &[ShownLine],
    now: &[ShownLine],
) -> Result<Sequence<Sequence<u8>>, NoMemory>
    requires old { DontFall old.now }
    requires now { Climb now.now }
    ensures { IfOk result (λ blocks. ArePacked 62 (map (track_record stamp.now) (told_lines old.now now.now)) blocks) }
{
    let mut blocks = TrackBlocks::new(alloc)?;
    let mut told = Told {
        old_count: 0,
        now_count: 0,
        known: false,
    };
    while told.old_count < old.len() || told.now_count < now.len() {
        let (line, next) = told.next(old, now);
        blocks = blocks.add(alloc, stamp, line)?;
        told = next;
    }
    blocks.packing.finish()
}

// Records of tracks on their way into blocks, and the room in which each is made.
#[derive(Drop)]
struct TrackBlocks {
    packing: Packing,
    room: Vec<u8>,
}

impl TrackBlocks {
    // No records, and a room for one.
    fn new(alloc: Global) -> Result<TrackBlocks, NoMemory>
        ensures { IfOk result (λ b. IsPackingOf 62 [] b.packing) }
    {
        Ok(TrackBlocks {
            packing: Packing::new(alloc, TRACKS),
            room: Vec::with_capacity(alloc, TRACK_ROOM)?,
        })
    }

    // Adds the record of a line, if there is one, after the others.
    fn add(
        self,
        alloc: Global,
        stamp: &Stamp,
        line: Option<TrackLine>,
    ) -> Result<TrackBlocks, NoMemory>
        ensures { IfOk result (λ b. (records : List (List ℕ)) → IsPackingOf 62 records self.packing → IsPackingOf 62 (records ++ map (track_record stamp.now) (option_to_list line)) b.packing) }
    {
        let Some(line) = line else {
            return Ok(self);
        };
        let TrackBlocks { packing, room } = self;
        let room = track_record(stamp, &line, room)?;
        let packing = packing.add(alloc, &room)?;
        Ok(TrackBlocks { packing, room })
    }
}
