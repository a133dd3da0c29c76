// The tracks of one part.
ghost use Rattle.std.specs.Prelude.{◌≡◌, ◌==◌, length, IfOk};
ghost use Rattle.span_clusters.specs.Parts.{picked_items};

use std::alloc::Global;
use track_life::Track;
use trk_base::NoMemory;

/// The tracks that have the number.
pub(crate) fn picked_tracks(
    alloc: Global,
    tracks: &[Track],
    numbers: &[u8],
    part: u8,
) -> Result<Vec<Track>, NoMemory>
    requires { length numbers.now ≡ length tracks.now }
    ensures { IfOk result (λ picked. picked.items ≡ picked_items (λ k. k == part) numbers.now tracks.now) }
{
    let mut picked = Vec::new(alloc);
    for (index, track) in tracks.iter().enumerate() {
        if numbers[index] == part {
            picked.push(*track)?;
        }
    }
    Ok(picked)
}
