// The least pairing of one plot, in closed form. Nearly every component of a batch has one plot.

ghost use Rattle.std.specs.Prelude.{◌≡◌, length, pos, replicate, IfOk};
ghost use Rattle.assignment_dual.specs.Problems.{IsSolvedBy};
ghost use Rattle.assignment_dual.specs.Single.{IsNearest};

use crate::{Costs, Solved};
use short_list::ShortList;
use std::alloc::Global;
use trk_base::{MISS_COST, NoMemory};

// The first of the tracks that cost least, or none, and what it costs.
fn nearest(costs: &Costs) -> (Option<u32>, u32)
    requires { costs.now.plots ≡ 1 }
    ensures { IsNearest costs.now.edges (length costs.now.edges) result.0 result.1 }
{
    let mut entry = None;
    let mut least = MISS_COST;
    for (_, track, cost) in costs.edges.as_slice() {
        let cost = u32::from(*cost);
        if cost < least {
            entry = Some(*track);
            least = cost;
        }
    }
    (entry, least)
}

// A price of 0 for each track.
fn free_tracks(alloc: Global, tracks: usize) -> Result<ShortList<i64>, NoMemory>
    ensures { IfOk result (λ v. v ≡ replicate tracks (pos 0)) }
{
    if tracks == 1 {
        return Ok(ShortList::one(0));
    }
    Ok(ShortList::of(vec![in alloc; 0i64; tracks]?))
}

/// The least pairing of one plot: the first of the tracks that cost least, or none where no track
/// gates it. The price of the plot is the cost, and those of the tracks are 0.
pub fn solve_single(alloc: Global, costs: &Costs) -> Result<Solved, NoMemory>
    requires { costs.now.plots ≡ 1 }
    ensures { IfOk result (λ s. IsSolvedBy costs.now s.pairing s.u s.v s.cost) }
{
    let (entry, least) = nearest(costs);
    let cost = i64::from(least);
    let v = free_tracks(alloc, costs.tracks as usize)?;
    Ok(Solved {
        pairing: ShortList::one(entry),
        u: ShortList::one(cost),
        v,
        cost,
    })
}
