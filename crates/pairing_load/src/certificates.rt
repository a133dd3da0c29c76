// The certificates of a load.
ghost use Rattle.std.specs.Prelude.{◌≡◌, ◌<◌, FitsSigned, IfOk, IfSome, OnOk};
ghost use Rattle.std.specs.Int.{w64};
ghost use Rattle.std.specs.List.{All};
ghost use Rattle.pairing_load.specs.Certificates.{IsLoadCert};
ghost use Rattle.pairing_load.specs.Problems.{after};

use crate::problems::{EdgeCosts, next_problem};
use assignment_dual::{Solved, solve};
use price_form::Cert;
use rand_pcg::Pcg32;
use short_list::ShortList;
use std::alloc::Global;
use trk_base::NoMemory;

// How many plots a certificate has, and how many tracks.
const SIZE: u32 = 3;

/// The next certificate: three plots and three tracks with all nine edges, solved. Its number is its slot, and
/// its plots are numbered on from certificate to certificate.
pub fn next_cert(alloc: Global, number: u32, generator: &mut Pcg32) -> Result<Cert, NoMemory>
    ensures is { IfOk result (IsLoadCert number generator.old) }
    ensures named { IfOk result (λ c. All (λ x. IfSome x (λ t. t < c.costs.tracks)) c.pairing) }
    ensures u_fits { IfOk result (λ c. All (FitsSigned w64) c.u) }
    ensures v_fits { IfOk result (λ c. All (FitsSigned w64) c.v) }
    ensures drawn { OnOk result (generator.new ≡ after EdgeCosts.Random 9 generator.old) }
{
    let costs = next_problem(alloc, EdgeCosts::Random, SIZE, generator)?;
    let Solved {
        pairing,
        u,
        v,
        cost: _cost,
    } = solve(alloc, &costs)?;
    let slot = u64::from(number);
    let first = 3 * slot;
    let plots = vec![in alloc; first, first + 1, first + 2]?;
    let tracks = vec![in alloc; 0, 1, 2]?;
    Ok(Cert {
        slot,
        radar: 0,
        plots: ShortList::of(plots),
        tracks: ShortList::of(tracks),
        costs,
        pairing,
        u,
        v,
    })
}
