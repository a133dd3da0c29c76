// Certificates with their place in the order of a slot's certificates.
ghost use Rattle.std.specs.Prelude.{◌≡◌, ◌<◌, List, map, length, All, IfOk};
ghost use Rattle.trk_base.specs.declared.keys.Key.{Key as Birth};
ghost use Rattle.plot_geometry.specs.Plots.{PlanePlot as Plot};
ghost use Rattle.slot_step.specs.Components.{AreAt};
ghost use Rattle.slot_step.specs.ToldComponents.{IsToldOf};

use assignment_dual::{Costs, Solved};
use cluster_split::Component;
use plot_geometry::PlanePlot;
use price_form::Cert;
use short_list::ShortList;
use std::alloc::Global;
use track_life::Track;
use trk_base::{Key, NoMemory, TryCopy};

/// A certificate with the key of its component's least plot. Certificates are in the order of these
/// keys, which is that of slot, radar and least plot; of a plot the certificate itself tells the
/// arrival alone.
#[derive(Debug, Drop, PartialEq, Eq)]
pub struct KeyedCert {
    /// The key of the least plot.
    pub least: Key,
    /// The certificate.
    pub cert: Cert,
}

impl TryCopy for KeyedCert {
    fn copy(&self, alloc: Global) -> Result<KeyedCert, NoMemory> {
        Ok(KeyedCert {
            least: self.least,
            cert: self.cert.copy(alloc)?,
        })
    }
}

// The arrivals of the plots at these indices.
fn plot_arrivals(
    alloc: Global,
    indices: &[u32],
    plots: &[PlanePlot],
) -> Result<ShortList<u64>, NoMemory>
    requires { All (λ i. i < length plots.now) indices.now }
    ensures { (own : List Plot) → AreAt plots.now indices.now own → IfOk result (λ v. v ≡ map (λ p. p.key.arrival) own) }
{
    let mut arrivals = ShortList::new(alloc);
    for index in indices {
        let plot = &plots[*index as usize];
        arrivals.push(alloc, plot.key.arrival)?;
    }
    Ok(arrivals)
}

// The arrivals of the first plots of the tracks at these indices.
fn birth_arrivals(
    alloc: Global,
    indices: &[u32],
    tracks: &[Track],
) -> Result<ShortList<u64>, NoMemory>
    requires { All (λ i. i < length tracks.now) indices.now }
    ensures { (births : List Birth) → AreAt (map (λ t. t.birth) tracks.now) indices.now births → IfOk result (λ v. v ≡ map (λ b. b.arrival) births) }
{
    let mut arrivals = ShortList::new(alloc);
    for index in indices {
        let track = &tracks[*index as usize];
        arrivals.push(alloc, track.birth.arrival)?;
    }
    Ok(arrivals)
}

/// The certificate of a component, whose own problem has this solution.
pub(crate) fn cert_of(
    alloc: Global,
    component: &Component,
    tracks: &[Track],
    plots: &[PlanePlot],
    costs: Costs,
    solved: Solved,
) -> Result<KeyedCert, NoMemory>
    requires some { 0 < length component.now.plots }
    requires plots { All (λ i. i < length plots.now) component.now.plots }
    requires tracks { All (λ i. i < length tracks.now) component.now.tracks }
    ensures { IfOk result (λ keyed. IsToldOf tracks.now plots.now component.now costs solved.pairing solved.u solved.v keyed) }
{
    let first = &plots[component.plots.as_slice()[0] as usize];
    let least = first.key;
    let Solved {
        pairing,
        u,
        v,
        cost: _,
    } = solved;
    let arrivals = plot_arrivals(alloc, component.plots.as_slice(), plots)?;
    let births = birth_arrivals(alloc, component.tracks.as_slice(), tracks)?;
    Ok(KeyedCert {
        least,
        cert: Cert {
            slot: least.slot,
            radar: least.radar,
            plots: arrivals,
            tracks: births,
            costs,
            pairing,
            u,
            v,
        },
    })
}
