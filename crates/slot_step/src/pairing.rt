// The least pairing of a batch, component by component, and its certificates.
ghost use Rattle.std.specs.Prelude.{◌≡◌, ◌<◌, ◌-◌, ◌^◌, ℕ, Contains, None, length, get_or, option_map, map, All, IfOk, IfSome, OnOk};
ghost use Rattle.std.specs.List.{AllByRecursion};
ghost use Rattle.std.specs.List.Sorted.{IsStrictlyIncreasing, IsStrictlySortedBy};
ghost use Rattle.trk_base.specs.Keys.{key_cmp};
ghost use Rattle.assignment_dual.specs.Parts.{at_plots};
ghost use Rattle.assignment_dual.specs.Renumbering.{number_at, renumbered};
ghost use Rattle.cluster_split.specs.Components.{IsComponent};
ghost use Rattle.price_form.specs.Certificates.{IsCert};
ghost use Rattle.track_life.specs.declared.settings.LifeSettings.{LifeSettings};
ghost use Rattle.slot_step.specs.Batches.{least};
ghost use Rattle.slot_step.specs.Components.{edge_pairs};
ghost use Rattle.slot_step.specs.Problems.{IsProblemOf};
ghost use Rattle.slot_step.specs.Tracker.{track_gate, tracking};
ghost use Rattle.slot_step.specs.ToldComponents.{IsPairedComponent, AreToldBehind};

use crate::KeyedCert;
use crate::certs::cert_of;
use crate::component_costs::component_costs;
use assignment_dual::{Costs, solve};
use cluster_split::{Component, components};
use plot_geometry::PlanePlot;
use std::alloc::Global;
use track_life::Track;
use trk_base::NoMemory;

// The edges without their costs.
fn pairs_of(alloc: Global, edges: &[(u32, u32, u16)]) -> Result<Vec<(u32, u32)>, NoMemory>
    ensures { IfOk result (λ pairs. pairs.items ≡ edge_pairs edges.now) }
{
    let mut pairs = Vec::with_capacity(alloc, edges.len())?;
    for edge in edges {
        pairs.push((edge.0, edge.1))?;
    }
    Ok(pairs)
}

// An entry of the component's pairing as one of the batch's: the component's tracks by their indices
// in the table.
fn table_entry(tracks: &[u32], entry: Option<u32>) -> Option<u32>
    requires { IfSome entry (λ t. t < length tracks.now) }
    ensures { result ≡ option_map (number_at tracks.now) entry }
{
    match entry {
        Some(track) => Some(tracks[track as usize]),
        None => None,
    }
}

// Puts the component's pairing into the batch's.
fn put_pairing(pairing: &mut [Option<u32>], component: &Component, own: &[Option<u32>])
    requires plots { All (λ plot. plot < length pairing.old) component.now.plots }
    requires rising { IsStrictlyIncreasing component.now.plots }
    requires count { length own.now ≡ length component.now.plots }
    requires tracks { All (λ x. IfSome x (λ t. t < length component.now.tracks)) own.now }
    ensures count { length pairing.new ≡ length pairing.old }
    ensures own { at_plots None pairing.new component.now.plots ≡ renumbered component.now.tracks own.now }
    ensures others { (plot : ℕ) → (Contains component.now.plots plot → ⊥) → get_or pairing.new plot None ≡ get_or pairing.old plot None }
{
    let tracks = component.tracks.as_slice();
    for (index, plot) in component.plots.as_slice().iter().enumerate() {
        pairing[*plot as usize] = table_entry(tracks, own[index]);
    }
}

// Pairs one component: its entries are put into the batch's pairing, and its certificate is told.
fn pair_component(
    alloc: Global,
    tracks: &[Track],
    plots: &[PlanePlot],
    whole: &Costs,
    component: &Component,
    pairing: &mut [Option<u32>],
) -> Result<KeyedCert, NoMemory>
    requires few_tracks { length tracks.now < 2 ^ 32 - 1 }
    requires few_plots { length plots.now < 2 ^ 32 }
    requires problem { IsProblemOf track_gate tracks.now plots.now whole.now }
    requires component { IsComponent (length plots.now) (edge_pairs whole.now.edges) component.now }
    requires count { length pairing.old ≡ length plots.now }
    ensures { IfOk result (λ keyed. IsPairedComponent tracks.now plots.now whole.now component.now keyed pairing.old pairing.new) }
{
    let costs = component_costs(alloc, component, whole)?;
    let solved = solve(alloc, &costs)?;
    put_pairing(pairing, component, solved.pairing.as_slice());
    cert_of(alloc, component, tracks, plots, costs, solved)
}

/// The least pairing of a batch, whose problem this is. The certificates of its components are put
/// at the end of the others.
pub(crate) fn pair(
    alloc: Global,
    tracks: &[Track],
    plots: &[PlanePlot],
    whole: &Costs,
    certs: &mut Vec<KeyedCert>,
) -> Result<Vec<Option<u32>>, NoMemory>
    requires few_tracks { length tracks.now < 2 ^ 32 - 1 }
    requires few_plots { length plots.now < 2 ^ 32 }
    requires tracks { IsStrictlySortedBy (λ t u. key_cmp t.birth u.birth) tracks.now }
    requires plots { IsStrictlySortedBy (λ p q. key_cmp p.key q.key) plots.now }
    requires problem { IsProblemOf track_gate tracks.now plots.now whole.now }
    ensures pairing { (life : LifeSettings) → IfOk result (λ v. v.items ≡ least (tracking life) tracks.now plots.now) }
    ensures certs { (life : LifeSettings) → OnOk result (AreToldBehind life tracks.now plots.now certs.old.items certs.new.items) }
    ensures whole { AllByRecursion (λ c. IsCert c.cert) certs.old.items → OnOk result (AllByRecursion (λ c. IsCert c.cert) certs.new.items) }
{
    let pairs = pairs_of(alloc, whole.edges.as_slice())?;
    let parts = components(alloc, plots.len() as u32, &pairs)?;
    let mut pairing = vec![in alloc; None; plots.len()]?;
    for component in &parts {
        certs.push(pair_component(alloc, tracks, plots, whole, component, &mut pairing)?)?;
    }
    Ok(pairing)
}
