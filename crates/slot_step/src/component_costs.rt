// The problem of one component of a batch's gates.
ghost use Rattle.std.specs.Prelude.{◌≡◌, ◌<◌, ◌^◌, ◌++◌, ℕ, map, length, IfOk, OnOk};
ghost use Rattle.std.specs.List.Sorted.{IsStrictlyIncreasing};
ghost use Rattle.assignment_dual.specs.Parts.{IsPartOf};
ghost use Rattle.cluster_split.specs.Components.{IsComponent};
ghost use Rattle.price_form.specs.Checks.{Rises};
ghost use Rattle.slot_step.specs.Components.{edge_pairs};
ghost use Rattle.slot_step.specs.ComponentEdges.{edges_at, own_edge, component_edges};

use assignment_dual::Costs;
use cluster_split::Component;
use short_list::ShortList;
use std::alloc::Global;
use trk_base::NoMemory;

// The gates of one plot of the batch, which stand together.
fn gates_at(edges: &[(u32, u32, u16)], plot: u32) -> &[(u32, u32, u16)]
    requires { Rises edges.now }
    ensures { result.now ≡ edges_at edges.now plot }
{
    let from = edges.partition_point(|edge| edge.0 < plot);
    let rest = &edges[from..];
    let count = rest.partition_point(|edge| edge.0 <= plot);
    &rest[..count]
}

// Puts gates at the end, as those of the component's plot at this index: a track is named by its
// index among the component's tracks, which rise.
fn add_component_gates(
    alloc: Global,
    own: &mut ShortList<(u32, u32, u16)>,
    index: u32,
    gates: &[(u32, u32, u16)],
    tracks: &[u32],
) -> Result<(), NoMemory>
    requires few { length tracks.now < 2 ^ 32 }
    requires rising { IsStrictlyIncreasing tracks.now }
    ensures { OnOk result (own.new ≡ own.old ++ map (own_edge tracks.now index) gates.now) }
{
    for gate in gates {
        let track = tracks.partition_point(|track| *track < gate.1);
        own.push(alloc, (index, track as u32, gate.2))?;
    }
    Ok(())
}

// The component's gates, by its own plots' and tracks' indices.
fn component_gates(
    alloc: Global,
    component: &Component,
    edges: &[(u32, u32, u16)],
) -> Result<ShortList<(u32, u32, u16)>, NoMemory>
    requires rising { Rises edges.now }
    requires plots { length component.now.plots < 2 ^ 32 }
    requires tracks { length component.now.tracks < 2 ^ 32 }
    requires tracks_rise { IsStrictlyIncreasing component.now.tracks }
    ensures { IfOk result (λ gates. gates ≡ component_edges edges.now component.now.tracks 0 component.now.plots) }
{
    let mut gates = ShortList::new(alloc);
    for (index, plot) in component.plots.as_slice().iter().enumerate() {
        add_component_gates(
            alloc,
            &mut gates,
            index as u32,
            gates_at(edges, *plot),
            component.tracks.as_slice(),
        )?;
    }
    Ok(gates)
}

/// The component's own problem. A certificate has fewer than 2^32 edges, else memory is wanting.
pub(crate) fn component_costs(
    alloc: Global,
    component: &Component,
    whole: &Costs,
) -> Result<Costs, NoMemory>
    requires plots { whole.now.plots < 2 ^ 32 }
    requires tracks { whole.now.tracks < 2 ^ 32 }
    requires component { IsComponent whole.now.plots (edge_pairs whole.now.edges) component.now }
    ensures part { IfOk result (λ costs. IsPartOf whole.now component.now.plots component.now.tracks costs) }
    ensures few { IfOk result (λ costs. length costs.edges < 2 ^ 32) }
{
    let gates = component_gates(alloc, component, whole.edges.as_slice())?;
    if gates.len() > u32::MAX as usize {
        return Err(NoMemory);
    }
    Ok(Costs {
        plots: component.plots.len() as u32,
        tracks: component.tracks.len() as u32,
        edges: gates,
    })
}
