// The connected parts of a gate graph: their plots, found by disjoint sets, and then their tracks.

ghost use Rattle.std.specs.Prelude.{◌≡◌, ◌<◌, ℕ, List, All, IfOk};
ghost use Rattle.std.specs.List.Sorted.{IsNonDecreasingBy, IsPermutation};
ghost use Rattle.cluster_split.specs.Components.{AreComponents};
ghost use Rattle.cluster_split.specs.declared.splitting.Component.{Component};

use crate::grouping::{add_tracks, components_of_plots};
use crate::leasts::least_plots;
use short_list::ShortList;
use std::alloc::Global;
use trk_base::NoMemory;

/// A connected part of a batch's gate graph: plots that walks of edges join, and their tracks.
#[derive(Debug, Drop, PartialEq, Eq)]
pub struct Component {
    /// The plots, by their places in the batch, rising.
    pub plots: ShortList<u32>,
    /// The tracks that these plots have edges to, rising.
    pub tracks: ShortList<u32>,
}

/// The connected parts that hold a plot, in the order of their least plot.
///
/// An edge is a plot, below `plots`, and a track. The edges stand in any order, also more than
/// once, and tracks are any numbers. A plot without edges is a part of its own. The plots are
/// joined by the disjoint sets of Galler and Fischer, with Tarjan and van Leeuwen's path halving.
pub fn components(
    alloc: Global,
    plots: u32,
    edges: &[(u32, u32)],
) -> Result<Vec<Component>, NoMemory>
    requires { All (λ edge. edge.0 < plots) edges.now }
    ensures { IfOk result (λ v. AreComponents plots edges.now v.items) }
{
    let by_track = by_track(alloc, edges)?;
    let least = least_plots(alloc, plots, &by_track)?;
    let (mut parts, places) = components_of_plots(alloc, &least)?;
    add_tracks(alloc, &mut parts, &places, &by_track)?;
    Ok(parts)
}

// The same edges, by track.
fn by_track(alloc: Global, edges: &[(u32, u32)]) -> Result<Vec<(u32, u32)>, NoMemory>
    ensures same { IfOk result (λ v. IsPermutation edges.now v.items) }
    ensures sorted { IfOk result (λ v. IsNonDecreasingBy (λ edge. edge.1) v.items) }
{
    let mut sorted = Vec::from_slice(alloc, edges)?;
    sorted.sort_unstable_by_key(|edge| edge.1);
    Ok(sorted)
}

/// A graph has exactly one list of components.
pub fn one_splitting()
    ensures { (plots : ℕ) (edges : List (ℕ × ℕ)) (a b : List Component) → AreComponents plots edges a → AreComponents plots edges b → a ≡ b }
{}

#[cfg(test)]
mod tests {
    use super::*;
    use std::process::Abort;

    fn split(rt: &impl Abort, alloc: Global, plots: u32, edges: &[(u32, u32)]) -> Vec<Component> {
        assert!(rt; edges.iter().all(|edge| edge.0 < plots));
        components(alloc, plots, edges).expect(rt, "the components")
    }

    #[test]
    fn splits_by_walks(rt: HostRuntime) {
        let parts = split(&rt, rt.alloc(), 2, &[(1, 1), (0, 0), (0, 1), (1, 0)]);
        assert_eq!(rt; parts.len(), 1);
        assert_eq!(rt; parts[0].plots.as_slice(), [0, 1].as_slice());
        assert_eq!(rt; parts[0].tracks.as_slice(), [0, 1].as_slice());
        assert!(rt; split(&rt, rt.alloc(), 0, &[]).is_empty());
    }

    #[test]
    fn orders_by_the_least_plot(rt: HostRuntime) {
        let edges = [(3, 9), (1, u32::MAX), (3, u32::MAX), (2, 4), (3, 9), (0, 7)];
        let parts = split(&rt, rt.alloc(), 5, &edges);
        assert_eq!(rt; parts.len(), 4);
        assert_eq!(rt; parts[0].plots.as_slice(), [0].as_slice());
        assert_eq!(rt; parts[1].plots.as_slice(), [1, 3].as_slice());
        assert_eq!(rt; parts[1].tracks.as_slice(), [9, u32::MAX].as_slice());
        assert_eq!(rt; parts[2].tracks.as_slice(), [4].as_slice());
        assert_eq!(rt; parts[3].plots.as_slice(), [4].as_slice());
        assert!(rt; parts[3].tracks.is_empty());
    }
}
