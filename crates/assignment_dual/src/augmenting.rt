// One vertex more gets its place.

ghost use Rattle.std.specs.Prelude.{◌≡◌, ◌≤◌, ◌<◌, ℕ, ◌+◌, length, get_or, true, false, Bool, List, OnOk};
ghost use Rattle.trk_base.specs.Limits.{miss_cost};
ghost use Rattle.assignment_dual.specs.Vertices.{IsGraph, IsDualFeasible, AreMatched, OthersPay, IsAugmented};
ghost use Rattle.assignment_dual.specs.Search.{vertex_at, NoneSeen};

use crate::graph::Graph;
use crate::prices::Prices;
use crate::raise::{least_slack, shift};
use crate::search::{Node, Search, reach};
use trk_base::NoMemory;

// Forgets what a search has seen.
fn forget(seen: &mut [bool], tree: &[Node])
    requires within { (i : ℕ) → i < length tree.now → vertex_at tree.now i < length seen.old }
    requires known { (y : ℕ) → get_or seen.old y false ≡ true → (i : ℕ) × (i < length tree.now) × (vertex_at tree.now i ≡ y) }
    ensures { NoneSeen seen.new }
{
    for node in tree {
        seen[node.vertex] = false;
    }
}

/// Gives x its place; prices move where they must. The tree stays as it is when they move, since
/// its arcs stay tight, and all work is by the size of the tree.
pub fn augment(
    graph: &Graph,
    prices: &mut Prices,
    mates: &mut [usize],
    search: &mut Search,
    x: usize,
) -> Result<(), NoMemory>
    requires graph { IsGraph graph.now (length prices.old) }
    requires priced { IsDualFeasible graph.now (length prices.old) prices.old }
    requires mates { AreMatched graph.now (length prices.old) prices.old mates.old }
    requires pay { OthersPay (length prices.old) prices.old mates.old x }
    requires seen { length search.old.seen.items ≡ length prices.old }
    requires none_seen { NoneSeen search.old.seen.items }
    requires x { x < length prices.old }
    requires alone { get_or mates.old x 0 ≡ x }
    ensures priced { OnOk result (IsDualFeasible graph.now (length prices.old) prices.new) }
    ensures mates { OnOk result (AreMatched graph.now (length prices.old) prices.new mates.new) }
    ensures settled { OnOk result (IsAugmented (length prices.old) prices.old mates.old prices.new mates.new x) }
    ensures seen { OnOk result (length search.new.seen.items ≡ length prices.old) }
    ensures none_seen { OnOk result (NoneSeen search.new.seen.items) }
{
    search.tree.clear();
    search.tree.push(Node { vertex: x, from: 0 })?;
    'rounds: loop {
        if reach(graph, prices, mates, search)? {
            forget(&mut search.seen, &search.tree);
            return Ok(());
        }
        let by = least_slack(graph, prices, mates, &search.seen, &search.tree);
        shift(prices, mates, &search.tree, by);
    }
}

/// Gives each plot its place in turn. At first everyone is alone; the tracks pay for it, and the
/// plots stand out.
pub fn augment_all(
    graph: &Graph,
    prices: &mut Prices,
    mates: &mut [usize],
    search: &mut Search,
) -> Result<(), NoMemory>
    requires graph { IsGraph graph.now (length prices.old) }
    requires plots { graph.now.plots ≤ length prices.old }
    requires seen { length search.old.seen.items ≡ length prices.old }
    requires none_seen { NoneSeen search.old.seen.items }
    requires count { length mates.old ≡ length prices.old }
    requires alone { (v : ℕ) → v < length prices.old → get_or mates.old v 0 ≡ v }
    requires out { (v : ℕ) → v < graph.now.plots → get_or prices.old v 0 ≡ 0 }
    requires pay { (v : ℕ) → graph.now.plots ≤ v → v < length prices.old → get_or prices.old v 0 ≡ miss_cost }
    ensures priced { OnOk result (IsDualFeasible graph.now (length prices.old) prices.new) }
    ensures mates { OnOk result (AreMatched graph.now (length prices.old) prices.new mates.new) }
    ensures full { OnOk result ((v : ℕ) → v < length prices.old → get_or mates.new v 0 ≡ v → get_or prices.new v 0 ≡ miss_cost) }
    ensures seen { OnOk result (length search.new.seen.items ≡ length prices.old) }
    ensures none_seen { OnOk result (NoneSeen search.new.seen.items) }
{
    for p in 0..graph.plots {
        augment(graph, prices, mates, search, p)?;
    }
    Ok(())
}
