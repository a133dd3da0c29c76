// A tree of tight arcs is searched for a place for its root.

ghost use Rattle.std.specs.Prelude.{◌≡◌, ◌≢◌, ◌≤◌, ◌<◌, ℕ, ◌+◌, length, get_or, true, false, Bool, List, MatchBool, MatchOption, IfOk, OnOk};
ghost use Rattle.trk_base.specs.Limits.{miss_cost};
ghost use Rattle.assignment_dual.specs.Vertices.{HasArc, to_of, cost_at, IsGraph, IsDualFeasible, TightArc, AreMatched, OthersPay};
ghost use Rattle.assignment_dual.specs.Search.{unseen, IsSwept, vertex_at, mate_at, IsSearchTree, ArePaired, IsEnd, IsExhausted, IsExtended, IsMatchedAfter, AreRematched, AreUnmatched};

use crate::graph::Graph;
use crate::prices::Prices;
use trk_base::{MISS_COST, NoMemory};

/// A vertex that a search has seen. Its mate belongs to the tree with it.
#[derive(Clone, Copy)]
pub struct Node {
    /// The vertex.
    pub vertex: usize,
    /// The node whose mate has a tight arc to the vertex; of the root, which has none, 0.
    pub from: usize,
}

/// A search for a place for the root of its tree.
#[derive(Drop)]
pub struct Search {
    /// Whether each vertex has a node other than the root's.
    pub seen: Vec<bool>,
    /// The root's node, then one for each vertex that is seen.
    pub tree: Vec<Node>,
}

/// The mate of a node's vertex.
pub fn mate_of(mates: &[usize], tree: &[Node], i: usize) -> usize
    requires i { i < length tree.now }
    requires within { vertex_at tree.now i < length mates.now }
    ensures { result ≡ mate_at mates.now tree.now i }
{
    mates[tree[i].vertex]
}

/// Where the arc k of x leads, and how much more the two prices may be together.
pub fn slack(graph: &Graph, prices: &Prices, x: usize, k: usize) -> (usize, u32)
    requires graph { IsGraph graph.now (length prices.now) }
    requires priced { IsDualFeasible graph.now (length prices.now) prices.now }
    requires x { x < length prices.now }
    requires arc { HasArc graph.now x k }
    ensures to { result.0 ≡ to_of graph.now k }
    ensures within { result.0 < length prices.now }
    ensures slack { get_or prices.now x 0 + get_or prices.now (to_of graph.now k) 0 + result.1 ≡ cost_at graph.now k + miss_cost }
{
    let arc = graph.arcs[k];
    (
        arc.to,
        arc.cost + MISS_COST - (prices.at(x) + prices.at(arc.to)),
    )
}

// Where the arc k of x leads, if it is tight and leads to a vertex that isn't seen.
fn opens(graph: &Graph, prices: &Prices, seen: &[bool], x: usize, k: usize) -> Option<usize>
    requires graph { IsGraph graph.now (length prices.now) }
    requires priced { IsDualFeasible graph.now (length prices.now) prices.now }
    requires seen { length seen.now ≡ length prices.now }
    requires x { x < length prices.now }
    requires arc { HasArc graph.now x k }
    ensures answer { MatchOption result
        (get_or prices.now x 0 + get_or prices.now (to_of graph.now k) 0 ≡ cost_at graph.now k + miss_cost → get_or seen.now (to_of graph.now k) false ≡ true)
        (λ y. TightArc graph.now prices.now x y k × (y < length prices.now) × (get_or seen.now y false ≡ false)) }
{
    let (y, slack) = slack(graph, prices, x, k);
    if slack == 0 && !seen[y] {
        return Some(y);
    }
    None
}

// Takes in what the tight arcs of the mate of the node `at` lead to, up to a vertex that is
// alone. Its node is answered.
fn sweep(
    graph: &Graph,
    prices: &Prices,
    mates: &[usize],
    search: &mut Search,
    at: usize,
) -> Result<Option<usize>, NoMemory>
    requires graph { IsGraph graph.now (length prices.now) }
    requires priced { IsDualFeasible graph.now (length prices.now) prices.now }
    requires mates { AreMatched graph.now (length prices.now) prices.now mates.now }
    requires pay { OthersPay (length prices.now) prices.now mates.now (vertex_at search.old.tree.items 0) }
    requires alone { mate_at mates.now search.old.tree.items 0 ≡ vertex_at search.old.tree.items 0 }
    requires seen { length search.old.seen.items ≡ length prices.now }
    requires tree { IsSearchTree graph.now (length prices.now) prices.now mates.now search.old.seen.items search.old.tree.items (vertex_at search.old.tree.items 0) }
    requires paired { ArePaired mates.now search.old.tree.items (length search.old.tree.items) }
    requires at { at < length search.old.tree.items }
    requires below { get_or prices.now (mate_at mates.now search.old.tree.items at) 0 ≢ miss_cost }
    ensures tree { OnOk result (IsSearchTree graph.now (length prices.now) prices.now mates.now search.new.seen.items search.new.tree.items (vertex_at search.old.tree.items 0)) }
    ensures seen { OnOk result (length search.new.seen.items ≡ length prices.now) }
    ensures kept { OnOk result ((y : ℕ) → get_or search.old.seen.items y false ≡ true → get_or search.new.seen.items y false ≡ true) }
    ensures front { OnOk result (IsExtended search.old.tree.items search.new.tree.items) }
    ensures grown { OnOk result (length search.new.tree.items + unseen search.new.seen.items ≡ length search.old.tree.items + unseen search.old.seen.items) }
    ensures answer { IfOk result (λ end. MatchOption end
        (ArePaired mates.now search.new.tree.items (length search.new.tree.items) × IsSwept graph.now prices.now search.new.seen.items (mate_at mates.now search.old.tree.items at))
        (λ e. IsEnd prices.now mates.now search.new.tree.items e)) }
{
    let x = mate_of(mates, &search.tree, at);
    for k in graph.first[x]..graph.first[x + 1] {
        if let Some(y) = opens(graph, prices, &search.seen, x, k) {
            search.seen[y] = true;
            search.tree.push(Node {
                vertex: y,
                from: at,
            })?;
            if mates[y] == y {
                return Ok(Some(search.tree.len() - 1));
            }
        }
    }
    Ok(None)
}

// Lets the tree grow until there is a place for its root: a node that is alone, or one whose mate
// may stay alone. It goes over all nodes, since the prices may have changed.
fn grow(
    graph: &Graph,
    prices: &Prices,
    mates: &[usize],
    search: &mut Search,
) -> Result<Option<usize>, NoMemory>
    requires graph { IsGraph graph.now (length prices.now) }
    requires priced { IsDualFeasible graph.now (length prices.now) prices.now }
    requires mates { AreMatched graph.now (length prices.now) prices.now mates.now }
    requires pay { OthersPay (length prices.now) prices.now mates.now (vertex_at search.old.tree.items 0) }
    requires alone { mate_at mates.now search.old.tree.items 0 ≡ vertex_at search.old.tree.items 0 }
    requires seen { length search.old.seen.items ≡ length prices.now }
    requires tree { IsSearchTree graph.now (length prices.now) prices.now mates.now search.old.seen.items search.old.tree.items (vertex_at search.old.tree.items 0) }
    requires paired { ArePaired mates.now search.old.tree.items (length search.old.tree.items) }
    ensures tree { OnOk result (IsSearchTree graph.now (length prices.now) prices.now mates.now search.new.seen.items search.new.tree.items (vertex_at search.old.tree.items 0)) }
    ensures seen { OnOk result (length search.new.seen.items ≡ length prices.now) }
    ensures answer { IfOk result (λ end. MatchOption end
        (IsExhausted graph.now prices.now mates.now search.new.seen.items search.new.tree.items)
        (λ e. IsEnd prices.now mates.now search.new.tree.items e)) }
{
    let mut next = 0;
    'nodes: while next < search.tree.len() {
        if prices.at(mate_of(mates, &search.tree, next)) == MISS_COST {
            return Ok(Some(next));
        }
        if let Some(end) = sweep(graph, prices, mates, search, next)? {
            return Ok(Some(end));
        }
        next += 1;
    }
    Ok(None)
}

/// Parts x from its mate, which is answered.
pub fn unmatch(mates: &mut [usize], x: usize) -> usize
    requires x { x < length mates.old }
    requires mate { get_or mates.old x 0 < length mates.old }
    ensures mate { result ≡ get_or mates.old x 0 }
    ensures parted { AreUnmatched mates.old mates.new x result }
{
    let y = mates[x];
    mates[y] = y;
    mates[x] = x;
    y
}

// Makes x and y mates; y's mate, which is answered, stays alone.
fn take(mates: &mut [usize], x: usize, y: usize) -> usize
    requires x { x < length mates.old }
    requires y { y < length mates.old }
    requires mate { get_or mates.old y 0 < length mates.old }
    requires other { x ≢ y }
    requires apart { get_or mates.old y 0 ≢ x }
    ensures value { result ≡ get_or mates.old y 0 }
    ensures turned { AreRematched mates.old mates.new x y result }
{
    let z = mates[y];
    mates[z] = z;
    mates[x] = y;
    mates[y] = x;
    z
}

/// Whether the root of the tree gets a place. If so, the vertex of each node on the path to it is
/// given to the mate of the node before; else the tree has grown as far as it can.
pub fn reach(
    graph: &Graph,
    prices: &Prices,
    mates: &mut [usize],
    search: &mut Search,
) -> Result<bool, NoMemory>
    requires graph { IsGraph graph.now (length prices.now) }
    requires priced { IsDualFeasible graph.now (length prices.now) prices.now }
    requires mates { AreMatched graph.now (length prices.now) prices.now mates.old }
    requires pay { OthersPay (length prices.now) prices.now mates.old (vertex_at search.old.tree.items 0) }
    requires alone { mate_at mates.old search.old.tree.items 0 ≡ vertex_at search.old.tree.items 0 }
    requires seen { length search.old.seen.items ≡ length prices.now }
    requires tree { IsSearchTree graph.now (length prices.now) prices.now mates.old search.old.seen.items search.old.tree.items (vertex_at search.old.tree.items 0) }
    requires paired { ArePaired mates.old search.old.tree.items (length search.old.tree.items) }
    ensures mates { OnOk result (AreMatched graph.now (length prices.now) prices.now mates.new) }
    ensures tree { OnOk result (IsSearchTree graph.now (length prices.now) prices.now mates.old search.new.seen.items search.new.tree.items (vertex_at search.old.tree.items 0)) }
    ensures seen { OnOk result (length search.new.seen.items ≡ length prices.now) }
    ensures answer { IfOk result (λ placed. MatchBool placed
        (IsMatchedAfter (length prices.now) prices.now mates.old mates.new (vertex_at search.old.tree.items 0))
        ((mates.new ≡ mates.old) × IsExhausted graph.now prices.now mates.old search.new.seen.items search.new.tree.items)) }
{
    let Some(end) = grow(graph, prices, mates, search)? else {
        return Ok(false);
    };
    unmatch(mates, search.tree[end].vertex);
    let mut at = end;
    'path: while at > 0 {
        let node = search.tree[at];
        let mate = mate_of(mates, &search.tree, node.from);
        take(mates, node.vertex, mate);
        at = node.from;
    }
    Ok(true)
}
