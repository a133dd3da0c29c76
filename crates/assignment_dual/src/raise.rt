// Prices rise until a new arc is tight.

ghost use Rattle.std.specs.Prelude.{◌≡◌, ◌≢◌, ◌≤◌, ◌<◌, ℕ, ◌+◌, length, get_or, true, false, Bool, List};
ghost use Rattle.assignment_dual.specs.Vertices.{IsGraph, IsDualFeasible, AreMatched, HasArc, to_of, cost_at};
ghost use Rattle.assignment_dual.specs.Search.{IsSwept, vertex_at, mate_at, IsSearchTree, IsExhausted};
ghost use Rattle.assignment_dual.specs.Rising.{HasSlack, AllHaveSlack, MayShift, AreRaised, AreShifted};

use crate::graph::Graph;
use crate::prices::Prices;
use crate::search::{Node, mate_of, slack};
use trk_base::MISS_COST;

// How far the price of x may rise.
fn vertex_slack(graph: &Graph, prices: &Prices, seen: &[bool], x: usize) -> u32
    requires graph { IsGraph graph.now (length prices.now) }
    requires priced { IsDualFeasible graph.now (length prices.now) prices.now }
    requires seen { length seen.now ≡ length prices.now }
    requires x { x < length prices.now }
    requires swept { IsSwept graph.now prices.now seen.now x }
    ensures some { 0 < result }
    ensures room { HasSlack graph.now prices.now seen.now x result }
    ensures greatest { (d : ℕ) → HasSlack graph.now prices.now seen.now x d → d ≤ result }
{
    let mut room = MISS_COST - prices.at(x);
    for k in graph.first[x]..graph.first[x + 1] {
        let free = arc_slack(graph, prices, seen, x, k);
        if free < room {
            room = free;
        }
    }
    room
}

// How far the price of x may rise for the sake of the arc k.
fn arc_slack(graph: &Graph, prices: &Prices, seen: &[bool], x: usize, k: usize) -> u32
    requires graph { IsGraph graph.now (length prices.now) }
    requires priced { IsDualFeasible graph.now (length prices.now) prices.now }
    requires seen { length seen.now ≡ length prices.now }
    requires x { x < length prices.now }
    requires arc { HasArc graph.now x k }
    requires swept { IsSwept graph.now prices.now seen.now x }
    ensures some { 0 < result }
    ensures free { get_or seen.now (to_of graph.now k) false ≡ false → get_or prices.now x 0 + get_or prices.now (to_of graph.now k) 0 + result ≡ cost_at graph.now k + 4097 }
    ensures within { get_or seen.now (to_of graph.now k) false ≡ true → result ≡ 4097 }
{
    let (y, slack) = slack(graph, prices, x, k);
    if seen[y] {
        return MISS_COST;
    }
    slack
}

/// How far the prices of all mates in the tree may rise, where the tree grows no more.
pub fn least_slack(
    graph: &Graph,
    prices: &Prices,
    mates: &[usize],
    seen: &[bool],
    tree: &[Node],
) -> u32
    requires graph { IsGraph graph.now (length prices.now) }
    requires priced { IsDualFeasible graph.now (length prices.now) prices.now }
    requires mates { AreMatched graph.now (length prices.now) prices.now mates.now }
    requires seen { length seen.now ≡ length prices.now }
    requires tree { IsSearchTree graph.now (length prices.now) prices.now mates.now seen.now tree.now (vertex_at tree.now 0) }
    requires exhausted { IsExhausted graph.now prices.now mates.now seen.now tree.now }
    ensures some { 0 < result }
    ensures room { AllHaveSlack graph.now prices.now mates.now seen.now tree.now result }
    ensures greatest { (d : ℕ) → AllHaveSlack graph.now prices.now mates.now seen.now tree.now d → d ≤ result }
{
    let mut least = MISS_COST;
    for i in 0..tree.len() {
        let free = vertex_slack(graph, prices, seen, mate_of(mates, tree, i));
        if free < least {
            least = free;
        }
    }
    least
}

// Lets the mates of all nodes rise by `by`.
fn raise_mates(prices: &mut Prices, mates: &[usize], tree: &[Node], by: u32)
    requires { MayShift prices.old mates.now tree.now by }
    ensures { AreRaised prices.old prices.new (mate_at mates.now tree.now) 0 (length tree.now) by }
{
    for i in 0..tree.len() {
        let mate = mate_of(mates, tree, i);
        prices.set(mate, prices.at(mate) + by);
    }
}

// Lets the vertices of all nodes but the root fall by `by`.
fn lower_vertices(prices: &mut Prices, tree: &[Node], by: u32)
    requires some { 0 < length tree.now }
    requires vertices { (i : ℕ) → i < length tree.now → vertex_at tree.now i < length prices.old }
    requires differ { (i j : ℕ) → 0 < i → i < j → j < length tree.now → vertex_at tree.now i ≢ vertex_at tree.now j }
    requires room { (i : ℕ) → 0 < i → i < length tree.now → by ≤ get_or prices.old (vertex_at tree.now i) 0 }
    ensures { AreRaised prices.new prices.old (vertex_at tree.now) 1 (length tree.now) by }
{
    for i in 1..tree.len() {
        let vertex = tree[i].vertex;
        prices.set(vertex, prices.at(vertex) - by);
    }
}

/// Lets the mates of all nodes rise by `by`, and the vertices of all but the root fall by it. The
/// tree's arcs stay tight.
pub fn shift(prices: &mut Prices, mates: &[usize], tree: &[Node], by: u32)
    requires { MayShift prices.old mates.now tree.now by }
    ensures { AreShifted prices.old prices.new mates.now tree.now by }
{
    raise_mates(prices, mates, tree, by);
    lower_vertices(prices, tree, by);
}
