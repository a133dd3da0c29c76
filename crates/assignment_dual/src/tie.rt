// Of all pairings of least cost the first one, plot by plot.

ghost use Rattle.std.specs.Prelude.{◌≡◌, ◌≢◌, ◌≤◌, ◌<◌, ◌↔◌, ℕ, ◌+◌, ◌^◌, ◌∷◌, [], length, vec_len, get_or, true, false, Bool, List, IsTrue, MatchBool, OnOk, IfOk};
ghost use Rattle.trk_base.specs.Limits.{miss_cost};
ghost use Rattle.assignment_dual.specs.Pairings.{Row, IsLeast};
ghost use Rattle.assignment_dual.specs.Search.{NoneSeen};
ghost use Rattle.assignment_dual.specs.Vertices.{HasArc, to_of, IsGraph, IsDualFeasible, IsOptimal};
ghost use Rattle.assignment_dual.specs.Rests.{ShowsRest};
ghost use Rattle.assignment_dual.specs.Choices.{IsCandidate, AreCandidates, IsFixedBy};

use crate::fix::{put_back, take_out, take_pair};
use crate::graph::Graph;
use crate::prices::Prices;
use crate::search::{Search, slack};
use std::alloc::Global;
use trk_base::{MISS_COST, NoMemory};

// Whether the arc k of p is tight, and its track isn't gone.
fn is_candidate(graph: &Graph, prices: &Prices, gone: &[bool], p: usize, k: usize) -> bool
    requires graph { IsGraph graph.now (length prices.now) }
    requires priced { IsDualFeasible graph.now (length prices.now) prices.now }
    requires count { length gone.now ≡ length prices.now }
    requires p { p < length prices.now }
    requires arc { HasArc graph.now p k }
    ensures { MatchBool result (IsCandidate graph.now prices.now gone.now p k) (IsCandidate graph.now prices.now gone.now p k → ⊥) }
{
    let (t, slack) = slack(graph, prices, p, k);
    slack == 0 && !gone[t]
}

// The arcs of the plot p that are tight, to tracks that aren't gone, in their order.
fn candidates(
    graph: &Graph,
    prices: &Prices,
    gone: &[bool],
    p: usize,
    tight: &mut Vec<usize>,
) -> Result<(), NoMemory>
    requires graph { IsGraph graph.now (length prices.now) }
    requires priced { IsDualFeasible graph.now (length prices.now) prices.now }
    requires count { length gone.now ≡ length prices.now }
    requires p { p < length prices.now }
    requires empty { tight.old.items ≡ [] }
    ensures { OnOk result (AreCandidates graph.now prices.now gone.now p tight.new.items) }
{
    for k in graph.first[p]..graph.first[p + 1] {
        if is_candidate(graph, prices, gone, p, k) {
            tight.push(k)?;
        }
    }
    Ok(())
}

// Whether the first candidate of the plot p leads to the mate that it has.
fn mate_is_first(graph: &Graph, mates: &[usize], tight: &[usize], p: usize) -> bool
    requires arc { 0 < length tight.now → get_or tight.now 0 0 < vec_len graph.now.arcs }
    requires p { p < length mates.now }
    ensures { IsTrue result ↔ ((0 < length tight.now) × (to_of graph.now (get_or tight.now 0 0) ≡ get_or mates.now p 0)) }
{
    !tight.is_empty() && graph.arcs[tight[0]].to == mates[p]
}

// Fixes the plot p by its entry in the first of the pairings that cost least: the track of the
// first candidate with which the least cost stays what it was, or none. With the mate that p has
// it does, so no other place is searched where that is the first one.
fn fix_plot(
    graph: &Graph,
    prices: &mut Prices,
    mates: &mut [usize],
    search: &mut Search,
    gone: &mut [bool],
    tight: &[usize],
    p: usize,
) -> Result<Option<u32>, NoMemory>
    requires graph { IsGraph graph.now (length prices.old) }
    requires resting { IsOptimal graph.now (length prices.old) prices.old mates.old gone.old }
    requires seen { length search.old.seen.items ≡ length prices.old }
    requires none_seen { NoneSeen search.old.seen.items }
    requires count { length gone.old ≡ length prices.old }
    requires tracks { length prices.old < graph.now.plots + 2 ^ 32 }
    requires plots { graph.now.plots ≤ length prices.old }
    requires p { p < graph.now.plots }
    requires here { get_or gone.old p false ≡ false }
    requires tight { AreCandidates graph.now prices.old gone.old p tight.now }
    ensures resting { OnOk result (IsOptimal graph.now (length prices.old) prices.new mates.new gone.new) }
    ensures seen { OnOk result (length search.new.seen.items ≡ length prices.old) }
    ensures none_seen { OnOk result (NoneSeen search.new.seen.items) }
    ensures others { OnOk result ((v : ℕ) → v < graph.now.plots → v ≢ p → get_or gone.new v false ≡ get_or gone.old v false) }
    ensures fixed { IfOk result (λ x. (tracks : ℕ) (row : Row) (rows : List Row) → ShowsRest graph.now (length prices.old) tracks gone.old p (row ∷ rows)
        → IsFixedBy graph.now (length prices.old) gone.old gone.new p x tracks row rows) }
{
    if mate_is_first(graph, mates, tight, p) {
        let track = take_pair(prices, mates, gone, p);
        return Ok(Some((track - graph.plots) as u32));
    }
    let whole = prices.sum();
    take_out(graph, prices, mates, search, gone, p)?;
    for k in tight {
        let arc = graph.arcs[*k];
        take_out(graph, prices, mates, search, gone, arc.to)?;
        if u64::from(arc.cost + MISS_COST) + prices.sum() == whole {
            return Ok(Some((arc.to - graph.plots) as u32));
        }
        put_back(graph, prices, mates, search, gone, arc.to)?;
    }
    Ok(None)
}

/// The first of the pairings that cost least.
pub fn first_pairing(
    alloc: Global,
    graph: &Graph,
    prices: &mut Prices,
    mates: &mut [usize],
    search: &mut Search,
    gone: &mut [bool],
) -> Result<Vec<Option<u32>>, NoMemory>
    requires graph { IsGraph graph.now (length prices.old) }
    requires resting { IsOptimal graph.now (length prices.old) prices.old mates.old gone.old }
    requires seen { length search.old.seen.items ≡ length prices.old }
    requires none_seen { NoneSeen search.old.seen.items }
    requires count { length gone.old ≡ length prices.old }
    requires tracks { length prices.old < graph.now.plots + 2 ^ 32 }
    requires plots { graph.now.plots ≤ length prices.old }
    requires here { (v : ℕ) → v < graph.now.plots → get_or gone.old v false ≡ false }
    ensures { IfOk result (λ pairing. (tracks : ℕ) (rows : List Row) → ShowsRest graph.now (length prices.old) tracks gone.old 0 rows → IsLeast rows pairing.items) }
{
    let mut pairing = Vec::with_capacity(alloc, graph.plots)?;
    let mut tight = Vec::with_capacity(alloc, prices.len() - graph.plots)?;
    for p in 0..graph.plots {
        tight.clear();
        candidates(graph, prices, gone, p, &mut tight)?;
        pairing.push(fix_plot(graph, prices, mates, search, gone, &tight, p)?)?;
    }
    Ok(pairing)
}
