// The least pairing, with its cost and its prices.

ghost use Rattle.std.specs.Prelude.{◌≡◌, ◌≤◌, ◌<◌, ◌^◌, ◌+◌, ◌*◌, ℕ, Bool, false, pos, ◌-ℤ◌, length, get_or, map, sum, IfOk, IfSome};
ghost use Rattle.std.specs.List.{All};
ghost use Rattle.trk_base.specs.Limits.{miss_cost};
ghost use Rattle.assignment_dual.specs.Pairings.{IsLeast, cost};
ghost use Rattle.assignment_dual.specs.Problems.{Problem, IsProblem, rows_of, Proves, IsSolvedBy};
ghost use Rattle.assignment_dual.specs.Search.{NoneSeen};
ghost use Rattle.assignment_dual.specs.Vertices.{IsGraph};
ghost use Rattle.assignment_dual.specs.Rests.{ShowsRest};

use crate::augmenting::augment_all;
use crate::build::graph_of;
use crate::graph::Graph;
use crate::prices::Prices;
use crate::search::Search;
use crate::single::solve_single;
use crate::tie::first_pairing;
use crate::{Costs, Solved};
use short_list::ShortList;
use std::alloc::Global;
use trk_base::{MISS_COST, NoMemory};

// The first prices: the plots stand out at 0, and the tracks pay for being alone.
fn first_prices(alloc: Global, plots: usize, count: usize) -> Result<Vec<u32>, NoMemory>
    ensures count { IfOk result (λ prices. length prices.items ≡ count) }
    ensures plots { IfOk result (λ prices. (v : ℕ) → v < plots → get_or prices.items v 0 ≡ 0) }
    ensures tracks { IfOk result (λ prices. (v : ℕ) → plots ≤ v → v < count → get_or prices.items v 0 ≡ miss_cost) }
{
    let mut prices = Vec::with_capacity(alloc, count)?;
    for vertex in 0..count {
        prices.push(if vertex < plots { 0 } else { MISS_COST })?;
    }
    Ok(prices)
}

// At first everyone is alone.
fn first_mates(alloc: Global, count: usize) -> Result<Vec<usize>, NoMemory>
    ensures count { IfOk result (λ mates. length mates.items ≡ count) }
    ensures alone { IfOk result (λ mates. (v : ℕ) → v < count → get_or mates.items v 0 ≡ v) }
{
    let mut mates = Vec::with_capacity(alloc, count)?;
    for vertex in 0..count {
        mates.push(vertex)?;
    }
    Ok(mates)
}

// The prices u of the plots.
fn plot_prices(alloc: Global, prices: &[u32]) -> Result<Vec<i64>, NoMemory>
    ensures { IfOk result (λ us. us.items ≡ map pos prices.now) }
{
    let mut us = Vec::with_capacity(alloc, prices.len())?;
    for price in prices {
        us.push(i64::from(*price))?;
    }
    Ok(us)
}

// The prices v of the tracks.
fn track_prices(alloc: Global, prices: &[u32]) -> Result<Vec<i64>, NoMemory>
    ensures { IfOk result (λ vs. vs.items ≡ map (λ q. pos q -ℤ pos miss_cost) prices.now) }
{
    let mut vs = Vec::with_capacity(alloc, prices.len())?;
    for price in prices {
        vs.push(i64::from(*price) - i64::from(MISS_COST))?;
    }
    Ok(vs)
}

// The cost that these prices prove: all of them, without what each track would pay alone.
fn proven_cost(prices: &Prices, tracks: usize) -> i64
    requires { tracks < 2 ^ 32 }
    ensures { result ≡ pos (sum prices.now) -ℤ pos (miss_cost * tracks) }
{
    let alone = u64::from(MISS_COST) * tracks as u64;
    prices.sum() as i64 - alone as i64
}

// The answer: the vertices get their places, their prices are read, and then the first of the
// pairings that cost least.
fn answer(
    alloc: Global,
    graph: &Graph,
    prices: &mut Prices,
    mates: &mut [usize],
    search: &mut Search,
    gone: &mut [bool],
) -> Result<Solved, NoMemory>
    requires graph { IsGraph graph.now (length prices.old) }
    requires plots { graph.now.plots ≤ length prices.old }
    requires tracks { length prices.old < graph.now.plots + 2 ^ 32 }
    requires seen { length search.old.seen.items ≡ length prices.old }
    requires none_seen { NoneSeen search.old.seen.items }
    requires count { length mates.old ≡ length prices.old }
    requires alone { (v : ℕ) → v < length prices.old → get_or mates.old v 0 ≡ v }
    requires out { (v : ℕ) → v < graph.now.plots → get_or prices.old v 0 ≡ 0 }
    requires pay { (v : ℕ) → graph.now.plots ≤ v → v < length prices.old → get_or prices.old v 0 ≡ miss_cost }
    requires gone { length gone.old ≡ length prices.old }
    requires here { (v : ℕ) → get_or gone.old v false ≡ false }
    ensures { IfOk result (λ s. (p : Problem) → IsProblem p → graph.now.plots ≡ p.plots → length prices.old ≡ p.plots + p.tracks
        → ShowsRest graph.now (length prices.old) p.tracks gone.old 0 (rows_of p) → IsSolvedBy p s.pairing s.u s.v s.cost) }
{
    augment_all(graph, prices, mates, search)?;
    let u = plot_prices(alloc, &prices.as_slice()[..graph.plots])?;
    let v = track_prices(alloc, &prices.as_slice()[graph.plots..])?;
    let cost = proven_cost(prices, prices.len() - graph.plots);
    let pairing = first_pairing(alloc, graph, prices, mates, search, gone)?;
    Ok(Solved {
        pairing: ShortList::of(pairing),
        u: ShortList::of(u),
        v: ShortList::of(v),
        cost,
    })
}

/// The least pairing: of all pairings the one that comes first by its cost, then by its list,
/// entry by entry, a lower place before a higher one and every place before none. Its prices
/// prove that none costs less.
pub fn solve(alloc: Global, costs: &Costs) -> Result<Solved, NoMemory>
    ensures least { IfOk result (λ s. IsLeast (rows_of costs.now) s.pairing) }
    ensures cost { IfOk result (λ s. s.cost ≡ pos (cost (rows_of costs.now) s.pairing)) }
    ensures proves { IfOk result (λ s. Proves costs.now s.pairing s.u s.v) }
    ensures tracks { IfOk result (λ s. All (λ x. IfSome x (λ t. t < costs.now.tracks)) s.pairing) }
{
    if costs.plots == 1 {
        return solve_single(alloc, costs);
    }
    solve_many(alloc, costs)
}

// The same, for any number of plots.
fn solve_many(alloc: Global, costs: &Costs) -> Result<Solved, NoMemory>
    ensures { IfOk result (λ s. IsSolvedBy costs.now s.pairing s.u s.v s.cost) }
{
    let plots = costs.plots as usize;
    let tracks = costs.tracks as usize;
    let graph = graph_of(alloc, costs)?;
    let mut prices = Prices::of(first_prices(alloc, plots, plots + tracks)?);
    let mut mates = first_mates(alloc, plots + tracks)?;
    let mut gone = vec![in alloc; false; plots + tracks]?;
    let mut search = Search {
        seen: vec![in alloc; false; plots + tracks]?,
        tree: Vec::with_capacity(alloc, plots + tracks)?,
    };
    answer(
        alloc,
        &graph,
        &mut prices,
        &mut mates,
        &mut search,
        &mut gone,
    )
}
