// Pairings of small problems, against all pairings.
ghost use Rattle.std.specs.Prelude.{◌≡◌, ◌+◌, ℕ, length, [], IsTrue};
ghost use Rattle.assignment_dual.specs.Problems.{EdgeBefore, edge_at};

use crate::*;
use rand_core::utils::NextWord;
use rand_pcg::Pcg32;
use short_list::ShortList;
use std::alloc::Global;
use std::test::Fail;
use trk_base::{NoMemory, TryCopy};

// A problem without edges.
fn bare(alloc: Global, plots: u32, tracks: u32) -> Costs
    ensures plots { result.plots ≡ plots }
    ensures tracks { result.tracks ≡ tracks }
    ensures edges { result.edges ≡ [] }
{
    Costs {
        plots,
        tracks,
        edges: ShortList::new(alloc),
    }
}

// Whether an edge comes after all others.
fn is_after(edges: &[(u32, u32, u16)], edge: (u32, u32, u16)) -> bool
    ensures { IsTrue result → (i : ℕ) → i + 1 ≡ length edges.now → EdgeBefore (edge_at edges.now i) edge }
{
    if edges.is_empty() {
        return true;
    }
    let (plot, track, _) = edges[edges.len() - 1];
    plot < edge.0 || plot == edge.0 && track < edge.1
}

// The problem with one more edge after the others, if that is its place.
fn with_edge(alloc: Global, mut costs: Costs, edge: (u32, u32, u16)) -> Result<Costs, NoMemory> {
    if edge.0 >= costs.plots || edge.1 >= costs.tracks || edge.2 > 4096 {
        return Ok(costs);
    }
    if is_after(costs.edges.as_slice(), edge) {
        costs.edges.push(alloc, edge)?;
    }
    Ok(costs)
}

// The problem with these edges, which stand in order.
fn problem(
    alloc: Global,
    plots: u32,
    tracks: u32,
    edges: &[(u32, u32, u16)],
) -> Result<Costs, NoMemory> {
    let mut costs = bare(alloc, plots, tracks);
    for edge in edges {
        costs = with_edge(alloc, costs, *edge)?;
    }
    Ok(costs)
}

// Whether this pairing is the answer to the problem, and to a copy of it.
fn answers(
    alloc: Global,
    costs: &Costs,
    pairing: &[Option<u32>],
    cost: i64,
) -> Result<bool, NoMemory> {
    let copy = costs.copy(alloc)?;
    let answer = solve(alloc, &copy)?;
    Ok(copy == *costs && answer.pairing.as_slice() == pairing && answer.cost == cost)
}

#[test]
fn takes_the_first_of_equal_pairings(rt: HostRuntime) -> Result<(), Fail> {
    let square = [(0, 0, 1), (0, 1, 2), (1, 0, 1), (1, 1, 2)];
    let row = [(0, 0, 5), (0, 1, 3), (0, 2, 3)];
    // Two plots with two tracks, nothing, two plots that no track gates, and one plot.
    for (plots, tracks, edges, pairing, cost) in [
        (2, 2, square.as_slice(), [Some(0), Some(1)].as_slice(), 3),
        (0, 0, [].as_slice(), [].as_slice(), 0),
        (2, 1, [].as_slice(), [None, None].as_slice(), 2 * 4097),
        (1, 4, row.as_slice(), [Some(1)].as_slice(), 3),
        (1, 1, [].as_slice(), [None].as_slice(), 4097),
    ] {
        let costs = problem(rt.alloc(), plots, tracks, edges).map_err(|_| "no memory")?;
        let answers = answers(rt.alloc(), &costs, pairing, cost).map_err(|_| "no memory")?;
        assert!(rt; answers);
    }
    Ok(())
}

// The prices of a plot and of its tracks, where there is one.
fn prices(alloc: Global, costs: &Costs) -> Result<(ShortList<i64>, ShortList<i64>), NoMemory> {
    let Solved { u, v, .. } = solve(alloc, costs)?;
    Ok((u, v))
}

#[test]
fn prices_one_plot(rt: HostRuntime) -> Result<(), Fail> {
    let row = [(0, 0, 5), (0, 1, 3), (0, 2, 3)];
    let costs = problem(rt.alloc(), 1, 4, &row).map_err(|_| "no memory")?;
    let (u, v) = prices(rt.alloc(), &costs).map_err(|_| "no memory")?;
    assert_eq!(rt; u.as_slice(), [3].as_slice());
    assert_eq!(rt; v.as_slice(), [0, 0, 0, 0].as_slice());
    Ok(())
}

// A small problem: what each of four tracks costs at each of five plots, if it gates it.
fn small(alloc: Global, draw: &mut Pcg32, round: u32) -> Result<(Costs, Vec<Option<u16>>), Fail> {
    let mut costs = bare(alloc, 5, 4);
    let mut gates = Vec::new(alloc);
    for plot in 0..5 {
        for track in 0..4 {
            let word = draw.next_word();
            let cost = match round % 3 {
                0 => word / 4 % 3,
                1 => word / 4 % 2 * 4096,
                _ => word / 4 % 4097,
            };
            if word % 4 == 0 {
                gates.push(None)?;
            } else {
                costs = with_edge(alloc, costs, (plot, track, cost as u16)).map_err(
                    |_| "no memory",
                )?;
                gates.push(Some(cost as u16))?;
            }
        }
    }
    Ok((costs, gates))
}

// The entries that a number spells, the first one by its highest digit: 4 is none.
fn entries(alloc: Global, code: u32) -> Result<Vec<Option<u32>>, Fail> {
    let mut entries = Vec::new(alloc);
    for unit in [625, 125, 25, 5, 1] {
        let digit = code / unit % 5;
        entries.push((digit < 4).then_some(digit))?;
    }
    Ok(entries)
}

// What these entries cost, if they are a pairing.
fn cost_of(gates: &[Option<u16>], entries: &[Option<u32>]) -> Option<u32> {
    let mut cost: u32 = 0;
    for (plot, entry) in entries.iter().enumerate() {
        let part = match entry {
            None => 4097,
            Some(track) => {
                if entries[..plot].contains(entry) {
                    return None;
                }
                let at = plot.checked_mul(4)?.checked_add(*track as usize)?;
                u32::from((*gates.get(at)?)?)
            }
        };
        cost = cost.checked_add(part)?;
    }
    Some(cost)
}

// The first of the pairings that cost least, by trying all of them, and its cost.
fn tried(alloc: Global, gates: &[Option<u16>]) -> Result<(Vec<Option<u32>>, Option<u32>), Fail> {
    let mut least = None;
    let mut first = 0;
    for code in 0..3125 {
        let cost = cost_of(gates, &entries(alloc, code)?);
        if cost.is_some() && (least.is_none() || cost < least) {
            least = cost;
            first = code;
        }
    }
    Ok((entries(alloc, first)?, least))
}

#[test]
fn equals_the_first_of_all_pairings(rt: HostRuntime) -> Result<(), Fail> {
    let mut draw = Pcg32::new(42, 54);
    for round in 0..300 {
        let (costs, gates) = small(rt.alloc(), &mut draw, round)?;
        let (pairing, cost) = tried(rt.alloc(), &gates)?;
        let cost = cost.map_or(0, i64::from);
        let answers = answers(rt.alloc(), &costs, &pairing, cost).map_err(|_| "no memory")?;
        assert!(rt; answers);
    }
    Ok(())
}
