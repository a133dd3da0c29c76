// The assignment problems of a load.
ghost use Rattle.std.specs.Prelude.{◌≡◌, ◌≤◌, ◌*◌, IfOk, OnOk};
ghost use Rattle.pairing_load.specs.Problems.{after, full_problem, generator_of, next_cost};

use assignment_dual::Costs;
use rand_core::utils::NextWord;
use rand_pcg::Pcg32;
use short_list::ShortList;
use std::alloc::Global;
use trk_base::NoMemory;

/// The most plots that a problem has.
pub const SIZE_LIMIT: u32 = 1_000;

// The stream of the generator of a load.
const STREAM: u64 = 54;

// What an edge costs where all cost the same.
const EQUAL_COST: u16 = 2_048;

/// What the edges of a problem cost.
#[derive(Clone, Copy, Debug, PartialEq, Eq)]
pub enum EdgeCosts {
    /// The cost of each is drawn, from 0 to 4,096.
    Random,
    /// All cost the same.
    Equal,
}

/// The generator of a seed.
pub fn generator_of(seed: u64) -> Pcg32
    ensures { result ≡ generator_of seed }
{
    Pcg32::new(seed, STREAM)
}

// The cost of the next edge.
fn next_cost(costs: EdgeCosts, generator: &mut Pcg32) -> u16
    ensures cost { result ≡ next_cost costs generator.old }
    ensures range { result ≤ 4096 }
    ensures drawn { generator.new ≡ after costs 1 generator.old }
{
    match costs {
        EdgeCosts::Random => (generator.next_word() % 4_097) as u16,
        EdgeCosts::Equal => EQUAL_COST,
    }
}

/// The next problem: as many plots as tracks, and an edge between each plot and each track.
pub fn next_problem(
    alloc: Global,
    costs: EdgeCosts,
    size: u32,
    generator: &mut Pcg32,
) -> Result<Costs, NoMemory>
    requires some { 1 ≤ size }
    requires few { size ≤ SIZE_LIMIT }
    ensures full { IfOk result (λ p. p ≡ full_problem costs size generator.old) }
    ensures drawn { OnOk result (generator.new ≡ after costs (size * size) generator.old) }
{
    let mut edges = Vec::with_capacity(alloc, (size * size) as usize)?;
    for number in 0..size * size {
        let cost = next_cost(costs, generator);
        edges.push((number / size, number % size, cost))?;
    }
    Ok(Costs {
        plots: size,
        tracks: size,
        edges: ShortList::of(edges),
    })
}
