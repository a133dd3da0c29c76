// The sum of the least costs of many problems.
ghost use Rattle.std.specs.Prelude.{◌≡◌, ◌≤◌, ◌*◌, IfOk, OnOk, string_bytes};
ghost use Rattle.pairing_load.specs.Problems.{after, full_problem};
ghost use Rattle.pairing_load.specs.Totals.{IsLeastCost, IsCostSum, total_line};

use crate::problems::{EdgeCosts, SIZE_LIMIT, generator_of, next_problem};
use crate::words::PairingLoad;
use assignment_dual::solve;
use rand_pcg::Pcg32;
use std::alloc::{AllocError, Global};
use trk_base::NoMemory;

// The least cost of the next problem.
fn next_least_cost(
    alloc: Global,
    costs: EdgeCosts,
    size: u32,
    generator: &mut Pcg32,
) -> Result<u64, NoMemory>
    requires some { 1 ≤ size }
    requires few { size ≤ SIZE_LIMIT }
    ensures least { IfOk result (IsLeastCost (full_problem costs size generator.old)) }
    ensures range { IfOk result (λ c. c ≤ 4097 * 1000) }
    ensures drawn { OnOk result (generator.new ≡ after costs (size * size) generator.old) }
{
    let problem = next_problem(alloc, costs, size, generator)?;
    let solved = solve(alloc, &problem)?;
    Ok(solved.cost as u64)
}

/// The sum of the least costs of all problems of a load.
#[tactic(auto, using(crate::proofs::Least::total_more, crate::proofs::Least::after_more, crate::proofs::Least::least_at))]
pub fn total_cost(alloc: Global, load: PairingLoad) -> Result<u64, NoMemory>
    requires some { 1 ≤ load.size }
    requires few { load.size ≤ SIZE_LIMIT }
    ensures { IfOk result (IsCostSum load.costs load.size load.seed load.count) }
{
    let mut generator = generator_of(load.seed);
    let mut total: u64 = 0;
    for number in 0..load.count {
        total += next_least_cost(alloc, load.costs, load.size, &mut generator)?;
    }
    Ok(total)
}

/// The line that tells it.
pub fn total_line(alloc: Global, count: u32, total: u64) -> Result<String, AllocError>
    ensures { IfOk result (λ s. string_bytes s ≡ total_line count total) }
{
    format!(in alloc; "problems {count} cost {total}\n")
}
