// Assignment problems, and what their solution tells.
use short_list::ShortList;
use std::alloc::Global;
use std::marker::Model;
use trk_base::{NoMemory, TryCopy};

/// An assignment problem: a batch's plots, the tracks, and what each gate costs.
///
/// Plots and tracks are named by their places, from 0. The edges strictly rise in the place of the
/// plot, then of the track; their places are in range, and no cost is above 4,096.
#[derive(Debug, Drop, PartialEq, Eq)]
pub struct Costs {
    /// How many plots there are.
    pub plots: u32,
    /// How many tracks there are.
    pub tracks: u32,
    /// Each gate: the plot's place, the track's place, and the cost.
    pub edges: ShortList<(u32, u32, u16)>,
}

impl Model for Costs {
    ghost use Rattle.assignment_dual.specs.Problems.{Problem};

    ghost Value = { Problem };

    ghost use Rattle.assignment_dual.specs.Problems.{IsProblem};

    ghost view = { λ c. record { plots = c.plots; tracks = c.tracks; edges = c.edges } };

    ghost invariant = { λ c. IsProblem (record { plots = c.plots; tracks = c.tracks; edges = c.edges }) };

    ghost inverse = { λ c. record { plots = c.plots; tracks = c.tracks; edges = c.edges } };
}

impl TryCopy for Costs {
    fn copy(&self, alloc: Global) -> Result<Costs, NoMemory> {
        Ok(Costs {
            plots: self.plots,
            tracks: self.tracks,
            edges: self.edges.copy(alloc)?,
        })
    }
}

/// The least pairing of an assignment problem, with prices that prove it.
#[derive(Debug, Drop)]
pub struct Solved {
    /// For each plot the place of its track, or none.
    pub pairing: ShortList<Option<u32>>,
    /// The price of each plot, at most 4,097.
    pub u: ShortList<i64>,
    /// The price of each track, at most 0.
    pub v: ShortList<i64>,
    /// The pairing's cost, which is the sum of all prices.
    pub cost: i64,
}
