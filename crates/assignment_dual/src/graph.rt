// Plots and tracks as vertices, with the arcs between them.

/// One way along an edge.
#[derive(Clone, Copy)]
pub struct Arc {
    /// The vertex that it leaves.
    pub from: usize,
    /// The vertex that it leads to.
    pub to: usize,
    /// The cost of the edge.
    pub cost: u32,
}

/// The vertices are the plots, then the tracks. The arcs stand by the vertex that they leave, then
/// by the one that they lead to; those of the vertex x are from `first[x]` to `first[x + 1]`.
#[derive(Drop)]
pub struct Graph {
    /// How many plots there are.
    pub plots: usize,
    /// Where the arcs of each vertex begin, and how many arcs there are.
    pub first: Vec<usize>,
    /// All arcs.
    pub arcs: Vec<Arc>,
}
