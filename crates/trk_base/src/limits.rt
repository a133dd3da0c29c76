// Numbers that several crates cite. `one_home` ties each to its literal in the definitions.

/// The greatest cost of a pair of plot and track that passes the gate.
pub const GATE_COST: u16 = 4_096;

/// The cost of a plot that is paired with no track: one more than that of any gate.
pub const MISS_COST: u32 = 4_097;

/// The greatest size of a coordinate in the plane, in 1/64 m: 4,000 km from the origin.
pub const PLANE_BOUND: i64 = 256_000_000;

/// What arrivals, numbers of events in a log and numbers of editions stay below: 2^62.
pub const COUNT_LIMIT: u64 = 1 << 62;
