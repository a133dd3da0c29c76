//! A span of slots run in parts: pools that run the parts' jobs, one after the other or each in a
//! thread of its own, the joins of parts that cross, and the runs of all parts as one.
#![tactic(auto)]

mod joining;
#[cfg(test)]
mod lamps;
mod parts;
mod pool;
mod running;
#[cfg(test)]
mod tests;
mod walking;

pub use parts::run_in_parts;
pub use pool::{Inline, MapPool, Pool};
