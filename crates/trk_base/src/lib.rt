//! What every crate of the tracker stands on: whole numbers, times, keys, plots as a radar
//! reports them, limits that several crates cite, counted steps, lists inside plain data, and want
//! of memory.
#![tactic(auto)]

mod keys;
mod laws;
mod limits;
mod lists;
mod memory;
mod numbers;
mod plots;
#[cfg(test)]
mod tests;
mod ticket;
mod times;

pub use keys::Key;
pub use laws::{one_home, raw_plot_order};
pub use limits::{COUNT_LIMIT, GATE_COST, MISS_COST, PLANE_BOUND};
pub use lists::{Sequence, TryCopy};
pub use memory::NoMemory;
pub use numbers::{exp2_lin, isqrt, round_div};
pub use plots::RawPlot;
pub use ticket::{Steps, Ticket, charge};
pub use times::{DAY, slot_of, unwrap_tod};
