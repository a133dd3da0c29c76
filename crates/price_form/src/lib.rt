//! Certificates that a batch's pairing is least, their check, and the file that holds them.
//!
//! A certificate carries a component of a batch's gate graph, the pairing that was taken, and
//! prices of its plots and tracks: a solution of the dual problem. Where the sum of the prices is
//! the pairing's cost, no pairing costs less.
//!
//! A price file is four octets, `4D 52 50 31`, and then records. All numbers are big-endian. A
//! record `01` is an edition: its number and its cut, 8 octets each. A record `02` is a
//! certificate: the slot (8), the radar (1), the number of plots (4) and of tracks (4), the
//! arrival of each plot and of each track (8 each), the number of edges (4) and each edge's plot
//! (4), track (4) and cost (2), for each plot the place of its track (4, `FFFFFFFF` for none), and
//! the price of each plot and of each track (8 each, with a sign).
#![tactic(auto)]

mod certs;
mod checking;
mod columns;
mod numbers;
mod pairs;
mod prefixes;
mod reading;
#[cfg(test)]
mod tests;
mod writing;

pub use certs::{Cert, PriceRecord, PricesError};
pub use checking::{check, check_at};
pub use prefixes::{one_prefix_fault, prefix_fault, prefix_fault_stays};
pub use reading::{certificate_offsets, one_price_file, read_prices};
pub use writing::{
    USUAL_RECORD, put_cert, start_prices, write_cert, write_edition, written_prices,
};
