//! Lists that nearly always have no or one element, as those of a component of a batch's gates:
//! such a list asks for no memory.
#![tactic(auto)]

mod forms;
mod list;
#[cfg(test)]
mod tests;

pub use list::ShortList;
