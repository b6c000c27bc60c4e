//! What the nodes of a simulation count, the sums over them, and what a simulation comes to.
//!
//! The counters' names and their order stand in [`COUNTER_NAMES`]; [`Totals::values`] has the numbers in that order.
#![tactic(auto)]

mod counters;
mod head;
mod numbers;
mod sums;

pub use counters::{COUNTER_NAMES, Counters, counters_are_named};
pub use head::{Head, Outcome};
pub use numbers::Totals;
pub use sums::totals;
