//! The parameters of the simulated machine, each in its range.
//!
//! A [`Machine`] is made only with every number in its range, so whoever is handed one may rely on the
//! ranges. [`NoMemory`] is the answer for want of memory that all crates share.
#![tactic(auto)]

mod fields;
mod machine;
mod memory;
mod parts;

pub use machine::Machine;
pub use memory::NoMemory;
pub use parts::{CostParts, Field, MachineParts, ParamFault};
