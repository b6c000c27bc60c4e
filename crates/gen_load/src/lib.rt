//! Machines with their programs, made from a number: small loads that run on many nodes.
#![tactic(auto)]

mod assembly;
mod generator;
mod line;
mod listings;

pub use generator::generate;
