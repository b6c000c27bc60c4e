//! The mesh of the simulated machine: how far apart its nodes are, how long a message is under way between two of
//! them, and the least of these times between different nodes.
#![tactic(auto)]

mod mesh;

pub use mesh::{distance, latency, least_latency};
