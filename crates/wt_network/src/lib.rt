//! The network of the simulated machine: when a message arrives, and for how long none comes to another node.
#![tactic(auto)]

mod stamps;

pub use stamps::{lookahead, stamp};
