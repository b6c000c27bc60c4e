//! Small machines to run tests on, so that their numbers stand once. Only tests use them.
#![tactic(auto)]

mod machines;

pub use machines::{four_nodes, machine_of, machine_with, one_node, small_parts, two_nodes};
