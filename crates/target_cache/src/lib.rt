//! A node's cache of shared memory: sets of lines, in which the line installed first is replaced.
//!
//! Contracts see a [`Cache`] as a list of lines for each set, the one installed first in front.
#![tactic(auto)]

mod answer;
mod bytes;
mod cache;
mod line;
mod line_set;

pub use answer::WriteHit;
pub use cache::Cache;
pub use line::Line;
