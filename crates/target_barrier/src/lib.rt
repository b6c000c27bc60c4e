//! The barrier unit of the simulated machine: who has arrived, who has left, and when all may go on.
#![tactic(auto)]

mod barrier;

pub use barrier::{BarrierUnit, Release};
