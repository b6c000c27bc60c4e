//! The core of the machine: the quanta of its nodes, the deposits of what they send to each other, and the turn to the next
//! quantum, as steps that may be done in any order in which each is enabled.
//!
//! [`Core::apply`] is one step. Whatever the steps and their order, a core at rest stands for a world of the serial
//! simulation: see [`replay`].
#![tactic(auto)]

mod delivery;
mod interleaved;
mod marks;
mod opening;
mod sent;
mod step;

pub use interleaved::{Core, replay};
pub use step::{Step, StepFault, Why};
