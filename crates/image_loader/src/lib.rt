//! Images are tested against the memories of a machine, and kept for its nodes.
//!
//! [`load`] takes no memory: which bytes stand where at the start is the definition of `specs/Loading.antt`, and the
//! memories are filled by whoever makes the nodes.
#![tactic(auto)]

mod fault;
mod loaded;
mod loader;

pub use fault::LoadFault;
pub use loaded::Loaded;
pub use loader::load;
