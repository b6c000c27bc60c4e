//! The private memory of a node: bytes at the addresses from 0 to its size, little-endian.
//!
//! Contracts see a [`PrivMem`] as the list of its bytes.
#![tactic(auto)]

mod fault;
mod memory;

pub use fault::MemFault;
pub use memory::PrivMem;
