//! Who reads a block, as its home knows it: the nodes themselves while they are few, and else how many they are.
#![tactic(auto)]

mod few;
mod readers;

pub use few::Few;
pub use readers::{Readers, Removed};
