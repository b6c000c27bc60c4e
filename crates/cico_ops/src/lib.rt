//! What an annotation of the program does with a block, by the tag that the node has for it.
#![tactic(auto)]

mod annotation;

pub use annotation::{CicoAction, action};
