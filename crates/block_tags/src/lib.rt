//! What a node may do with each block of shared memory, as a table of tags.
//!
//! Contracts see a [`TagTable`] as the list of its tags, from block 0 on.
#![tactic(auto)]

mod table;
mod tag;

pub use table::TagTable;
pub use tag::Tag;
