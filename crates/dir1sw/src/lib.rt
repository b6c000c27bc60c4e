//! The directory of a node: for each block whose home the node is, who holds copies of it, who waits for it, and its
//! memory. After Dir1SW (Hill, Larus, Reinhardt, Wood, Cooperative Shared Memory, 1993).
#![tactic(auto)]

mod directory;
mod home;
mod memory;

pub use directory::{Directory, rows_fit, rows_of_version_1};
pub use home::{DirAct, HomeBlock, Place};
pub use memory::BlockMemory;
