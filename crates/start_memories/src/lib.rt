//! What stands in a node's memories at the start: the images laid into its private memory, and into the memory of each
//! block whose home it is.
#![tactic(auto)]

mod part;
mod private;
mod shared;

pub use private::private_at_start;
pub use shared::directory_at_start;
