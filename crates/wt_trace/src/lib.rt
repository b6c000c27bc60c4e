//! The trace of a simulation: what each node did in each event, the records of all nodes as one list, and their
//! lines.
#![tactic(auto)]

mod event_line;
mod merged;
mod node_log;
mod record;
mod text;

pub use event_line::line;
pub use merged::{merge, merge_order};
pub use node_log::{Log, NodeLog};
pub use record::{Deed, Record, What};
pub use text::{add_block, add_cause, add_message};
