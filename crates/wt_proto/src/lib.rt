//! What the parts of the simulated machine say to each other: keys, messages, directory entries, what a processor
//! does, and lists and sets of them.
#![tactic(auto)]

mod block;
mod directory;
mod fifo;
mod key;
mod letter;
mod message;
mod mode;
mod node_set;
mod stamped_list;

pub use block::Block;
pub use directory::{DirEntry, DirState, Request, Targets, TrapPlan, Waiting};
pub use fifo::Fifo;
pub use key::{Key, key_order};
pub use letter::Letter;
pub use message::{Back, Body, Msg, Outgoing, Stamped};
pub use mode::{Cause, Mode};
pub use node_set::{MOST_NODES, NodeSet};
pub use stamped_list::StampedList;

/// Messages that a node is about to send, in order.
pub type Sends = Fifo<Outgoing>;
