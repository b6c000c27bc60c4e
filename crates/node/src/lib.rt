//! One node of the simulated machine: a processor with its registers, private memory and cache, and the home of blocks
//! with their memory and directory entries.
//!
//! [`Node::handle_step`] and [`Node::handle_message`] are one event each, exactly as `react` defines it.
#![tactic(auto)]

mod annotation;
mod barrier_message;
mod call;
mod data_message;
mod directory_message;
mod event;
mod inv_message;
mod laws;
mod node;
mod output;
mod private_access;
mod processor;
mod send_list;
mod shared_access;
mod start;
mod state;

pub use self::node::Node;
pub use laws::machines_are_simulations;
