//! A node with the messages that wait for it, free to run on its own up to a time; and the worlds of the whole machine.
//!
//! Contracts see a [`Station`] as its node, its messages by their keys, and the time that it last ran up to.
//! [`Station::run_to`] handles exactly the node's own events before a time.
#![tactic(auto)]

mod counted_queue;
mod quanta;
mod site;
mod starts;
mod station;

pub use quanta::Quanta;
pub use starts::starts_are_worlds;
pub use station::{Outs, Station};
