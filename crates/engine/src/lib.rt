//! A machine of many nodes, run quantum by quantum: each node runs on its own up to the end of the quantum, and then they
//! exchange their messages. The world that it comes to is that of the serial simulation.
//!
//! [`Engine::round_plain`] is one quantum on the calling thread, [`Engine::round`] one by several workers in threads; the
//! world of an engine is what its stations hold together.
#![tactic(auto)]

mod engine;
mod head;
mod inboxes;
mod parts;
mod stations;

pub use self::engine::{Engine, Round};
pub use stations::earliest;
