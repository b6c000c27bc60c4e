//! The software that a directory traps to: it calls copies of a block back.
#![tactic(auto)]

mod trap;

pub use trap::run_trap;
