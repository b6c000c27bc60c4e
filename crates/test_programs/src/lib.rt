//! Programs of words to run tests on. Only tests use them.
#![tactic(auto)]

mod words;

pub use words::{program, programs};
