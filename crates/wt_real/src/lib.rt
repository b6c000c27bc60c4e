//! The store over the host's files, and the sinks over its standard output and standard error.
//!
//! Each counts as a fault every `Err` that std gives it, and tells no content: what a file holds and what
//! reaches a terminal is no fact of this program.
#![tactic(auto)]

mod files;
mod streams;

pub use files::FileStore;
pub use streams::{ErrSink, OutSink, StreamSink};
