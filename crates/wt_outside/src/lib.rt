//! What the program reads and writes, as traits with a written meaning, and fakes of both in memory.
//!
//! A [`Store`] reads whole files by name, and a [`Sink`] takes bytes. Each counts its faults: an answer that
//! says that the outside failed comes only where that count rose, so code over them can't make one up.
#![tactic(auto)]

mod fault;
mod laws;
mod mem_sink;
mod mem_store;
mod sink;
mod store;

pub use fault::WriteFault;
pub use laws::reads_keep_their_order;
pub use mem_sink::MemSink;
pub use mem_store::MemStore;
pub use sink::{Failed, Sink};
pub use store::{Store, StoreFail};
