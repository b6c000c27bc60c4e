//! The report of a machine that has run, written to a sink.
//!
//! Each line is put together and written by one call of the sink, so no text is ever kept whole. What a call that writes
//! a part of it promises is `Writes` of `wt_outside`.
#![tactic(auto)]

mod head;
mod memory;
mod nodes;
mod options;
mod report;
mod shared;
mod total;
mod trace;
mod write;

pub use options::Options;
pub use report::write_report;
pub use trace::traces_are_serial;

/// Why a report wasn't written whole.
pub use wt_outside::WriteFault as ReportFault;
