//! The simulation of a whole machine, its report, and the top call of the program.
#![tactic(auto)]

mod laying;
mod perform;
mod refuse;
mod run;
mod simulate;
mod status;
mod top;

pub use refuse::out_of_memory;
pub use status::Status;
pub use top::{wwt, wwt_plain};
