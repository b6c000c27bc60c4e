//! Coherence of shared memory: in every run of every machine no message is stray, a copy that can be written is the only
//! copy, and each load reads what the last stores left.
//!
//! It is proved of a machine of one block, whose home does what the directory does and whose steps may come in any order.
//! Each event of a node is, seen from each block, some of these steps, or a row of the directory at the block's home. The
//! messages under way between a home and a node are first in, first out. So each world of the serial run of a machine is
//! coherent, block by block.
//!
//! [`copies`] says who holds a block in a machine, and [`check_copies`] finds the first breach there. [`check_loads`] finds
//! the first load of a trace that isn't right. In a serial run from a start there is neither.
#![tactic(auto)]

mod block;
mod breaches;
mod events;
mod holders;
mod loads;
mod runs;
mod start;

pub use block::{
    lines_keep_order, meetings_are_orderly, nothing_is_stray, one_writer, rows_are_built,
    rows_are_steps, runs_are_coherent, start_is_coherent, steps_keep_facts, values_are_kept,
};
pub use breaches::{Breach, check_copies, copies};
pub use events::{
    accesses_are_right, deals_are_steps, events_move, messages_deal, rows_deal, sends_are_right,
    steps_deal,
};
pub use holders::Copies;
pub use loads::check_loads;
pub use runs::{events_keep_coherence, runs_of_machines_are_coherent};
