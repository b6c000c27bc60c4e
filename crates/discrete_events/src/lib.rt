//! Discrete-event simulation over any nodes and messages: the serial run, conservative quanta, and the
//! theorem that both come to the same.
#![tactic(auto)]

mod courier;
mod simulated;

pub use courier::Courier;
pub use simulated::{
    Simulated, every_interleaving, keys_are_new, keys_rise, late_message_passes, least_event_peels,
    merges_are_rounds, no_past, round_is_serial, serial_run_ends,
};
