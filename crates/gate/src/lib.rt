//! What each worker of a round passes at the start of its part. It has no meaning to a simulation: a test can hold the
//! workers there until they have met.
#![tactic(auto)]

mod gate;
mod meet;

pub use self::gate::{Gate, OpenGate};
pub use meet::MeetGate;
