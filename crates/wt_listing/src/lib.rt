//! The texts that show a machine with its images, and the words of an image, written to a sink.
//!
//! Each line is put together and written by one call of the sink, so no text is ever kept whole. What a call
//! that writes a text promises is `Writes` of `wt_outside`.
#![tactic(auto)]

mod machine;
mod words;
mod write;

pub use machine::write_machine;
pub use words::write_words;
