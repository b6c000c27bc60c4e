//! What the words of the command line and the files of a store call for.
//!
//! [`prepare`] reads the words, then the files that they name, and answers the job that is to be done, or why there is
//! none. It writes nothing.
#![tactic(auto)]

mod case;
mod images;
mod job;
mod name;
mod program;
mod read;
mod refusal;

pub use case::prepare;
pub use job::Job;
pub use name::Name;
pub use refusal::{FileKind, ImageRefusal, Refusal};
