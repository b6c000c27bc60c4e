//! The words of the command line, read by `clap`.
//!
//! The first word names the command. The words after it are read as one simple command without help or version
//! words, by the declaration of that command; [`read_words`] answers the command that they make.
#![tactic(auto)]

mod arguments;
mod command;
mod declaration;
mod number;
mod read;
mod word;

pub use command::{Command, WordFault};
pub use read::read_words;
pub use word::Word;
