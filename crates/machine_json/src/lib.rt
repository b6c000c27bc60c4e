//! Descriptions of machines, as JSON.
//!
//! [`read_machine`] reads one whole: which machine it describes, and which images its nodes run. What it accepts and
//! what it refuses, with which key and which value, is the definition of `specs/Description.antt`.
#![tactic(auto)]

mod default;
mod description;
mod fault;
mod fields;
mod images;
mod keys;
mod lists;
mod reader;

pub use default::default_parts;
pub use description::{Description, ImageSpec};
pub use fault::MachineFault;
pub use keys::is_of_version_2;
pub use lists::{ByteList, FileName, ImageSpecs, Key};
pub use reader::read_machine;
