//! Lines of text, and how numbers and bytes are printed in them.
#![tactic(auto)]

mod line;

pub use line::Line;
