//! The instructions of RV32I and three annotations as data: a word is decoded, encoded and printed exactly by
//! the instruction table.
//!
//! The instructions are those of the RISC-V unprivileged manual, RV32I. The three annotations stand in the
//! opcode custom-0 and are this project's own, and so it is that every word outside the table is illegal.
#![tactic(auto)]

mod codes;
mod decoder;
mod encoder;
mod fields;
mod formats;
mod instr;
mod names;
mod table;
mod text;

pub use decoder::decode;
pub use encoder::encode;
pub use instr::{CicoOp, Instr, LoadOp, StoreOp};
pub use table::at_most_one_row;
