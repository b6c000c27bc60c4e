//! What an instruction of RV32I does to the registers, and what is left to the rest of the node.
//!
//! Everything is as the RISC-V unprivileged manual says, modulo 2^32. Contracts see [`Regs`] as a list of 32
//! words whose first is 0.
#![tactic(auto)]

mod effect;
mod instructions;
mod registers;
mod widths;

pub use effect::Effect;
pub use instructions::execute;
pub use registers::Regs;
pub use widths::{load_width, store_width, widen};
