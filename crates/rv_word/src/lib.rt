//! What RV32I does with one word: its fields, its immediates, its sums, shifts and comparisons.
//!
//! Everything is as the RISC-V unprivileged manual says, modulo 2^32.
#![tactic(auto)]

mod immediates;
mod operations;
mod words;

pub use immediates::{imm_b, imm_i, imm_j, imm_s, imm_u};
pub use operations::{AluOp, BranchOp, alu, branch_taken};
pub use words::{bits, sign_extend};
