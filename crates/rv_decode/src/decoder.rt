ghost use Rattle.std.specs.Prelude.{ℕ, ◌≡◌, ◌⊎◌};
ghost use Rattle.rv_decode.specs.Codes.{opcode_of, funct3_of};
ghost use Rattle.rv_decode.specs.Fields.{IsWellFormed};
ghost use Rattle.rv_decode.specs.Table.{decode_of, i_format, rd_of, rs1_of, rs2_of};

use crate::codes::{alu_op, branch_op, cico_op, load_op, store_op};
use crate::instr::Instr;
use rv_word::{AluOp, bits, imm_b, imm_i, imm_j, imm_s};

/// The instruction of a word: that of the row of the instruction table which the word matches, else Illegal.
#[inline(always)]
pub fn decode(word: u32) -> Instr
    ensures table { result ≡ decode_of word }
    ensures fields { IsWellFormed result }
{
    match bits(word, 6, 0) {
        0x37 => Instr::Lui {
            rd: rd(word),
            imm: bits(word, 31, 12),
        },
        0x17 => Instr::Auipc {
            rd: rd(word),
            imm: bits(word, 31, 12),
        },
        0x6f => Instr::Jal {
            rd: rd(word),
            imm: imm_j(word).cast_signed(),
        },
        0x67 => indirect_jump(word),
        0x63 => branch(word),
        0x03 => load(word),
        0x23 => store(word),
        0x13 => constant_operation(word),
        0x33 => operation(word),
        0x0f => fence(word),
        0x73 => system(word),
        0x0b => annotation(word),
        _ => Instr::Illegal,
    }
}

/// The register that the field rd names.
fn rd(word: u32) -> u8
    ensures { result ≡ rd_of word }
{
    bits(word, 11, 7) as u8
}

/// The register that the field rs1 names.
fn rs1(word: u32) -> u8
    ensures { result ≡ rs1_of word }
{
    bits(word, 19, 15) as u8
}

/// The register that the field rs2 names.
fn rs2(word: u32) -> u8
    ensures { result ≡ rs2_of word }
{
    bits(word, 24, 20) as u8
}

#[tactic(auto, using(crate::proofs::Rows::jalr_row, crate::proofs::Illegal::jalr_illegal))]
#[inline(always)]
fn indirect_jump(word: u32) -> Instr
    requires { opcode_of word ≡ 0x67 }
    ensures { result ≡ decode_of word }
{
    if bits(word, 14, 12) != 0 {
        return Instr::Illegal;
    }
    Instr::Jalr {
        rd: rd(word),
        rs1: rs1(word),
        imm: imm_i(word).cast_signed(),
    }
}

#[tactic(auto, using(crate::proofs::Rows::branch_row, crate::proofs::Illegal::branch_illegal))]
#[inline(always)]
fn branch(word: u32) -> Instr
    requires { opcode_of word ≡ 0x63 }
    ensures { result ≡ decode_of word }
{
    match branch_op(bits(word, 14, 12)) {
        None => Instr::Illegal,
        Some(op) => Instr::Branch {
            op,
            rs1: rs1(word),
            rs2: rs2(word),
            imm: imm_b(word).cast_signed(),
        },
    }
}

#[tactic(auto, using(crate::proofs::Rows::load_row, crate::proofs::Illegal::load_illegal))]
#[inline(always)]
fn load(word: u32) -> Instr
    requires { opcode_of word ≡ 0x03 }
    ensures { result ≡ decode_of word }
{
    match load_op(bits(word, 14, 12)) {
        None => Instr::Illegal,
        Some(op) => Instr::Load {
            op,
            rd: rd(word),
            rs1: rs1(word),
            imm: imm_i(word).cast_signed(),
        },
    }
}

#[tactic(auto, using(crate::proofs::Rows::store_row, crate::proofs::Illegal::store_illegal))]
#[inline(always)]
fn store(word: u32) -> Instr
    requires { opcode_of word ≡ 0x23 }
    ensures { result ≡ decode_of word }
{
    match store_op(bits(word, 14, 12)) {
        None => Instr::Illegal,
        Some(op) => Instr::Store {
            op,
            rs1: rs1(word),
            rs2: rs2(word),
            imm: imm_s(word).cast_signed(),
        },
    }
}

/// The operations on a register and a constant, which are no shifts, and the shifts.
#[tactic(auto, using(crate::proofs::Rows::constant_row))]
#[inline(always)]
fn constant_operation(word: u32) -> Instr
    requires { opcode_of word ≡ 0x13 }
    ensures { result ≡ decode_of word }
{
    match bits(word, 14, 12) {
        0 => constant(AluOp::Add, word),
        2 => constant(AluOp::Slt, word),
        3 => constant(AluOp::Sltu, word),
        4 => constant(AluOp::Xor, word),
        6 => constant(AluOp::Or, word),
        7 => constant(AluOp::And, word),
        _ => shift(word),
    }
}

/// An operation on a register and the immediate of the format I.
fn constant(op: AluOp, word: u32) -> Instr
    ensures { result ≡ i_format (Instr.OpImm op) word }
{
    let imm = imm_i(word).cast_signed();
    Instr::OpImm {
        op,
        rd: rd(word),
        rs1: rs1(word),
        imm,
    }
}

#[tactic(auto, using(crate::proofs::Rows::shift_row, crate::proofs::Illegal::shift_illegal))]
fn shift(word: u32) -> Instr
    requires opcode { opcode_of word ≡ 0x13 }
    requires shift { (funct3_of word ≡ 1) ⊎ (funct3_of word ≡ 5) }
    ensures { result ≡ decode_of word }
{
    let funct7 = bits(word, 31, 25);
    match alu_op(bits(word, 14, 12), funct7) {
        None => Instr::Illegal,
        Some(op) => Instr::OpImm {
            op,
            rd: rd(word),
            rs1: rs1(word),
            imm: bits(word, 24, 20) as i32,
        },
    }
}

/// The operations on two registers.
#[tactic(auto, using(crate::proofs::Rows::register_row, crate::proofs::Illegal::register_illegal))]
#[inline(always)]
fn operation(word: u32) -> Instr
    requires { opcode_of word ≡ 0x33 }
    ensures { result ≡ decode_of word }
{
    match alu_op(bits(word, 14, 12), bits(word, 31, 25)) {
        None => Instr::Illegal,
        Some(op) => Instr::Op {
            op,
            rd: rd(word),
            rs1: rs1(word),
            rs2: rs2(word),
        },
    }
}

#[tactic(auto, using(crate::proofs::Rows::fence_row, crate::proofs::Illegal::fence_illegal))]
#[inline(always)]
fn fence(word: u32) -> Instr
    requires { opcode_of word ≡ 0x0f }
    ensures { result ≡ decode_of word }
{
    if bits(word, 14, 12) == 0 {
        Instr::Fence
    } else {
        Instr::Illegal
    }
}

#[tactic(auto, using(crate::proofs::Rows::ecall_row, crate::proofs::Rows::ebreak_row, crate::proofs::Illegal::system_illegal))]
#[inline(always)]
fn system(word: u32) -> Instr
    requires { opcode_of word ≡ 0x73 }
    ensures { result ≡ decode_of word }
{
    match word {
        0x0000_0073 => Instr::Ecall,
        0x0010_0073 => Instr::Ebreak,
        _ => Instr::Illegal,
    }
}

#[tactic(auto, using(crate::proofs::Rows::cico_row, crate::proofs::Illegal::cico_illegal, crate::proofs::Illegal::cico_with_rd))]
#[inline(always)]
fn annotation(word: u32) -> Instr
    requires { opcode_of word ≡ 0x0b }
    ensures { result ≡ decode_of word }
{
    if bits(word, 11, 7) != 0 {
        return Instr::Illegal;
    }
    match cico_op(bits(word, 14, 12)) {
        None => Instr::Illegal,
        Some(op) => Instr::Cico {
            op,
            rs1: rs1(word),
            imm: imm_i(word).cast_signed(),
        },
    }
}
