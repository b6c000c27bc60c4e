ghost use Rattle.std.specs.Prelude.{◌≡◌, ◌↔◌, IsSome, IfSome};
ghost use Rattle.rv_decode.specs.Encoding.{encode_of, constant_word_of};
ghost use Rattle.rv_decode.specs.Fields.{IsRegister, FitsOperation, IsEncodable};
ghost use Rattle.rv_decode.specs.Table.{decode_of};

use crate::codes::{
    funct3_of_alu, funct3_of_branch, funct3_of_cico, funct3_of_load, funct3_of_store, funct7_of_alu,
};
use crate::fields::is_encodable;
use crate::formats::{b_word, i_word, j_word, r_word, s_word, u_word};
use crate::instr::Instr;
use rv_word::AluOp;

/// The word of the instruction, which means it. None exactly for Illegal, for OpImm with Sub, and where a field is outside
/// its range. Fence is the word 0x0ff0000f, which orders everything.
pub fn encode(instr: &Instr) -> Option<u32>
    ensures answered { IsSome result ↔ IsEncodable instr.now }
    ensures word { IfSome result (λ word. decode_of word ≡ instr.now) }
    ensures exact { IfSome result (λ word. word ≡ encode_of instr.now) }
{
    if is_encodable(instr) {
        Some(word_of(instr))
    } else {
        None
    }
}

/// The word of the instruction.
#[tactic(auto, unfolding(crate::specs::Encoding::encode_of))]
fn word_of(instr: &Instr) -> u32
    requires { IsEncodable instr.now }
    ensures meaning { decode_of result ≡ instr.now }
    ensures exact { result ≡ encode_of instr.now }
{
    match *instr {
        Instr::Lui { rd, imm } => u_word(0x37, rd, imm),
        Instr::Auipc { rd, imm } => u_word(0x17, rd, imm),
        Instr::Jal { rd, imm } => j_word(0x6f, rd, imm),
        Instr::Jalr { rd, rs1, imm } => i_word(0x67, 0, rd, rs1, imm),
        Instr::Branch { op, rs1, rs2, imm } => b_word(0x63, funct3_of_branch(op), rs1, rs2, imm),
        Instr::Load { op, rd, rs1, imm } => i_word(0x03, funct3_of_load(op), rd, rs1, imm),
        Instr::Store { op, rs1, rs2, imm } => s_word(0x23, funct3_of_store(op), rs1, rs2, imm),
        Instr::OpImm { op, rd, rs1, imm } => constant_word(op, rd, rs1, imm),
        Instr::Op { op, rd, rs1, rs2 } => r_word(
            0x33,
            funct3_of_alu(op),
            funct7_of_alu(op),
            rd,
            rs1,
            rs2,
        ),
        Instr::Fence => 0x0ff0_000f,
        Instr::Ecall => 0x0000_0073,
        Instr::Ebreak => 0x0010_0073,
        Instr::Cico { op, rs1, imm } => i_word(0x0b, funct3_of_cico(op), 0, rs1, imm),
        Instr::Illegal => unreachable!(),
    }
}

/// A word of an operation on a register and a constant; the amount of a shift stands where rs2 would.
fn constant_word(op: AluOp, rd: u8, rs1: u8, imm: i32) -> u32
    requires rd { IsRegister rd }
    requires rs1 { IsRegister rs1 }
    requires imm { FitsOperation op imm }
    ensures meaning { decode_of result ≡ Instr.OpImm op rd rs1 imm }
    ensures exact { result ≡ constant_word_of op rd rs1 imm }
{
    match op {
        AluOp::Sll | AluOp::Srl | AluOp::Sra => {
            r_word(
                0x13,
                funct3_of_alu(op),
                funct7_of_alu(op),
                rd,
                rs1,
                imm as u8,
            )
        }
        _ => i_word(0x13, funct3_of_alu(op), rd, rs1, imm),
    }
}
