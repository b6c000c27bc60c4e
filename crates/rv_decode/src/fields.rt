ghost use Rattle.std.specs.Prelude.{◌↔◌, IsTrue};
ghost use Rattle.rv_decode.specs.Fields.{IsRegister, IsShort, IsBranchOffset, IsJumpOffset, IsShiftAmount, FitsOperation, IsEncodable};

use crate::instr::Instr;
use rv_word::AluOp;

/// Whether the instruction isn't Illegal and has each field in its range.
pub(crate) fn is_encodable(instr: &Instr) -> bool
    ensures { IsTrue result ↔ IsEncodable instr.now }
{
    match *instr {
        Instr::Lui { rd, imm } => is_register(rd) && imm < 1 << 20,
        Instr::Auipc { rd, imm } => is_register(rd) && imm < 1 << 20,
        Instr::Jal { rd, imm } => is_register(rd) && is_jump_offset(imm),
        Instr::Jalr { rd, rs1, imm } => is_register(rd) && is_register(rs1) && is_short(imm),
        Instr::Branch {
            op: _,
            rs1,
            rs2,
            imm,
        } => is_register(rs1) && is_register(rs2) && is_branch_offset(imm),
        Instr::Load {
            op: _,
            rd,
            rs1,
            imm,
        } => is_register(rd) && is_register(rs1) && is_short(imm),
        Instr::Store {
            op: _,
            rs1,
            rs2,
            imm,
        } => is_register(rs1) && is_register(rs2) && is_short(imm),
        Instr::OpImm { op, rd, rs1, imm } => is_register(rd)
            && is_register(rs1)
            && fits_operation(op, imm),
        Instr::Op {
            op: _,
            rd,
            rs1,
            rs2,
        } => is_register(rd) && is_register(rs1) && is_register(rs2),
        Instr::Cico { op: _, rs1, imm } => is_register(rs1) && is_short(imm),
        Instr::Fence | Instr::Ecall | Instr::Ebreak => true,
        Instr::Illegal => false,
    }
}

fn is_register(register: u8) -> bool
    ensures { IsTrue result ↔ IsRegister register }
{
    register < 32
}

/// Whether the constant is one that the operation takes.
fn fits_operation(op: AluOp, imm: i32) -> bool
    ensures { IsTrue result ↔ FitsOperation op imm }
{
    match op {
        AluOp::Sub => false,
        AluOp::Sll | AluOp::Srl | AluOp::Sra => is_shift_amount(imm),
        AluOp::Add | AluOp::Slt | AluOp::Sltu | AluOp::Xor | AluOp::Or | AluOp::And => is_short(
            imm,
        ),
    }
}

fn is_short(imm: i32) -> bool
    ensures { IsTrue result ↔ IsShort imm }
{
    -2048 <= imm && imm <= 2047
}

fn is_branch_offset(imm: i32) -> bool
    ensures { IsTrue result ↔ IsBranchOffset imm }
{
    -4096 <= imm && imm <= 4094 && imm.cast_unsigned() % 2 == 0
}

fn is_jump_offset(imm: i32) -> bool
    ensures { IsTrue result ↔ IsJumpOffset imm }
{
    -1_048_576 <= imm && imm <= 1_048_574 && imm.cast_unsigned() % 2 == 0
}

fn is_shift_amount(imm: i32) -> bool
    ensures { IsTrue result ↔ IsShiftAmount imm }
{
    0 <= imm && imm <= 31
}
