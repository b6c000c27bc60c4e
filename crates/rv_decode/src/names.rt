ghost use Rattle.std.specs.Prelude.{◌≡◌, ◌≢◌};
ghost use Rattle.rv_decode.specs.Text.{branch_name, load_name, store_name, alu_name, constant_name, cico_name};

use crate::instr::{CicoOp, LoadOp, StoreOp};
use rv_word::{AluOp, BranchOp};

/// The name of a branch.
pub(crate) fn name_of_branch(op: BranchOp) -> &'static str
    ensures { result.now ≡ branch_name op }
{
    match op {
        BranchOp::Beq => "beq",
        BranchOp::Bne => "bne",
        BranchOp::Blt => "blt",
        BranchOp::Bge => "bge",
        BranchOp::Bltu => "bltu",
        BranchOp::Bgeu => "bgeu",
    }
}

/// The name of a load.
pub(crate) fn name_of_load(op: LoadOp) -> &'static str
    ensures { result.now ≡ load_name op }
{
    match op {
        LoadOp::Lb => "lb",
        LoadOp::Lh => "lh",
        LoadOp::Lw => "lw",
        LoadOp::Lbu => "lbu",
        LoadOp::Lhu => "lhu",
    }
}

/// The name of a store.
pub(crate) fn name_of_store(op: StoreOp) -> &'static str
    ensures { result.now ≡ store_name op }
{
    match op {
        StoreOp::Sb => "sb",
        StoreOp::Sh => "sh",
        StoreOp::Sw => "sw",
    }
}

/// The name of an operation on two registers.
pub(crate) fn name_of_operation(op: AluOp) -> &'static str
    ensures { result.now ≡ alu_name op }
{
    match op {
        AluOp::Add => "add",
        AluOp::Sub => "sub",
        AluOp::Sll => "sll",
        AluOp::Slt => "slt",
        AluOp::Sltu => "sltu",
        AluOp::Xor => "xor",
        AluOp::Srl => "srl",
        AluOp::Sra => "sra",
        AluOp::Or => "or",
        AluOp::And => "and",
    }
}

/// The name of an operation on a register and a constant.
pub(crate) fn name_of_constant(op: AluOp) -> &'static str
    requires { op ≢ AluOp.Sub }
    ensures { result.now ≡ constant_name op }
{
    match op {
        AluOp::Add => "addi",
        AluOp::Sub => unreachable!(),
        AluOp::Sll => "slli",
        AluOp::Slt => "slti",
        AluOp::Sltu => "sltiu",
        AluOp::Xor => "xori",
        AluOp::Srl => "srli",
        AluOp::Sra => "srai",
        AluOp::Or => "ori",
        AluOp::And => "andi",
    }
}

/// The name of an annotation.
pub(crate) fn name_of_cico(op: CicoOp) -> &'static str
    ensures { result.now ≡ cico_name op }
{
    match op {
        CicoOp::CheckOutS => "check_out_s",
        CicoOp::CheckOutX => "check_out_x",
        CicoOp::CheckIn => "check_in",
    }
}
