ghost use Rattle.std.specs.Prelude.{◌≡◌, ◌≢◌, ◌<◌, MatchOption};
ghost use Rattle.rv_decode.specs.Codes.{branch_code, load_code, store_code, cico_code, alu_code, alu_code7};
ghost use Rattle.rv_word.specs.declared.operations.AluOp.{AluOp};
ghost use Rattle.rv_word.specs.declared.operations.BranchOp.{BranchOp};
ghost use Rattle.rv_decode.specs.declared.instr.LoadOp.{LoadOp};
ghost use Rattle.rv_decode.specs.declared.instr.StoreOp.{StoreOp};
ghost use Rattle.rv_decode.specs.declared.instr.CicoOp.{CicoOp};

use crate::instr::{CicoOp, LoadOp, StoreOp};
use rv_word::{AluOp, BranchOp};

/// The branch with this funct3.
pub(crate) fn branch_op(funct3: u32) -> Option<BranchOp>
    ensures { MatchOption result ((op : BranchOp) → branch_code op ≢ funct3) (λ op. branch_code op ≡ funct3) }
{
    match funct3 {
        0 => Some(BranchOp::Beq),
        1 => Some(BranchOp::Bne),
        4 => Some(BranchOp::Blt),
        5 => Some(BranchOp::Bge),
        6 => Some(BranchOp::Bltu),
        7 => Some(BranchOp::Bgeu),
        _ => None,
    }
}

/// The load with this funct3.
pub(crate) fn load_op(funct3: u32) -> Option<LoadOp>
    ensures { MatchOption result ((op : LoadOp) → load_code op ≢ funct3) (λ op. load_code op ≡ funct3) }
{
    match funct3 {
        0 => Some(LoadOp::Lb),
        1 => Some(LoadOp::Lh),
        2 => Some(LoadOp::Lw),
        4 => Some(LoadOp::Lbu),
        5 => Some(LoadOp::Lhu),
        _ => None,
    }
}

/// The store with this funct3.
pub(crate) fn store_op(funct3: u32) -> Option<StoreOp>
    ensures { MatchOption result ((op : StoreOp) → store_code op ≢ funct3) (λ op. store_code op ≡ funct3) }
{
    match funct3 {
        0 => Some(StoreOp::Sb),
        1 => Some(StoreOp::Sh),
        2 => Some(StoreOp::Sw),
        _ => None,
    }
}

/// The annotation with this funct3.
pub(crate) fn cico_op(funct3: u32) -> Option<CicoOp>
    ensures { MatchOption result ((op : CicoOp) → cico_code op ≢ funct3) (λ op. cico_code op ≡ funct3) }
{
    match funct3 {
        0 => Some(CicoOp::CheckOutS),
        1 => Some(CicoOp::CheckOutX),
        2 => Some(CicoOp::CheckIn),
        _ => None,
    }
}

/// The operation with this funct3 and funct7.
pub(crate) fn alu_op(funct3: u32, funct7: u32) -> Option<AluOp>
    ensures { MatchOption result
        ((op : AluOp) → alu_code op ≡ funct3 → alu_code7 op ≢ funct7)
        (λ op. (alu_code op ≡ funct3) × (alu_code7 op ≡ funct7)) }
{
    match (funct3, funct7) {
        (0, 0) => Some(AluOp::Add),
        (0, 0x20) => Some(AluOp::Sub),
        (1, 0) => Some(AluOp::Sll),
        (2, 0) => Some(AluOp::Slt),
        (3, 0) => Some(AluOp::Sltu),
        (4, 0) => Some(AluOp::Xor),
        (5, 0) => Some(AluOp::Srl),
        (5, 0x20) => Some(AluOp::Sra),
        (6, 0) => Some(AluOp::Or),
        (7, 0) => Some(AluOp::And),
        _ => None,
    }
}

/// The funct3 of a branch.
pub(crate) fn funct3_of_branch(op: BranchOp) -> u32
    ensures value { result ≡ branch_code op }
    ensures range { result < 8 }
{
    match op {
        BranchOp::Beq => 0,
        BranchOp::Bne => 1,
        BranchOp::Blt => 4,
        BranchOp::Bge => 5,
        BranchOp::Bltu => 6,
        BranchOp::Bgeu => 7,
    }
}

/// The funct3 of a load.
pub(crate) fn funct3_of_load(op: LoadOp) -> u32
    ensures value { result ≡ load_code op }
    ensures range { result < 8 }
{
    match op {
        LoadOp::Lb => 0,
        LoadOp::Lh => 1,
        LoadOp::Lw => 2,
        LoadOp::Lbu => 4,
        LoadOp::Lhu => 5,
    }
}

/// The funct3 of a store.
pub(crate) fn funct3_of_store(op: StoreOp) -> u32
    ensures value { result ≡ store_code op }
    ensures range { result < 8 }
{
    match op {
        StoreOp::Sb => 0,
        StoreOp::Sh => 1,
        StoreOp::Sw => 2,
    }
}

/// The funct3 of an annotation.
pub(crate) fn funct3_of_cico(op: CicoOp) -> u32
    ensures value { result ≡ cico_code op }
    ensures range { result < 8 }
{
    match op {
        CicoOp::CheckOutS => 0,
        CicoOp::CheckOutX => 1,
        CicoOp::CheckIn => 2,
    }
}

/// The funct3 of an operation.
pub(crate) fn funct3_of_alu(op: AluOp) -> u32
    ensures value { result ≡ alu_code op }
    ensures range { result < 8 }
{
    match op {
        AluOp::Add | AluOp::Sub => 0,
        AluOp::Sll => 1,
        AluOp::Slt => 2,
        AluOp::Sltu => 3,
        AluOp::Xor => 4,
        AluOp::Srl | AluOp::Sra => 5,
        AluOp::Or => 6,
        AluOp::And => 7,
    }
}

/// The funct7 of an operation.
pub(crate) fn funct7_of_alu(op: AluOp) -> u32
    ensures value { result ≡ alu_code7 op }
    ensures range { result < 128 }
{
    match op {
        AluOp::Sub | AluOp::Sra => 0x20,
        AluOp::Add
        | AluOp::Sll
        | AluOp::Slt
        | AluOp::Sltu
        | AluOp::Xor
        | AluOp::Srl
        | AluOp::Or
        | AluOp::And => 0,
    }
}
