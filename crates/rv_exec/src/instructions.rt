ghost use Rattle.std.specs.Prelude.{◌≡◌, ◌<◌, ◌%◌, ◌⊎◌, ◌==◌, if◌then◌else◌, slice_index};
ghost use Rattle.rv_decode.specs.Fields.{IsWellFormed};
ghost use Rattle.rv_exec.specs.Registers.{AreRegisters};
ghost use Rattle.rv_exec.specs.Meaning.{meaning_of, finished, jumped, offset_from, address_after};
ghost use Rattle.rv_exec.specs.Meaning.{IfNext, ChangeOnlyWithNext, NamesRegister};

use crate::effect::Effect;
use crate::registers::Regs;
use rv_decode::Instr;
use rv_word::{alu, branch_taken};
use wt_params::CostParts;

/// Does to the registers what an instruction at `pc` does, and answers what is to be done beside. Registers
/// change only with [`Effect::Next`].
#[tactic(auto, unfolding(crate::specs::Meaning::meaning_of))]
#[inline(always)]
pub fn execute(regs: &mut Regs, pc: u32, instr: &Instr, costs: &CostParts) -> Effect
    requires { IsWellFormed instr.now }
    ensures meaning { (regs.new, result) ≡ meaning_of regs.old pc instr.now costs.now }
    ensures kept { ChangeOnlyWithNext regs.old regs.new result }
    ensures registers { AreRegisters regs.old → AreRegisters regs.new }
    ensures destination { NamesRegister result }
    ensures aligned { pc % 4 ≡ 0 → IfNext result (λ next cost. next % 4 ≡ 0) }
    ensures cost { IfNext result (λ next cost. (cost ≡ costs.now.op) ⊎ (cost ≡ costs.now.taken)) }
{
    match *instr {
        Instr::Lui { rd, imm } => finish(regs, rd, imm * 4096, pc, costs),
        Instr::Auipc { rd, imm } => finish(regs, rd, pc.wrapping_add(imm * 4096), pc, costs),
        Instr::Jal { rd, imm } => jump(regs, rd, pc.wrapping_add_signed(imm), pc, costs),
        Instr::Jalr { rd, rs1, imm } => {
            let target = address_of(regs, rs1, imm);
            jump(regs, rd, target - target % 2, pc, costs)
        }
        Instr::Branch { op, rs1, rs2, imm } => {
            if branch_taken(op, regs.get(rs1), regs.get(rs2)) {
                transfer(pc.wrapping_add_signed(imm), costs)
            } else {
                go_on(pc, costs)
            }
        }
        Instr::Load { op, rd, rs1, imm } => {
            let address = address_of(regs, rs1, imm);
            Effect::Load { op, rd, address }
        }
        Instr::Store { op, rs1, rs2, imm } => {
            let address = address_of(regs, rs1, imm);
            Effect::Store {
                op,
                address,
                value: regs.get(rs2),
            }
        }
        Instr::OpImm { op, rd, rs1, imm } => {
            let value = alu(op, regs.get(rs1), imm.cast_unsigned());
            finish(regs, rd, value, pc, costs)
        }
        Instr::Op { op, rd, rs1, rs2 } => {
            let value = alu(op, regs.get(rs1), regs.get(rs2));
            finish(regs, rd, value, pc, costs)
        }
        Instr::Fence => go_on(pc, costs),
        Instr::Ecall => Effect::Call,
        Instr::Ebreak => Effect::Break,
        Instr::Cico { op, rs1, imm } => {
            let address = address_of(regs, rs1, imm);
            Effect::Cico { op, address }
        }
        Instr::Illegal => Effect::Illegal,
    }
}

/// A base register plus an offset.
fn address_of(regs: &Regs, base: u8, offset: i32) -> u32
    requires { base < 32 }
    ensures { result ≡ offset_from (slice_index regs.now base) offset }
{
    regs.get(base).wrapping_add_signed(offset)
}

/// Writes the result, and goes on to the next instruction.
fn finish(regs: &mut Regs, rd: u8, value: u32, pc: u32, costs: &CostParts) -> Effect
    requires { rd < 32 }
    ensures meaning { (regs.new, result) ≡ finished regs.old rd value pc costs.now }
    ensures registers { AreRegisters regs.new }
{
    regs.set(rd, value);
    go_on(pc, costs)
}

/// Goes to the target with the address of the next instruction in `rd`. A bad target writes nothing.
fn jump(regs: &mut Regs, rd: u8, target: u32, pc: u32, costs: &CostParts) -> Effect
    requires { rd < 32 }
    ensures meaning { (regs.new, result) ≡ jumped regs.old rd target pc costs.now }
    ensures registers { AreRegisters regs.old → AreRegisters regs.new }
{
    if target % 4 != 0 {
        return Effect::BadTarget { target };
    }
    regs.set(rd, pc.wrapping_add(4));
    Effect::Next {
        pc: target,
        cost: costs.taken,
    }
}

/// What follows where control goes to the target and nothing is written.
fn transfer(target: u32, costs: &CostParts) -> Effect
    ensures { result ≡ (if target % 4 == 0 then Effect.Next target costs.now.taken else Effect.BadTarget target) }
{
    if target % 4 == 0 {
        Effect::Next {
            pc: target,
            cost: costs.taken,
        }
    } else {
        Effect::BadTarget { target }
    }
}

/// What follows where control goes to the next instruction.
fn go_on(pc: u32, costs: &CostParts) -> Effect
    ensures { result ≡ Effect.Next (address_after pc) costs.now.op }
{
    Effect::Next {
        pc: pc.wrapping_add(4),
        cost: costs.op,
    }
}
