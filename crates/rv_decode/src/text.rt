ghost use Rattle.std.specs.Prelude.{◌≡◌, IfOk, string_bytes};
ghost use Rattle.std.specs.Fmt.{signed_decimal};
ghost use Rattle.rv_decode.specs.Text.{register_text, place_text, upper_text, one_operand, two_operands, three_operands};

use crate::instr::Instr;
use crate::names::{
    name_of_branch, name_of_cico, name_of_constant, name_of_load, name_of_operation, name_of_store,
};
use std::alloc::{AllocError, Global};
use wt_params::NoMemory;

impl Instr {
    ghost use Rattle.rv_decode.specs.Fields.{IsWellFormed};
    ghost use Rattle.rv_decode.specs.Text.{text_of};

    /// The text of the instruction, as an assembler reads it: the name, then the operands, registers as `x5`,
    /// immediates in signed decimal and those of lui and auipc in hexadecimal, places in memory as `8(x5)`.
    pub fn text(&self, alloc: Global) -> Result<String, NoMemory>
        requires { IsWellFormed self.now }
        ensures { IfOk result (λ text. string_bytes text ≡ text_of self.now) }
    {
        let text = match *self {
            Instr::Lui { rd, imm } => upper(alloc, "lui", rd, imm),
            Instr::Auipc { rd, imm } => upper(alloc, "auipc", rd, imm),
            Instr::Jal { rd, imm } => jump(alloc, "jal", rd, imm),
            Instr::Jalr { rd, rs1, imm } => place(alloc, "jalr", rd, rs1, imm),
            Instr::Branch { op, rs1, rs2, imm } => constant(
                alloc,
                name_of_branch(op),
                rs1,
                rs2,
                imm,
            ),
            Instr::Load { op, rd, rs1, imm } => place(alloc, name_of_load(op), rd, rs1, imm),
            Instr::Store { op, rs1, rs2, imm } => place(alloc, name_of_store(op), rs2, rs1, imm),
            Instr::OpImm { op, rd, rs1, imm } => constant(
                alloc,
                name_of_constant(op),
                rd,
                rs1,
                imm,
            ),
            Instr::Op { op, rd, rs1, rs2 } => registers(alloc, name_of_operation(op), rd, rs1, rs2),
            Instr::Cico { op, rs1, imm } => annotation(alloc, name_of_cico(op), rs1, imm),
            Instr::Fence => String::from_str(alloc, "fence"),
            Instr::Ecall => String::from_str(alloc, "ecall"),
            Instr::Ebreak => String::from_str(alloc, "ebreak"),
            Instr::Illegal => String::from_str(alloc, "illegal"),
        };
        Ok(text?)
    }
}

/// As `lui x5, 0x80000`.
fn upper(alloc: Global, name: &str, rd: u8, imm: u32) -> Result<String, AllocError>
    ensures { IfOk result (λ text. string_bytes text ≡ two_operands name.now (register_text rd) (upper_text imm)) }
{
    format!(in alloc; "{name} x{rd}, 0x{imm:x}")
}

/// As `jal x1, 8`.
fn jump(alloc: Global, name: &str, rd: u8, imm: i32) -> Result<String, AllocError>
    ensures { IfOk result (λ text. string_bytes text ≡ two_operands name.now (register_text rd) (signed_decimal imm)) }
{
    format!(in alloc; "{name} x{rd}, {imm}")
}

/// As `lw x10, 0(x5)`.
fn place(
    alloc: Global,
    name: &str,
    register: u8,
    base: u8,
    offset: i32,
) -> Result<String, AllocError>
    ensures { IfOk result (λ text. string_bytes text ≡ two_operands name.now (register_text register) (place_text base offset)) }
{
    format!(in alloc; "{name} x{register}, {offset}(x{base})")
}

/// As `addi x10, x0, 65`.
fn constant(
    alloc: Global,
    name: &str,
    first: u8,
    second: u8,
    imm: i32,
) -> Result<String, AllocError>
    ensures { IfOk result (λ text.
        string_bytes text ≡ three_operands name.now (register_text first) (register_text second) (signed_decimal imm)) }
{
    format!(in alloc; "{name} x{first}, x{second}, {imm}")
}

/// As `add x9, x8, x5`.
fn registers(alloc: Global, name: &str, rd: u8, rs1: u8, rs2: u8) -> Result<String, AllocError>
    ensures { IfOk result (λ text.
        string_bytes text ≡ three_operands name.now (register_text rd) (register_text rs1) (register_text rs2)) }
{
    format!(in alloc; "{name} x{rd}, x{rs1}, x{rs2}")
}

/// As `check_in 64(x8)`.
fn annotation(alloc: Global, name: &str, base: u8, offset: i32) -> Result<String, AllocError>
    ensures { IfOk result (λ text. string_bytes text ≡ one_operand name.now (place_text base offset)) }
{
    format!(in alloc; "{name} {offset}(x{base})")
}
