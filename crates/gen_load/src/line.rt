ghost use Rattle.std.specs.Prelude.{◌≡◌};
ghost use Rattle.gen_load.specs.Lines as lines;

use rv_decode::{CicoOp, Instr, LoadOp, StoreOp};
use rv_word::{AluOp, BranchOp};

/// A place in a listing that branches and jumps name.
#[derive(Clone, Copy, Debug, PartialEq, Eq)]
pub(crate) enum Label {
    Right,
    Loop,
    Turn,
    Outer,
    Send,
    Seek,
    Found,
    Take,
}

/// A line of a listing.
#[derive(Clone, Copy, Debug)]
pub(crate) enum Line {
    /// The next line has this label.
    Here {
        label: Label,
    },
    /// An instruction that names no label.
    Plain {
        instr: Instr,
    },
    /// A branch to a label.
    Branch {
        op: BranchOp,
        rs1: u8,
        rs2: u8,
        label: Label,
    },
    /// A jump to a label.
    Jump {
        rd: u8,
        label: Label,
    },
}

/// A label before the line that follows.
pub(crate) fn here(label: Label) -> Line
    ensures { result ≡ lines.here label }
{
    Line::Here { label }
}

/// As `lui x8, 0x80000`.
pub(crate) fn lui(rd: u8, imm: u32) -> Line
    ensures { result ≡ lines.lui rd imm }
{
    Line::Plain {
        instr: Instr::Lui { rd, imm },
    }
}

/// As `addi x10, x0, 65`.
pub(crate) fn addi(rd: u8, rs1: u8, imm: u16) -> Line
    ensures { result ≡ lines.addi rd rs1 imm }
{
    constant(AluOp::Add, rd, rs1, i32::from(imm))
}

/// As `addi x21, x21, -1`.
pub(crate) fn addi_minus_1(rd: u8, rs1: u8) -> Line
    ensures { result ≡ lines.addi_minus_1 rd rs1 }
{
    constant(AluOp::Add, rd, rs1, -1)
}

/// As `slli x5, x18, 6`.
pub(crate) fn slli(rd: u8, rs1: u8, amount: u16) -> Line
    ensures { result ≡ lines.slli rd rs1 amount }
{
    constant(AluOp::Sll, rd, rs1, i32::from(amount))
}

/// An operation on a register and a constant.
fn constant(op: AluOp, rd: u8, rs1: u8, imm: i32) -> Line
    ensures { result ≡ Line.Plain (Instr.OpImm op rd rs1 imm) }
{
    Line::Plain {
        instr: Instr::OpImm { op, rd, rs1, imm },
    }
}

/// As `add x9, x8, x5`.
pub(crate) fn add(rd: u8, rs1: u8, rs2: u8) -> Line
    ensures { result ≡ lines.add rd rs1 rs2 }
{
    Line::Plain {
        instr: Instr::Op {
            op: AluOp::Add,
            rd,
            rs1,
            rs2,
        },
    }
}

/// As `lw x10, 0(x5)`.
pub(crate) fn lw(rd: u8, imm: u16, rs1: u8) -> Line
    ensures { result ≡ lines.lw rd imm rs1 }
{
    Line::Plain {
        instr: Instr::Load {
            op: LoadOp::Lw,
            rd,
            rs1,
            imm: i32::from(imm),
        },
    }
}

/// As `sw x10, 0(x5)`.
pub(crate) fn sw(rs2: u8, imm: u16, rs1: u8) -> Line
    ensures { result ≡ lines.sw rs2 imm rs1 }
{
    Line::Plain {
        instr: Instr::Store {
            op: StoreOp::Sw,
            rs1,
            rs2,
            imm: i32::from(imm),
        },
    }
}

/// As `check_out_x 64(x8)`.
pub(crate) fn check_out_x(imm: u16, rs1: u8) -> Line
    ensures { result ≡ lines.check_out_x imm rs1 }
{
    annotation(CicoOp::CheckOutX, rs1, i32::from(imm))
}

/// As `check_in 64(x8)`.
pub(crate) fn check_in(imm: u16, rs1: u8) -> Line
    ensures { result ≡ lines.check_in imm rs1 }
{
    annotation(CicoOp::CheckIn, rs1, i32::from(imm))
}

fn annotation(op: CicoOp, rs1: u8, imm: i32) -> Line
    ensures { result ≡ Line.Plain (Instr.Cico op rs1 imm) }
{
    Line::Plain {
        instr: Instr::Cico { op, rs1, imm },
    }
}

/// A branch where two registers are equal.
pub(crate) fn beq(rs1: u8, rs2: u8, label: Label) -> Line
    ensures { result ≡ lines.beq rs1 rs2 label }
{
    Line::Branch {
        op: BranchOp::Beq,
        rs1,
        rs2,
        label,
    }
}

/// A branch where two registers differ.
pub(crate) fn bne(rs1: u8, rs2: u8, label: Label) -> Line
    ensures { result ≡ lines.bne rs1 rs2 label }
{
    Line::Branch {
        op: BranchOp::Bne,
        rs1,
        rs2,
        label,
    }
}

/// A jump.
pub(crate) fn jal(rd: u8, label: Label) -> Line
    ensures { result ≡ lines.jal rd label }
{
    Line::Jump { rd, label }
}

/// A call of the environment.
pub(crate) fn ecall() -> Line
    ensures { result ≡ lines.ecall }
{
    Line::Plain {
        instr: Instr::Ecall,
    }
}
