use rv_word::{AluOp, BranchOp};

/// How much a load reads and how it is widened.
#[derive(Clone, Copy, Debug, PartialEq, Eq)]
pub enum LoadOp {
    /// A byte, sign-extended.
    Lb,
    /// Two bytes, sign-extended.
    Lh,
    /// Four bytes.
    Lw,
    /// A byte, zero-extended.
    Lbu,
    /// Two bytes, zero-extended.
    Lhu,
}

/// How much a store writes.
#[derive(Clone, Copy, Debug, PartialEq, Eq)]
pub enum StoreOp {
    /// A byte.
    Sb,
    /// Two bytes.
    Sh,
    /// Four bytes.
    Sw,
}

/// What a program says of a block that it is going to use, or is done with.
#[derive(Clone, Copy, Debug, PartialEq, Eq)]
pub enum CicoOp {
    /// The block will be read.
    CheckOutS,
    /// The block will be written.
    CheckOutX,
    /// The block isn't used any more.
    CheckIn,
}

/// An instruction. Registers are 0 to 31, and immediates are in the range of the instruction's format: I and S
/// -2048 to 2047, B -4096 to 4094 and even, J -1048576 to 1048574 and even, U 0 to 1048575, a shift 0 to 31.
#[derive(Clone, Copy, Debug, PartialEq, Eq)]
pub enum Instr {
    /// Puts `imm * 4096` into `rd`. Format U.
    Lui {
        rd: u8,
        imm: u32,
    },
    /// Puts the program counter plus `imm * 4096` into `rd`. Format U.
    Auipc {
        rd: u8,
        imm: u32,
    },
    /// Jumps by `imm` bytes. Format J.
    Jal {
        rd: u8,
        imm: i32,
    },
    /// Jumps to `rs1` plus `imm`. Format I.
    Jalr {
        rd: u8,
        rs1: u8,
        imm: i32,
    },
    /// Goes on by `imm` bytes where the condition on `rs1` and `rs2` holds. Format B.
    Branch {
        op: BranchOp,
        rs1: u8,
        rs2: u8,
        imm: i32,
    },
    /// Reads memory at `rs1` plus `imm`. Format I.
    Load {
        op: LoadOp,
        rd: u8,
        rs1: u8,
        imm: i32,
    },
    /// Writes `rs2` into memory at `rs1` plus `imm`. Format S.
    Store {
        op: StoreOp,
        rs1: u8,
        rs2: u8,
        imm: i32,
    },
    /// An operation on `rs1` and a constant, which is never Sub. Format I, and for the shifts the shift amount.
    OpImm {
        op: AluOp,
        rd: u8,
        rs1: u8,
        imm: i32,
    },
    /// An operation on `rs1` and `rs2`.
    Op {
        op: AluOp,
        rd: u8,
        rs1: u8,
        rs2: u8,
    },
    /// Orders memory accesses.
    Fence,
    /// Calls the environment.
    Ecall,
    /// Stops for a debugger.
    Ebreak,
    /// An annotation of the block at `rs1` plus `imm`. Format I with `rd` 0. Own.
    Cico {
        op: CicoOp,
        rs1: u8,
        imm: i32,
    },
    /// A word that the table doesn't have.
    Illegal,
}
