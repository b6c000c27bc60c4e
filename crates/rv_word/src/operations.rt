ghost use Rattle.std.specs.Prelude.{◌≡◌};
ghost use Rattle.rv_word.specs.Operations.{alu_of, takes};

/// The operation of an instruction of OP, OP-IMM or of a shift by a constant.
#[derive(Clone, Copy, Debug, PartialEq, Eq)]
pub enum AluOp {
    /// The sum.
    Add,
    /// The difference.
    Sub,
    /// A shift left.
    Sll,
    /// 1 where a is less than b as signed numbers, else 0.
    Slt,
    /// 1 where a is less than b as unsigned numbers, else 0.
    Sltu,
    /// The bits that differ.
    Xor,
    /// A shift right that fills with zeros.
    Srl,
    /// A shift right that fills with the sign bit.
    Sra,
    /// The bits of either.
    Or,
    /// The bits of both.
    And,
}

/// The condition of a branch.
#[derive(Clone, Copy, Debug, PartialEq, Eq)]
pub enum BranchOp {
    /// Equal.
    Beq,
    /// Not equal.
    Bne,
    /// Less, signed.
    Blt,
    /// Not less, signed.
    Bge,
    /// Less, unsigned.
    Bltu,
    /// Not less, unsigned.
    Bgeu,
}

/// What an operation gives, modulo 2^32. Shifts use the low five bits of `b`.
pub fn alu(op: AluOp, a: u32, b: u32) -> u32
    ensures { result ≡ alu_of op a b }
{
    let amount = b % 32;
    match op {
        AluOp::Add => a.wrapping_add(b),
        AluOp::Sub => a.wrapping_sub(b),
        AluOp::Sll => a << amount,
        AluOp::Slt => u32::from(a.cast_signed() < b.cast_signed()),
        AluOp::Sltu => u32::from(a < b),
        AluOp::Xor => a ^ b,
        AluOp::Srl => a >> amount,
        AluOp::Sra => (a.cast_signed() >> amount).cast_unsigned(),
        AluOp::Or => a | b,
        AluOp::And => a & b,
    }
}

/// Whether a branch on `a` and `b` is taken.
pub fn branch_taken(op: BranchOp, a: u32, b: u32) -> bool
    ensures { result ≡ takes op a b }
{
    match op {
        BranchOp::Beq => a == b,
        BranchOp::Bne => a != b,
        BranchOp::Blt => a.cast_signed() < b.cast_signed(),
        BranchOp::Bge => a.cast_signed() >= b.cast_signed(),
        BranchOp::Bltu => a < b,
        BranchOp::Bgeu => a >= b,
    }
}
