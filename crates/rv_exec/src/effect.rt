use rv_decode::{CicoOp, LoadOp, StoreOp};

/// What an instruction asks for, beside what it did to the registers.
#[derive(Clone, Copy, Debug, PartialEq, Eq)]
pub enum Effect {
    /// It is finished: the address of the next instruction, and the cycles that it took.
    Next {
        pc: u32,
        cost: u64,
    },
    /// Memory at `address` is to be read into the register `rd`.
    Load {
        op: LoadOp,
        rd: u8,
        address: u32,
    },
    /// The low bytes of `value` are to be written to memory at `address`.
    Store {
        op: StoreOp,
        address: u32,
        value: u32,
    },
    /// An annotation of the block at `address`.
    Cico {
        op: CicoOp,
        address: u32,
    },
    /// A call of the environment.
    Call,
    /// A stop for a debugger.
    Break,
    /// A transfer to an address that isn't a multiple of 4.
    BadTarget {
        target: u32,
    },
    /// The word is no instruction.
    Illegal,
}
