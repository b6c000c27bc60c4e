/// Why a processor has stopped.
#[derive(Clone, Copy, Debug, PartialEq, Eq)]
pub enum Cause {
    /// The program ended itself.
    Exit { code: u32 },
    /// A word that is no instruction.
    Illegal { word: u32 },
    /// A fetch outside private memory.
    Fetch { address: u32 },
    /// A taken transfer to an address that isn't a multiple of 4.
    Target { address: u32 },
    /// A load or store outside memory.
    Address { address: u32 },
    /// A load or store at an address that isn't a multiple of its width.
    Misaligned { address: u32 },
    /// An environment call of no known number.
    Call { number: u32 },
    /// A breakpoint.
    Break,
}

/// What a processor does.
#[derive(Clone, Copy, Debug, PartialEq, Eq)]
pub enum Mode {
    Running,
    /// It waits for a block, to read it or to have it alone.
    Waiting { block: u32, exclusive: bool },
    /// It waits at the barrier.
    InBarrier,
    Stopped { cause: Cause },
}
