use crate::fifo::Fifo;
use dir_list::Readers;

/// Who holds copies of a block, as its home knows it.
#[derive(Debug, Drop)]
pub enum DirState {
    /// Nobody does.
    Idle,
    /// These nodes, or so many, hold a copy to read.
    Shared {
        readers: Readers,
    },
    /// One node holds the block alone.
    Exclusive {
        owner: u32,
    },
    /// Copies are being called back for a request of node `from`; so many answers are still to come.
    Busy {
        from: u32,
        exclusive: bool,
        left: u32,
    },
}

/// A request that waits for a block: who asks, and whether it wants the block alone.
#[derive(Clone, Copy, Debug, PartialEq, Eq)]
pub struct Request {
    pub node: u32,
    pub exclusive: bool,
}

/// The requests that wait for a block, the oldest first.
pub type Waiting = Fifo<Request>;

/// What a home knows of one of its blocks.
#[derive(Debug, Drop)]
pub struct DirEntry {
    pub state: DirState,
    pub waiting: Waiting,
}

/// The nodes that a trap tells to drop their copies.
#[derive(Clone, Copy, Debug, PartialEq, Eq)]
pub enum Targets {
    /// Every node but one.
    AllBut { node: u32 },
    /// One node.
    One { node: u32 },
}

/// What a directory trap is to do.
#[derive(Clone, Copy, Debug, PartialEq, Eq)]
pub struct TrapPlan {
    pub block: u32,
    pub targets: Targets,
}
