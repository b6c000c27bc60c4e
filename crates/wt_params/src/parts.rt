/// What each kind of work costs, in target cycles.
#[derive(Clone, Copy, Debug, PartialEq, Eq)]
pub struct CostParts {
    /// An instruction without a taken transfer or a memory access. 1 to 4096.
    pub op: u64,
    /// A taken branch or a jump. 1 to 4096.
    pub taken: u64,
    /// An access to private memory. 1 to 4096.
    pub mem: u64,
    /// A shared access that the cache serves. 1 to 4096.
    pub hit: u64,
    /// An annotation that doesn't wait. 1 to 4096.
    pub cico: u64,
    /// An environment call. 1 to 4096.
    pub call: u64,
    /// Taking in a block that was waited for. 0 to 4096.
    pub fill: u64,
    /// A directory trap. 0 to 4096.
    pub trap: u64,
    /// What a trap costs beside, for each invalidation. 0 to 4096.
    pub trap_each: u64,
}

/// The numbers of a machine, in or out of their ranges.
#[derive(Clone, Copy, Debug, PartialEq, Eq)]
pub struct MachineParts {
    /// How many nodes there are. 1 to 256.
    pub nodes: u64,
    /// The bytes of each node's private memory. A multiple of 4096, from 4096 to 4194304.
    pub private_bytes: u64,
    /// The bytes of a block of shared memory. 16, 32, 64 or 128.
    pub block_bytes: u64,
    /// How many blocks there are. 0 to 65536.
    pub blocks: u64,
    /// The sets of each cache. 1 to 1024.
    pub sets: u64,
    /// The ways of each set. 1 to 8, and `sets * ways` is at most 4096.
    pub ways: u64,
    /// The cycles that a message takes to another node, however near. 1 to 10000.
    pub latency: u64,
    /// The cycles that a message takes to its own node. 1 to 10000.
    pub self_latency: u64,
    /// The cycles that a message to another node takes beside, for each step of its way. 0 to 100.
    pub hop: u64,
    /// How many nodes stand in a row of the mesh. 1 to 256.
    pub width: u64,
    /// How many readers of a block a directory lists. 0 to 4.
    pub pointers: u64,
    /// The longest time that nodes run without looking at each other. 1 to the lookahead.
    pub quantum: u64,
    /// How many events a node handles at most. 1 to 2^40.
    pub event_limit: u64,
    /// The first target cycle that isn't simulated. 1 to 2^40.
    pub budget: u64,
    /// What each kind of work costs.
    pub costs: CostParts,
}

/// A number of a machine, in the order in which they are tested.
#[derive(Clone, Copy, Debug, PartialEq, Eq)]
pub enum Field {
    Nodes,
    PrivateBytes,
    BlockBytes,
    Blocks,
    Sets,
    Ways,
    Latency,
    SelfLatency,
    Hop,
    Width,
    Pointers,
    Quantum,
    EventLimit,
    Budget,
    Op,
    Taken,
    Mem,
    Hit,
    Cico,
    Call,
    Fill,
    Trap,
    TrapEach,
}

/// A number that is outside its range.
#[derive(Clone, Copy, Debug, PartialEq, Eq)]
pub struct ParamFault {
    pub field: Field,
    pub value: u64,
}
