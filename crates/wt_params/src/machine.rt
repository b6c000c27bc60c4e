ghost use Rattle.std.specs.Prelude.{◌≡◌, ◌↔◌, IsOk, ℕ, ◌+◌, ◌*◌, ◌%◌, ◌^◌, ◌<◌, ◌≤◌};
ghost use Rattle.wt_params.specs.Machine.{InRange, IsMachine, IsPrivateSize, IsBlockSize, AreCosts, flat_machine, home_of, block_address, shared_block};
ghost use Rattle.wt_params.specs.Fields.{machine_of};
ghost use Rattle.wt_params.specs.Mesh.{lookahead_of};

use crate::parts::{CostParts, MachineParts, ParamFault};
use std::marker::Model;

/// Where shared memory begins in every node's address space.
const SHARED_BASE: u32 = 0x8000_0000;

/// A machine whose every number is in its range. Contracts see it as its numbers.
#[derive(Clone, Copy, Debug, PartialEq, Eq)]
pub struct Machine {
    parts: MachineParts,
}

impl Model for Machine {
    ghost use Rattle.wt_params.specs.declared.parts.MachineParts.{MachineParts};
    ghost use Rattle.wt_params.specs.Machine.{IsMachine};

    ghost Value = { MachineParts };

    ghost view = { λ m. m.parts };

    ghost invariant = { λ m. IsMachine m.parts };

    ghost inverse = { λ parts. record { parts = parts } };
}

impl Machine {
    /// The machine of these numbers. Refused exactly where a number is outside its range: by the first such
    /// field, in order, with its number. Of `ways` the product with `sets` counts, and `quantum` ends at the lookahead.
    pub fn new(parts: MachineParts) -> Result<Machine, ParamFault>
        ensures exact { result ≡ machine_of parts }
        ensures ranges { IsOk result ↔ IsMachine parts }
    {
        match parts.fault() {
            Some(fault) => Err(fault),
            None => Ok(Machine { parts }),
        }
    }

    /// The machine of one node that runs flat bytes: 1 MiB of private memory, no shared memory, a budget of a
    /// million cycles, and every cost 1.
    pub fn flat() -> Machine
        ensures { result ≡ flat_machine }
    {
        let costs = CostParts {
            op: 1,
            taken: 1,
            mem: 1,
            hit: 1,
            cico: 1,
            call: 1,
            fill: 1,
            trap: 1,
            trap_each: 1,
        };
        Machine {
            parts: MachineParts {
                nodes: 1,
                private_bytes: 1_048_576,
                block_bytes: 16,
                blocks: 0,
                sets: 1,
                ways: 1,
                latency: 1,
                self_latency: 1,
                hop: 0,
                width: 1,
                pointers: 0,
                quantum: 1,
                event_limit: 4_294_967_296,
                budget: 1_000_000,
                costs,
            },
        }
    }

    /// All its numbers, each in its range.
    pub fn parts(&self) -> MachineParts
        ensures value { result ≡ self.now }
        ensures machine { IsMachine self.now }
    {
        self.parts
    }

    /// How many nodes there are.
    pub fn nodes(&self) -> u64
        ensures value { result ≡ self.now.nodes }
        ensures range { InRange 1 256 result }
    {
        self.parts.nodes
    }

    /// The bytes of each node's private memory.
    pub fn private_bytes(&self) -> u64
        ensures value { result ≡ self.now.private_bytes }
        ensures range { IsPrivateSize result }
    {
        self.parts.private_bytes
    }

    /// The bytes of a block of shared memory.
    pub fn block_bytes(&self) -> u64
        ensures value { result ≡ self.now.block_bytes }
        ensures range { IsBlockSize result }
    {
        self.parts.block_bytes
    }

    /// How many blocks of shared memory there are.
    pub fn blocks(&self) -> u64
        ensures value { result ≡ self.now.blocks }
        ensures range { InRange 0 65536 result }
    {
        self.parts.blocks
    }

    /// The sets of each cache.
    pub fn sets(&self) -> u64
        ensures value { result ≡ self.now.sets }
        ensures range { InRange 1 1024 result }
    {
        self.parts.sets
    }

    /// The ways of each set of a cache.
    pub fn ways(&self) -> u64
        ensures value { result ≡ self.now.ways }
        ensures range { InRange 1 8 result }
        ensures lines { self.now.sets * result ≤ 4096 }
    {
        self.parts.ways
    }

    /// The cycles that a message takes to another node, however near.
    pub fn latency(&self) -> u64
        ensures value { result ≡ self.now.latency }
        ensures range { InRange 1 10000 result }
    {
        self.parts.latency
    }

    /// The cycles that a message takes to its own node.
    pub fn self_latency(&self) -> u64
        ensures value { result ≡ self.now.self_latency }
        ensures range { InRange 1 10000 result }
    {
        self.parts.self_latency
    }

    /// The cycles that a message to another node takes beside, for each step of its way.
    pub fn hop(&self) -> u64
        ensures value { result ≡ self.now.hop }
        ensures range { InRange 0 100 result }
    {
        self.parts.hop
    }

    /// How many nodes stand in a row of the mesh.
    pub fn width(&self) -> u64
        ensures value { result ≡ self.now.width }
        ensures range { InRange 1 256 result }
        ensures machine { IsMachine self.now }
    {
        self.parts.width
    }

    /// How many readers of a block a directory lists.
    pub fn pointers(&self) -> u64
        ensures value { result ≡ self.now.pointers }
        ensures range { InRange 0 4 result }
    {
        self.parts.pointers
    }

    /// The longest time that nodes run without looking at each other.
    pub fn quantum(&self) -> u64
        ensures value { result ≡ self.now.quantum }
        ensures range { InRange 1 (lookahead_of self.now) result }
        ensures short { result ≤ 10100 }
    {
        self.parts.quantum
    }

    /// How many events a node handles at most.
    pub fn event_limit(&self) -> u64
        ensures value { result ≡ self.now.event_limit }
        ensures range { InRange 1 (2 ^ 40) result }
    {
        self.parts.event_limit
    }

    /// The first target cycle that isn't simulated.
    pub fn budget(&self) -> u64
        ensures value { result ≡ self.now.budget }
        ensures range { InRange 1 (2 ^ 40) result }
    {
        self.parts.budget
    }

    /// What each kind of work costs.
    pub fn costs(&self) -> CostParts
        ensures value { result ≡ self.now.costs }
        ensures range { AreCosts result }
    {
        self.parts.costs
    }

    /// The node that keeps a block's memory and its directory entry.
    pub fn home(&self, block: u32) -> u32
        ensures value { result ≡ home_of self.now block }
        ensures node { result < self.now.nodes }
    {
        (block as u64 % self.parts.nodes) as u32
    }

    /// The address of a block's first byte.
    pub fn block_address(&self, block: u32) -> u32
        requires { block < self.now.blocks }
        ensures { result ≡ block_address self.now block }
    {
        SHARED_BASE + block * self.parts.block_bytes as u32
    }

    /// The block of shared memory that an address lies in. None exactly outside shared memory.
    pub fn block_at(&self, address: u32) -> Option<u32>
        ensures { result ≡ shared_block self.now address }
    {
        let bytes = self.parts.blocks * self.parts.block_bytes;
        if address < SHARED_BASE || (address - SHARED_BASE) as u64 >= bytes {
            return None;
        }
        Some(((address - SHARED_BASE) as u64 / self.parts.block_bytes) as u32)
    }

    /// The same machine with another budget.
    pub fn with_budget(&self, budget: u64) -> Machine
        requires { InRange 1 (2 ^ 40) budget }
        ensures { result ≡ record self.now { budget = budget } }
    {
        let mut parts = self.parts;
        parts.budget = budget;
        Machine { parts }
    }
}
