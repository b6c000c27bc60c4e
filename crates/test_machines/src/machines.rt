ghost use Rattle.std.specs.Prelude.{◌≡◌};
ghost use Rattle.wt_params.specs.Machine.{InRange, IsMachine};
ghost use Rattle.test_machines.specs.Small.{small_machine};

use wt_params::{CostParts, Machine, MachineParts};

/// The numbers of the small machine of so many nodes. A test that wants others changes some of them.
pub fn small_parts(nodes: u64) -> MachineParts
    ensures { result ≡ small_machine nodes }
{
    let costs = CostParts {
        op: 1,
        taken: 2,
        mem: 1,
        hit: 1,
        cico: 1,
        call: 1,
        fill: 4,
        trap: 250,
        trap_each: 5,
    };
    MachineParts {
        nodes,
        private_bytes: 4096,
        block_bytes: 16,
        blocks: 4,
        sets: 2,
        ways: 1,
        latency: 100,
        self_latency: 10,
        hop: 0,
        width: nodes,
        pointers: 0,
        quantum: 100,
        event_limit: 1000,
        budget: 1000,
        costs,
    }
}

/// The machine of numbers that are in their ranges.
pub fn machine_with(parts: MachineParts) -> Machine
    requires { IsMachine parts }
    ensures { result ≡ parts }
{
    match Machine::new(parts) {
        Ok(machine) => machine,
        Err(_fault) => Machine::flat(),
    }
}

/// The small machine of so many nodes.
pub fn machine_of(nodes: u64) -> Machine
    requires { InRange 1 256 nodes }
    ensures { result ≡ small_machine nodes }
{
    machine_with(small_parts(nodes))
}

pub fn one_node() -> Machine
    ensures { result ≡ small_machine 1 }
{
    machine_of(1)
}

pub fn two_nodes() -> Machine
    ensures { result ≡ small_machine 2 }
{
    machine_of(2)
}

pub fn four_nodes() -> Machine
    ensures { result ≡ small_machine 4 }
{
    machine_of(4)
}
