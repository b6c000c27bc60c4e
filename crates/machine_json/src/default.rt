ghost use Rattle.std.specs.Prelude.{◌≡◌};
ghost use Rattle.machine_json.specs.Numbers.{default_parts_of};

use wt_params::{CostParts, MachineParts};

/// The latency where none is given, and with it the quantum.
const DEFAULT_LATENCY: u64 = 100;

/// The numbers of a machine of so many nodes where a description gives no others.
pub fn default_parts(nodes: u64) -> MachineParts
    ensures { result ≡ default_parts_of nodes }
{
    let costs = CostParts {
        op: 1,
        taken: 2,
        mem: 1,
        hit: 1,
        cico: 1,
        call: 1,
        fill: 4,
        trap: 250,
        trap_each: 5,
    };
    MachineParts {
        nodes,
        private_bytes: 1_048_576,
        block_bytes: 32,
        blocks: 1024,
        sets: 64,
        ways: 4,
        latency: DEFAULT_LATENCY,
        self_latency: 10,
        hop: 0,
        width: nodes,
        pointers: 0,
        quantum: DEFAULT_LATENCY,
        event_limit: 4_294_967_296,
        budget: 4_294_967_296,
        costs,
    }
}
