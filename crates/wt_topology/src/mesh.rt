ghost use Rattle.std.specs.Prelude.{◌≡◌, ◌≢◌, ◌<◌, ◌≤◌};
ghost use Rattle.wt_params.specs.Machine.{InRange};
ghost use Rattle.wt_params.specs.Mesh.{distance_of, latency_of, lookahead_of};

use wt_params::Machine;

/// How many steps along rows and columns lead from one node to another.
pub fn distance(machine: &Machine, from: u32, to: u32) -> u64
    requires from_node { from < machine.now.nodes }
    requires to_node { to < machine.now.nodes }
    ensures value { result ≡ distance_of machine.now from to }
    ensures short { result ≤ 510 }
{
    let width = machine.width() as u32;
    let columns = (from % width).abs_diff(to % width);
    let rows = (from / width).abs_diff(to / width);
    (columns + rows) as u64
}

/// How many cycles a message takes from one node to another, or to itself.
pub fn latency(machine: &Machine, from: u32, to: u32) -> u64
    requires from_node { from < machine.now.nodes }
    requires to_node { to < machine.now.nodes }
    ensures value { result ≡ latency_of machine.now from to }
    ensures another { from ≢ to → lookahead_of machine.now ≤ result }
    ensures range { InRange 1 61000 result }
{
    if from == to {
        return machine.self_latency();
    }
    let hop = machine.hop();
    if hop == 0 {
        return machine.latency();
    }
    machine.latency() + hop * distance(machine, from, to)
}

/// The least of the latencies between different nodes, and `latency` where there is one node.
pub fn least_latency(machine: &Machine) -> u64
    ensures value { result ≡ lookahead_of machine.now }
    ensures range { InRange 1 10100 result }
{
    machine.parts().lookahead()
}
