ghost use Rattle.std.specs.Prelude.{◌≡◌, ◌≢◌, ◌+◌, ◌^◌, ◌<◌, ◌≤◌};
ghost use Rattle.wt_params.specs.Mesh.{lookahead_of};
ghost use Rattle.wt_network.specs.Stamps.{stamp_of};

use wt_params::Machine;
use wt_topology::{latency, least_latency};

/// When a message arrives that one node sends to another, or to itself, at a time.
pub fn stamp(machine: &Machine, from: u32, to: u32, sent_at: u64) -> u64
    requires from_node { from < machine.now.nodes }
    requires to_node { to < machine.now.nodes }
    requires early { sent_at < 2 ^ 63 }
    ensures value { result ≡ stamp_of machine.now from to sent_at }
    ensures another { from ≢ to → sent_at + lookahead_of machine.now ≤ result }
    ensures later { sent_at < result }
{
    sent_at + latency(machine, from, to)
}

/// The least time that a message takes to another node: how far nodes may run without looking at each other.
pub fn lookahead(machine: &Machine) -> u64
    ensures { result ≡ lookahead_of machine.now }
{
    least_latency(machine)
}
