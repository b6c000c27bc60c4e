ghost use Rattle.std.specs.Prelude.{◌≡◌, ◌<◌, slice_get};
ghost use Rattle.wt_report.specs.Stations.{AreStationsOf, nodes_of};
ghost use Rattle.coherence.specs.Copies.{AreOfSerialRun, HaveBlock, beside, breach_of, copies_of, strays, twos, twos_of, writers_of};

use crate::holders::{Copies, is_beside, is_stray, writes};
use quantum::Station;
use wt_params::Machine;

/// What a coherent machine never has.
#[derive(Clone, Copy, Debug, PartialEq, Eq)]
pub enum Breach {
    /// A message came to this node that nobody had asked for.
    Stray { node: u32 },
    /// A node holds a block writable, and another holds it too.
    Two { block: u32, writer: u32, other: u32 },
}

/// Who holds a block.
pub fn copies(stations: &[Station], block: u32) -> Copies
    requires { HaveBlock stations.now block }
    ensures { result ≡ copies_of (nodes_of stations.now) block }
{
    let mut copies = Copies::new();
    for station in stations {
        copies.add(station, block);
    }
    copies
}

/// The first breach of a machine: of the least node to which a stray message came, and else of the least block, writer
/// and other node. None exactly where there is no breach, and so always at the nodes of a world of a serial run.
pub fn check_copies(machine: &Machine, stations: &[Station]) -> Option<Breach>
    requires { AreStationsOf machine.now stations.now }
    ensures first { result ≡ breach_of machine.now (nodes_of stations.now) }
    ensures coherent { AreOfSerialRun machine.now (nodes_of stations.now) → result ≡ None }
{
    // So that the machine's numbers are known to be in their ranges.
    prove!(machine.width() <= 256);
    first_breach(machine, stations)
}

fn first_breach(machine: &Machine, stations: &[Station]) -> Option<Breach>
    requires { AreStationsOf machine.now stations.now }
    ensures { result ≡ breach_of machine.now (nodes_of stations.now) }
{
    match first_stray(stations) {
        Some(breach) => Some(breach),
        None => first_two(machine, stations),
    }
}

/// The least node to which a stray message came.
fn first_stray(stations: &[Station]) -> Option<Breach>
    ensures { result ≡ slice_get (strays (nodes_of stations.now)) 0 }
{
    for station in stations {
        if is_stray(station) {
            return Some(Breach::Stray {
                node: station.node().number(),
            });
        }
    }
    None
}

/// The least block with a writer beside another node.
fn first_two(machine: &Machine, stations: &[Station]) -> Option<Breach>
    requires { AreStationsOf machine.now stations.now }
    ensures { result ≡ slice_get (twos machine.now (nodes_of stations.now)) 0 }
{
    for block in 0..machine.blocks() as u32 {
        if let Some(breach) = two_of(stations, block) {
            return Some(breach);
        }
    }
    None
}

/// The least writer of a block beside another node.
fn two_of(stations: &[Station], block: u32) -> Option<Breach>
    requires { HaveBlock stations.now block }
    ensures { result ≡ slice_get (twos_of (nodes_of stations.now) block) 0 }
{
    match first_writer(stations, block) {
        Some(writer) => first_beside(stations, block, writer),
        None => None,
    }
}

/// The least writer of a block.
fn first_writer(stations: &[Station], block: u32) -> Option<u32>
    requires { HaveBlock stations.now block }
    ensures { result ≡ slice_get (writers_of (nodes_of stations.now) block) 0 }
{
    for station in stations {
        if writes(station, block) {
            return Some(station.node().number());
        }
    }
    None
}

/// The least other node than a writer that holds the block.
fn first_beside(stations: &[Station], block: u32, writer: u32) -> Option<Breach>
    requires { HaveBlock stations.now block }
    ensures { result ≡ slice_get (beside (nodes_of stations.now) block writer) 0 }
{
    for station in stations {
        if is_beside(station, block, writer) {
            return Some(Breach::Two {
                block,
                writer,
                other: station.node().number(),
            });
        }
    }
    None
}
