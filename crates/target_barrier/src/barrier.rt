ghost use Rattle.std.specs.Prelude.{◌≡◌, ◌<◌, []};
ghost use Rattle.wt_params.specs.Machine.{InRange};
ghost use Rattle.target_barrier.specs.Barrier.{is_known, is_complete, opened, arrive_of, leave_of};

use std::marker::Model;
use std::mem;
use wt_proto::{MOST_NODES, NodeSet};

/// What a node's arrival or leaving brings.
#[derive(Debug, Drop)]
pub enum Release {
    /// Others are still awaited.
    Hold,
    /// The barrier opens for these nodes.
    Go { nodes: NodeSet },
    /// The node has arrived or left before.
    Stray,
}

/// The barrier unit: the nodes that have arrived at the barrier, and those that have left for good.
#[derive(Debug, Drop)]
pub struct BarrierUnit {
    nodes: u32,
    arrived: NodeSet,
    left: NodeSet,
}

impl Model for BarrierUnit {
    ghost use Rattle.target_barrier.specs.Barrier.{Barrier, IsUnit};

    ghost Value = { Barrier };

    ghost view = { λ unit. record { nodes = unit.nodes; arrived = unit.arrived; left = unit.left } };

    ghost invariant = { λ unit. IsUnit unit.nodes unit.arrived unit.left };
}

impl BarrierUnit {
    /// A barrier of so many nodes, where nobody has arrived or left.
    pub fn new(nodes: u32) -> BarrierUnit
        requires { InRange 1 MOST_NODES nodes }
        ensures { result ≡ record { nodes = nodes; arrived = []; left = [] } }
    {
        BarrierUnit {
            nodes,
            arrived: NodeSet::new(),
            left: NodeSet::new(),
        }
    }

    /// A node comes to the barrier.
    pub fn arrive(&mut self, node: u32) -> Release
        requires { node < self.old.nodes }
        ensures after { self.new ≡ (arrive_of self.old node).0 }
        ensures release { result ≡ (arrive_of self.old node).1 }
        ensures nodes { self.new.nodes ≡ self.old.nodes }
    {
        if self.knows(node) {
            return Release::Stray;
        }
        self.arrived.insert(node);
        self.open()
    }

    /// A node leaves for good.
    pub fn leave(&mut self, node: u32) -> Release
        requires { node < self.old.nodes }
        ensures after { self.new ≡ (leave_of self.old node).0 }
        ensures release { result ≡ (leave_of self.old node).1 }
        ensures nodes { self.new.nodes ≡ self.old.nodes }
    {
        if self.knows(node) {
            return Release::Stray;
        }
        self.left.insert(node);
        self.open()
    }

    /// Whether a node has arrived or left.
    fn knows(&self, node: u32) -> bool
        ensures { result ≡ is_known self.now node }
    {
        self.arrived.contains(node) || self.left.contains(node)
    }

    /// Whether every node has arrived or left, and one has arrived.
    fn complete(&self) -> bool
        ensures { result ≡ is_complete self.now }
    {
        if self.arrived.get(0).is_none() {
            return false;
        }
        for node in 0..self.nodes {
            if !self.knows(node) {
                return false;
            }
        }
        true
    }

    /// Opens the barrier where it is complete.
    fn open(&mut self) -> Release
        ensures after { self.new ≡ (opened self.old).0 }
        ensures release { result ≡ (opened self.old).1 }
        ensures nodes { self.new.nodes ≡ self.old.nodes }
    {
        if !self.complete() {
            return Release::Hold;
        }
        Release::Go {
            nodes: mem::replace(&mut self.arrived, NodeSet::new()),
        }
    }
}
