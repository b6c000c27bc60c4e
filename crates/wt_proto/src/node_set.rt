ghost use Rattle.std.specs.Prelude.{◌≡◌, ◌<◌, [], slice_get};
ghost use Rattle.dir_list.specs.Lists.{with_node};
ghost use Rattle.wt_proto.specs.NodeSets.{has_bit, has_node};

use std::marker::Model;

/// How many nodes a machine has at most: the greatest value of `nodes`.
pub const MOST_NODES: usize = 256;

/// A set of nodes, one bit for each, kept in place. Contracts see it as the rising list of their numbers.
#[derive(Debug, Drop)]
pub struct NodeSet {
    words: [u64; 4],
}

impl Model for NodeSet {
    ghost use Rattle.std.specs.Prelude.{◌≡◌, List, ℕ, length};

    ghost Value = { List ℕ };

    ghost use Rattle.wt_proto.specs.NodeSets.{members_from};
    ghost use Rattle.wt_proto.specs.declared.node_set.TheConstants.{MOST_NODES};

    ghost view = { λ set. members_from 0 MOST_NODES set.words };

    ghost invariant = { λ set. length set.words ≡ 4 };
}

impl NodeSet {
    /// The empty set.
    pub fn new() -> NodeSet
        ensures { result ≡ [] }
    {
        NodeSet { words: [0; 4] }
    }

    /// Adds a node.
    pub fn insert(&mut self, node: u32)
        requires { node < MOST_NODES }
        ensures { self.new ≡ with_node node self.old }
    {
        self.words[(node / 64) as usize] |= 1 << (node % 64);
    }

    /// Whether a node is in the set.
    pub fn contains(&self, node: u32) -> bool
        ensures { result ≡ has_node self.now node }
    {
        (node as usize) < MOST_NODES && has_bit(&self.words, node)
    }

    /// A node by its place in rising order, counted from 0. None exactly from the end on.
    pub fn get(&self, i: u32) -> Option<u32>
        ensures { result ≡ slice_get self.now i }
    {
        let mut left = i;
        for node in 0..MOST_NODES as u32 {
            if !has_bit(&self.words, node) {
                continue;
            }
            if left == 0 {
                return Some(node);
            }
            left -= 1;
        }
        None
    }
}

/// Whether a node's bit is set.
fn has_bit(words: &[u64; 4], node: u32) -> bool
    requires { node < MOST_NODES }
    ensures { result ≡ has_bit words.now node }
{
    (words[(node / 64) as usize] >> (node % 64)) & 1 == 1
}
