ghost use Rattle.std.specs.Prelude.{◌≡◌, ◌<◌, ◌≤◌, [], ◌∷◌, ◌++◌, length};
ghost use Rattle.dir_list.specs.Lists.{first_place, taken_out, with_node};

use arrayvec::ArrayVec;
use std::marker::Model;

/// How many nodes a list has room for.
const MOST: usize = 4;

/// At most four nodes, kept in place. Contracts see the list of them.
#[derive(Debug, Drop)]
pub struct Few {
    nodes: ArrayVec<u32, MOST>,
}

impl Model for Few {
    ghost use Rattle.std.specs.Prelude.{List, ℕ};

    ghost Value = { List ℕ };

    ghost view = { λ few. few.nodes.items };
}

impl Few {
    /// No nodes.
    pub fn new() -> Few
        ensures { result ≡ [] }
    {
        Few {
            nodes: ArrayVec::new(),
        }
    }

    /// The same once more.
    pub fn copy(&self) -> Few
        ensures { result ≡ self.now }
    {
        let mut twin = ArrayVec::new();
        let _ = twin.try_extend_from_slice(self.nodes.as_slice());
        Few { nodes: twin }
    }

    /// The nodes.
    pub fn nodes(&self) -> &[u32]
        ensures value { result.now ≡ self.now }
        ensures few { length result.now ≤ 4 }
    {
        self.nodes.as_slice()
    }

    /// Puts a node at the end.
    pub fn push(&mut self, node: u32)
        requires { length self.old < 4 }
        ensures { self.new ≡ self.old ++ node ∷ [] }
    {
        self.nodes.push(node);
    }

    /// Puts a node into its place in a rising list, where it isn't in it yet.
    pub fn insert(&mut self, node: u32)
        requires { length self.old < 4 }
        ensures { self.new ≡ with_node node self.old }
    {
        let mut place = 0;
        while place < self.nodes.len() && self.nodes[place] < node {
            place += 1;
        }
        if place == self.nodes.len() || self.nodes[place] != node {
            self.nodes.insert(place, node);
        }
    }

    /// The list without its first entry of a node. None exactly where it has none.
    pub fn without(&self, node: u32) -> Option<Few>
        ensures { result ≡ taken_out node self.now }
    {
        let place = place_of(self.nodes(), node);
        if place == self.nodes().len() {
            return None;
        }
        let mut left = self.copy();
        left.nodes.remove(place);
        Some(left)
    }
}

/// The place of the first entry of a node, and the length where there is none.
fn place_of(nodes: &[u32], node: u32) -> usize
    ensures value { result ≡ first_place node nodes.now }
    ensures bound { result ≤ length nodes.now }
{
    let mut place = 0;
    while place < nodes.len() && nodes[place] != node {
        place += 1;
    }
    place
}
