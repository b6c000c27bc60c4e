ghost use Rattle.std.specs.Prelude.{◌≡◌, ℕ, ◌<◌, ◌≤◌, ◌^◌, ◌==◌, not, length, Some};
ghost use Rattle.std.specs.List.{filter};
ghost use Rattle.dir_list.specs.Known.{AreSome, IfLeft, add_of, count_of, first_of, left_of, others_of, remove_of};
ghost use Rattle.dir_list.specs.Lists.{in_order};

use crate::few::Few;

/// Who reads a block, as its home knows it.
#[derive(Debug, Drop)]
pub enum Readers {
    /// These nodes, in the order in which they came; one that came twice stands twice.
    Listed { nodes: Few },
    /// So many copies. Which nodes hold them isn't known.
    Counted { count: u64 },
}

/// What is left after a reader is gone.
#[derive(Debug, Drop)]
pub enum Removed {
    /// These readers.
    Left { readers: Readers },
    /// None.
    Empty,
    /// All of them, for it isn't listed.
    Absent,
}

impl Readers {
    /// One reader: listed where a home has a pointer or more, and else counted.
    pub fn first(node: u32, pointers: u32) -> Readers
        ensures value { result ≡ first_of node pointers }
        ensures some { AreSome pointers result }
    {
        if pointers == 0 {
            return Readers::Counted { count: 1 };
        }
        let mut nodes = Few::new();
        nodes.push(node);
        Readers::Listed { nodes }
    }

    /// One reader more: at the end of the list where a pointer is left, and else counted.
    pub fn add(&self, node: u32, pointers: u32) -> Readers
        requires pointers { pointers ≤ 4 }
        requires count { count_of self.now < 2 ^ 63 }
        ensures value { result ≡ add_of node pointers self.now }
        ensures some { AreSome pointers self.now → AreSome pointers result }
    {
        match self {
            Readers::Listed { nodes } => {
                let count = nodes.nodes().len();
                if count < pointers as usize {
                    let mut nodes = nodes.copy();
                    nodes.push(node);
                    Readers::Listed { nodes }
                } else {
                    Readers::Counted {
                        count: count as u64 + 1,
                    }
                }
            }
            Readers::Counted { count } => Readers::Counted { count: *count + 1 },
        }
    }

    /// One reader less: the first entry of the node in the list, or one of those that are counted.
    pub fn remove(&self, node: u32) -> Removed
        ensures value { result ≡ remove_of node self.now }
        ensures some { (pointers : ℕ) → AreSome pointers self.now → IfLeft result (AreSome pointers) }
    {
        match self {
            Readers::Listed { nodes } => match nodes.without(node) {
                None => Removed::Absent,
                Some(left) => listed(left),
            },
            Readers::Counted { count } => {
                if *count > 1 {
                    let readers = Readers::Counted { count: *count - 1 };
                    Removed::Left { readers }
                } else {
                    Removed::Empty
                }
            }
        }
    }

    /// The listed readers but for a node, rising, each once. None exactly where they are counted.
    pub fn others(&self, node: u32) -> Option<Few>
        ensures { result ≡ others_of node self.now }
    {
        match self {
            Readers::Listed { nodes } => Some(in_order_but(nodes.nodes(), node)),
            Readers::Counted { .. } => None,
        }
    }
}

/// What a list leaves.
fn listed(nodes: Few) -> Removed
    ensures { result ≡ left_of (Some nodes) }
{
    if nodes.nodes().is_empty() {
        Removed::Empty
    } else {
        let readers = Readers::Listed { nodes };
        Removed::Left { readers }
    }
}

/// A few nodes but for one of them, rising, each once.
fn in_order_but(nodes: &[u32], node: u32) -> Few
    requires { length nodes.now ≤ 4 }
    ensures { result ≡ in_order (filter (λ listed. not (listed == node)) nodes.now) }
{
    let mut few = Few::new();
    let mut left = nodes.len();
    while left > 0 {
        left -= 1;
        let listed = nodes[left];
        if listed != node {
            few.insert(listed);
        }
    }
    few
}
