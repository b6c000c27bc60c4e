ghost use Rattle.std.specs.Prelude.{◌≡◌};
ghost use Rattle.wt_proto.specs.KeyOrder.{IsKeyOrder};

use std::cmp::Ordering;

/// What orders events: the time first, then the node, the source, and the source's count of its sends.
/// The next step of a processor has the number of nodes for its source, so a message of the same cycle and
/// node goes before it.
#[derive(Clone, Copy, Debug, PartialEq, Eq)]
pub struct Key {
    pub time: u64,
    pub to: u32,
    pub from: u32,
    pub sequence: u64,
}

impl Ord for Key {
    ghost use Rattle.std.proofs.Common.{rules};
    ghost use Rattle.std.specs.Cmp.Rules.{comparing};
    ghost use Rattle.wt_proto.specs.KeyOrder.{key_cmp};

    ghost cmp = { key_cmp };

    ghost total = { Prim.search (comparing, rules) };

    ghost matches_partial_cmp = { Prim.search (comparing, rules) };

    ghost matches_eq = { Prim.search (comparing, rules) };

    fn cmp(&self, other: &Key) -> Ordering {
        self.time
            .cmp(&other.time)
            .then(self.to.cmp(&other.to))
            .then(self.from.cmp(&other.from))
            .then(self.sequence.cmp(&other.sequence))
    }
}

impl PartialOrd for Key {
    ghost use Rattle.std.proofs.Common.{rules};
    ghost use Rattle.std.specs.Ordering.{as_partial_cmp};
    ghost use Rattle.std.specs.Cmp.{po};
    ghost use Rattle.std.specs.Cmp.Rules.{comparing};
    ghost use Rattle.wt_proto.specs.KeyOrder.{key_cmp};

    ghost partial_cmp = { as_partial_cmp key_cmp };

    ghost laws = { po {R = key_cmp} (Prim.search (comparing, rules)) (Prim.search (comparing, rules)) };

    fn partial_cmp(&self, other: &Key) -> Option<Ordering> {
        Some(self.cmp(other))
    }
}

/// The laws of the order of keys: it is total, and keys that tie are equal.
pub fn key_order()
    ensures { IsKeyOrder }
{}
