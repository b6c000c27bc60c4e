ghost use Rattle.std.specs.Prelude.{◌≡◌, ◌-◌, ◌^◌, min};
ghost use Rattle.wt_params.specs.Fields.{fields, number_of, is_in_range, fault_among, fault_of, key_of};
ghost use Rattle.wt_params.specs.Mesh.{lookahead_of};

use crate::parts::{Field, MachineParts, ParamFault};

/// The fields, in the order in which they are tested and told.
const FIELDS: [Field; 23] = [
    Field::Nodes,
    Field::PrivateBytes,
    Field::BlockBytes,
    Field::Blocks,
    Field::Sets,
    Field::Ways,
    Field::Latency,
    Field::SelfLatency,
    Field::Hop,
    Field::Width,
    Field::Pointers,
    Field::Quantum,
    Field::EventLimit,
    Field::Budget,
    Field::Op,
    Field::Taken,
    Field::Mem,
    Field::Hit,
    Field::Cico,
    Field::Call,
    Field::Fill,
    Field::Trap,
    Field::TrapEach,
];

impl Field {
    /// All fields, in the order in which they are tested and told.
    pub fn all() -> [Field; 23]
        ensures { result ≡ fields }
    {
        FIELDS
    }

    /// The name of the field in descriptions and in texts, as `nodes` or `costs.op`.
    pub fn key(self) -> &'static str
        ensures { result.now ≡ key_of self }
    {
        match self {
            Field::Nodes => "nodes",
            Field::PrivateBytes => "private_bytes",
            Field::BlockBytes => "block_bytes",
            Field::Blocks => "blocks",
            Field::Sets => "sets",
            Field::Ways => "ways",
            Field::Latency => "latency",
            Field::SelfLatency => "self_latency",
            Field::Hop => "hop",
            Field::Width => "width",
            Field::Pointers => "pointers",
            Field::Quantum => "quantum",
            Field::EventLimit => "event_limit",
            Field::Budget => "budget",
            Field::Op => "costs.op",
            Field::Taken => "costs.taken",
            Field::Mem => "costs.mem",
            Field::Hit => "costs.hit",
            Field::Cico => "costs.cico",
            Field::Call => "costs.call",
            Field::Fill => "costs.fill",
            Field::Trap => "costs.trap",
            Field::TrapEach => "costs.trap_each",
        }
    }
}

impl MachineParts {
    /// The number in a field.
    pub fn number(&self, field: Field) -> u64
        ensures { result ≡ number_of self.now field }
    {
        match field {
            Field::Nodes => self.nodes,
            Field::PrivateBytes => self.private_bytes,
            Field::BlockBytes => self.block_bytes,
            Field::Blocks => self.blocks,
            Field::Sets => self.sets,
            Field::Ways => self.ways,
            Field::Latency => self.latency,
            Field::SelfLatency => self.self_latency,
            Field::Hop => self.hop,
            Field::Width => self.width,
            Field::Pointers => self.pointers,
            Field::Quantum => self.quantum,
            Field::EventLimit => self.event_limit,
            Field::Budget => self.budget,
            Field::Op => self.costs.op,
            Field::Taken => self.costs.taken,
            Field::Mem => self.costs.mem,
            Field::Hit => self.costs.hit,
            Field::Cico => self.costs.cico,
            Field::Call => self.costs.call,
            Field::Fill => self.costs.fill,
            Field::Trap => self.costs.trap,
            Field::TrapEach => self.costs.trap_each,
        }
    }

    /// The least time that a message takes to another node, or 2^64 - 1 where it doesn't fit.
    pub fn lookahead(&self) -> u64
        ensures { result ≡ min (lookahead_of self.now) (2 ^ 64 - 1) }
    {
        let hops = if self.nodes <= 1 { 0 } else { self.hop };
        self.latency.saturating_add(hops)
    }

    /// Whether the number in a field is in the field's range.
    fn is_in_range(&self, field: Field) -> bool
        ensures { result ≡ is_in_range self.now field }
    {
        let value = self.number(field);
        match field {
            Field::Nodes | Field::Width => (1..=256).contains(&value),
            Field::PrivateBytes => (4096..=4_194_304).contains(&value) && value % 4096 == 0,
            Field::BlockBytes => value == 16 || value == 32 || value == 64 || value == 128,
            Field::Blocks => value <= 65536,
            Field::Sets => (1..=1024).contains(&value),
            Field::Ways => (1..=8).contains(&value) && self.sets.saturating_mul(value) <= 4096,
            Field::Latency | Field::SelfLatency => (1..=10000).contains(&value),
            Field::Hop => value <= 100,
            Field::Pointers => value <= 4,
            Field::Quantum => (1..=self.lookahead()).contains(&value),
            Field::EventLimit | Field::Budget => (1..=1 << 40).contains(&value),
            Field::Op | Field::Taken | Field::Mem | Field::Hit | Field::Cico | Field::Call =>
                (1..=4096).contains(&value),
            Field::Fill | Field::Trap | Field::TrapEach => value <= 4096,
        }
    }

    /// The first field, in order, whose number is outside its range.
    pub(crate) fn fault(&self) -> Option<ParamFault>
        ensures { result ≡ fault_of self.now }
    {
        self.first_fault(&FIELDS)
    }

    /// The first of these fields whose number is outside its range.
    fn first_fault(&self, fields: &[Field]) -> Option<ParamFault>
        ensures { result ≡ fault_among self.now fields.now }
    {
        for field in fields {
            if !self.is_in_range(*field) {
                return Some(ParamFault {
                    field: *field,
                    value: self.number(*field),
                });
            }
        }
        None
    }
}
