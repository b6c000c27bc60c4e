ghost use Rattle.std.specs.Prelude.{◌≡◌, map};
ghost use Rattle.wt_stats.specs.declared.counters.TheConstants.{COUNTER_NAMES};
ghost use Rattle.wt_stats.specs.Counts.{counter_names};

/// The names of the counters, in the order in which they are shown.
pub const COUNTER_NAMES: [&[u8]; 14] = [
    b"steps",
    b"messages",
    b"done",
    b"hits",
    b"misses",
    b"upgrades",
    b"replaced",
    b"checkins",
    b"invs",
    b"traps",
    b"trap_cycles",
    b"barriers",
    b"stray",
    b"sent",
];

/// The names are those of the definition, in its order.
pub fn counters_are_named()
    ensures { map (λ name. name.now) COUNTER_NAMES ≡ counter_names }
{}

/// What a node counts.
#[derive(Clone, Copy, Debug, PartialEq, Eq, Default)]
pub struct Counters {
    /// Processor steps handled.
    pub steps: u64,
    /// Messages handled.
    pub messages: u64,
    /// Instructions finished, an exit among them, and a barrier call once the barrier opens.
    pub done: u64,
    /// Shared loads and stores done in their own step.
    pub hits: u64,
    /// Requests for a block that the processor sent without holding a copy.
    pub misses: u64,
    /// Requests to write a block that the processor held for reading.
    pub upgrades: u64,
    /// Lines replaced in the cache.
    pub replaced: u64,
    /// Copies dropped by a check-in.
    pub checkins: u64,
    /// Copies dropped by an invalidation.
    pub invs: u64,
    /// Directory traps.
    pub traps: u64,
    /// The cycles of all directory traps.
    pub trap_cycles: u64,
    /// Barriers passed.
    pub barriers: u64,
    /// Messages that nobody asked for.
    pub stray: u64,
    /// Messages sent.
    pub sent: u64,
}
