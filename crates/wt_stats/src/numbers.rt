ghost use Rattle.std.specs.Prelude.{◌≡◌};
ghost use Rattle.wt_stats.specs.Counts.{values_of};

/// The sums of the counters of nodes.
#[derive(Clone, Copy, Debug, PartialEq, Eq, Default)]
pub struct Totals {
    pub steps: u128,
    pub messages: u128,
    pub done: u128,
    pub hits: u128,
    pub misses: u128,
    pub upgrades: u128,
    pub replaced: u128,
    pub checkins: u128,
    pub invs: u128,
    pub traps: u128,
    pub trap_cycles: u128,
    pub barriers: u128,
    pub stray: u128,
    pub sent: u128,
}

impl Totals {
    /// The sums in the order of [`COUNTER_NAMES`](crate::COUNTER_NAMES).
    pub fn values(&self) -> [u128; 14]
        ensures { result ≡ values_of self.now }
    {
        [
            self.steps,
            self.messages,
            self.done,
            self.hits,
            self.misses,
            self.upgrades,
            self.replaced,
            self.checkins,
            self.invs,
            self.traps,
            self.trap_cycles,
            self.barriers,
            self.stray,
            self.sent,
        ]
    }
}
