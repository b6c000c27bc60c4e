/// How a simulation ends.
#[derive(Clone, Copy, Debug, PartialEq, Eq)]
pub enum Outcome {
    /// Every processor has stopped.
    Finished,
    /// What is left comes after the budget.
    Budget,
    /// A node has handled all the events that it may.
    EventLimit,
    /// Nothing is left to handle, and some processor waits.
    Stalled,
}

/// What a simulation comes to, over all nodes.
#[derive(Clone, Copy, Debug, PartialEq, Eq)]
pub struct Head {
    pub outcome: Outcome,
    /// The events handled.
    pub events: u64,
    /// The greatest time of a handled event, in target cycles, or 0 where there was none.
    pub time: u64,
    /// How many quanta the handled events began.
    pub quanta: u64,
}
