use crate::gate::Gate;
use std::sync::atomic::{AtomicU64, Ordering};
use std::thread;

/// It holds each of the workers 1 and 2 until the other has come in the same round too, or its turns are over. Other
/// workers pass at once.
#[derive(Drop)]
pub struct MeetGate {
    limit: u64,
    first: Mark,
    second: Mark,
}

impl MeetGate {
    /// A gate where a worker waits for so many turns.
    pub fn new(limit: u64) -> MeetGate {
        MeetGate {
            limit,
            first: Mark::new(),
            second: Mark::new(),
        }
    }

    /// Whether there was a round, and in every round so far both workers came and each saw the other.
    pub fn met(&self) -> bool {
        let rounds = self.first.calls();
        rounds != 0 && self.first.has_always_met(rounds) && self.second.has_always_met(rounds)
    }
}

impl Gate for MeetGate {
    fn pass(&self, round: u64, worker: u32) {
        match worker {
            1 => self.first.meet(&self.second, round, self.limit),
            2 => self.second.meet(&self.first, round, self.limit),
            _ => {}
        }
    }
}

/// What a worker leaves at the gate.
#[derive(Drop)]
struct Mark {
    /// One more than the number of the last round in which it came.
    came: AtomicU64,
    /// How often it came.
    calls: AtomicU64,
    /// How often it saw the other.
    met: AtomicU64,
}

impl Mark {
    fn new() -> Mark {
        Mark {
            came: AtomicU64::new(0),
            calls: AtomicU64::new(0),
            met: AtomicU64::new(0),
        }
    }

    /// Leaves the mark of this round, and looks for the other's.
    fn meet(&self, other: &Mark, round: u64, limit: u64) {
        let mark = round.wrapping_add(1);
        self.calls.fetch_add(1, Ordering::SeqCst);
        self.came.store(mark, Ordering::SeqCst);
        for _ in 0..limit {
            if other.came.load(Ordering::SeqCst) == mark {
                self.met.fetch_add(1, Ordering::SeqCst);
                return;
            }
            thread::yield_now();
        }
    }

    fn calls(&self) -> u64 {
        self.calls.load(Ordering::SeqCst)
    }

    fn has_always_met(&self, rounds: u64) -> bool {
        self.calls() == rounds && self.met.load(Ordering::SeqCst) == rounds
    }
}
