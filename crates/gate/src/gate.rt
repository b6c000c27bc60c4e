/// Each worker passes once at the start of its part of a round. Rounds are numbered from 0, workers from 1.
pub trait Gate {
    fn pass(&self, round: u64, worker: u32);
}

/// It holds nobody.
#[derive(Clone, Copy, Debug)]
pub struct OpenGate;

impl Gate for OpenGate {
    fn pass(&self, _round: u64, _worker: u32) {}
}
