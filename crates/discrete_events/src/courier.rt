ghost use Rattle.discrete_events.specs.Couriers.{couriers, IsCourier, FitsCouriers};
ghost use Rattle.discrete_events.specs.CourierLaws.{lawful};

use crate::simulated::Simulated;
use wt_proto::Key;

/// One of two couriers that hand numbers to each other, the smallest simulation with messages to others and to
/// oneself. At each step a courier sends its count to itself, which comes a cycle later, and one more to the
/// other, which takes three cycles; what comes is added to twice the count, so the order of events shows in it.
#[derive(Clone, Copy, Debug, PartialEq, Eq)]
pub struct Courier {
    pub number: u32,
    pub handled: u64,
    pub last: Option<Key>,
    pub next: Option<u64>,
    pub sent: u64,
    pub count: u64,
}

impl Simulated for Courier {
    type Body = u64;

    ghost simulation = { couriers 3 3 };

    ghost is_sound = { IsCourier };

    ghost fits = { FitsCouriers };

    ghost laws = { lawful };
}
