ghost use Rattle.std.specs.Prelude.{◌≡◌, [], ◌∷◌};
ghost use Rattle.discrete_events.specs.Serial.{serial};
ghost use Rattle.discrete_events.specs.Round.{rounds};
ghost use Rattle.discrete_events.specs.Laws.{IsSerialFrom};
ghost use Rattle.discrete_events.specs.Couriers.{couriers, couriers_at_start, counts_in};

use discrete_events::{
    Courier, every_interleaving, keys_are_new, keys_rise, late_message_passes, least_event_peels,
    merges_are_rounds, no_past, round_is_serial, serial_run_ends,
};

/// Three rounds of the couriers are 24 steps of their serial run, with the counts that were computed by hand.
fn three_rounds_are_serial()
    ensures same { rounds (couriers 3 3) 3 couriers_at_start ≡ serial (couriers 3 3) 24 couriers_at_start }
    ensures counts { counts_in (serial (couriers 3 3) 24 couriers_at_start) ≡ 114 ∷ 441 ∷ [] }
    ensures quanta { (serial (couriers 3 3) 24 couriers_at_start).quanta ≡ 3 }
    ensures end { (serial (couriers 3 3) 24 couriers_at_start).kept_end ≡ 9 }
{}

/// Without its premises the theorem is false: with a quantum one above the lookahead, and with messages between
/// couriers that take one cycle less than it, the first round is no serial run.
fn premises_are_needed()
    ensures too_long { IsSerialFrom (couriers 4 3) couriers_at_start (rounds (couriers 4 3) 1 couriers_at_start) → ⊥ }
    ensures too_early { IsSerialFrom (couriers 3 2) couriers_at_start (rounds (couriers 3 2) 1 couriers_at_start) → ⊥ }
{}

#[test]
fn definitions_compute() {
    three_rounds_are_serial();
    premises_are_needed();
}

/// The couriers keep the laws, so the theorems hold of them.
#[test]
fn theorems_hold_of_the_couriers() {
    late_message_passes::<Courier>();
    least_event_peels::<Courier>();
    round_is_serial::<Courier>();
    serial_run_ends::<Courier>();
    no_past::<Courier>();
    keys_rise::<Courier>();
    keys_are_new::<Courier>();
    every_interleaving::<Courier>();
    merges_are_rounds::<Courier>();
}
