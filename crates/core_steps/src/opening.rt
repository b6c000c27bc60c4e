ghost use Rattle.std.specs.Prelude.{◌≡◌, ◌<◌, ◌^◌, IfSome};
ghost use Rattle.std.specs.List.{All};
ghost use Rattle.std.specs.Option.{option_map};
ghost use Rattle.discrete_events.specs.Round.{quantum_end};
ghost use Rattle.engine.specs.Quantum.{earliest_of};
ghost use Rattle.node.specs.React.{wind_tunnel};
ghost use Rattle.quantum.specs.Stations.{IsUnbroken};

use engine::earliest;
use event_queue::Steps;
use quantum::Station;
use std::sync::ledger::Ledger;
use wt_params::Machine;

/// The end of the quantum that the least event of all stations begins, where there is an event.
pub fn next_end<L: Ledger>(
    machine: &Machine,
    stations: &[Station],
    steps: &mut Steps<L>,
) -> Option<u64>
    requires whole { All IsUnbroken stations.now }
    requires early { IfSome (earliest_of stations.now) (λ time. time < 2 ^ 40) }
    ensures { result ≡ option_map (quantum_end (wind_tunnel machine.now)) (earliest_of stations.now) }
{
    match earliest(stations, steps) {
        None => None,
        Some(time) => Some((time + machine.quantum()).min(machine.budget())),
    }
}
