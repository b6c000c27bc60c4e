ghost use Rattle.std.specs.Prelude.{◌≡◌};
ghost use Rattle.std.specs.List.{list_any, list_all};
ghost use Rattle.node.specs.State.{is_running, is_stopped};
ghost use Rattle.quantum.specs.Outcome.{greatest_time};
ghost use Rattle.engine.specs.Engine.{nodes_of};
ghost use Rattle.engine.specs.Heads.{events_in_all, has_spent, has_stopped, head_in, is_at_work, outcome_in};

use quantum::Station;
use wt_proto::Mode;
use wt_stats::{Head, Outcome};

/// What the stations have come to after so many quanta.
pub fn head(stations: &[Station], quanta: u64) -> Head
    ensures { result ≡ head_in stations.now quanta }
{
    Head {
        outcome: outcome(stations),
        events: events(stations),
        time: last_time(stations),
        quanta,
    }
}

fn outcome(stations: &[Station]) -> Outcome
    ensures { result ≡ outcome_in stations.now }
{
    if is_any_spent(stations) {
        return Outcome::EventLimit;
    }
    if is_any_at_work(stations) {
        return Outcome::Budget;
    }
    if have_all_stopped(stations) {
        return Outcome::Finished;
    }
    Outcome::Stalled
}

fn is_any_spent(stations: &[Station]) -> bool
    ensures { result ≡ list_any has_spent stations.now }
{
    stations.iter().any(|station| station.node().spent())
}

fn is_any_at_work(stations: &[Station]) -> bool
    ensures { result ≡ list_any is_at_work stations.now }
{
    stations.iter().any(|station| is_at_work(station))
}

fn have_all_stopped(stations: &[Station]) -> bool
    ensures { result ≡ list_all has_stopped stations.now }
{
    stations.iter().all(|station| has_stopped(station))
}

/// Whether messages wait, or the processor runs.
fn is_at_work(station: &Station) -> bool
    ensures { result ≡ is_at_work station.now }
{
    station.pending() != 0 || is_running(station)
}

fn is_running(station: &Station) -> bool
    ensures { result ≡ is_running station.now.node.state }
{
    match station.node().mode() {
        Mode::Running => true,
        _ => false,
    }
}

fn has_stopped(station: &Station) -> bool
    ensures { result ≡ is_stopped station.now.node.state }
{
    match station.node().mode() {
        Mode::Stopped { cause: _ } => true,
        _ => false,
    }
}

/// The events of all nodes.
fn events(stations: &[Station]) -> u64
    ensures { result ≡ events_in_all stations.now }
{
    let mut events = 0u64;
    for station in stations {
        let counters = station.node().counters();
        events = events
            .saturating_add(counters.steps)
            .saturating_add(counters.messages);
    }
    events
}

/// The greatest time of a node's last event, or 0 where there was none.
fn last_time(stations: &[Station]) -> u64
    ensures { result ≡ greatest_time (nodes_of stations.now) }
{
    let mut greatest = 0;
    for station in stations {
        if let Some(key) = station.node().last() {
            greatest = key.time.max(greatest);
        }
    }
    greatest
}
