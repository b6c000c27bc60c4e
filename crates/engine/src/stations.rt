ghost use Rattle.std.specs.Prelude.{◌≡◌, [], All, IfOk, OnOk};
ghost use Rattle.quantum.specs.Stations.{IsUnbroken};
ghost use Rattle.engine.specs.Sole.{AreSole, HaveEnded};
ghost use Rattle.engine.specs.Quantum.{HaveRun, IsGood, MayDeliver, MayRun, delivered, earliest_of, sooner};

use event_queue::Steps;
use quantum::{Quanta, Station};
use std::sync::ledger::Ledger;
use wt_params::NoMemory;
use wt_proto::StampedList;

/// The time of the least event of all stations. None exactly where no station has one.
pub fn earliest<L: Ledger>(stations: &[Station], steps: &mut Steps<L>) -> Option<u64>
    requires { All IsUnbroken stations.now }
    ensures { result ≡ earliest_of stations.now }
{
    let mut first = None;
    for station in stations {
        first = lesser(first, station.least(steps));
    }
    first
}

fn lesser(one: Option<u64>, other: Option<u64>) -> Option<u64>
    ensures { result ≡ sooner one other }
{
    match (one, other) {
        (None, _) => other,
        (_, None) => one,
        (Some(time), Some(other)) => Some(time.min(other)),
    }
}

/// Every station runs on its own up to a time. What they send to each other is put into a list, in the order of the
/// stations.
pub fn run_all<L: Ledger>(
    letters: &mut StampedList,
    stations: &mut [Station],
    until: u64,
    steps: &mut Steps<L>,
) -> Result<(), NoMemory>
    requires may { MayRun until stations.old }
    requires empty { letters.old ≡ [] }
    ensures { OnOk result (HaveRun until stations.old stations.new letters.new) }
{
    for station in stations.iter_mut() {
        station.run_into(until, letters, steps)?;
    }
    Ok(())
}

/// Takes each message out of a list, and gives it to the station that it names.
pub fn deliver<L: Ledger>(
    stations: &mut [Station],
    letters: &mut StampedList,
    steps: &mut Steps<L>,
) -> Result<(), NoMemory>
    requires may { MayDeliver letters.old stations.old }
    requires good { All IsGood stations.old }
    ensures delivered { OnOk result (stations.new ≡ delivered letters.old stations.old) }
    ensures good { OnOk result (All IsGood stations.new) }
{
    while let Some(letter) = letters.pop_letter() {
        let place = letter.message().to as usize;
        match stations[place].accept_letter(letter, steps) {
            Ok(()) => {}
            Err(_back) => return Err(NoMemory),
        }
    }
    Ok(())
}

/// The only station runs to its end, and its quanta are counted.
pub fn run_sole<L: Ledger>(
    stations: &mut [Station],
    quanta: Quanta,
    steps: &mut Steps<L>,
) -> Result<Quanta, NoMemory>
    requires { AreSole stations.old quanta }
    ensures { IfOk result (HaveEnded stations.old stations.new quanta) }
{
    stations[0].run_sole(quanta, steps)
}
