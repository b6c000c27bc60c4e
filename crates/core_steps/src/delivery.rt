ghost use Rattle.std.specs.Prelude.{◌≡◌, ◌∷◌, [], length, OnOk};
ghost use Rattle.std.specs.List.{All};
ghost use Rattle.engine.specs.Quantum.{IsGood, MayBeGiven, given};
ghost use Rattle.core_steps.specs.Deliveries.{HaveBeenGiven, MayAllBeGiven};

use event_queue::Steps;
use quantum::Station;
use std::sync::ledger::Ledger;
use wt_params::NoMemory;
use wt_proto::StampedList;

/// Gives a station the messages of its inbox.
fn give<L: Ledger>(
    station: &mut Station,
    inbox: &mut StampedList,
    steps: &mut Steps<L>,
) -> Result<(), NoMemory>
    requires may { MayBeGiven inbox.old station.old }
    requires good { IsGood station.old }
    ensures given { OnOk result (station.new ≡ given inbox.old station.old) }
    ensures good { OnOk result (IsGood station.new) }
    ensures none_left { OnOk result (inbox.new ≡ []) }
{
    while let Some(message) = inbox.pop_first() {
        match station.accept(message, steps) {
            Ok(()) => {}
            Err(_back) => return Err(NoMemory),
        }
    }
    Ok(())
}

/// Gives each station the messages of its inbox.
pub fn deliver<L: Ledger>(
    stations: &mut [Station],
    inboxes: &mut [StampedList],
    steps: &mut Steps<L>,
) -> Result<(), NoMemory>
    requires sizes { length inboxes.old ≡ length stations.old }
    requires may { MayAllBeGiven inboxes.old stations.old }
    requires good { All IsGood stations.old }
    ensures { OnOk result (HaveBeenGiven inboxes.old stations.old inboxes.new stations.new) }
{
    for place in 0..stations.len() {
        give(&mut stations[place], &mut inboxes[place], steps)?;
    }
    Ok(())
}
