ghost use Rattle.std.specs.Prelude.{◌≡◌, ◌<◌, ◌≤◌};
ghost use Rattle.quantum.specs.Stations.{MayAccept, machine_of};

use event_queue::Steps;
use quantum::{Quanta, Station};
use std::alloc::Global;
use std::marker::Brand;
use std::sync::ledger::{Blank, Ledger};
use std::test::Fail;
use test_machines::{one_node, two_nodes};
use test_programs::program;
use wt_params::{Machine, NoMemory};
use wt_proto::{Body, Msg, Stamped};

/// What a run came to: the steps and messages handled, the messages handed out, those that wait, and the time of the
/// least event.
type Came = (u64, u64, u64, u64, Option<u64>);

/// Gives a message to a station, and runs it up to a time.
fn heard<L: Ledger>(
    station: &mut Station,
    message: Stamped,
    until: u64,
    steps: &mut Steps<L>,
) -> Result<Came, NoMemory>
    requires message { MayAccept station.old message }
    requires budget { until ≤ (machine_of station.old).budget }
    requires forward { station.old.until ≤ until }
{
    if station.accept(message, steps).is_err() {
        return Err(NoMemory);
    }
    let outs = station.run_to(until, steps)?.len();
    let counters = station.node().counters();
    let (handled, messages) = (counters.steps, counters.messages);
    let pending = station.pending();
    let least = station.least(steps);
    Ok((handled, messages, outs, pending, least))
}

/// A station that is given a message before it runs: node 1 has come to the barrier at time 50.
fn hears<L: Ledger>(
    alloc: Global,
    blank: Blank,
    machine: &Machine,
    words: &[u32],
    until: u64,
) -> Result<Option<Came>, NoMemory>
    requires name { blank.name ≡ L.name }
    requires parts { blank.parts ≡ L.parts }
    requires some { 0 < blank.parts }
    requires nodes { 1 < machine.now.nodes }
    requires until { until ≤ machine.now.budget }
{
    let mut steps = Steps::<L>::new(blank);
    let Some(loaded) = program(alloc, machine, words)? else {
        return Ok(None);
    };
    let mut station = Station::new(alloc, machine, 0, &loaded, false)?;
    if station.node().number() != 0 {
        return Ok(None);
    }
    let message = Stamped {
        time: 50,
        to: 0,
        from: 1,
        sequence: 0,
        msg: Msg {
            block: 0,
            body: Body::Arrive,
        },
    };
    let came = heard(&mut station, message, until, &mut steps)?;
    Ok(Some(came))
}

/// The steps and messages that a node alone has handled, how many quanta were begun, and the end of the last.
type Ended = (u64, u64, u64, u64);

/// Runs a node that is alone in its machine to its end.
fn ends<L: Ledger>(
    alloc: Global,
    blank: Blank,
    machine: &Machine,
    words: &[u32],
) -> Result<Option<Ended>, NoMemory>
    requires name { blank.name ≡ L.name }
    requires parts { blank.parts ≡ L.parts }
    requires some { 0 < blank.parts }
    requires one { machine.now.nodes ≡ 1 }
{
    let mut steps = Steps::<L>::new(blank);
    let Some(loaded) = program(alloc, machine, words)? else {
        return Ok(None);
    };
    let mut station = Station::new(alloc, machine, 0, &loaded, false)?;
    let start = Quanta {
        kept_end: 0,
        count: 0,
    };
    let quanta = station.run_sole(start, &mut steps)?;
    let counters = station.node().counters();
    Ok(Some((
        counters.steps,
        counters.messages,
        quanta.count,
        quanta.kept_end,
    )))
}

#[test]
fn a_message_of_another_node(rt: HostRuntime) -> Result<(), Fail> {
    let machine = two_nodes();
    // A call of the barrier. Node 1 is there too, so it opens for node 1 and for node 0 itself.
    let words = [0x00500893, 0x00000073];
    let found = hears::<Brand>(rt.alloc(), Blank::new(1), &machine, &words, 51)?;
    assert!(rt; found == Some((2, 2, 1, 1, Some(60))));
    Ok(())
}

#[test]
fn the_run_of_a_sole_node(rt: HostRuntime) -> Result<(), Fail> {
    let machine = one_node();
    // A load of the first word of shared memory, for which it sends itself two messages, and an exit.
    let words = [0x800002b7, 0x0002a503, 0x05d00893, 0x00000073];
    let found = ends::<Brand>(rt.alloc(), Blank::new(1), &machine, &words)?;
    assert!(rt; found == Some((4, 2, 1, 100)));
    Ok(())
}
