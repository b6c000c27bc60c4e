ghost use Rattle.std.specs.Prelude.{◌≡◌, ◌<◌, ◌≤◌, IfOk, OnOk, false};
ghost use Rattle.wt_params.specs.Machine.{InRange};
ghost use Rattle.quantum.specs.Stations.{MayAccept, machine_of};
ghost use Rattle.wt_report.specs.Stations.{AreStationsOf, IsStationOf};
ghost use Rattle.engine.specs.Engine.{IsUnbroken};

use coherence::{Breach, Copies, check_copies, copies};
use engine::Engine;
use event_queue::Steps;
use quantum::Station;
use std::alloc::Global;
use std::marker::Brand;
use std::sync::ledger::{Blank, Ledger};
use std::test::Fail;
use test_machines::{machine_of, two_nodes};
use test_programs::{program, programs};
use wt_params::{Machine, NoMemory};
use wt_proto::{Body, Msg, Stamped};

/// x5 becomes the begin of shared memory.
const SHARED: u32 = 0x8000_02b7;
/// x10 becomes the first word of block 0.
const LOAD: u32 = 0x0002_a503;
/// x10 is stored as the first word of block 0.
const STORE: u32 = 0x00a2_a023;
/// The number of the call that ends a program, its code 0, and the call.
const EXIT: u32 = 0x05d0_0893;

const CODE: u32 = 0x0000_0513;

const CALL: u32 = 0x0000_0073;

/// The first two writers of block 0 and its first two readers, and the first breach.
type Held = ([Option<u32>; 2], [Option<u32>; 2], Option<Breach>);

/// Who holds block 0 in an engine.
fn held(engine: &Engine) -> Held
    requires unbroken { IsUnbroken engine.now }
    requires exists { 0 < engine.now.machine.blocks }
{
    let stations = engine.stations();
    let Copies { writers, readers } = copies(stations, 0);
    let breach = check_copies(engine.machine(), stations);
    (
        [writers.get(0), writers.get(1)],
        [readers.get(0), readers.get(1)],
        breach,
    )
}

/// The same of a machine of so many nodes that has run to its end.
fn held_at_end(alloc: Global, nodes: u64, words: &[&[u32]]) -> Result<Held, Fail>
    requires { InRange 1 256 nodes }
{
    let machine = machine_of(nodes);
    let loaded = programs(alloc, &machine, words)?.ok_or("no program")?;
    let mut engine = Engine::new(alloc, machine, &loaded, false)?;
    engine.run_plain()?;
    Ok(held(&engine))
}

/// The stations of a machine of two nodes.
fn pair(
    alloc: Global,
    machine: &Machine,
    first: Station,
    second: Station,
) -> Result<Vec<Station>, NoMemory>
    requires two { machine.now.nodes ≡ 2 }
    requires first { IsStationOf machine.now 0 first }
    requires second { IsStationOf machine.now 1 second }
    ensures { IfOk result (λ stations. AreStationsOf machine.now stations.items) }
{
    let mut stations = Vec::new(alloc);
    stations.push(first)?;
    stations.push(second)?;
    Ok(stations)
}

/// Gives a message to a station, and runs it up to a time.
fn hear<L: Ledger>(
    station: &mut Station,
    message: Stamped,
    until: u64,
    steps: &mut Steps<L>,
) -> Result<(), NoMemory>
    requires message { MayAccept station.old message }
    requires budget { until ≤ (machine_of station.old).budget }
    requires forward { station.old.until ≤ until }
    ensures machine { machine_of station.new ≡ machine_of station.old }
    ensures unbroken { OnOk result (station.new.broken ≡ false) }
{
    if station.accept(message, steps).is_err() {
        return Err(NoMemory);
    }
    station.run_to(until, steps)?;
    Ok(())
}

/// The first breach of two nodes, of which node 1 is told at time 50 that the barrier opens, where nobody has sent that.
fn breach_by_a_go<L: Ledger>(
    alloc: Global,
    blank: Blank,
    machine: &Machine,
    words: &[u32],
) -> Result<Option<Breach>, Fail>
    requires name { blank.name ≡ L.name }
    requires parts { blank.parts ≡ L.parts }
    requires some { 0 < blank.parts }
    requires two { machine.now.nodes ≡ 2 }
    requires time { 51 ≤ machine.now.budget }
{
    let mut steps = Steps::<L>::new(blank);
    let loaded = program(alloc, machine, words)?.ok_or("no program")?;
    let first = Station::new(alloc, machine, 0, &loaded, false)?;
    let mut second = Station::new(alloc, machine, 1, &loaded, false)?;
    if second.node().number() != 1 {
        return Err("another number".into());
    }
    let go = Stamped {
        time: 50,
        to: 1,
        from: 0,
        sequence: 0,
        msg: Msg {
            block: 0,
            body: Body::Go,
        },
    };
    hear(&mut second, go, 51, &mut steps)?;
    if first.node().number() != 0 || second.node().number() != 1 {
        return Err("another number".into());
    }
    let stations = pair(alloc, machine, first, second)?;
    Ok(check_copies(machine, &stations))
}

#[test]
fn who_holds_a_block_at_the_end(rt: HostRuntime) -> Result<(), Fail> {
    let alloc = rt.alloc();
    let exits = [EXIT, CALL];
    let loads = [SHARED, LOAD, EXIT, CALL];
    let stores = [SHARED, STORE, EXIT, CODE, CALL];
    let two_writers = held_at_end(alloc, 3, &[&exits, &stores, &stores])?;
    assert_eq!(rt; two_writers, ([Some(2), None], [None, None], None));
    let shared_load = held_at_end(alloc, 2, &[&exits, &loads])?;
    assert_eq!(rt; shared_load, ([None, None], [Some(1), None], None));
    Ok(())
}

#[test]
fn a_stray_message_is_a_breach(rt: HostRuntime) -> Result<(), Fail> {
    let machine = two_nodes();
    let words = [EXIT, CALL];
    let found = breach_by_a_go::<Brand>(rt.alloc(), Blank::new(1), &machine, &words)?;
    assert_eq!(rt; found, Some(Breach::Stray { node: 1 }));
    Ok(())
}
