ghost use Rattle.std.specs.Prelude.{◌≤◌};

use engine::{Engine, Round};
use gate::{Gate, MeetGate, OpenGate};
use std::alloc::Global;
use std::process::Abort;
use std::sync::Wait;
use std::test::Fail;
use std::thread::Threads;
use test_machines::small_parts;
use test_programs::programs;
use wt_params::Machine;
use wt_stats::{Head, Outcome};

/// What a node has handled, steps and messages, and how many messages wait for it.
type Told = (u64, u64, u64);

/// A machine of so many nodes with their programs, what the nodes tell after each round, and what the run comes to.
#[derive(Clone, Copy)]
struct Case {
    nodes: u64,
    programs: [&'static [u32]; 2],
    rounds: &'static [[Told; 2]],
    head: Head,
}

/// x5 becomes the begin of shared memory.
const SHARED: u32 = 0x8000_02b7;
/// x10 becomes the first word of block 0.
const LOAD: u32 = 0x0002_a503;
/// The number of the call that ends a program, and the call.
const EXIT: u32 = 0x05d0_0893;

const CALL: u32 = 0x0000_0073;

fn engine_of(alloc: Global, case: Case) -> Result<Engine, Fail> {
    let machine = Machine::new(small_parts(case.nodes))
        .ok()
        .ok_or("no machine")?;
    let loaded = programs(alloc, &machine, &case.programs)?.ok_or("no program")?;
    Ok(Engine::new(alloc, machine, &loaded, false)?)
}

/// Plays a case round by round.
fn play(rt: &impl Abort, alloc: Global, case: Case) -> Result<(), Fail> {
    let mut engine = engine_of(alloc, case)?;
    for row in case.rounds {
        assert_eq!(rt; engine.round_plain()?, Round::More);
        for (station, told) in engine.stations().iter().zip(row) {
            let counters = station.node().counters();
            let tells = (counters.steps, counters.messages, station.pending());
            assert_eq!(rt; tells, *told);
        }
    }
    assert_eq!(rt; engine.round_plain()?, Round::Ended);
    assert_eq!(rt; engine.head(), case.head);
    assert_eq!(rt; engine.machine().nodes(), case.nodes);
    Ok(())
}

/// Plays it to the end by one call.
fn play_on(rt: &impl Abort, alloc: Global, case: Case) -> Result<(), Fail> {
    let mut engine = engine_of(alloc, case)?;
    engine.run_plain()?;
    assert_eq!(rt; engine.head(), case.head);
    Ok(())
}

/// Plays it by so many workers.
fn play_by<R: Abort + Threads + Wait + Sync, G: Gate + Sync>(
    rt: &R,
    alloc: Global,
    case: Case,
    workers: u32,
    gate: &G,
) -> Result<(), Fail>
    requires { (1 ≤ workers) × (workers ≤ 16) }
{
    let mut engine = engine_of(alloc, case)?;
    for _ in case.rounds {
        assert!(rt; engine.round(rt, workers, gate)? == Round::More);
    }
    assert!(rt; engine.round(rt, workers, gate)? == Round::Ended);
    assert!(rt; engine.threaded() == case.rounds.len() as u64);
    assert!(rt; engine.passes().len() as u64 == case.nodes);
    assert!(rt; engine.passes().iter().all(|pass| pass.may_take()));
    assert!(rt; engine.head() == case.head);
    Ok(())
}

/// Node 1 reads a block whose home is node 0: it comes at the very end of a quantum.
const READS: Case = Case {
    nodes: 2,
    programs: [&[EXIT, CALL], &[SHARED, LOAD, EXIT, CALL]],
    rounds: &[
        [(2, 1, 1), (2, 0, 0)],
        [(2, 2, 0), (2, 0, 1)],
        [(2, 2, 1), (4, 1, 0)],
        [(2, 3, 0), (4, 1, 0)],
    ],
    head: Head {
        outcome: Outcome::Finished,
        events: 10,
        time: 306,
        quanta: 4,
    },
};

#[test]
fn a_machine_round_by_round_and_by_one_call(rt: HostRuntime) -> Result<(), Fail> {
    play(&rt, rt.alloc(), READS)?;
    play_on(&rt, rt.alloc(), READS)
}

#[test]
fn one_or_several_workers(rt: HostRuntime) -> Result<(), Fail> {
    play_by(&rt, rt.alloc(), READS, 1, &OpenGate)?;
    play_by(&rt, rt.alloc(), READS, 16, &OpenGate)
}

#[test]
fn two_workers_meet_in_each_round(rt: HostRuntime) -> Result<(), Fail> {
    let gate = MeetGate::new(100_000_000);
    assert!(rt; !gate.met());
    play_by(&rt, rt.alloc(), READS, 2, &gate)?;
    assert!(rt; gate.met());
    Ok(())
}

#[test]
fn one_thread_meets_nobody(rt: HostRuntime) -> Result<(), Fail> {
    let gate = MeetGate::new(10);
    gate.pass(0, 1);
    gate.pass(0, 2);
    assert!(rt; !gate.met());
    Ok(())
}
