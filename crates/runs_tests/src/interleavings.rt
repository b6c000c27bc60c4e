use core_steps::{Core, Step, StepFault, Why, replay};
use engine::{Engine, Round};
use std::alloc::Global;
use std::process::Abort;
use std::test::Fail;
use test_machines::{four_nodes, two_nodes};
use test_programs::{program, programs};

/// An exit, and a load of the first word of shared memory before it.
const EXITS: &[u32] = &[0x05d0_0893, 0x0000_0073];

const LOADS: &[u32] = &[0x8000_02b7, 0x0002_a503, 0x05d0_0893, 0x0000_0073];

/// A store to the first word of shared memory, a barrier, and an exit.
const STORES: &[u32] = &[
    0x8000_02b7,
    0x00a2_a023,
    0x0050_0893,
    0x0000_0073,
    0x05d0_0893,
    0x0000_0073,
];

/// The steps of two nodes, of which node 1 reads a block of node 0: in each state first those that aren't enabled, and
/// why, and then one that is, with the end of the quantum that is open then.
const STEPS: &str = "Quantum 2 => NoNode { node: 2 }
Quantum 4294967295 => NoNode { node: 4294967295 }
Deposit 0 1 => NotDone { node: 0 }
Deposit 1 0 => NotDone { node: 1 }
Deposit 2 0 => NoNode { node: 2 }
Deposit 0 7 => NoNode { node: 7 }
Deposit 3 2 => NoNode { node: 3 }
Turn => NotDone { node: 0 }
Quantum 1 => Some(100)
Quantum 1 => Done { node: 1 }
Deposit 1 1 => NoneOut { from: 1, to: 1 }
Deposit 0 1 => NotDone { node: 0 }
Deposit 1 2 => NoNode { node: 2 }
Turn => NotDone { node: 0 }
Quantum 0 => Some(100)
Quantum 0 => Done { node: 0 }
Quantum 2 => NoNode { node: 2 }
Deposit 0 1 => NoneOut { from: 0, to: 1 }
Deposit 0 7 => NoNode { node: 7 }
Turn => Out { from: 1, to: 0 }
Deposit 1 0 => Some(100)
Deposit 1 0 => NoneOut { from: 1, to: 0 }
Turn => Some(201)
Quantum 0 => Some(201)
Turn => NotDone { node: 1 }
Quantum 1 => Some(201)
Turn => Out { from: 0, to: 1 }
Deposit 0 1 => Some(201)
Turn => Some(301)
Quantum 0 => Some(301)
Quantum 1 => Some(301)
Deposit 1 0 => Some(301)
Turn => Some(406)
Quantum 0 => Some(406)
Quantum 1 => Some(406)
Turn => None
Quantum 0 => Ended
Quantum 2 => Ended
Deposit 1 0 => Ended
Deposit 0 7 => Ended
Turn => Ended";

fn two(alloc: Global) -> Result<Core, Fail> {
    let machine = two_nodes();
    let loaded = programs(alloc, &machine, &[EXITS, LOADS])?.ok_or("no program")?;
    Ok(Core::start(alloc, &machine, &loaded, false)?)
}

fn step_of(text: &str) -> Result<Step, Fail> {
    let mut words = text.split(' ');
    let kind = words.next().ok_or("no step")?;
    if kind == "Turn" {
        return Ok(Step::Turn);
    }
    let node = words.next().ok_or("no node")?.parse()?;
    if kind == "Quantum" {
        return Ok(Step::Quantum { node });
    }
    let to = words.next().ok_or("no other node")?.parse()?;
    Ok(Step::Deposit { from: node, to })
}

/// What a step answers.
fn told(alloc: Global, core: &mut Core, step: Step) -> Result<String, Fail> {
    match core.apply(step) {
        Ok(()) => {
            let until = core.until();
            Ok(format!(in alloc; "{until:?}")?)
        }
        Err(StepFault::Refused { step: _, why }) => Ok(format!(in alloc; "{why:?}")?),
        Err(StepFault::NoMemory) => Ok(format!(in alloc; "no memory")?),
    }
}

#[test]
fn steps_by_rows(rt: HostRuntime) -> Result<(), Fail> {
    let alloc = rt.alloc();
    let mut core = two(alloc)?;
    for row in STEPS.split('\n') {
        let (step, wanted) = row.split_once(" => ").ok_or("no answer in a row")?;
        let told = told(alloc, &mut core, step_of(step)?)?;
        assert!(rt; told.as_str() == wanted, "{row}");
    }
    Ok(())
}

/// The steps and messages that a node has handled, and how many messages wait for it.
type Told = (u64, u64, u64);

fn tells(station: &quantum::Station) -> Told {
    let counters = station.node().counters();
    (counters.steps, counters.messages, station.pending())
}

/// Whether two machines have come to the same.
fn agree(core: &Core, engine: &Engine) -> bool {
    let others = engine.stations();
    core.stations()
        .iter()
        .zip(others)
        .all(|(one, other)| tells(one) == tells(other))
}

/// A number from another.
fn next(number: u32) -> u32 {
    number.wrapping_mul(1_664_525).wrapping_add(1_013_904_223)
}

/// A step of four nodes by a number.
fn any_step(number: u32) -> Step {
    let node = number / 65_536 % 4;
    let to = number / 262_144 % 4;
    match number / 1_048_576 % 3 {
        0 => Step::Quantum { node },
        1 => Step::Deposit { from: node, to },
        _ => Step::Turn,
    }
}

/// Does steps in an order by a number, as far as they are enabled, until none is, and compares the core with the engine
/// after each turn. Answers how many turns there were.
fn run(rt: &impl Abort, alloc: Global, number: u32) -> Result<u64, Fail> {
    let machine = four_nodes();
    let loaded = program(alloc, &machine, STORES)?.ok_or("no program")?;
    let mut core = Core::start(alloc, &machine, &loaded, false)?;
    let mut engine = Engine::new(alloc, machine, &loaded, false)?;
    let mut number = number;
    let mut turns = 0u64;
    for _try in 0..100_000 {
        if core.until().is_none() {
            break;
        }
        number = next(number);
        let step = any_step(number);
        if core.apply(step).is_ok() && step == Step::Turn {
            turns = turns.saturating_add(1);
            assert!(rt; engine.round_plain()? == Round::More);
            assert!(rt; agree(&core, &engine));
        }
    }
    assert!(rt; engine.round_plain()? == Round::Ended);
    assert!(rt; engine.head().quanta == turns);
    Ok(turns)
}

#[test]
fn twenty_orders_of_steps(rt: HostRuntime) -> Result<(), Fail> {
    let turns = run(&rt, rt.alloc(), 0)?;
    assert!(rt; turns > 4);
    for number in 1..20 {
        assert!(rt; run(&rt, rt.alloc(), number)? == turns);
    }
    Ok(())
}

/// Two orders of the same steps come to the same core.
#[test]
fn replays(rt: HostRuntime) -> Result<(), Fail> {
    let alloc = rt.alloc();
    let (one, other) = (Step::Quantum { node: 0 }, Step::Quantum { node: 1 });
    let deposit = Step::Deposit { from: 1, to: 0 };
    let first = replay(two(alloc)?, &[other, deposit, one, Step::Turn])?;
    let second = replay(two(alloc)?, &[one, other, deposit, Step::Turn])?;
    assert!(rt; first.until() == second.until());
    for (station, same) in first.stations().iter().zip(second.stations()) {
        assert!(rt; tells(station) == tells(same));
    }
    let refused = replay(two(alloc)?, &[one, other, Step::Deposit { from: 0, to: 7 }]);
    let why = Why::NoNode { node: 7 };
    let step = Step::Deposit { from: 0, to: 7 };
    assert!(rt; refused.err() == Some(StepFault::Refused { step, why }));
    Ok(())
}
