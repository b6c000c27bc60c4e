use coherence::check_loads;
use engine::Engine;
use std::alloc::Global;
use std::test::Fail;
use test_machines::two_nodes;
use test_programs::programs;
use wt_params::NoMemory;
use wt_trace::{Deed, Log, NodeLog, merge};

/// Ends a program: the number of the call, and the call.
const EXIT: [u32; 2] = [0x05d0_0893, 0x0000_0073];

/// Loads the first word of shared memory, and ends.
const LOAD: [u32; 4] = [0x8000_02b7, 0x0002_a503, 0x05d0_0893, 0x0000_0073];

/// The merged log of an engine.
fn log_of(alloc: Global, engine: &Engine) -> Result<NodeLog, NoMemory> {
    let mut logs = Vec::new(alloc);
    for station in engine.stations() {
        logs.push(station.node().log().copy(alloc)?)?;
    }
    merge(alloc, &logs)
}

/// A log once more, where each value that was loaded from memory is 1.
fn with_other_values(alloc: Global, log: &NodeLog) -> Result<NodeLog, NoMemory> {
    let mut changed = NodeLog::new(alloc);
    for i in 0..log.len() {
        if let Some(item) = log.get(i) {
            let mut item = item.copy(alloc)?;
            if let Deed::Loaded { address, .. } = item.deed {
                item.deed = Deed::Loaded { address, value: 1 };
            }
            changed.push(item)?;
        }
    }
    Ok(changed)
}

#[test]
fn the_first_wrong_load_of_a_trace(rt: HostRuntime) -> Result<(), Fail> {
    let alloc = rt.alloc();
    let machine = two_nodes();
    let loaded = programs(alloc, &machine, &[&EXIT, &LOAD])?.ok_or("no program")?;
    let mut engine = Engine::new(alloc, machine, &loaded, true)?;
    engine.run_plain()?;
    let log = log_of(alloc, &engine)?;
    assert_eq!(rt; log.len(), 10);
    let found = check_loads(alloc, &machine, &loaded, &log)?;
    assert_eq!(rt; found, None);
    let changed = with_other_values(alloc, &log)?;
    let found = check_loads(alloc, &machine, &loaded, &changed)?;
    assert_eq!(rt; found, Some(6));
    Ok(())
}
