ghost use Rattle.std.specs.Prelude.{IfOk};
ghost use Rattle.image_loader.specs.Images.{IsFor};
ghost use Rattle.wwt_case.specs.Case.{AreWorkers};
ghost use Rattle.wwt_run.specs.Jobs.{IsAtEnd, IsAtEndByThreads};

use crate::laying::test_laying;
use engine::Engine;
use gate::Gate;
use image_loader::Loaded;
use std::alloc::Global;
use std::sync::Wait;
use std::thread::Threads;
use wt_params::{Machine, NoMemory};

/// Runs a machine from its start as long as there is an event. Its events are recorded exactly where `traced`.
pub fn simulate(
    alloc: Global,
    machine: &Machine,
    loaded: &Loaded,
    traced: bool,
) -> Result<Engine, NoMemory>
    requires { IsFor machine.now loaded.now }
    ensures { IfOk result (IsAtEnd machine.now loaded.now traced) }
{
    // Images that are kept can be loaded, so the start is a world.
    let _images = loaded.images();
    test_laying(machine, loaded)?;
    let mut engine = Engine::new(alloc, *machine, loaded, traced)?;
    engine.run_plain()?;
    Ok(engine)
}

/// The same by so many workers, each quantum in threads of the host.
pub fn simulate_by_workers<R: Threads + Wait + Sync, G: Gate + Sync>(
    rt: &R,
    alloc: Global,
    machine: &Machine,
    loaded: &Loaded,
    traced: bool,
    workers: u32,
    gate: &G,
) -> Result<Engine, NoMemory>
    requires images { IsFor machine.now loaded.now }
    requires workers { AreWorkers workers }
    ensures { IfOk result (IsAtEndByThreads machine.now loaded.now traced) }
{
    let _images = loaded.images();
    test_laying(machine, loaded)?;
    let mut engine = Engine::new(alloc, *machine, loaded, traced)?;
    engine.run(rt, workers, gate)?;
    Ok(engine)
}
