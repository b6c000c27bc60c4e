ghost use Rattle.std.specs.Prelude.{◌≡◌, IfOk};
ghost use Rattle.std.specs.List.{list_all};
ghost use Rattle.image_loader.specs.Images.{IsFor};
ghost use Rattle.wt_outside.specs.Writes.{Writes};
ghost use Rattle.wwt_case.specs.Case.{AreWorkers};
ghost use Rattle.engine.specs.Engine.{IsUnbroken, nodes_of, world_of};
ghost use Rattle.node.specs.State.{exits_well};
ghost use Rattle.wwt_run.specs.Jobs.{HaveRun, out_of, output_of_run, status_of_run};
ghost use Rattle.wwt_run.specs.Status.{status_after_of, status_of_world};

use crate::simulate::{simulate, simulate_by_workers};
use crate::status::Status;
use engine::Engine;
use gate::Gate;
use image_loader::Loaded;
use quantum::Station;
use std::alloc::Global;
use std::sync::Wait;
use std::thread::Threads;
use wt_outside::{Sink, WriteFault};
use wt_params::Machine;
use wt_proto::{Cause, Mode};
use wt_report::{Options, write_report};
use wt_stats::Outcome;

/// Runs a machine, and writes the report.
pub fn run<K: Sink>(
    alloc: Global,
    machine: &Machine,
    loaded: &Loaded,
    options: &Options,
    out: &mut K,
) -> Result<Status, WriteFault>
    requires { IsFor machine.now loaded.now }
    ensures status { IfOk result (λ status. status ≡ status_of_run machine.now loaded.now options.now) }
    ensures writes { Writes (output_of_run machine.now loaded.now options.now) result K.view out.old out.new }
{
    let engine = simulate(alloc, machine, loaded, options.trace)?;
    tell(alloc, &engine, options, out)
}

/// The same by so many workers. The engine that they ran comes with the status.
pub fn run_by_workers<R: Threads + Wait + Sync, K: Sink, G: Gate + Sync>(
    rt: &R,
    alloc: Global,
    machine: &Machine,
    loaded: &Loaded,
    workers: u32,
    options: &Options,
    out: &mut K,
    gate: &G,
) -> Result<(Status, Option<Engine>), WriteFault>
    requires images { IsFor machine.now loaded.now }
    requires workers { AreWorkers workers }
    ensures status { IfOk result (λ done. done.0 ≡ status_of_run machine.now loaded.now options.now) }
    ensures engine { IfOk result (λ done. HaveRun machine.now loaded.now options.now.trace done.1) }
    ensures writes { Writes (output_of_run machine.now loaded.now options.now) result K.view out.old out.new }
{
    let traced = options.trace;
    let engine = simulate_by_workers(rt, alloc, machine, loaded, traced, workers, gate)?;
    match tell(alloc, &engine, options, out) {
        Ok(status) => Ok((status, Some(engine))),
        Err(fault) => Err(fault),
    }
}

/// Writes the report of what an engine has come to, and answers its status.
fn tell<K: Sink>(
    alloc: Global,
    engine: &Engine,
    options: &Options,
    out: &mut K,
) -> Result<Status, WriteFault>
    requires { IsUnbroken engine.now }
    ensures status { IfOk result (λ status. status ≡ status_of_world engine.now.machine (world_of engine.now)) }
    ensures writes { Writes (out_of engine.now.machine (world_of engine.now) options.now) result K.view out.old out.new }
{
    let head = engine.head();
    let stations = engine.stations();
    match write_report(alloc, &head, engine.machine(), stations, options, out) {
        Ok(()) => Ok(status_after(head.outcome, stations)),
        Err(fault) => Err(fault),
    }
}

/// The status of a run that ended so, with these nodes.
fn status_after(outcome: Outcome, stations: &[Station]) -> Status
    ensures { result ≡ status_after_of outcome (nodes_of stations.now) }
{
    match outcome {
        Outcome::Finished => {
            if all_exit_well(stations) {
                Status::Done
            } else {
                Status::NodeFault
            }
        }
        Outcome::Budget => Status::Budget,
        Outcome::EventLimit => Status::EventLimit,
        Outcome::Stalled => Status::Stalled,
    }
}

/// Whether the programs of all nodes ended themselves by the code 0.
fn all_exit_well(stations: &[Station]) -> bool
    ensures { result ≡ list_all (λ station. exits_well station.node.state) stations.now }
{
    stations.iter().all(|station| has_exited_well(station))
}

/// Whether the program of a node ended itself by the code 0.
fn has_exited_well(station: &Station) -> bool
    ensures { result ≡ exits_well station.now.node.state }
{
    matches!(
        station.node().mode(),
        Mode::Stopped {
            cause: Cause::Exit { code: 0 },
        }
    )
}
