ghost use Rattle.std.specs.Prelude.{◌≡◌, IfOk};
ghost use Rattle.wt_outside.specs.Writes.{Writes};
ghost use Rattle.wwt_case.specs.Case.{IsReady};
ghost use Rattle.wwt_run.specs.Jobs.{HaveRunJob, asked_of, done_of, output_of_job, status_of_job, summary_of};

use crate::run::{run, run_by_workers};
use crate::status::Status;
use engine::Engine;
use gate::Gate;
use std::alloc::Global;
use std::sync::Wait;
use std::thread::Threads;
use wt_listing::{write_machine, write_words};
use wt_outside::{Sink, WriteFault};
use wt_params::Machine;
use wt_report::Options;
use wwt_case::Job;

/// Does a job: writes its output, and answers its status.
pub fn perform<K: Sink>(alloc: Global, job: &Job, out: &mut K) -> Result<Status, WriteFault>
    requires { IsReady job.now }
    ensures status { IfOk result (λ status. status ≡ status_of_job job.now) }
    ensures writes { Writes (output_of_job job.now) result K.view out.old out.new }
{
    match job {
        Job::Check {
            version,
            machine,
            loaded,
        } => done(write_machine(alloc, *version, machine, loaded, out)),
        Job::Dis { image } => done(write_words(alloc, image, out)),
        Job::Flat { loaded } => run(alloc, &Machine::flat(), loaded, &asked(false, false), out),
        Job::Run {
            machine,
            loaded,
            trace,
            memory,
            ..
        } => run(alloc, machine, loaded, &asked(*trace, *memory), out),
        Job::Load {
            machine,
            loaded,
            ..
        } => run(alloc, machine, loaded, &summary(), out),
    }
}

/// Does a job, by as many workers as it has where it runs a machine. The engine that they ran comes with the status.
pub fn perform_by_workers<R: Threads + Wait + Sync, K: Sink, G: Gate + Sync>(
    rt: &R,
    alloc: Global,
    job: &Job,
    out: &mut K,
    gate: &G,
) -> Result<(Status, Option<Engine>), WriteFault>
    requires { IsReady job.now }
    ensures status { IfOk result (λ done. done.0 ≡ status_of_job job.now) }
    ensures engine { IfOk result (λ done. HaveRunJob job.now done.1) }
    ensures writes { Writes (output_of_job job.now) result K.view out.old out.new }
{
    match job {
        Job::Run {
            machine,
            loaded,
            workers,
            trace,
            memory,
        } => {
            let options = asked(*trace, *memory);
            run_by_workers(rt, alloc, machine, loaded, *workers, &options, out, gate)
        }
        Job::Load {
            machine,
            loaded,
            workers,
        } => run_by_workers(rt, alloc, machine, loaded, *workers, &summary(), out, gate),
        _ => match perform(alloc, job, out) {
            Ok(status) => Ok((status, None)),
            Err(fault) => Err(fault),
        },
    }
}

/// How writing a text ends a job that has no other status.
fn done(writing: Result<(), WriteFault>) -> Result<Status, WriteFault>
    ensures { result ≡ done_of writing }
{
    match writing {
        Ok(()) => Ok(Status::Done),
        Err(fault) => Err(fault),
    }
}

/// A report that is asked to tell so much.
fn asked(trace: bool, memory: bool) -> Options
    ensures { result ≡ asked_of trace memory }
{
    Options {
        trace,
        memory,
        summary: false,
    }
}

/// The outcome and the sums alone.
fn summary() -> Options
    ensures { result ≡ summary_of }
{
    Options {
        trace: false,
        memory: false,
        summary: true,
    }
}
