ghost use Rattle.std.specs.Prelude.{◌≡◌, None, Some, IfOk, IfSome, IsTrue, ◌↔◌};
ghost use Rattle.wwt_run.specs.Answer.{Headline, Ended, AsksInOrder, Written, IsUsage, IsThreaded, LeavesToThreads, HasRun, Untouched, Attempts, AttemptsByOne, end_of};
ghost use Rattle.wwt_run.specs.Jobs.{refusal_of};

use crate::perform::{perform, perform_by_workers};
use crate::refuse::refuse;
use crate::status::Status;
use engine::Engine;
use gate::Gate;
use std::alloc::Global;
use std::sync::Wait;
use std::thread::Threads;
use wt_outside::{Sink, Store, WriteFault};
use wt_params::NoMemory;
use wwt_case::{Refusal, prepare};
use wwt_words::{WordFault, read_words};

/// Does what the words of the command line say, and answers the status. `check` prints a machine, `dis` the words of an
/// image, and `flat` runs the flat bytes of standard input on the flat machine and prints the report. A run or a load by
/// two workers or more is done by threads. The engine that they ran is handed out, where all was done.
pub fn wwt<R: Threads + Wait + Sync, S: Store, K: Sink, E: Sink, G: Gate + Sync>(
    rt: &R,
    alloc: Global,
    words: &[String],
    store: &mut S,
    out: &mut K,
    err: &mut E,
    gate: &G,
    ran: &mut Option<Engine>,
) -> Status
    requires fresh { ran.old ≡ None }

    // The clauses of `wwt_plain`, for any number of workers and whatever the schedule of their threads.
    ensures headline { Headline words.now S.view store.old store.new K.view out.old out.new (Some result) }
    ensures ended { Ended words.now S.view store.old store.new K.view out.old out.new
        E.view err.old err.new (Some result) }
    ensures asks { AsksInOrder words.now S.view store.old store.new (Some result) }
    ensures written { Written words.now S.view store.old K.view out.old out.new (Some result) }
    ensures refused { IsUsage words.now → Untouched store.old store.new out.old out.new (Some result) }

    // The engine is that of the run, and threads have run each of its quanta.
    ensures ran { HasRun words.now S.view store.old result ran.new }
{
    if let Some(status) = wwt_plain(alloc, words, store, out, err) {
        return status;
    }
    match attempt_by_workers(rt, alloc, words, store, out, gate) {
        Ok((status, engine)) => {
            *ran = engine;
            status
        }
        Err(refusal) => refuse(&refusal, err),
    }
}

/// The same on one thread, without waiting for anybody: it always returns. None is for a run or a load by two workers or
/// more, which is left to threads.
pub fn wwt_plain<S: Store, K: Sink, E: Sink>(
    alloc: Global,
    words: &[String],
    store: &mut S,
    out: &mut K,
    err: &mut E,
) -> Option<Status>
    // Exactly what is left to threads isn't answered.
    ensures answers { LeavesToThreads words.now store.old store.new out.old out.new err.old err.new result }

    // Where nothing fails, all is as the words and the files call for.
    ensures headline { IfSome result (λ status.
        Headline words.now S.view store.old store.new K.view out.old out.new (Some status)) }

    // How the call ended, whatever fails, and the one line that tells of it.
    ensures ended { IfSome result (λ status. Ended words.now S.view store.old store.new K.view out.old out.new
        E.view err.old err.new (Some status)) }

    // Which names are asked of the store, in order.
    ensures asks { IfSome result (λ status. AsksInOrder words.now S.view store.old store.new (Some status)) }

    // What is written, whatever fails.
    ensures written { IfSome result (λ status.
        Written words.now S.view store.old K.view out.old out.new (Some status)) }

    // Words that are refused by themselves touch nothing.
    ensures refused { IfSome result (λ status.
        IsUsage words.now → Untouched store.old store.new out.old out.new (Some status)) }
{
    match attempt_by_one(alloc, words, store, out) {
        Ok(answer) => answer,
        Err(refusal) => Some(refuse(&refusal, err)),
    }
}

/// Does what the words say on one thread, up to the status or the refusal. None is for what is left to threads.
fn attempt_by_one<S: Store, K: Sink>(
    alloc: Global,
    words: &[String],
    store: &mut S,
    out: &mut K,
) -> Result<Option<Status>, Refusal>
    ensures { AttemptsByOne words.now S.view store.old store.new K.view out.old out.new result }
{
    match is_threaded(alloc, words) {
        Ok(true) => Ok(None),
        Ok(false) => match attempt(alloc, words, store, out) {
            Ok(status) => Ok(Some(status)),
            Err(refusal) => Err(refusal),
        },
        Err(NoMemory) => Err(Refusal::NoMemory),
    }
}

/// Whether the words are those of a run or a load by two workers or more.
fn is_threaded(alloc: Global, words: &[String]) -> Result<bool, NoMemory>
    ensures { IfOk result (λ threaded. IsTrue threaded ↔ IsThreaded words.now) }
{
    match read_words(alloc, words) {
        Ok(command) => Ok(command.workers() > 1),
        Err(WordFault::Usage) => Ok(false),
        Err(WordFault::NoMemory) => Err(NoMemory),
    }
}

/// Does what the words say on one thread, up to the status or the refusal.
fn attempt<S: Store, K: Sink>(
    alloc: Global,
    words: &[String],
    store: &mut S,
    out: &mut K,
) -> Result<Status, Refusal>
    ensures { Attempts words.now S.view store.old store.new K.view out.old out.new result }
{
    match prepare(alloc, words, store) {
        Ok(job) => match perform(alloc, &job, out) {
            Ok(status) => Ok(status),
            Err(fault) => Err(refusal(fault)),
        },
        Err(refusal) => Err(refusal),
    }
}

/// The same by as many workers as the words call for. The engine that they ran comes with the status.
fn attempt_by_workers<R: Threads + Wait + Sync, S: Store, K: Sink, G: Gate + Sync>(
    rt: &R,
    alloc: Global,
    words: &[String],
    store: &mut S,
    out: &mut K,
    gate: &G,
) -> Result<(Status, Option<Engine>), Refusal>
    requires { IsThreaded words.now }
    ensures attempts { Attempts words.now S.view store.old store.new K.view out.old out.new (end_of result) }
    ensures ran { IfOk result (λ done. HasRun words.now S.view store.old done.0 done.1) }
{
    match prepare(alloc, words, store) {
        Ok(job) => match perform_by_workers(rt, alloc, &job, out, gate) {
            Ok(done) => Ok(done),
            Err(fault) => Err(refusal(fault)),
        },
        Err(refusal) => Err(refusal),
    }
}

/// The refusal of an output that wasn't written whole.
fn refusal(fault: WriteFault) -> Refusal
    ensures { result ≡ refusal_of fault }
{
    match fault {
        WriteFault::Failed => Refusal::Write,
        WriteFault::NoMemory => Refusal::NoMemory,
    }
}
