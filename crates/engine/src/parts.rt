ghost use Rattle.std.specs.Prelude.{◌≡◌, ◌+◌, ◌-◌, ◌<◌, ◌≤◌, ◌^◌, IfOk, OnOk, drop, length, map, take};
ghost use Rattle.std.specs.Thread.{IsSync};
ghost use Rattle.engine.specs.Quantum.{HaveExchanged, MayExchange, MayRun};
ghost use Rattle.engine.specs.Inboxes.{CanPost, HaveMet, HavePosted, MayMeet, MayPost, lower_part, upper_part};

use crate::inboxes::{deposit_all, open_all, split_all, take_all, unite_all};
use crate::stations::{deliver, run_all};
use event_queue::Steps;
use gate::Gate;
use inbox::{Inbox, Pass};
use quantum::{Outs, Station};
use std::alloc::Global;
use std::marker::Brand;
use std::sync::Wait;
use std::sync::ledger::{Blank, Ledger};
use std::thread::{Threads, join_mut};
use wt_params::NoMemory;
use wt_proto::StampedList;

/// Every station runs on its own up to a time, on the calling thread, and then they are given what they have sent to
/// each other. The list is for what is under way in between.
pub fn advance<L: Ledger>(
    letters: &mut StampedList,
    stations: &mut [Station],
    until: u64,
    steps: &mut Steps<L>,
) -> Result<(), NoMemory>
    requires runs { MayRun until stations.old }
    requires exchange { MayExchange until stations.old }
    ensures { OnOk result (HaveExchanged until stations.old stations.new) }
{
    letters.clear();
    run_all(letters, stations, until, steps)?;
    deliver(stations, letters, steps)
}

/// The same by so many workers, each with its part of the stations and, but for one, in a thread of its own. What a
/// station hands out is put into the shared inboxes at once, while others run, and taken out when all have. The passes of
/// the inboxes are handed out.
pub fn advance_by_workers<L: Ledger, R: Threads + Wait + Sync, G: Gate + Sync>(
    rt: &R,
    alloc: Global,
    gate: &G,
    round: u64,
    workers: u32,
    stations: &mut [Station],
    until: u64,
    steps: &mut Steps<L>,
) -> Result<Vec<Pass>, NoMemory>
    requires workers { workers ≤ 16 }
    requires runs { MayRun until stations.old }
    requires meet { MayMeet until stations.old }
    ensures { IfOk result (λ passes. HaveMet until stations.old stations.new passes.items) }
{
    let nodes = stations.len() as u32;
    let (inboxes, opened) = open_all(rt, alloc, nodes)?;
    let mut passes = opened;
    let parts = workers.min(nodes);
    run_parts(
        rt,
        alloc,
        gate,
        round,
        1,
        parts,
        until,
        0,
        &inboxes,
        &mut passes,
        stations,
    )?;
    take_all(rt, &inboxes, &mut passes, stations, steps)?;
    Ok(passes)
}

/// The stations of a part run one after the other, and what each hands out is put into the inboxes.
fn run_part<R: Wait>(
    rt: &R,
    alloc: Global,
    until: u64,
    inboxes: &[Inbox],
    passes: &mut [Pass],
    stations: &mut [Station],
) -> Result<(), NoMemory>
    requires may { MayRun until stations.old }
    requires post { CanPost until inboxes.now passes.old stations.old }
    ensures { OnOk result (HavePosted until stations.old stations.new passes.old passes.new) }
{
    run_part_counted::<Brand, R>(Blank::new(1), rt, alloc, until, inboxes, passes, stations)
}

/// The same, with the steps of the queues counted in a ledger.
fn run_part_counted<L: Ledger, R: Wait>(
    blank: Blank,
    rt: &R,
    alloc: Global,
    until: u64,
    inboxes: &[Inbox],
    passes: &mut [Pass],
    stations: &mut [Station],
) -> Result<(), NoMemory>
    requires name { blank.name ≡ L.name }
    requires parts { blank.parts ≡ L.parts }
    requires some { 0 < blank.parts }
    requires may { MayRun until stations.old }
    requires post { CanPost until inboxes.now passes.old stations.old }
    ensures { OnOk result (HavePosted until stations.old stations.new passes.old passes.new) }
{
    let mut steps = Steps::<L>::new(blank);
    let mut outs = Outs::new(alloc);
    for station in stations.iter_mut() {
        station.run_into(until, &mut outs, &mut steps)?;
        deposit_all(rt, inboxes, passes, &mut outs)?;
    }
    Ok(())
}

/// How many of some stations go to the workers of the left side. Each side has a station for each of its workers.
fn cut_at(stations: usize, left: u32, parts: u32) -> usize
    requires sides { (0 < left) × (left < parts) }
    requires enough { parts ≤ stations }
    requires few { stations < 2 ^ 32 }
    ensures left { left ≤ result }
    ensures right { (parts - left) + result ≤ stations }
{
    stations * left as usize / parts as usize
}

/// Cuts the passes of some stations, of which the first has a number, for two sides. The upper parts are handed out.
fn split_passes(
    alloc: Global,
    inboxes: &[Inbox],
    passes: &mut [Pass],
    number: u32,
    until: u64,
    stations: &[Station],
    at: usize,
) -> Result<Vec<Pass>, NoMemory>
    requires inside { (0 < at) × (at < length stations.now) }
    requires post { MayPost until number inboxes.now passes.old stations.now }
    ensures lower { OnOk result (passes.new ≡ map (lower_part (number + at)) passes.old) }
    ensures upper { IfOk result (λ uppers. uppers.items ≡ map (upper_part (number + at)) passes.old) }
    ensures front { OnOk result (MayPost until number inboxes.now passes.new (take at stations.now)) }
    ensures back { IfOk result (λ uppers. MayPost until (number + at) inboxes.now uppers.items (drop at stations.now)) }
{
    split_all(alloc, inboxes, passes, number + at as u32)
}

/// The stations, of which the first has a number, are halved until there are so many parts, each for a worker of its own;
/// the workers are numbered from the first on. A part runs as soon as its worker has passed the gate.
fn run_parts<R: Threads + Wait + Sync, G: Gate + Sync>(
    rt: &R,
    alloc: Global,
    gate: &G,
    round: u64,
    first: u32,
    parts: u32,
    until: u64,
    number: u32,
    inboxes: &[Inbox],
    passes: &mut [Pass],
    stations: &mut [Station],
) -> Result<(), NoMemory>
    requires few { first + parts < 2 ^ 32 }
    requires parts { parts ≤ length stations.old }
    requires may { MayRun until stations.old }
    requires post { MayPost until number inboxes.now passes.old stations.old }
    ensures { OnOk result (HavePosted until stations.old stations.new passes.old passes.new) }
{
    if parts <= 1 {
        gate.pass(round, first);
        return run_part(rt, alloc, until, inboxes, passes, stations);
    }
    let left = parts - parts / 2;
    let at = cut_at(stations.len(), left, parts);
    let mid = number + at as u32;
    let mut uppers = split_passes(alloc, inboxes, passes, number, until, stations, at)?;
    let lent = uppers.as_mut_slice();
    let (front, back) = stations.split_at_mut(at);
    let (fronts, backs) = join_mut(
        rt,
        &mut || -> Result<(), NoMemory>
            requires { IsSync R.row × IsSync G.row × (first + left < 2 ^ 32) × (left ≤ length front.now) × MayRun until front.now × MayPost until number inboxes.now passes.now front.now }
            ensures { OnOk result (HavePosted until front.entry.now front.exit.now passes.entry.now passes.exit.now) }
        {
            run_parts(
                rt, alloc, gate, round, first, left, until, number, inboxes, passes, front,
            )
        },
        &mut || -> Result<(), NoMemory>
            requires { IsSync R.row × IsSync G.row × (left < parts) × (first + parts < 2 ^ 32) × (parts - left ≤ length back.now) × MayRun until back.now × MayPost until mid inboxes.now lent.now back.now }
            ensures { OnOk result (HavePosted until back.entry.now back.exit.now lent.entry.now lent.exit.now) }
        {
            run_parts(
                rt,
                alloc,
                gate,
                round,
                first + left,
                parts - left,
                until,
                mid,
                inboxes,
                lent,
                back,
            )
        },
    );
    fronts?;
    backs?;
    unite_all(rt, inboxes, passes, uppers);
    Ok(())
}
