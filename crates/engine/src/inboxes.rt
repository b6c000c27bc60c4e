ghost use Rattle.std.specs.Prelude.{◌≡◌, [], ◌<◌, ◌≤◌, ◌^◌, All, IfOk, OnOk, get_or, length, map};
ghost use Rattle.engine.specs.Inboxes.{AreLent, ArePassesOf, AreToBeTaken, HasTaken, HaveTaken, IsOpened, MayBePosted, MayBeTaken, all_united, lower_part, posted, upper_part};

use event_queue::Steps;
use inbox::{Inbox, Pass};
use quantum::{Outs, Station};
use std::alloc::Global;
use std::sync::Wait;
use std::sync::ledger::Ledger;
use wt_params::NoMemory;

/// The inboxes of so many nodes, and a pass of all sources for each.
pub fn open_all<R: Wait>(
    rt: &R,
    alloc: Global,
    nodes: u32,
) -> Result<(Vec<Inbox>, Vec<Pass>), NoMemory>
    ensures of { IfOk result (λ opened. ArePassesOf opened.0.items opened.1.items) }
    ensures count { IfOk result (λ opened. length opened.1.items ≡ nodes) }
    ensures passes { IfOk result (λ opened. All (IsOpened nodes) opened.1.items) }
{
    let mut inboxes = Vec::new(alloc);
    let mut passes = Vec::new(alloc);
    for _node in 0..nodes {
        let (inbox, pass) = Inbox::open(rt, alloc, nodes)?;
        inboxes.push(inbox)?;
        passes.push(pass)?;
    }
    Ok((inboxes, passes))
}

/// Takes messages out of a list, and puts them into the inboxes of the nodes that they name, in their order.
pub fn deposit_all<R: Wait>(
    rt: &R,
    inboxes: &[Inbox],
    passes: &mut [Pass],
    outs: &mut Outs,
) -> Result<(), NoMemory>
    requires of { ArePassesOf inboxes.now passes.old }
    requires may { All (MayBePosted passes.old) outs.old }
    ensures posted { OnOk result (passes.new ≡ posted 0 outs.old passes.old) }
    ensures none_left { OnOk result (outs.new ≡ []) }
{
    while let Some(letter) = outs.pop_letter() {
        let place = letter.message().to as usize;
        match inboxes[place].deposit_letter(rt, &mut passes[place], letter) {
            Ok(()) => {}
            Err(_back) => return Err(NoMemory),
        }
    }
    Ok(())
}

/// Cuts each pass at a source. The upper parts are handed out.
pub fn split_all(
    alloc: Global,
    inboxes: &[Inbox],
    passes: &mut [Pass],
    mid: u32,
) -> Result<Vec<Pass>, NoMemory>
    requires of { ArePassesOf inboxes.now passes.old }
    requires inside { All (λ pass. (pass.view.lo < mid) × (mid < pass.view.hi)) passes.old }
    ensures lower { OnOk result (passes.new ≡ map (lower_part mid) passes.old) }
    ensures upper { IfOk result (λ uppers. uppers.items ≡ map (upper_part mid) passes.old) }
{
    let mut uppers = Vec::new(alloc);
    for (place, pass) in passes.iter_mut().enumerate() {
        uppers.push(pass.split_off(&inboxes[place], mid))?;
    }
    Ok(uppers)
}

/// Puts each pass together with its upper part.
pub fn unite_all<R: Wait>(rt: &R, inboxes: &[Inbox], passes: &mut [Pass], uppers: Vec<Pass>)
    requires of { ArePassesOf inboxes.now passes.old }
    requires lent { AreLent passes.old uppers.items }
    requires few { length passes.old < 2 ^ 32 }
    ensures { passes.new ≡ all_united passes.old uppers.items }
{
    let mut uppers = uppers;
    while let Some(upper) = uppers.pop() {
        let place = uppers.len();
        passes[place].absorb(rt, upper, &inboxes[place]);
    }
}

/// Takes all inboxes empty, and gives what was in each to its station, in that order.
pub fn take_all<L: Ledger, R: Wait>(
    rt: &R,
    inboxes: &[Inbox],
    passes: &mut [Pass],
    stations: &mut [Station],
    steps: &mut Steps<L>,
) -> Result<(), NoMemory>
    requires of { ArePassesOf inboxes.now passes.old }
    requires may { AreToBeTaken passes.old stations.old }
    ensures { OnOk result (HaveTaken passes.old passes.new stations.old stations.new) }
{
    for (place, station) in stations.iter_mut().enumerate() {
        take(rt, &inboxes[place], &mut passes[place], station, steps)?;
    }
    Ok(())
}

/// Takes an inbox empty, and gives what was in it to its station, in that order.
fn take<L: Ledger, R: Wait>(
    rt: &R,
    inbox: &Inbox,
    pass: &mut Pass,
    station: &mut Station,
    steps: &mut Steps<L>,
) -> Result<(), NoMemory>
    requires of { pass.old.of ≡ inbox.now }
    requires may { MayBeTaken pass.old station.old }
    ensures { OnOk result (HasTaken pass.old pass.new station.old station.new) }
{
    for _ in rt.forever() {
        let Some(letter) = inbox.take_letter(rt, pass) else {
            return Ok(());
        };
        match station.accept_letter(letter, steps) {
            Ok(()) => {}
            Err(_back) => return Err(NoMemory),
        }
    }
    unreachable!()
}
