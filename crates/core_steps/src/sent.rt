ghost use Rattle.std.specs.Prelude.{◌≡◌, ◌++◌, [], length, replicate, IfOk, MatchBool, MatchOption, OnOk};
ghost use Rattle.core_steps.specs.Sent.{AreAllOut, HasNone, HasSome, IsFirstOut, IsFirstTo, IsMoved, IsTaken, HaveNone};

use std::alloc::Global;
use wt_params::NoMemory;
use wt_proto::{Stamped, StampedList};

/// So many empty lists.
pub fn empty_lists(alloc: Global, count: u32) -> Result<Vec<StampedList>, NoMemory>
    ensures { IfOk result (λ lists. lists.items ≡ replicate count []) }
{
    let mut lists = Vec::new(alloc);
    for place in 0..count {
        lists.push(StampedList::new(alloc))?;
    }
    Ok(lists)
}

/// Whether a message of a list is to a node.
pub fn has_any(list: &StampedList, to: u32) -> bool
    ensures { MatchBool result (HasSome to list.now) (HasNone to list.now) }
{
    for place in 0..list.len() {
        if let Some(message) = list.get(place) {
            if message.to == to {
                return true;
            }
        }
    }
    false
}

/// The least of so many nodes to which a message of a list is.
fn first_to(list: &StampedList, count: u32) -> Option<u32>
    ensures { MatchOption result (HaveNone count list.now) (IsFirstTo count list.now) }
{
    for to in 0..count {
        if has_any(list, to) {
            return Some(to);
        }
    }
    None
}

/// The least pair of so many nodes, the source first, between which something is left to deposit.
pub fn first_out(outs: &[StampedList], count: u32) -> Option<(u32, u32)>
    requires { length outs.now ≡ count }
    ensures { MatchOption result (AreAllOut count outs.now) (λ pair. IsFirstOut count outs.now pair.0 pair.1) }
{
    for from in 0..count {
        if let Some(to) = first_to(&outs[from as usize], count) {
            return Some((from, to));
        }
    }
    None
}

/// Takes the first message to a node out of a list.
fn take_first(alloc: Global, list: &mut StampedList, to: u32) -> Result<Option<Stamped>, NoMemory>
    ensures { IfOk result (IsTaken to list.old list.new) }
{
    let mut before = StampedList::new(alloc);
    while let Some(message) = list.pop_first() {
        if message.to == to {
            append(&mut before, list)?;
            *list = before;
            return Ok(Some(message));
        }
        before.push(message)?;
    }
    *list = before;
    Ok(None)
}

/// Moves all messages of a list to the end of another.
fn append(list: &mut StampedList, others: &mut StampedList) -> Result<(), NoMemory>
    ensures { OnOk result (list.new ≡ list.old ++ others.old) }
{
    while let Some(message) = others.pop_first() {
        list.push(message)?;
    }
    Ok(())
}

/// Moves the first message to a node, where there is one, to the end of the node's inbox.
pub fn move_first(
    alloc: Global,
    list: &mut StampedList,
    to: u32,
    inbox: &mut StampedList,
) -> Result<(), NoMemory>
    ensures { OnOk result (IsMoved to list.old inbox.old list.new inbox.new) }
{
    match take_first(alloc, list, to)? {
        Some(message) => inbox.push(message),
        None => Ok(()),
    }
}
