ghost use Rattle.std.specs.Prelude.{◌≡◌, ◌++◌, IfOk, OnOk, All, flat_map};
ghost use Rattle.wt_proto.specs.Messages.{StampedFits};
ghost use Rattle.wt_trace.specs.EventLine.{WhatFits, RecordFits, what_text, deed_text, trap_text, send_text, line_of};

use crate::record::{Deed, Record, What};
use crate::text::{add_cause, add_message};
use std::alloc::Global;
use wt_params::{Machine, NoMemory};
use wt_proto::{Key, Stamped, StampedList};
use wt_text::Line;

/// The line of an event.
pub fn line(alloc: Global, item: &Record, machine: &Machine) -> Result<Line, NoMemory>
    requires { RecordFits machine.now item.now }
    ensures { IfOk result (λ line. line ≡ line_of machine.now item.now) }
{
    let mut line = Line::new(alloc, b"event ")?;
    line.number(item.key.time as u128)?;
    line.entry(b" ", item.key.to as u128)?;
    what(&mut line, machine, &item.key, &item.what)?;
    deed(&mut line, item.deed)?;
    trap(&mut line, item.trap)?;
    sends(&mut line, machine, &item.sends)?;
    line.end()?;
    Ok(line)
}

/// Adds what the event was.
fn what(line: &mut Line, machine: &Machine, key: &Key, what: &What) -> Result<(), NoMemory>
    requires { WhatFits machine.now what.now }
    ensures { OnOk result (line.new ≡ line.old ++ what_text machine.now key.now what.now) }
{
    match what {
        What::Step { pc, word: None } => line.entry_hex(b" step ", *pc),
        What::Step {
            pc,
            word: Some(word),
        } => {
            line.entry_hex(b" step ", *pc)?;
            line.entry_hex(b" ", *word)
        }
        What::Message { msg } => {
            line.entry(b" from ", key.from as u128)?;
            line.entry(b" #", key.sequence as u128)?;
            line.text(b" ")?;
            add_message(line, machine, msg)
        }
    }
}

/// Adds what the event did to memory, or why the processor has stopped.
fn deed(line: &mut Line, deed: Deed) -> Result<(), NoMemory>
    ensures { OnOk result (line.new ≡ line.old ++ deed_text deed) }
{
    match deed {
        Deed::Plain => Ok(()),
        Deed::Loaded { address, value } => {
            line.entry_hex(b" load ", address)?;
            line.entry_hex(b" ", value)
        }
        Deed::Stored {
            address,
            width,
            value,
        } => {
            line.entry_hex(b" store ", address)?;
            line.entry(b" ", width as u128)?;
            line.entry_hex(b" ", value)
        }
        Deed::Stopped { cause } => {
            line.text(b" stop ")?;
            add_cause(line, cause)
        }
    }
}

/// Adds the cycles of a trap, where there was one.
fn trap(line: &mut Line, trap: Option<u64>) -> Result<(), NoMemory>
    ensures { OnOk result (line.new ≡ line.old ++ trap_text trap) }
{
    match trap {
        None => Ok(()),
        Some(cycles) => line.entry(b" trap ", cycles as u128),
    }
}

/// Adds messages that were sent, in their order.
fn sends(line: &mut Line, machine: &Machine, list: &StampedList) -> Result<(), NoMemory>
    requires { All (StampedFits machine.now) list.now }
    ensures { OnOk result (line.new ≡ line.old ++ flat_map (send_text machine.now) list.now) }
{
    let count = list.len();
    let mut i = 0;
    while let Some(item) = list.get(i) {
        prove!(i < count);
        send(line, machine, item)?;
        i += 1;
    }
    Ok(())
}

/// Adds a message that was sent.
fn send(line: &mut Line, machine: &Machine, item: &Stamped) -> Result<(), NoMemory>
    requires { StampedFits machine.now item.now }
    ensures { OnOk result (line.new ≡ line.old ++ send_text machine.now item.now) }
{
    line.entry(b" > ", item.to as u128)?;
    line.text(b" ")?;
    add_message(line, machine, &item.msg)?;
    line.entry(b" at ", item.time as u128)?;
    line.entry(b" #", item.sequence as u128)
}
