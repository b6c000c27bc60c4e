ghost use Rattle.std.specs.Prelude.{◌≡◌, ℕ, List, ◌<◌, ◌≤◌, ◌-◌, ◌^◌, length, slice_index, IfOk};
ghost use Rattle.wt_params.specs.Machine.{shared_base};
ghost use Rattle.priv_mem.specs.Memory.{IsWidth, little_endian};
ghost use Rattle.rv_exec.specs.Widths.{load_width_of, widened};
ghost use Rattle.image_loader.specs.Images.{IsFor};
ghost use Rattle.coherence.specs.Traces.{known_at_start, first_wrong, bytes_from, with_number, stored_by, is_right_deed, word_of};
ghost use Rattle.coherence.specs.Traces.{reads as reads_of, load_in as load_of};
ghost use Rattle.coherence.specs.Loads.{known_first, known_before};

use crate::start::shared_at_start;
use image_loader::Loaded;
use rv_decode::{Instr, LoadOp, decode};
use rv_exec::{load_width, widen};
use std::alloc::Global;
use wt_params::{Machine, NoMemory};
use wt_trace::{Deed, NodeLog, Record, What};

/// Where shared memory begins in every node's address space.
const SHARED_BASE: u32 = 0x8000_0000;

/// The place of the first record of a trace that loads another value from shared memory than the
/// stores so far left there. None exactly where there is no such record.
pub fn check_loads(
    alloc: Global,
    machine: &Machine,
    loaded: &Loaded,
    log: &NodeLog,
) -> Result<Option<u64>, NoMemory>
    requires { IsFor machine.now loaded.now }
    ensures right { IfOk result (λ place.
        place ≡ first_wrong 0 (known_at_start loaded.now) log.now) }
{
    let mut memory = shared_at_start(alloc, machine, loaded)?;
    Ok(first_wrong_load(&mut memory, log))
}

/// The same of a trace that begins with these bytes in shared memory.
fn first_wrong_load(memory: &mut [u8], log: &NodeLog) -> Option<u64>
    ensures { result ≡ first_wrong 0 (known_first memory.old) log.now }
{
    let count = log.len();
    let mut place = 0;
    while let Some(item) = log.get(place) {
        prove!(place < count);
        if !is_right(memory, log, place, item) {
            return Some(place);
        }
        keep(memory, &item.deed);
        place += 1;
    }
    None
}

/// Whether a record loads what shared memory has, if it loads from there.
fn is_right(memory: &[u8], log: &NodeLog, place: u64, item: &Record) -> bool
    requires { place ≤ length log.now }
    ensures { (start : List ℕ) →
        result ≡ is_right_deed (word_of (known_before start log.now place) item.now) memory.now
        item.now.deed }
{
    match item.deed {
        Deed::Loaded { address, value } => {
            if address < SHARED_BASE {
                return true;
            }
            reads(word_at(log, place, item), memory, address, value)
        }
        _ => true,
    }
}

/// Whether the load that a word is reads this value from shared memory.
fn reads(word: Option<u32>, memory: &[u8], address: u32, value: u32) -> bool
    requires { shared_base ≤ address }
    ensures { result ≡ reads_of (load_of word) memory.now address value }
{
    match load_in(word) {
        None => false,
        Some(op) => value_of_load(op, memory, address) == value,
    }
}

/// The load that a word is, if it is one.
fn load_in(word: Option<u32>) -> Option<LoadOp>
    ensures { result ≡ load_of word }
{
    match word {
        None => None,
        Some(word) => match decode(word) {
            Instr::Load { op, .. } => Some(op),
            _ => None,
        },
    }
}

/// What a load reads from shared memory.
fn value_of_load(op: LoadOp, memory: &[u8], address: u32) -> u32
    requires { shared_base ≤ address }
    ensures { result ≡ widened op
        (little_endian (bytes_from memory.now (address - shared_base) (load_width_of op))) }
{
    let place = (address - SHARED_BASE) as usize;
    widen(op, number_at(memory, place, load_width(op)))
}

/// The number that so many bytes from a place on stand for, the lowest first.
fn number_at(memory: &[u8], place: usize, width: u32) -> u32
    requires width { IsWidth width }
    requires place { place < 2 ^ 32 }
    ensures { result ≡ little_endian (bytes_from memory.now place width) }
{
    let first = byte_at(memory, place);
    if width == 1 {
        return first as u32;
    }
    let second = byte_at(memory, place + 1);
    if width == 2 {
        return first as u32 + 256 * second as u32;
    }
    let third = byte_at(memory, place + 2);
    let fourth = byte_at(memory, place + 3);
    u32::from_le_bytes([first, second, third, fourth])
}

/// The byte at a place. Past the end it is zero.
fn byte_at(memory: &[u8], place: usize) -> u8
    ensures { result ≡ slice_index memory.now place }
{
    if place < memory.len() {
        memory[place]
    } else {
        0
    }
}

/// The word of the record at a place: of a message, that of the last step of its node.
fn word_at(log: &NodeLog, place: u64, item: &Record) -> Option<u32>
    requires { place ≤ length log.now }
    ensures { (start : List ℕ) →
        result ≡ word_of (known_before start log.now place) item.now }
{
    match &item.what {
        What::Step { word, .. } => *word,
        What::Message { .. } => last_word(log, place, item.key.to),
    }
}

/// The word of the last step of a node before a place. It goes back record by record.
fn last_word(log: &NodeLog, place: u64, node: u32) -> Option<u32>
    requires { place ≤ length log.now }
    ensures { (start : List ℕ) → result ≡ (known_before start log.now place).word node }
{
    let mut i = place;
    while i > 0 {
        i -= 1;
        if let Some(item) = log.get(i) {
            if item.key.to == node {
                if let What::Step { word, .. } = &item.what {
                    return *word;
                }
            }
        }
    }
    None
}

/// Keeps in shared memory what a record stores there.
fn keep(memory: &mut [u8], deed: &Deed)
    ensures { memory.new ≡ stored_by deed.now memory.old }
{
    if let Deed::Stored {
        address,
        width,
        value,
    } = *deed
    {
        if address >= SHARED_BASE {
            store(memory, (address - SHARED_BASE) as usize, width, value);
        }
    }
}

/// Puts so many of the lowest bytes of a number from a place on, but for those past the end.
fn store(memory: &mut [u8], place: usize, width: u32, number: u32)
    requires { place < 2 ^ 32 }
    ensures { memory.new ≡ with_number memory.old place width number }
{
    let end = (place + width as usize).min(memory.len());
    let mut at = place;
    let mut rest = number;
    while at < end {
        memory[at] = (rest % 256) as u8;
        rest /= 256;
        at += 1;
    }
}
