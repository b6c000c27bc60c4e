ghost use Rattle.std.specs.Prelude.{◌≡◌, IfOk};

use std::alloc::Global;
use wt_params::NoMemory;
use wt_proto::{Cause, Key, Msg, StampedList};

/// What an event was.
#[derive(Debug, Drop, PartialEq, Eq)]
pub enum What {
    /// A step of the processor. It has no word exactly where the pc was outside private memory.
    Step { pc: u32, word: Option<u32> },
    /// A message.
    Message { msg: Msg },
}

impl What {
    /// The same once more.
    pub fn copy(&self) -> What
        ensures { result ≡ self.now }
    {
        match self {
            What::Step { pc, word } => What::Step {
                pc: *pc,
                word: *word,
            },
            What::Message { msg } => What::Message { msg: msg.copy() },
        }
    }
}

/// What an event did to memory, or that it stopped the processor.
#[derive(Clone, Copy, Debug, PartialEq, Eq)]
pub enum Deed {
    /// Nothing of the following.
    Plain,
    /// A load wrote this value into its register.
    Loaded {
        address: u32,
        value: u32,
    },
    /// A store wrote `width` bytes, which as a number are `value`.
    Stored {
        address: u32,
        width: u32,
        value: u32,
    },
    /// The processor stopped.
    Stopped {
        cause: Cause,
    },
}

/// One event of a node.
#[derive(Debug, Drop)]
pub struct Record {
    pub key: Key,
    pub what: What,
    pub deed: Deed,
    /// The cycles of the directory trap, where there was one.
    pub trap: Option<u64>,
    /// The messages that the event sent, in order.
    pub sends: StampedList,
}

impl Record {
    /// The same once more.
    pub fn copy(&self, alloc: Global) -> Result<Record, NoMemory>
        ensures { IfOk result (λ item. item ≡ self.now) }
    {
        Ok(Record {
            key: self.key,
            what: self.what.copy(),
            deed: self.deed,
            trap: self.trap,
            sends: copy_sends(alloc, &self.sends)?,
        })
    }
}

fn copy_sends(alloc: Global, sends: &StampedList) -> Result<StampedList, NoMemory>
    ensures { IfOk result (λ list. list ≡ sends.now) }
{
    let mut list = StampedList::new(alloc);
    while let Some(item) = sends.get(list.len()) {
        list.push(item.copy())?;
    }
    Ok(list)
}
