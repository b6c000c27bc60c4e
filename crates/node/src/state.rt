ghost use Rattle.std.specs.Prelude.{◌≡◌, [], ◌+◌, ◌%◌, ◌^◌, ◌<◌, ◌≤◌, ◌∷◌, ◌++◌, OnOk};
ghost use Rattle.wt_params.specs.Machine.{home_of};
ghost use Rattle.rv_exec.specs.Meaning.{address_after};
ghost use Rattle.node.specs.Handled.{moved_on, stopped, to_home, message_to, loaded_into, stored_at};

use crate::output::Output;
use crate::send_list::SendList;
use dir1sw::Directory;
use priv_mem::PrivMem;
use rv_exec::Regs;
use target_barrier::BarrierUnit;
use target_cache::Cache;
use wt_params::{Machine, NoMemory};
use wt_proto::{Body, Cause, Key, Mode, Msg};
use wt_stats::Counters;
use wt_trace::{Deed, NodeLog};

/// What a node is at a moment.
#[derive(Drop)]
pub struct NodeState {
    pub number: u32,
    pub registers: Regs,
    /// The address of the next instruction, or of the one that the processor stopped or waits at.
    pub pc: u32,
    pub mode: Mode,
    /// When the processor may begin its next step.
    pub ready: u64,
    /// Until when directory traps keep the node busy.
    pub busy: u64,
    pub private: PrivMem,
    pub cache: Cache,
    /// What the node keeps of the blocks whose home it is.
    pub directory: Directory,
    /// Used at node 0 alone.
    pub barrier: BarrierUnit,
    pub counters: Counters,
    /// The bytes that the program has put out.
    pub output: Output,
    /// The key of the last event handled.
    pub last: Option<Key>,
    pub traced: bool,
    /// The records of the node's events, empty where it isn't traced.
    pub log: NodeLog,
}

/// A message that a node sends at a time, before it is stamped.
#[derive(Debug, Drop)]
pub struct Send {
    pub at: u64,
    pub to: u32,
    pub msg: Msg,
}

/// What an event was, beside what it left and sent.
#[derive(Clone, Copy, Debug)]
pub struct Course {
    pub deed: Deed,
    /// The cycles of a directory trap.
    pub trap: Option<u64>,
}

impl NodeState {
    /// Stops the processor where it is.
    pub fn stop(&mut self, cause: Cause) -> Deed
        ensures node { self.new ≡ (stopped cause self.old).node }
        ensures deed { result ≡ (stopped cause self.old).deed }
    {
        self.mode = Mode::Stopped { cause };
        Deed::Stopped { cause }
    }

    /// Goes on to another instruction, one more being done.
    pub fn move_on(&mut self, next: u32, ready: u64)
        requires { self.old.counters.done < 2 ^ 62 }
        ensures { self.new ≡ moved_on next ready self.old }
    {
        self.counters.done += 1;
        self.pc = next;
        self.ready = ready;
    }

    /// Goes on to the instruction after this one.
    pub fn go_on(&mut self, ready: u64)
        requires { self.old.counters.done < 2 ^ 62 }
        ensures { self.new ≡ moved_on (address_after self.old.pc) ready self.old }
    {
        let next = self.pc.wrapping_add(4);
        self.move_on(next, ready);
    }

    /// Ends a load: its value goes into the register.
    pub fn load_into(&mut self, rd: u8, value: u32, address: u32, ready: u64) -> Deed
        requires register { rd < 32 }
        requires room { self.old.counters.done < 2 ^ 62 }
        ensures node { self.new ≡ (loaded_into rd value address ready self.old).node }
        ensures deed { result ≡ (loaded_into rd value address ready self.old).deed }
    {
        self.registers.set(rd, value);
        self.go_on(ready);
        Deed::Loaded { address, value }
    }

    /// Ends a store.
    pub fn store_at(&mut self, address: u32, width: u32, value: u32, ready: u64) -> Deed
        requires { self.old.counters.done < 2 ^ 62 }
        ensures node { self.new ≡ (stored_at address width value ready self.old).node }
        ensures deed { result ≡ (stored_at address width value ready self.old).deed }
    {
        self.go_on(ready);
        Deed::Stored {
            address,
            width,
            value,
        }
    }
}

/// Sends a message to the home of a block.
#[inline(always)]
pub fn send_home(
    machine: &Machine,
    at: u64,
    block: u32,
    body: Body,
    sends: &mut SendList,
) -> Result<(), NoMemory>
    ensures { OnOk result (sends.new ≡ sends.old ++ to_home machine.now at block body ∷ []) }
{
    send_to(at, machine.home(block), block, body, sends)
}

/// Sends a message about a block to a node.
#[inline(always)]
pub fn send_to(
    at: u64,
    to: u32,
    block: u32,
    body: Body,
    sends: &mut SendList,
) -> Result<(), NoMemory>
    ensures { OnOk result (sends.new ≡ sends.old ++ message_to at to block body ∷ []) }
{
    let msg = Msg { block, body };
    sends.push(Send { at, to, msg })
}
