ghost use Rattle.std.specs.Prelude.{◌≡◌, ◌<◌, ◌++◌, false, true, IfOk, OnErr, OnOk};
ghost use Rattle.discrete_events.specs.Simulation.{Step, Arrival};
ghost use Rattle.discrete_events.specs.World.{is_spent};
ghost use Rattle.image_loader.specs.Images.{IsFor};
ghost use Rattle.wt_proto.specs.Messages.{key_of};
ghost use Rattle.node.specs.Laws.{IsWhole, MayHandle};
ghost use Rattle.node.specs.React.{react, message_under_key, wind_tunnel};
ghost use Rattle.node.specs.Sound.{IsNode, WaitsForABlock};
ghost use Rattle.node.specs.Start.{start_node};
ghost use Rattle.node.specs.State.{next_key, next_step_of};

use crate::send_list::SendList;
use crate::state::NodeState;
use dir1sw::Directory;
use image_loader::Loaded;
use priv_mem::PrivMem;
use rv_exec::Regs;
use std::alloc::Global;
use std::marker::Model;
use target_cache::Cache;
use wt_params::{Machine, NoMemory};
use wt_proto::{Key, Mode, Stamped, StampedList};
use wt_stats::Counters;
use wt_trace::NodeLog;

/// One node: a processor with its registers, its private memory and its cache, and the home of blocks with their
/// memory and their directory entries. After want of memory it is broken: it answers want of memory from then on.
#[derive(Drop)]
pub struct Node {
    alloc: Global,
    machine: Machine,
    state: NodeState,
    /// The messages of the event that is handled. None between events, so that no event makes a list of its own.
    sends: SendList,
    broken: bool,
}

impl Model for Node {
    ghost use Rattle.node.specs.Laws.{NodeModel, IsSoundNode};

    ghost Value = { NodeModel };

    ghost view = { λ node. record { machine = node.machine; state = node.state; broken = node.broken } };

    ghost invariant = { λ node. IsSoundNode node.machine node.state node.sends node.broken };
}

impl Node {
    /// A node at the start, with the images in its memories. Its events are recorded exactly where `traced`.
    pub fn new(
        alloc: Global,
        machine: &Machine,
        number: u32,
        loaded: &Loaded,
        traced: bool,
    ) -> Result<Node, NoMemory>
        requires number { number < machine.now.nodes }
        requires images { IsFor machine.now loaded.now }
        ensures start { IfOk result (λ node. node.state ≡ start_node machine.now loaded.now traced number) }
        ensures machine { IfOk result (λ node. node.machine ≡ machine.now) }
        ensures whole { IfOk result (λ node. node.broken ≡ false) }
        ensures sound { IfOk result (λ node. IsNode node.machine node.state) }
    {
        let state = NodeState::new(alloc, machine, number, loaded, traced)?;
        Ok(Node {
            alloc,
            machine: *machine,
            state,
            sends: SendList::new(alloc),
            broken: false,
        })
    }

    /// The machine that the node is of.
    pub fn machine(&self) -> &Machine
        ensures { result.now ≡ self.now.machine }
    {
        &self.machine
    }

    /// The node's number.
    pub fn number(&self) -> u32
        ensures { result ≡ self.now.state.number }
    {
        self.state.number
    }

    /// When the processor's next step begins. None exactly where it isn't running.
    pub fn next_step(&self) -> Option<u64>
        ensures { result ≡ next_step_of self.now.state }
    {
        match self.state.mode {
            Mode::Running => Some(self.state.ready.max(self.state.busy)),
            _ => None,
        }
    }

    /// Does the processor's next step, and adds the messages that it sends to `out`.
    #[inline(always)]
    pub fn handle_step(&mut self, out: &mut StampedList) -> Result<(), NoMemory>
        requires due { MayHandle self.old (next_key self.old.machine self.old.state) Step }
        ensures node { OnOk result (self.new ≡ record self.old { state = (react self.old.machine self.old.state Step).0 }) }
        ensures sends { OnOk result (out.new ≡ out.old ++ (react self.old.machine self.old.state Step).1) }
        ensures whole { OnOk result (IsWhole self.old) }
        ensures machine { self.new.machine ≡ self.old.machine }
        ensures broken { OnErr result (self.new.broken ≡ true) }
    {
        if self.broken {
            return Err(NoMemory);
        }
        match self
            .state
            .handle_step(self.alloc, &self.machine, &mut self.sends, out)
        {
            Ok(()) => Ok(()),
            Err(NoMemory) => {
                self.broken = true;
                Err(NoMemory)
            }
        }
    }

    /// Handles a message, and adds the messages that it brings to `out`.
    pub fn handle_message(
        &mut self,
        message: &Stamped,
        out: &mut StampedList,
    ) -> Result<(), NoMemory>
        requires due { MayHandle self.old (key_of message.now) (Arrival (message_under_key message.now)) }
        ensures node { OnOk result (self.new ≡ record self.old { state = (react self.old.machine self.old.state (Arrival (message_under_key message.now))).0 }) }
        ensures sends { OnOk result (out.new ≡ out.old ++ (react self.old.machine self.old.state (Arrival (message_under_key message.now))).1) }
        ensures whole { OnOk result (IsWhole self.old) }
        ensures machine { self.new.machine ≡ self.old.machine }
        ensures broken { OnErr result (self.new.broken ≡ true) }
    {
        if self.broken {
            return Err(NoMemory);
        }
        match self
            .state
            .handle_message(self.alloc, &self.machine, message, &mut self.sends, out)
        {
            Ok(()) => Ok(()),
            Err(NoMemory) => {
                self.broken = true;
                Err(NoMemory)
            }
        }
    }

    /// What the processor does.
    pub fn mode(&self) -> &Mode
        ensures value { result.now ≡ self.now.state.mode }
        ensures waits { IsWhole self.now → WaitsForABlock self.now.machine result.now }
    {
        &self.state.mode
    }

    /// The address of the next instruction, or of the one that the processor stopped or waits at.
    pub fn pc(&self) -> u32
        ensures { result ≡ self.now.state.pc }
    {
        self.state.pc
    }

    /// The registers.
    pub fn regs(&self) -> &Regs
        ensures { result.now ≡ self.now.state.registers }
    {
        &self.state.registers
    }

    /// When the last instruction was through, in target cycles.
    pub fn ready(&self) -> u64
        ensures { result ≡ self.now.state.ready }
    {
        self.state.ready
    }

    /// Until when directory traps keep the node busy, in target cycles.
    pub fn busy(&self) -> u64
        ensures { result ≡ self.now.state.busy }
    {
        self.state.busy
    }

    /// What the node has counted.
    pub fn counters(&self) -> &Counters
        ensures { result.now ≡ self.now.state.counters }
    {
        &self.state.counters
    }

    /// The bytes that the program has put out.
    pub fn output(&self) -> &[u8]
        ensures { result.now ≡ self.now.state.output }
    {
        self.state.output.bytes()
    }

    /// The private memory.
    pub fn private(&self) -> &PrivMem
        ensures { result.now ≡ self.now.state.private }
    {
        &self.state.private
    }

    /// The cache.
    pub fn cache(&self) -> &Cache
        ensures { result.now ≡ self.now.state.cache }
    {
        &self.state.cache
    }

    /// What the node keeps of the blocks whose home it is.
    pub fn directory(&self) -> &Directory
        ensures { result.now ≡ self.now.state.directory }
    {
        &self.state.directory
    }

    /// The records of the node's events, empty where it isn't traced.
    pub fn log(&self) -> &NodeLog
        ensures { result.now ≡ self.now.state.log }
    {
        &self.state.log
    }

    /// The key of the last event handled. None exactly where there was none.
    pub fn last(&self) -> Option<Key>
        ensures { result ≡ self.now.state.last }
    {
        self.state.last
    }

    /// Whether the node has handled as many events as the machine allows.
    pub fn spent(&self) -> bool
        ensures spent { result ≡ is_spent (wind_tunnel self.now.machine) self.now.state }
        ensures sound { IsWhole self.now → IsNode self.now.machine self.now.state }
    {
        let counters = &self.state.counters;
        counters.steps.saturating_add(counters.messages) == self.machine.event_limit()
    }
}
