ghost use Rattle.std.specs.Prelude.{◌≡◌, ◌%◌, ◌<◌, ◌^◌, true, length, Some, None, IfOk, IfSome};
ghost use Rattle.wt_params.specs.Machine.{IsMachine};
ghost use Rattle.block_tags.specs.declared.tag.Tag.TheVariants.{Invalid};
ghost use Rattle.target_cache.specs.Cached.{tag_of, replaced_of};
ghost use Rattle.rv_exec.specs.declared.effect.Effect.TheVariants.{Load, Store};
ghost use Rattle.rv_exec.specs.Meaning.{NamesRegister};
ghost use Rattle.rv_exec.specs.Widths.{load_width_of, store_width_of};
ghost use Rattle.node.specs.Handled.{IsHandled};
ghost use Rattle.node.specs.DataMessage.{asks_for, effect_at, resumed, installed, fill_with, data_message_of};
ghost use Rattle.node.specs.Sound.{IsNode, IsAskedFor, WaitsFor};

use crate::annotation::{give_back, give_line_back};
use crate::send_list::SendList;
use crate::shared_access::{offset, stored};
use crate::state::{Course, NodeState};
use rv_decode::{LoadOp, StoreOp, decode};
use rv_exec::{Effect, execute, load_width, store_width, widen};
use target_cache::Line;
use wt_params::{Machine, NoMemory};
use wt_proto::Mode;
use wt_trace::Deed;

impl NodeState {
    /// A copy of a block comes.
    #[tactic(auto, unfolding(crate::specs::DataMessage::data_message_of))]
    pub fn data_message(
        &mut self,
        machine: &Machine,
        time: u64,
        line: Line,
        sends: &mut SendList,
    ) -> Result<Course, NoMemory>
        requires node { IsNode machine.now self.old }
        requires time { time < 2 ^ 40 }
        requires exists { line.block < machine.now.blocks }
        requires size { length line.bytes ≡ machine.now.block_bytes }
        ensures { IfOk result (λ course. IsHandled (data_message_of machine.now time line self.old) self.new sends.old sends.new course) }
    {
        if self.asks_for(line.block, line.writable) {
            return self.fill(machine, time, line, sends);
        }
        let course = self.count_stray();
        give_line_back(machine, time, line, sends)?;
        Ok(course)
    }

    /// Whether the processor waits for a copy of this block, of this kind.
    fn asks_for(&self, block: u32, exclusive: bool) -> bool
        ensures { result ≡ asks_for self.now.mode block exclusive }
    {
        match self.mode {
            Mode::Waiting {
                block: wanted,
                exclusive: kind,
            } => wanted == block && kind == exclusive,
            _ => false,
        }
    }
    /// The block that the processor waits for comes: the waiting instruction is done with it.
    fn fill(
        &mut self,
        machine: &Machine,
        time: u64,
        line: Line,
        sends: &mut SendList,
    ) -> Result<Course, NoMemory>
        requires node { IsNode machine.now self.old }
        requires time { time < 2 ^ 40 }
        requires waits { WaitsFor machine.now self.old line.block line.writable }
        requires size { length line.bytes ≡ machine.now.block_bytes }
        ensures { IfOk result (λ course. IsHandled (fill_with machine.now time line self.old) self.new sends.old sends.new course) }
    {
        let effect = self.effect(machine);
        let block = line.block;
        let replaced = self.install(line);
        give_back(machine, time, replaced, sends)?;
        let deed = self.resume(machine, time, block, effect);
        Ok(Course { deed, trap: None })
    }

    /// What the instruction at the pc does. None exactly where it can't be fetched.
    fn effect(&self, machine: &Machine) -> Option<Effect>
        requires { IsNode machine.now self.now }
        ensures effect { result ≡ effect_at machine.now self.now }
        ensures register { IfSome result NamesRegister }
    {
        let word = self.fetch(machine)?;
        let mut registers = self.registers;
        Some(execute(&mut registers, self.pc, &decode(word), &machine.costs()))
    }

    /// Installs a line, and lets the processor run again. The answer is the line that it replaces.
    fn install(&mut self, line: Line) -> Option<Line>
        requires exists { line.block < self.old.cache.machine.blocks }
        requires absent { tag_of self.old.cache line.block ≡ Invalid }
        requires size { length line.bytes ≡ self.old.cache.machine.block_bytes }
        requires room { self.old.counters.replaced < 2 ^ 62 }
        ensures node { self.new ≡ installed line self.old }
        ensures replaced { result ≡ replaced_of line self.old.cache }
        ensures machine { self.new.cache.machine ≡ self.old.cache.machine }
    {
        let replaced = self.cache.install(line);
        if replaced.is_some() {
            self.counters.replaced += 1;
        }
        self.mode = Mode::Running;
        replaced
    }

    /// Does the waiting instruction with the block that has come.
    fn resume(&mut self, machine: &Machine, time: u64, block: u32, effect: Option<Effect>) -> Deed
        requires numbers { IsMachine machine.now }
        requires time { time < 2 ^ 40 }
        requires cache { self.old.cache.machine ≡ machine.now }
        requires exists { block < machine.now.blocks }
        requires room { self.old.counters.done < 2 ^ 62 }
        requires asks { IsAskedFor machine.now block effect }
        requires register { IfSome effect NamesRegister }
        ensures node { self.new ≡ (resumed machine.now time block self.old effect).node }
        ensures deed { result ≡ (resumed machine.now time block self.old effect).deed }
        ensures trap { (resumed machine.now time block self.old effect).trap ≡ None }
    {
        match effect {
            Some(Effect::Load { op, rd, address }) => {
                self.resume_load(machine, time, block, op, rd, address)
            }
            Some(Effect::Store { op, address, value }) => {
                self.resume_store(machine, time, block, op, address, value)
            }
            _ => {
                let ready = time + machine.costs().fill;
                self.go_on(ready);
                Deed::Plain
            }
        }
    }

    /// Does a waiting load.
    fn resume_load(
        &mut self,
        machine: &Machine,
        time: u64,
        block: u32,
        op: LoadOp,
        rd: u8,
        address: u32,
    ) -> Deed
        requires numbers { IsMachine machine.now }
        requires time { time < 2 ^ 40 }
        requires cache { self.old.cache.machine ≡ machine.now }
        requires exists { block < machine.now.blocks }
        requires room { self.old.counters.done < 2 ^ 62 }
        requires aligned { address % load_width_of op ≡ 0 }
        requires register { rd < 32 }
        ensures node { self.new ≡ (resumed machine.now time block self.old (Some (Load op rd address))).node }
        ensures deed { result ≡ (resumed machine.now time block self.old (Some (Load op rd address))).deed }
    {
        let offset = offset(machine, address);
        let number = self.cache.read(block, offset, load_width(op)).unwrap_or(0);
        let ready = time + machine.costs().fill;
        self.load_into(rd, widen(op, number), address, ready)
    }

    /// Does a waiting store.
    fn resume_store(
        &mut self,
        machine: &Machine,
        time: u64,
        block: u32,
        op: StoreOp,
        address: u32,
        value: u32,
    ) -> Deed
        requires numbers { IsMachine machine.now }
        requires time { time < 2 ^ 40 }
        requires cache { self.old.cache.machine ≡ machine.now }
        requires exists { block < machine.now.blocks }
        requires room { self.old.counters.done < 2 ^ 62 }
        requires aligned { address % store_width_of op ≡ 0 }
        ensures node { self.new ≡ (resumed machine.now time block self.old (Some (Store op address value))).node }
        ensures deed { result ≡ (resumed machine.now time block self.old (Some (Store op address value))).deed }
    {
        let offset = offset(machine, address);
        self.cache.write(block, offset, store_width(op), value);
        let ready = time + machine.costs().fill;
        self.store_at(address, store_width(op), stored(op, value), ready)
    }
}
