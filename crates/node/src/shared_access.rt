ghost use Rattle.std.specs.Prelude.{◌≡◌, ◌%◌, ◌^◌, ◌<◌, IfOk};
ghost use Rattle.wt_params.specs.Machine.{shared_block};
ghost use Rattle.block_tags.specs.declared.tag.Tag.TheVariants.{Invalid};
ghost use Rattle.target_cache.specs.Cached.{tag_of};
ghost use Rattle.rv_exec.specs.Widths.{load_width_of, store_width_of};
ghost use Rattle.node.specs.Handled.{IsStepped};
ghost use Rattle.node.specs.SharedAccess.{missed, upgraded, shared_load_of, shared_store_of, stored_value, offset_of};
ghost use Rattle.node.specs.Sound.{IsNode};

use crate::send_list::SendList;
use crate::state::{NodeState, send_home};
use block_tags::Tag;
use rv_decode::{LoadOp, StoreOp};
use rv_exec::{load_width, store_width, widen};
use wt_params::{Machine, NoMemory};
use wt_proto::{Body, Cause, Mode};
use wt_trace::Deed;

impl NodeState {
    /// A load from an address that isn't private.
    pub fn shared_load(
        &mut self,
        machine: &Machine,
        time: u64,
        op: LoadOp,
        rd: u8,
        address: u32,
        sends: &mut SendList,
    ) -> Result<Deed, NoMemory>
        requires node { IsNode machine.now self.old }
        requires time { time < 2 ^ 40 }
        requires register { rd < 32 }
        requires aligned { address % load_width_of op ≡ 0 }
        ensures { IfOk result (λ deed. IsStepped
            (shared_load_of machine.now time op rd address self.old (shared_block machine.now address))
            self.new sends.old sends.new deed) }
    {
        let Some(block) = machine.block_at(address) else {
            return Ok(self.stop(Cause::Address { address }));
        };
        let offset = offset(machine, address);
        match self.cache.read(block, offset, load_width(op)) {
            Some(number) => {
                self.counters.hits += 1;
                let ready = time + machine.costs().hit;
                Ok(self.load_into(rd, widen(op, number), address, ready))
            }
            None => self.miss(machine, time, block, false, sends),
        }
    }

    /// A store to an address that isn't private.
    pub fn shared_store(
        &mut self,
        machine: &Machine,
        time: u64,
        op: StoreOp,
        address: u32,
        value: u32,
        sends: &mut SendList,
    ) -> Result<Deed, NoMemory>
        requires node { IsNode machine.now self.old }
        requires time { time < 2 ^ 40 }
        requires aligned { address % store_width_of op ≡ 0 }
        ensures { IfOk result (λ deed. IsStepped
            (shared_store_of machine.now time op address value self.old (shared_block machine.now address))
            self.new sends.old sends.new deed) }
    {
        let Some(block) = machine.block_at(address) else {
            return Ok(self.stop(Cause::Address { address }));
        };
        match self.cache.tag(block) {
            Tag::Invalid => self.miss(machine, time, block, true, sends),
            Tag::ReadOnly => self.upgrade(machine, time, block, sends),
            Tag::Writable => {
                let offset = offset(machine, address);
                self.cache.write(block, offset, store_width(op), value);
                self.counters.hits += 1;
                let ready = time + machine.costs().hit;
                Ok(self.store_at(address, store_width(op), stored(op, value), ready))
            }
        }
    }

    /// Asks for a copy of a block, and waits for it.
    pub fn miss(
        &mut self,
        machine: &Machine,
        time: u64,
        block: u32,
        exclusive: bool,
        sends: &mut SendList,
    ) -> Result<Deed, NoMemory>
        requires { self.old.counters.misses < 2 ^ 62 }
        ensures { IfOk result (λ deed. IsStepped (missed machine.now time block exclusive self.old) self.new sends.old sends.new deed) }
    {
        self.counters.misses += 1;
        self.mode = Mode::Waiting { block, exclusive };
        let body = if exclusive {
            Body::GetX { had: false }
        } else {
            Body::GetS
        };
        send_home(machine, time, block, body, sends)?;
        Ok(Deed::Plain)
    }

    /// Gives a copy to read up for one to write, and waits for it.
    pub fn upgrade(
        &mut self,
        machine: &Machine,
        time: u64,
        block: u32,
        sends: &mut SendList,
    ) -> Result<Deed, NoMemory>
        requires exists { block < self.old.cache.machine.blocks }
        requires room { self.old.counters.upgrades < 2 ^ 62 }
        ensures { IfOk result (λ deed. IsStepped (upgraded machine.now time block self.old) self.new sends.old sends.new deed) }
    {
        let _ = self.cache.drop_block(block);
        self.counters.upgrades += 1;
        self.mode = Mode::Waiting {
            block,
            exclusive: true,
        };
        send_home(machine, time, block, Body::GetX { had: true }, sends)?;
        Ok(Deed::Plain)
    }
}

/// Where an address lies in its block.
pub fn offset(machine: &Machine, address: u32) -> u32
    ensures { result ≡ offset_of machine.now address }
{
    (address as u64 % machine.block_bytes()) as u32
}

/// The low bytes that a store writes, as a number.
pub fn stored(op: StoreOp, value: u32) -> u32
    ensures { result ≡ stored_value op value }
{
    match op {
        StoreOp::Sb => value % 0x100,
        StoreOp::Sh => value % 0x1_0000,
        StoreOp::Sw => value,
    }
}
