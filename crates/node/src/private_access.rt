ghost use Rattle.std.specs.Prelude.{◌≡◌, ◌^◌, ◌<◌, IfOk};
ghost use Rattle.node.specs.Handled.{IsStepped};
ghost use Rattle.node.specs.PrivateAccess.{load_from, store_to};
ghost use Rattle.node.specs.Sound.{IsNode};

use crate::send_list::SendList;
use crate::shared_access::stored;
use crate::state::NodeState;
use priv_mem::MemFault;
use rv_decode::{LoadOp, StoreOp};
use rv_exec::{load_width, store_width, widen};
use wt_params::{Machine, NoMemory};
use wt_proto::Cause;
use wt_trace::Deed;

impl NodeState {
    /// A load from private memory, or from shared memory where the address isn't private.
    #[tactic(auto, unfolding(crate::specs::PrivateAccess::load_from))]
    #[inline(always)]
    pub fn load(
        &mut self,
        machine: &Machine,
        time: u64,
        op: LoadOp,
        rd: u8,
        address: u32,
        sends: &mut SendList,
    ) -> Result<Deed, NoMemory>
        requires node { IsNode machine.now self.old }
        requires time { time < 2 ^ 40 }
        requires register { rd < 32 }
        ensures { IfOk result (λ deed. IsStepped (load_from machine.now time op rd address self.old) self.new sends.old sends.new deed) }
    {
        match self.private.load(address, load_width(op)) {
            Ok(number) => {
                let ready = time + machine.costs().mem;
                Ok(self.load_into(rd, widen(op, number), address, ready))
            }
            Err(MemFault::Misaligned) => Ok(self.stop(Cause::Misaligned { address })),
            Err(MemFault::Outside) => {
                let deed = self.shared_load(machine, time, op, rd, address, sends)?;
                Ok(deed)
            }
        }
    }

    /// A store to private memory, or to shared memory where the address isn't private.
    #[tactic(auto, unfolding(crate::specs::PrivateAccess::store_to))]
    #[inline(always)]
    pub fn store(
        &mut self,
        machine: &Machine,
        time: u64,
        op: StoreOp,
        address: u32,
        value: u32,
        sends: &mut SendList,
    ) -> Result<Deed, NoMemory>
        requires node { IsNode machine.now self.old }
        requires time { time < 2 ^ 40 }
        ensures { IfOk result (λ deed. IsStepped (store_to machine.now time op address value self.old) self.new sends.old sends.new deed) }
    {
        match self.private.store(address, store_width(op), value) {
            Ok(()) => {
                let ready = time + machine.costs().mem;
                Ok(self.store_at(address, store_width(op), stored(op, value), ready))
            }
            Err(MemFault::Misaligned) => Ok(self.stop(Cause::Misaligned { address })),
            Err(MemFault::Outside) => {
                let deed = self.shared_store(machine, time, op, address, value, sends)?;
                Ok(deed)
            }
        }
    }
}
