ghost use Rattle.std.specs.Prelude.{◌≡◌, ◌^◌, ◌<◌, ◌∷◌, ◌++◌, [], IfOk, OnOk};
ghost use Rattle.node.specs.Handled.{IsStepped};
ghost use Rattle.node.specs.Call.{barrier_call_of, exit_of, call_of};
ghost use Rattle.node.specs.Sound.{IsNode};

use crate::send_list::SendList;
use crate::state::{NodeState, send_to};
use wt_params::{Machine, NoMemory};
use wt_proto::{Body, Cause, Mode};
use wt_trace::Deed;

impl NodeState {
    /// Does an environment call.
    #[tactic(auto, unfolding(crate::specs::Call::call_of))]
    pub fn call(
        &mut self,
        machine: &Machine,
        time: u64,
        sends: &mut SendList,
    ) -> Result<Deed, NoMemory>
        requires node { IsNode machine.now self.old }
        requires time { time < 2 ^ 40 }
        ensures { IfOk result (λ deed. IsStepped (call_of machine.now time self.old) self.new sends.old sends.new deed) }
    {
        let call = self.registers.get(17);
        let argument = self.registers.get(10);
        match call {
            1 => self.output.push((argument % 0x100) as u8)?,
            2 => self.registers.set(10, self.number),
            3 => self.registers.set(10, machine.nodes() as u32),
            4 => {
                self.registers.set(10, (time % 0x1_0000_0000) as u32);
                self.registers.set(11, (time / 0x1_0000_0000) as u32);
            }
            5 => return self.call_barrier(machine, time, sends),
            93 => return self.exit(machine, time, argument, sends),
            _ => return Ok(self.stop(Cause::Call { number: call })),
        }
        let ready = time + machine.costs().call;
        self.go_on(ready);
        Ok(Deed::Plain)
    }

    /// Goes to the barrier, unless the node is alone.
    fn call_barrier(
        &mut self,
        machine: &Machine,
        time: u64,
        sends: &mut SendList,
    ) -> Result<Deed, NoMemory>
        requires room { self.old.counters.done < 2 ^ 62 }
        requires time { time < 2 ^ 40 }
        ensures { IfOk result (λ deed. IsStepped (barrier_call_of machine.now time self.old) self.new sends.old sends.new deed) }
    {
        if machine.nodes() == 1 {
            let ready = time + machine.costs().call;
            self.go_on(ready);
            return Ok(Deed::Plain);
        }
        self.mode = Mode::InBarrier;
        send_to(time, 0, 0, Body::Arrive, sends)?;
        Ok(Deed::Plain)
    }

    /// Ends the program, and tells the barrier so.
    fn exit(
        &mut self,
        machine: &Machine,
        time: u64,
        code: u32,
        sends: &mut SendList,
    ) -> Result<Deed, NoMemory>
        requires { self.old.counters.done < 2 ^ 62 }
        ensures { IfOk result (λ deed. IsStepped (exit_of machine.now time code self.old) self.new sends.old sends.new deed) }
    {
        self.counters.done += 1;
        if machine.nodes() > 1 {
            send_to(time, 0, 0, Body::Leave, sends)?;
        }
        Ok(self.stop(Cause::Exit { code }))
    }
}
