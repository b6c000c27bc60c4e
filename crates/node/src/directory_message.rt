ghost use Rattle.std.specs.Prelude.{◌≡◌, ◌^◌, ◌<◌, ◌++◌, [], map, None, IfOk, OnOk};
ghost use Rattle.wt_params.specs.Machine.{IsMachine};
ghost use Rattle.node.specs.State.{one_stray};
ghost use Rattle.node.specs.Handled.{IsHandled, sent_at};
ghost use Rattle.node.specs.DirectoryMessage.{trap_of, directory_message_of};
ghost use Rattle.node.specs.Sound.{IsNode};

use crate::send_list::SendList;
use crate::state::{Course, NodeState, Send};
use dir1sw::DirAct;
use std::alloc::Global;
use trap_handler::run_trap;
use wt_params::{Machine, NoMemory};
use wt_proto::{Msg, Sends, TrapPlan};
use wt_trace::Deed;

impl NodeState {
    /// A message to the directory.
    #[tactic(auto, unfolding(crate::specs::DirectoryMessage::directory_message_of))]
    pub fn directory_message(
        &mut self,
        alloc: Global,
        machine: &Machine,
        time: u64,
        from: u32,
        msg: &Msg,
        sends: &mut SendList,
    ) -> Result<Course, NoMemory>
        requires node { IsNode machine.now self.old }
        requires time { time < 2 ^ 40 }
        requires exists { msg.now.block < machine.now.blocks }
        ensures { IfOk result (λ course. IsHandled (directory_message_of machine.now time from msg.now self.old) self.new sends.old sends.new course) }
    {
        if machine.home(msg.block) != self.number {
            return Ok(self.count_stray());
        }
        let mut out = sends.lend(alloc);
        let act = self.directory.arrive(from, msg, &mut out)?;
        send_all(time, out, sends)?;
        match act {
            DirAct::Done => Ok(Course {
                deed: Deed::Plain,
                trap: None,
            }),
            DirAct::Stray => Ok(self.count_stray()),
            DirAct::Trap(plan) => self.trap(alloc, machine, time, &plan, sends),
        }
    }

    /// A directory trap calls copies back, and keeps the node busy.
    fn trap(
        &mut self,
        alloc: Global,
        machine: &Machine,
        time: u64,
        plan: &TrapPlan,
        sends: &mut SendList,
    ) -> Result<Course, NoMemory>
        requires numbers { IsMachine machine.now }
        requires time { time < 2 ^ 40 }
        requires busy { self.old.busy < 2 ^ 62 }
        requires traps { self.old.counters.traps < 2 ^ 62 }
        requires cycles { self.old.counters.trap_cycles < 2 ^ 62 }
        ensures { IfOk result (λ course. IsHandled (trap_of machine.now time plan.now sends.old self.old) self.new [] sends.new course) }
    {
        let mut out = sends.lend(alloc);
        let begins = self.busy.max(time);
        let busy = run_trap(plan, time, self.busy, machine, &mut out)?;
        send_all(busy, out, sends)?;
        let cycles = busy - begins;
        self.busy = busy;
        self.counters.traps += 1;
        self.counters.trap_cycles += cycles;
        Ok(Course {
            deed: Deed::Plain,
            trap: Some(cycles),
        })
    }

    /// A message that nobody asked for.
    pub fn count_stray(&mut self) -> Course
        requires { self.old.counters.stray < 2 ^ 62 }
        ensures node { self.new ≡ one_stray self.old }
        ensures deed { result.deed ≡ Deed.Plain }
        ensures trap { result.trap ≡ None }
    {
        self.counters.stray += 1;
        Course {
            deed: Deed::Plain,
            trap: None,
        }
    }
}

/// Sends messages at a time, and gives back the list that was lent for them.
fn send_all(at: u64, mut out: Sends, sends: &mut SendList) -> Result<(), NoMemory>
    ensures { OnOk result (sends.new ≡ sends.old ++ map (sent_at at) out) }
{
    while let Some(outgoing) = out.pop_first() {
        sends.push(Send {
            at,
            to: outgoing.to,
            msg: outgoing.msg,
        })?;
    }
    sends.take_back(out);
    Ok(())
}
