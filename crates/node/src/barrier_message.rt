ghost use Rattle.std.specs.Prelude.{◌≡◌, ◌<◌, ◌^◌, ◌≤◌, ◌++◌, [], length, IfOk, OnOk};
ghost use Rattle.node.specs.Handled.{IsHandled};
ghost use Rattle.node.specs.BarrierMessage.{release_by, go_to, arrive_message_of, leave_message_of, go_message_of, has_unit};
ghost use Rattle.node.specs.Sound.{IsNode, IsFew};

use crate::send_list::SendList;
use crate::state::{Course, NodeState, send_to};
use target_barrier::Release;
use wt_params::{Machine, NoMemory};
use wt_proto::{Body, Mode, NodeSet};
use wt_trace::Deed;

impl NodeState {
    /// A node comes to the barrier.
    #[tactic(auto, unfolding(crate::specs::BarrierMessage::arrive_message_of))]
    pub fn arrive_message(
        &mut self,
        machine: &Machine,
        time: u64,
        from: u32,
        sends: &mut SendList,
    ) -> Result<Course, NoMemory>
        requires node { IsNode machine.now self.old }
        requires from { from < machine.now.nodes }
        ensures { IfOk result (λ course. IsHandled (arrive_message_of machine.now time from self.old) self.new sends.old sends.new course) }
    {
        if !self.has_unit(machine) {
            return Ok(self.count_stray());
        }
        let release = self.barrier.arrive(from);
        self.release(time, &release, sends)
    }

    /// A node leaves for good.
    #[tactic(auto, unfolding(crate::specs::BarrierMessage::leave_message_of))]
    pub fn leave_message(
        &mut self,
        machine: &Machine,
        time: u64,
        from: u32,
        sends: &mut SendList,
    ) -> Result<Course, NoMemory>
        requires node { IsNode machine.now self.old }
        requires from { from < machine.now.nodes }
        ensures { IfOk result (λ course. IsHandled (leave_message_of machine.now time from self.old) self.new sends.old sends.new course) }
    {
        if !self.has_unit(machine) {
            return Ok(self.count_stray());
        }
        let release = self.barrier.leave(from);
        self.release(time, &release, sends)
    }

    /// The barrier opens for the processor, where it is there.
    #[tactic(auto, unfolding(crate::specs::BarrierMessage::go_message_of))]
    pub fn go_message(&mut self, machine: &Machine, time: u64) -> Course
        requires node { IsNode machine.now self.old }
        requires time { time < 2 ^ 40 }
        ensures { IsHandled (go_message_of machine.now time self.old) self.new [] [] result }
    {
        if self.mode != Mode::InBarrier {
            return self.count_stray();
        }
        let ready = time + machine.costs().call;
        self.go_on(ready);
        self.counters.barriers += 1;
        self.mode = Mode::Running;
        Course {
            deed: Deed::Plain,
            trap: None,
        }
    }

    /// Whether the barrier unit stands here.
    fn has_unit(&self, machine: &Machine) -> bool
        ensures { result ≡ has_unit machine.now self.now }
    {
        self.number == 0 && machine.nodes() != 1
    }

    /// Does what the barrier unit answers.
    fn release(
        &mut self,
        time: u64,
        release: &Release,
        sends: &mut SendList,
    ) -> Result<Course, NoMemory>
        requires few { IsFew release.now }
        requires room { self.old.counters.stray < 2 ^ 62 }
        ensures { IfOk result (λ course. IsHandled (release_by time self.old release.now) self.new sends.old sends.new course) }
    {
        match release {
            Release::Hold => {}
            Release::Go { nodes } => send_go(time, nodes, sends)?,
            Release::Stray => return Ok(self.count_stray()),
        }
        Ok(Course {
            deed: Deed::Plain,
            trap: None,
        })
    }
}

/// Go to each node of a set, in rising order.
fn send_go(time: u64, nodes: &NodeSet, sends: &mut SendList) -> Result<(), NoMemory>
    requires { length nodes.now ≤ 256 }
    ensures { OnOk result (sends.new ≡ sends.old ++ go_to time nodes.now) }
{
    let mut i = 0;
    while let Some(node) = nodes.get(i) {
        send_to(time, node, 0, Body::Go, sends)?;
        i += 1;
    }
    Ok(())
}
