ghost use Rattle.std.specs.Prelude.{◌≡◌, ℕ, ◌+◌, ◌^◌, ◌<◌, ◌≤◌, true, Some, [], ◌∷◌, ◌++◌, length, IfOk, OnOk};
ghost use Rattle.wt_proto.specs.Messages.{StampedFits, key_of};
ghost use Rattle.node.specs.State.{events_of, step_time, next_step_of};
ghost use Rattle.node.specs.Handled.{IsHandled, handled_with, stepped_with};
ghost use Rattle.node.specs.React.{stamped, stamped_from, counted_step, counted_message, message_of, react_with, react_to_step, react_to_message};
ghost use Rattle.node.specs.Sound.{IsNode, IsSendable, AreSendable, MayStamp};

use crate::send_list::SendList;
use crate::state::{Course, NodeState, Send};
use std::alloc::Global;
use target_cache::Line;
use wt_network::stamp;
use wt_params::{Machine, NoMemory};
use wt_proto::{Body, Key, Mode, Stamped, StampedList};
use wt_trace::{Deed, Record, What};

impl NodeState {
    /// Handles the processor's next step.
    #[tactic(auto, unfolding(crate::specs::React::react_to_step))]
    #[inline(always)]
    pub fn handle_step(
        &mut self,
        alloc: Global,
        machine: &Machine,
        sends: &mut SendList,
        out: &mut StampedList,
    ) -> Result<(), NoMemory>
        requires none_yet { sends.old ≡ [] }
        requires node { IsNode machine.now self.old }
        requires running { self.old.mode ≡ Mode.Running }
        requires unspent { events_of self.old < machine.now.event_limit }
        requires early { step_time self.old < machine.now.budget }
        ensures node { OnOk result (self.new ≡ (react_to_step machine.now self.old).0) }
        ensures sends { OnOk result (out.new ≡ out.old ++ (react_to_step machine.now self.old).1) }
        ensures none_left { OnOk result (sends.new ≡ []) }
    {
        let time = self.ready.max(self.busy);
        let key = Key {
            time,
            to: self.number,
            from: machine.nodes() as u32,
            sequence: 0,
        };
        let pc = self.pc;
        let word = self.fetch(machine);
        self.count_step(key);
        let deed = self.step(machine, time, word, sends)?;
        if !self.traced {
            return self.send_off(machine, sends, out);
        }
        self.end_traced_step(alloc, machine, key, pc, word, deed, sends, out)
    }

    /// Handles a message.
    #[tactic(auto, unfolding(crate::specs::React::react_to_message))]
    pub fn handle_message(
        &mut self,
        alloc: Global,
        machine: &Machine,
        message: &Stamped,
        sends: &mut SendList,
        out: &mut StampedList,
    ) -> Result<(), NoMemory>
        requires none_yet { sends.old ≡ [] }
        requires node { IsNode machine.now self.old }
        requires unspent { events_of self.old < machine.now.event_limit }
        requires early { message.now.time < machine.now.budget }
        requires fits { StampedFits machine.now message.now }
        requires first { (next : ℕ) → next_step_of self.old ≡ Some next → message.now.time ≤ next }
        ensures node { OnOk result (self.new ≡ (react_to_message machine.now self.old (key_of message.now) message.now.msg).0) }
        ensures sends { OnOk result (out.new ≡ out.old ++ (react_to_message machine.now self.old (key_of message.now) message.now.msg).1) }
        ensures none_left { OnOk result (sends.new ≡ []) }
    {
        let key = message.key();
        self.count_message(key);
        let course = self.receive(alloc, machine, message, sends)?;
        if !self.traced {
            return self.send_off(machine, sends, out);
        }
        let what = What::Message {
            msg: message.msg.copy(),
        };
        self.end_traced(alloc, machine, key, what, course, sends, out)
    }

    /// Counts a step under its key.
    fn count_step(&mut self, key: Key)
        requires { self.old.counters.steps < 2 ^ 62 }
        ensures { self.new ≡ counted_step key self.old }
    {
        self.counters.steps += 1;
        self.last = Some(key);
    }

    /// Counts a message under its key.
    fn count_message(&mut self, key: Key)
        requires { self.old.counters.messages < 2 ^ 62 }
        ensures { self.new ≡ counted_message key self.old }
    {
        self.counters.messages += 1;
        self.last = Some(key);
    }

    /// Does what a message asks for, by its kind.
    #[tactic(auto, unfolding(crate::specs::React::message_of))]
    fn receive(
        &mut self,
        alloc: Global,
        machine: &Machine,
        message: &Stamped,
        sends: &mut SendList,
    ) -> Result<Course, NoMemory>
        requires node { IsNode machine.now self.old }
        requires early { message.now.time < machine.now.budget }
        requires fits { StampedFits machine.now message.now }
        ensures { IfOk result (λ course. IsHandled (message_of machine.now message.now.time message.now.from message.now.msg self.old) self.new sends.old sends.new course) }
    {
        let time = message.time;
        let from = message.from;
        let block = message.msg.block;
        match &message.msg.body {
            Body::DataS { bytes } => {
                let line = Line {
                    block,
                    writable: false,
                    bytes: bytes.copy(),
                };
                self.data_message(machine, time, line, sends)
            }
            Body::DataX { bytes } => {
                let line = Line {
                    block,
                    writable: true,
                    bytes: bytes.copy(),
                };
                self.data_message(machine, time, line, sends)
            }
            Body::Inv => self.inv_message(machine, time, block, sends),
            Body::Arrive => self.arrive_message(machine, time, from, sends),
            Body::Leave => self.leave_message(machine, time, from, sends),
            Body::Go => Ok(self.go_message(machine, time)),
            _ => self.directory_message(alloc, machine, time, from, &message.msg, sends),
        }
    }

    /// Records a step of a traced node, and sends its messages off. A function of its own, so that an untraced step
    /// makes no record.
    fn end_traced_step(
        &mut self,
        alloc: Global,
        machine: &Machine,
        key: Key,
        pc: u32,
        word: Option<u32>,
        deed: Deed,
        sends: &mut SendList,
        out: &mut StampedList,
    ) -> Result<(), NoMemory>
        requires traced { self.old.traced ≡ true }
        requires stamps { MayStamp machine.now self.old sends.old }
        ensures node { OnOk result (self.new ≡ (react_with machine.now key (What.Step pc word) (stepped_with self.old sends.old deed)).0) }
        ensures sends { OnOk result (out.new ≡ out.old ++ (react_with machine.now key (What.Step pc word) (stepped_with self.old sends.old deed)).1) }
        ensures none_left { OnOk result (sends.new ≡ []) }
    {
        let what = What::Step { pc, word };
        let course = Course { deed, trap: None };
        self.end_traced(alloc, machine, key, what, course, sends, out)
    }

    /// Records an event of a traced node, and sends its messages off.
    fn end_traced(
        &mut self,
        alloc: Global,
        machine: &Machine,
        key: Key,
        what: What,
        course: Course,
        sends: &mut SendList,
        out: &mut StampedList,
    ) -> Result<(), NoMemory>
        requires traced { self.old.traced ≡ true }
        requires stamps { MayStamp machine.now self.old sends.old }
        ensures node { OnOk result (self.new ≡ (react_with machine.now key what (handled_with self.old sends.old course)).0) }
        ensures sends { OnOk result (out.new ≡ out.old ++ (react_with machine.now key what (handled_with self.old sends.old course)).1) }
        ensures none_left { OnOk result (sends.new ≡ []) }
    {
        self.record(alloc, machine, key, what, course, sends)?;
        self.send_off(machine, sends, out)
    }

    /// Adds the record of an event to the log.
    fn record(
        &mut self,
        alloc: Global,
        machine: &Machine,
        key: Key,
        what: What,
        course: Course,
        sends: &SendList,
    ) -> Result<(), NoMemory>
        requires { MayStamp machine.now self.old sends.now }
        ensures { OnOk result (self.new ≡ record self.old {
          log = self.old.log ++ record {
            key = key;
            what = what;
            deed = course.deed;
            trap = course.trap;
            sends = stamped_from machine.now self.old.number self.old.counters.sent sends.now;
          } ∷ [];
        }) }
    {
        let mut list = StampedList::new(alloc);
        stamp_all(machine, self.number, self.counters.sent, sends, &mut list)?;
        self.log.push(Record {
            key,
            what,
            deed: course.deed,
            trap: course.trap,
            sends: list,
        })
    }

    /// Stamps and counts the messages of an event, and moves them to `out`.
    #[inline(always)]
    fn send_off(
        &mut self,
        machine: &Machine,
        sends: &mut SendList,
        out: &mut StampedList,
    ) -> Result<(), NoMemory>
        requires { MayStamp machine.now self.old sends.old }
        ensures node { OnOk result (self.new ≡ record self.old {
          counters = record (self.old.counters) { sent = self.old.counters.sent + length sends.old };
        }) }
        ensures sends { OnOk result (out.new ≡ out.old ++ stamped_from machine.now self.old.number self.old.counters.sent sends.old) }
        ensures none_left { OnOk result (sends.new ≡ []) }
    {
        if sends.is_empty() {
            return Ok(());
        }
        let sequence = self.counters.sent;
        self.counters.sent += sends.len();
        send_stamped(machine, self.number, sequence, sends, out)
    }
}

/// Stamps messages, numbered from `sequence` on, and moves them to `out`. A function of its own, so that an event
/// without messages doesn't pay for the room that one takes.
#[inline(never)]
fn send_stamped(
    machine: &Machine,
    from: u32,
    sequence: u64,
    sends: &mut SendList,
    out: &mut StampedList,
) -> Result<(), NoMemory>
    requires number { from < machine.now.nodes }
    requires fit { AreSendable machine.now sends.old }
    requires room { sequence + length sends.old < 2 ^ 63 }
    ensures sends { OnOk result (out.new ≡ out.old ++ stamped_from machine.now from sequence sends.old) }
    ensures none_left { OnOk result (sends.new ≡ []) }
{
    let mut sequence = sequence;
    while let Some(send) = sends.pop_first() {
        out.push(Stamped {
            time: stamp(machine, from, send.to, send.at),
            to: send.to,
            from,
            sequence,
            msg: send.msg,
        })?;
        sequence += 1;
    }
    Ok(())
}

/// Stamps copies of messages, numbered from `sequence` on, and adds them to `out`.
fn stamp_all(
    machine: &Machine,
    from: u32,
    sequence: u64,
    sends: &SendList,
    out: &mut StampedList,
) -> Result<(), NoMemory>
    requires number { from < machine.now.nodes }
    requires fit { AreSendable machine.now sends.now }
    requires room { sequence + length sends.now < 2 ^ 63 }
    ensures { OnOk result (out.new ≡ out.old ++ stamped_from machine.now from sequence sends.now) }
{
    let mut i = 0;
    while let Some(send) = sends.get(i) {
        out.push(stamp_one(machine, from, sequence + i, send))?;
        i += 1;
    }
    Ok(())
}

/// Stamps a copy of a message.
fn stamp_one(machine: &Machine, from: u32, sequence: u64, send: &Send) -> Stamped
    requires number { from < machine.now.nodes }
    requires fits { IsSendable machine.now send.now }
    ensures { result ≡ stamped machine.now from sequence send.now }
{
    Stamped {
        time: stamp(machine, from, send.to, send.at),
        to: send.to,
        from,
        sequence,
        msg: send.msg.copy(),
    }
}
