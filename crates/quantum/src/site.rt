ghost use Rattle.std.specs.Prelude.{◌≡◌, ℕ, ◌<◌, ◌≤◌, ◌+◌, [], false, length, take, drop, IfOk, OnOk, None, Some};
ghost use Rattle.event_queue.specs.Rising.{IsRising};
ghost use Rattle.image_loader.specs.Images.{IsFor};
ghost use Rattle.node.specs.Start.{start_node};
ghost use Rattle.quantum.specs.Sole.{HasEnded, IsSole};
ghost use Rattle.quantum.specs.FreeRuns.{AddsOuts, run_to_of};
ghost use Rattle.quantum.specs.Sites.{IsLookedAt, IsSite, IsTurn, Handles, HandsOut, MayHandOut, before_of, comes_before_of, earlier_of, first_time_of, is_message_of, least_time_at, least_with_of, run_up_to};
ghost use Rattle.quantum.specs.Stations.{station_of};

use crate::counted_queue::CountedQueue;
use crate::quanta::Quanta;
use event_queue::Steps;
use image_loader::Loaded;
use node::Node;
use std::alloc::Global;
use std::sync::ledger::Ledger;
use wt_params::{Machine, NoMemory};
use wt_proto::StampedList;

/// A node, and the messages that wait for it.
#[derive(Drop)]
pub struct Site {
    pub node: Node,
    pub queue: CountedQueue,
}

/// What a node does next.
#[derive(Clone, Copy)]
pub enum Turn {
    /// The next step of its processor.
    Step,
    /// The first of its messages.
    Message,
}

impl Site {
    /// A node at the start, and no messages.
    pub fn new(
        alloc: Global,
        machine: &Machine,
        number: u32,
        loaded: &Loaded,
        traced: bool,
    ) -> Result<Site, NoMemory>
        requires number { number < machine.now.nodes }
        requires images { IsFor machine.now loaded.now }
        ensures start { IfOk result (λ site. site.node.state ≡ start_node machine.now loaded.now traced number) }
        ensures machine { IfOk result (λ site. site.node.machine ≡ machine.now) }
        ensures whole { IfOk result (λ site. site.node.broken ≡ false) }
        ensures queue { IfOk result (λ site. site.queue ≡ []) }
        ensures site { IfOk result (IsSite 0) }
    {
        let node = Node::new(alloc, machine, number, loaded, traced)?;
        Ok(Site {
            node,
            queue: CountedQueue::new(alloc),
        })
    }

    /// The time of the first message.
    fn first_time<L: Ledger>(&self, steps: &mut Steps<L>) -> Option<u64>
        ensures value { result ≡ first_time_of self.now.queue }
        ensures rising { IsRising self.now.queue }
        ensures step { steps.new ≡ steps.old + 1 }
    {
        let first = self.queue.peek(steps);
        first.map(|key| key.time)
    }

    /// The time of the least event, where `first` is the time of the first message.
    pub fn least(&self, first: Option<u64>) -> Option<u64>
        requires first { first ≡ first_time_of self.now.queue }
        requires rising { IsRising self.now.queue }
        ensures { (past : ℕ) → IsSite past self.now → result ≡ least_time_at self.now }
    {
        let budget = self.node.machine().budget();
        match self.turn(first, budget) {
            None => None,
            Some(Turn::Step) => self.node.next_step(),
            Some(Turn::Message) => first,
        }
    }

    /// The time of the least event with one more message, where `due` is that without it.
    pub fn least_with(&self, due: Option<u64>, time: u64) -> Option<u64>
        ensures { result ≡ least_with_of self.now due time }
    {
        if self.node.spent() || self.node.machine().budget() <= time {
            return due;
        }
        Some(earlier(due, time))
    }

    /// The node's next event before a time, where `first` is the time of its first message.
    fn turn(&self, first: Option<u64>, until: u64) -> Option<Turn>
        requires first { first ≡ first_time_of self.now.queue }
        requires rising { IsRising self.now.queue }
        ensures { (past : ℕ) → IsSite past self.now → IsTurn until self.now result }
    {
        if self.node.spent() {
            return None;
        }
        match (first, self.node.next_step()) {
            (None, None) => None,
            (Some(message), None) => before(Turn::Message, message, until),
            (None, Some(step)) => before(Turn::Step, step, until),
            (Some(message), Some(step)) => {
                if message <= step {
                    before(Turn::Message, message, until)
                } else {
                    before(Turn::Step, step, until)
                }
            }
        }
    }

    /// Handles the node's least event, and adds the messages that it sends to `sends`.
    #[inline(always)]
    fn handle<L: Ledger>(
        &mut self,
        turn: Turn,
        until: u64,
        sends: &mut StampedList,
        steps: &mut Steps<L>,
    ) -> Result<(), NoMemory>
        requires budget { until ≤ self.old.node.machine.budget }
        requires site { IsSite until self.old }
        requires rising { IsRising self.old.queue }
        requires turn { IsTurn until self.old (Some turn) }
        ensures handled { OnOk result (Handles until self.old self.new turn sends.old sends.new steps.old steps.new) }
        ensures machine { self.new.node.machine ≡ self.old.node.machine }
    {
        match turn {
            Turn::Step => self.node.handle_step(sends),
            Turn::Message => self.handle_first(until, sends, steps),
        }
    }

    /// Handles the first of the messages, which is the node's least event. A function of its own, so that a step doesn't
    /// pay for the room that a message takes.
    #[inline(never)]
    fn handle_first<L: Ledger>(
        &mut self,
        until: u64,
        sends: &mut StampedList,
        steps: &mut Steps<L>,
    ) -> Result<(), NoMemory>
        requires budget { until ≤ self.old.node.machine.budget }
        requires site { IsSite until self.old }
        requires rising { IsRising self.old.queue }
        requires turn { IsTurn until self.old (Some Turn.Message) }
        ensures handled { OnOk result (Handles until self.old self.new Turn.Message sends.old sends.new steps.old steps.new) }
        ensures machine { self.new.node.machine ≡ self.old.node.machine }
    {
        match self.queue.take(steps) {
            None => Ok(()),
            Some(letter) => {
                let result = self.node.handle_message(letter.message(), sends);
                sends.give_back(letter);
                result
            }
        }
    }

    /// Of the messages from a place on, those to the node itself are put among those that wait, and the others stay.
    /// Answers whether there were some to itself.
    fn hand_out<L: Ledger>(
        &mut self,
        from: u64,
        outs: &mut StampedList,
        steps: &mut Steps<L>,
    ) -> Result<bool, NoMemory>
        requires within { from ≤ length outs.old }
        requires may { MayHandOut self.old (drop from outs.old) }
        ensures parts { OnOk result (HandsOut self.old self.new (drop from outs.old) (take from outs.old) outs.new steps.old steps.new) }
        ensures looked { IfOk result (λ looked. IsLookedAt looked self.old self.new steps.old steps.new) }
        ensures node { self.new.node ≡ self.old.node }
    {
        if outs.len() == from {
            return Ok(false);
        }
        self.hand_out_all(from, outs, steps)
    }

    /// The same, also where there are none.
    #[inline(never)]
    fn hand_out_all<L: Ledger>(
        &mut self,
        from: u64,
        outs: &mut StampedList,
        steps: &mut Steps<L>,
    ) -> Result<bool, NoMemory>
        requires within { from ≤ length outs.old }
        requires may { MayHandOut self.old (drop from outs.old) }
        ensures parts { OnOk result (HandsOut self.old self.new (drop from outs.old) (take from outs.old) outs.new steps.old steps.new) }
        ensures looked { IfOk result (λ looked. IsLookedAt looked self.old self.new steps.old steps.new) }
        ensures node { self.new.node ≡ self.old.node }
    {
        let mut own = false;
        let mut place = from;
        let count = outs.len();
        let number = self.node.number();
        while let Some(message) = outs.get(place) {
            if message.to == number {
                match outs.remove_letter(place) {
                    None => return Ok(own),
                    Some(taken) => match self.queue.insert_letter(taken, steps) {
                        Ok(()) => own = true,
                        Err(_back) => return Err(NoMemory),
                    },
                }
            } else {
                prove!(place < count);
                place += 1;
            }
        }
        Ok(own)
    }

    /// Handles exactly the node's events before a time, and answers the time of the first message that is left. The
    /// messages to other nodes are put at the end of a list. The queue is looked at when the run begins, after each
    /// message, and after each event that sends to the node itself.
    pub fn run_to<L: Ledger>(
        &mut self,
        until: u64,
        outs: &mut StampedList,
        steps: &mut Steps<L>,
    ) -> Result<Option<u64>, NoMemory>
        requires budget { until ≤ self.old.node.machine.budget }
        requires site { IsSite until self.old }
        ensures ran { (past : ℕ) → OnOk result (station_of (run_up_to until self.new) ≡ (run_to_of until (run_up_to past self.old)).0) }
        ensures outs { (past : ℕ) → OnOk result (AddsOuts until (run_up_to past self.old) (run_up_to until self.new) outs.old outs.new steps.old steps.new) }
        ensures site { OnOk result (IsSite until self.new) }
        ensures rising { OnOk result (IsRising self.new.queue) }
        ensures first { IfOk result (λ first. first ≡ first_time_of self.new.queue) }
        ensures machine { self.new.node.machine ≡ self.old.node.machine }
    {
        let mut first = self.first_time(steps);
        while let Some(turn) = self.turn(first, until) {
            let from = outs.len();
            self.handle(turn, until, outs, steps)?;
            let own = self.hand_out(from, outs, steps)?;
            if own || turn.is_message() {
                first = self.first_time(steps);
            }
        }
        Ok(first)
    }

    /// Handles all events of a node that is alone in its machine, and counts the quanta that they begin. Nothing is
    /// exchanged, so no quantum has to be ended.
    pub fn run_sole<L: Ledger>(
        &mut self,
        alloc: Global,
        quanta: &mut Quanta,
        steps: &mut Steps<L>,
    ) -> Result<(), NoMemory>
        requires alone { IsSole (run_up_to quanta.old.kept_end self.old) quanta.old }
        requires site { IsSite quanta.old.kept_end self.old }
        ensures ended { OnOk result (HasEnded (run_up_to quanta.old.kept_end self.old) (run_up_to quanta.new.kept_end self.new) quanta.old quanta.new) }
        ensures site { OnOk result (IsSite quanta.new.kept_end self.new) }
        ensures rising { OnOk result (IsRising self.new.queue) }
        ensures none_left { OnOk result (least_time_at self.new ≡ None) }
        ensures machine { self.new.node.machine ≡ self.old.node.machine }
    {
        let budget = self.node.machine().budget();
        let mut outs = StampedList::new(alloc);
        let mut first = self.first_time(steps);
        while let Some(turn) = self.turn(first, budget) {
            let from = outs.len();
            self.handle(turn, budget, &mut outs, steps)?;
            let own = self.hand_out(from, &mut outs, steps)?;
            quanta.count_event(self.node.machine(), self.node.last());
            if turn.is_message() || own {
                first = self.first_time(steps);
            }
        }
        Ok(())
    }
}

impl Turn {
    fn is_message(&self) -> bool
        ensures { result ≡ is_message_of self.now }
    {
        match self {
            Turn::Step => false,
            Turn::Message => true,
        }
    }
}

/// Whether a time that there may be is before another.
pub fn comes_before(time: Option<u64>, until: u64) -> bool
    ensures { result ≡ comes_before_of time until }
{
    match time {
        None => false,
        Some(time) => time < until,
    }
}

/// The earlier of a time that there may be and another.
fn earlier(due: Option<u64>, time: u64) -> u64
    ensures { result ≡ earlier_of due time }
{
    match due {
        None => time,
        Some(due) => if time < due { time } else { due },
    }
}

/// A turn at a time, where that is before another time.
fn before(turn: Turn, time: u64, until: u64) -> Option<Turn>
    ensures { result ≡ before_of turn time until }
{
    if time < until { Some(turn) } else { None }
}
