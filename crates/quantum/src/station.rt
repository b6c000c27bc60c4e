ghost use Rattle.std.specs.Prelude.{◌≡◌, ◌<◌, ◌≤◌, ◌+◌, true, OnOk, OnErr, IfOk, IfErr};
ghost use Rattle.std.specs.FinMap.{len};
ghost use Rattle.image_loader.specs.Images.{IsFor};
ghost use Rattle.quantum.specs.Sole.{HasEnded, IsSole};
ghost use Rattle.quantum.specs.FreeRuns.{AddsOuts, IsFree, IsHandedOut, run_to_of};
ghost use Rattle.quantum.specs.Stations.{HasNoPast, IsLive, IsUnbroken, MayAccept, accept_of, least_time_of, machine_of, station_at_start, station_of};

use crate::quanta::Quanta;
use crate::site::{Site, comes_before};
use event_queue::Steps;
use image_loader::Loaded;
use node::Node;
use std::alloc::Global;
use std::marker::Model;
use std::sync::ledger::Ledger;
use wt_params::{Machine, NoMemory};
use wt_proto::{Back, Letter, Stamped, StampedList};

/// The messages that a node has sent to other nodes, in order of sending.
pub type Outs = StampedList;

/// A node with the messages that wait for it. After want of memory in a run it is broken: it answers want of memory from
/// then on.
#[derive(Drop)]
pub struct Station {
    alloc: Global,
    site: Site,
    /// The time that it last ran up to.
    until: u64,
    /// The time of the node's least event, where it has one.
    due: Option<u64>,
    broken: bool,
}

impl Model for Station {
    ghost use Rattle.std.specs.Coded.{codes};
    ghost use Rattle.std.specs.FinMap.{code};
    ghost use Rattle.quantum.specs.Stations.{StationModel, IsSoundStation, pending_of};

    ghost Value = { StationModel };

    ghost coded = { Prim.hlevel (codes, code) };

    ghost view = { λ station. record {
      node = station.site.node;
      pending = pending_of station.site.queue;
      until = station.until;
      broken = station.broken;
    } };

    ghost invariant = { λ station. IsSoundStation station.site.queue station.due (record {
      node = station.site.node;
      pending = pending_of station.site.queue;
      until = station.until;
      broken = station.broken;
    }) };
}

impl Station {
    /// A station at the start, with the images in its node's memories. Its events are recorded exactly where `traced`.
    pub fn new(
        alloc: Global,
        machine: &Machine,
        number: u32,
        loaded: &Loaded,
        traced: bool,
    ) -> Result<Station, NoMemory>
        requires number { number < machine.now.nodes }
        requires images { IsFor machine.now loaded.now }
        ensures start { IfOk result (λ station. station_of station ≡ station_at_start machine.now loaded.now traced number) }
        ensures machine { IfOk result (λ station. machine_of station ≡ machine.now) }
        ensures unbroken { IfOk result IsUnbroken }
        ensures live { IfOk result IsLive }
    {
        let site = Site::new(alloc, machine, number, loaded, traced)?;
        let due = site.least(None);
        Ok(Station {
            alloc,
            site,
            until: 0,
            due,
            broken: false,
        })
    }

    /// The node.
    pub fn node(&self) -> &Node
        ensures value { result.now ≡ self.now.node }
        ensures live { IsUnbroken self.now → IsLive self.now }
        ensures no_past { IsUnbroken self.now → HasNoPast self.now }
    {
        &self.site.node
    }

    /// How many messages wait.
    pub fn pending(&self) -> u64
        ensures { result ≡ len self.now.pending }
    {
        self.site.queue.len()
    }

    /// The time of the node's least event. None exactly where it has none. It is at hand, so no queue is looked at.
    pub fn least<L: Ledger>(&self, steps: &mut Steps<L>) -> Option<u64>
        ensures value { IsUnbroken self.now → result ≡ least_time_of self.now }
        ensures step { steps.new ≤ steps.old + 1 }
    {
        self.due
    }

    /// Handles exactly the node's events before a time, in rising order, its own messages among them, and stops where it
    /// is spent. The messages to other nodes are handed out.
    pub fn run_to<L: Ledger>(&mut self, until: u64, steps: &mut Steps<L>) -> Result<Outs, NoMemory>
        requires budget { until ≤ (machine_of self.old).budget }
        requires forward { self.old.until ≤ until }
        ensures ran { OnOk result (station_of self.new ≡ (run_to_of until self.old).0) }
        ensures outs { IfOk result (λ outs. IsHandedOut until self.old self.new outs) }
        ensures live { OnOk result (IsUnbroken self.old × IsUnbroken self.new × IsLive self.new) }
        ensures machine { machine_of self.new ≡ machine_of self.old }
        ensures broken { OnErr result (self.new.broken ≡ true) }
        ensures free { IfOk result (λ outs. IsFree steps.old steps.new self.old.node.state self.new.node.state outs) }
    {
        let mut outs = Outs::new(self.alloc);
        self.run_into(until, &mut outs, steps)?;
        Ok(outs)
    }

    /// The same, with the messages to other nodes put at the end of a list.
    pub fn run_into<L: Ledger>(
        &mut self,
        until: u64,
        outs: &mut Outs,
        steps: &mut Steps<L>,
    ) -> Result<(), NoMemory>
        requires budget { until ≤ (machine_of self.old).budget }
        requires forward { self.old.until ≤ until }
        ensures ran { OnOk result (station_of self.new ≡ (run_to_of until self.old).0) }
        ensures outs { OnOk result (AddsOuts until self.old self.new outs.old outs.new steps.old steps.new) }
        ensures live { OnOk result (IsUnbroken self.old × IsUnbroken self.new × IsLive self.new) }
        ensures machine { machine_of self.new ≡ machine_of self.old }
        ensures broken { OnErr result (self.new.broken ≡ true) }
    {
        if self.broken {
            return Err(NoMemory);
        }
        if comes_before(self.due, until) {
            return self.run_on(until, outs, steps);
        }
        self.until = until;
        Ok(())
    }

    /// The same, where an event is due.
    fn run_on<L: Ledger>(
        &mut self,
        until: u64,
        outs: &mut Outs,
        steps: &mut Steps<L>,
    ) -> Result<(), NoMemory>
        requires budget { until ≤ (machine_of self.old).budget }
        requires forward { self.old.until ≤ until }
        requires unbroken { IsUnbroken self.old }
        ensures ran { OnOk result (station_of self.new ≡ (run_to_of until self.old).0) }
        ensures outs { OnOk result (AddsOuts until self.old self.new outs.old outs.new steps.old steps.new) }
        ensures live { OnOk result (IsUnbroken self.new × IsLive self.new) }
        ensures machine { machine_of self.new ≡ machine_of self.old }
        ensures broken { OnErr result (self.new.broken ≡ true) }
    {
        match self.site.run_to(until, outs, steps) {
            Ok(first) => {
                self.due = self.site.least(first);
                self.until = until;
                Ok(())
            }
            Err(NoMemory) => {
                self.broken = true;
                Err(NoMemory)
            }
        }
    }

    /// Handles all events of a node that is alone in its machine, and answers the quanta so far with those that they
    /// begin.
    pub fn run_sole<L: Ledger>(
        &mut self,
        quanta: Quanta,
        steps: &mut Steps<L>,
    ) -> Result<Quanta, NoMemory>
        requires { IsSole self.old quanta }
        ensures ended { IfOk result (HasEnded self.old self.new quanta) }
        ensures live { OnOk result (IsUnbroken self.old × IsUnbroken self.new × IsLive self.new) }
        ensures machine { machine_of self.new ≡ machine_of self.old }
        ensures broken { OnErr result (self.new.broken ≡ true) }
    {
        if self.broken {
            return Err(NoMemory);
        }
        let mut quanta = quanta;
        match self.site.run_sole(self.alloc, &mut quanta, steps) {
            Ok(()) => {
                self.until = quanta.kept_end;
                self.due = None;
                Ok(quanta)
            }
            Err(NoMemory) => {
                self.broken = true;
                Err(NoMemory)
            }
        }
    }

    /// Puts a message of another node among those that wait. Where memory is refused, the message comes back and the
    /// station stays as it was.
    pub fn accept<L: Ledger>(&mut self, message: Stamped, steps: &mut Steps<L>) -> Result<(), Back>
        requires { MayAccept self.old message }
        ensures ok { OnOk result (self.new ≡ accept_of message self.old) }
        ensures unbroken { OnOk result (IsUnbroken self.old) }
        ensures live { IsUnbroken self.new → IsLive self.new }
        ensures back { IfErr result (λ back. back.message ≡ message) }
        ensures err { OnErr result (self.new ≡ self.old) }
        ensures step { steps.new ≤ steps.old + 1 }
    {
        match Letter::new(self.alloc, message) {
            Err(back) => Err(back),
            Ok(letter) => match self.accept_letter(letter, steps) {
                Ok(()) => Ok(()),
                Err(letter) => Err(Back {
                    message: letter.into_message(),
                }),
            },
        }
    }

    /// The same with a message that has its place.
    pub fn accept_letter<L: Ledger>(
        &mut self,
        message: Letter,
        steps: &mut Steps<L>,
    ) -> Result<(), Letter>
        requires { MayAccept self.old message }
        ensures ok { OnOk result (self.new ≡ accept_of message self.old) }
        ensures unbroken { OnOk result (IsUnbroken self.old) }
        ensures live { IsUnbroken self.new → IsLive self.new }
        ensures back { IfErr result (λ back. back ≡ message) }
        ensures err { OnErr result (self.new ≡ self.old) }
        ensures step { steps.new ≤ steps.old + 1 }
    {
        if self.broken {
            return Err(message);
        }
        let time = message.message().time;
        match self.site.queue.insert_letter(message, steps) {
            Ok(()) => {
                self.due = self.site.least_with(self.due, time);
                Ok(())
            }
            Err(back) => Err(back),
        }
    }
}
