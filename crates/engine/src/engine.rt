ghost use Rattle.std.specs.Prelude.{◌≡◌, ◌+◌, ◌<◌, ◌≤◌, ◌*◌, true, All, IfOk, OnErr, OnOk, length};
ghost use Rattle.discrete_events.specs.Round.{quantum_end};
ghost use Rattle.discrete_events.specs.Serial.{final};
ghost use Rattle.wt_params.specs.Machine.{InRange};
ghost use Rattle.image_loader.specs.Images.{IsFor};
ghost use Rattle.node.specs.React.{wind_tunnel};
ghost use Rattle.quantum.specs.Outcome.{head_of};
ghost use Rattle.quantum.specs.Stations.{HasNoPast};
ghost use Rattle.quantum.specs.World.{start_of};
ghost use Rattle.engine.specs.Engine.{IsRunning, IsStationOf, IsUnbroken, events_so_far, sim_of, world_of};
ghost use Rattle.engine.specs.Rounds.{GoesRound, WentByInboxes, threaded_after};

use crate::head::head;
use crate::parts::{advance, advance_by_workers};
use crate::stations::{earliest, run_sole};
use event_queue::Steps;
use gate::Gate;
use image_loader::Loaded;
use inbox::Pass;
use quantum::{Quanta, Station};
use std::alloc::Global;
use std::marker::{Brand, Model};
use std::sync::Wait;
use std::sync::ledger::{Blank, Ledger};
use std::thread::Threads;
use wt_params::{Machine, NoMemory};
use wt_proto::StampedList;
use wt_stats::Head;

/// A machine with all its nodes, each with the messages that wait for it. After want of memory in a round it is broken:
/// it answers want of memory from then on.
#[derive(Drop)]
pub struct Engine {
    alloc: Global,
    machine: Machine,
    stations: Vec<Station>,
    /// The end of the last quantum that was begun.
    kept_end: u64,
    /// How many quanta were begun.
    quanta: u64,
    /// How many of these were run by threads.
    threaded: u64,
    /// The passes of the last of these, one for the inbox of each node.
    passes: Vec<Pass>,
    /// Empty between two quanta, and kept for its memory.
    letters: StampedList,
    broken: bool,
}

impl Model for Engine {
    ghost use Rattle.std.specs.Coded.{codes};
    ghost use Rattle.std.specs.FinMap.{code};
    ghost use Rattle.engine.specs.Engine.{EngineModel, IsSoundEngine};

    ghost Value = { EngineModel };

    ghost coded = { Prim.hlevel (codes, code) };

    ghost view = { λ engine. record {
      machine = engine.machine;
      stations = engine.stations.items;
      kept_end = engine.kept_end;
      quanta = engine.quanta;
      threaded = engine.threaded;
      passes = engine.passes.items;
      broken = engine.broken;
    } };

    ghost invariant = { λ engine. IsSoundEngine (record {
      machine = engine.machine;
      stations = engine.stations.items;
      kept_end = engine.kept_end;
      quanta = engine.quanta;
      threaded = engine.threaded;
      passes = engine.passes.items;
      broken = engine.broken;
    }) };
}

/// What a round found.
#[derive(Clone, Copy, Debug, PartialEq, Eq)]
pub enum Round {
    /// No event is left, and nothing was done.
    Ended,
    /// One quantum was done.
    More,
}

impl Engine {
    /// A machine at the start, with the images in the memories of its nodes. Their events are recorded exactly where
    /// `traced`.
    pub fn new(
        alloc: Global,
        machine: Machine,
        loaded: &Loaded,
        traced: bool,
    ) -> Result<Engine, NoMemory>
        requires images { IsFor machine loaded.now }
        ensures start { IfOk result (λ engine. world_of engine ≡ start_of machine loaded.now traced) }
        ensures machine { IfOk result (λ engine. engine.machine ≡ machine) }
        ensures unbroken { IfOk result IsUnbroken }
        ensures running { IfOk result IsRunning }
        ensures threaded { IfOk result (λ engine. engine.threaded ≡ 0) }
    {
        let mut stations = Vec::new(alloc);
        for number in 0..machine.parts().nodes as u32 {
            stations.push(Station::new(alloc, &machine, number, loaded, traced)?)?;
        }
        Ok(Engine {
            alloc,
            machine,
            stations,
            kept_end: 0,
            quanta: 0,
            threaded: 0,
            passes: Vec::new(alloc),
            letters: StampedList::new(alloc),
            broken: false,
        })
    }

    /// Does one quantum on the calling thread: every node runs on its own from the least event on, up to the end of the
    /// quantum that it begins, and then they exchange their messages.
    pub fn round_plain(&mut self) -> Result<Round, NoMemory>
        ensures goes { GoesRound self.old self.new result }
        ensures threaded { self.new.threaded ≡ self.old.threaded }
        ensures passes { self.new.passes ≡ self.old.passes }
    {
        self.round_counted::<Brand>(Blank::new(1))
    }

    /// The same, with the steps of the queues counted in a ledger.
    fn round_counted<L: Ledger>(&mut self, blank: Blank) -> Result<Round, NoMemory>
        requires name { blank.name ≡ L.name }
        requires parts { blank.parts ≡ L.parts }
        requires some { 0 < blank.parts }
        ensures goes { GoesRound self.old self.new result }
        ensures threaded { self.new.threaded ≡ self.old.threaded }
        ensures passes { self.new.passes ≡ self.old.passes }
    {
        if self.broken {
            return Err(NoMemory);
        }
        let mut steps = Steps::<L>::new(blank);
        let Some(time) = earliest(&self.stations, &mut steps) else {
            return Ok(Round::Ended);
        };
        let until = self.quantum_end(time);
        // What is half done isn't to be used, should memory be refused.
        self.broken = true;
        advance(&mut self.letters, &mut self.stations, until, &mut steps)?;
        self.kept_end = until;
        self.quanta += 1;
        self.broken = false;
        Ok(Round::More)
    }

    /// The end of the quantum that an event of this time begins.
    fn quantum_end(&self, time: u64) -> u64
        requires unbroken { IsUnbroken self.now }
        requires early { time < self.now.machine.budget }
        ensures { result ≡ quantum_end (sim_of self.now) time }
    {
        (time + self.machine.quantum()).min(self.machine.budget())
    }

    /// Does one quantum by so many workers, each with its part of the stations, in threads of the host. Each worker
    /// passes the gate once, when its part begins. What its nodes send is put into the inboxes of the others at once, and
    /// taken out when all parts have ended.
    pub fn round<R: Threads + Wait + Sync, G: Gate + Sync>(
        &mut self,
        rt: &R,
        workers: u32,
        gate: &G,
    ) -> Result<Round, NoMemory>
        requires workers { InRange 1 16 workers }
        ensures goes { GoesRound self.old self.new result }
        ensures inboxes { IfOk result (WentByInboxes self.old self.new) }
        ensures threaded { IfOk result (λ round. self.new.threaded ≡ threaded_after round self.old.threaded) }
    {
        self.round_threaded::<Brand, R, G>(Blank::new(1), rt, workers, gate)
    }

    /// The same, with the steps of the queues counted in a ledger.
    fn round_threaded<L: Ledger, R: Threads + Wait + Sync, G: Gate + Sync>(
        &mut self,
        blank: Blank,
        rt: &R,
        workers: u32,
        gate: &G,
    ) -> Result<Round, NoMemory>
        requires name { blank.name ≡ L.name }
        requires parts { blank.parts ≡ L.parts }
        requires some { 0 < blank.parts }
        requires workers { workers ≤ 16 }
        ensures goes { GoesRound self.old self.new result }
        ensures inboxes { IfOk result (WentByInboxes self.old self.new) }
        ensures threaded { IfOk result (λ round. self.new.threaded ≡ threaded_after round self.old.threaded) }
    {
        if self.broken {
            return Err(NoMemory);
        }
        let mut steps = Steps::<L>::new(blank);
        let Some(time) = earliest(&self.stations, &mut steps) else {
            return Ok(Round::Ended);
        };
        let until = self.quantum_end(time);
        let (alloc, round) = (self.alloc, self.quanta);
        self.broken = true;
        self.passes = advance_by_workers(
            rt,
            alloc,
            gate,
            round,
            workers,
            &mut self.stations,
            until,
            &mut steps,
        )?;
        self.kept_end = until;
        self.quanta += 1;
        self.threaded += 1;
        self.broken = false;
        Ok(Round::More)
    }

    /// Does quanta as long as there is an event.
    pub fn run_plain(&mut self) -> Result<(), NoMemory>
        ensures end { OnOk result (world_of self.new ≡ final (sim_of self.old) (world_of self.old)) }
        ensures unbroken { OnOk result (IsUnbroken self.old × IsUnbroken self.new) }
        ensures machine { self.new.machine ≡ self.old.machine }
        ensures broken { OnErr result (self.new.broken ≡ true) }
    {
        if self.stations.len() == 1 {
            return self.run_sole::<Brand>(Blank::new(1));
        }
        loop {
            match self.round_plain()? {
                Round::Ended => return Ok(()),
                Round::More => {}
            }
        }
    }

    /// The same for one node, which has no other to exchange messages with: its quanta are counted, and none is ended.
    fn run_sole<L: Ledger>(&mut self, blank: Blank) -> Result<(), NoMemory>
        requires one { length self.old.stations ≡ 1 }
        requires name { blank.name ≡ L.name }
        requires parts { blank.parts ≡ L.parts }
        requires some { 0 < blank.parts }
        ensures end { OnOk result (world_of self.new ≡ final (sim_of self.old) (world_of self.old)) }
        ensures unbroken { OnOk result (IsUnbroken self.old × IsUnbroken self.new) }
        ensures machine { self.new.machine ≡ self.old.machine }
        ensures broken { OnErr result (self.new.broken ≡ true) }
    {
        if self.broken {
            return Err(NoMemory);
        }
        let mut steps = Steps::<L>::new(blank);
        let so_far = Quanta {
            kept_end: self.kept_end,
            count: self.quanta,
        };
        self.broken = true;
        let quanta = run_sole(&mut self.stations, so_far, &mut steps)?;
        self.kept_end = quanta.kept_end;
        self.quanta = quanta.count;
        self.broken = false;
        Ok(())
    }

    /// Does quanta by so many workers, as long as there is an event, and none in another way.
    pub fn run<R: Threads + Wait + Sync, G: Gate + Sync>(
        &mut self,
        rt: &R,
        workers: u32,
        gate: &G,
    ) -> Result<(), NoMemory>
        requires workers { InRange 1 16 workers }
        ensures end { OnOk result (world_of self.new ≡ final (sim_of self.old) (world_of self.old)) }
        ensures unbroken { OnOk result (IsUnbroken self.old × IsUnbroken self.new) }
        ensures machine { self.new.machine ≡ self.old.machine }
        ensures broken { OnErr result (self.new.broken ≡ true) }
        ensures threaded { OnOk result (self.new.threaded + self.old.quanta ≡ self.old.threaded + self.new.quanta) }
    {
        loop {
            match self.round(rt, workers, gate)? {
                Round::Ended => return Ok(()),
                Round::More => {}
            }
        }
    }

    /// How many quanta were run by threads: the calls of `round` that found an event.
    pub fn threaded(&self) -> u64
        ensures { result ≡ self.now.threaded }
    {
        self.threaded
    }

    /// The passes of the last quantum that was run by threads, one for the inbox of each node.
    pub fn passes(&self) -> &[Pass]
        ensures { result.now ≡ self.now.passes }
    {
        &self.passes
    }

    /// What the run has come to.
    pub fn head(&self) -> Head
        ensures { IsUnbroken self.now → result ≡ head_of self.now.machine (world_of self.now) }
    {
        head(&self.stations, self.quanta)
    }

    /// The nodes with their messages, in the order of their numbers.
    pub fn stations(&self) -> &[Station]
        ensures value { result.now ≡ self.now.stations }
        ensures live { IsUnbroken self.now → All (IsStationOf self.now.machine self.now.kept_end) result.now }
        ensures world { IsUnbroken self.now → IsRunning self.now }
    {
        &self.stations
    }

    /// The machine.
    pub fn machine(&self) -> &Machine
        ensures { result.now ≡ self.now.machine }
    {
        &self.machine
    }
}
