ghost use Rattle.std.specs.Prelude.{◌≡◌, ◌<◌, [], Some, None, length, map, replicate, true, false, IfErr, IfOk, MatchOption, OnErr, OnOk};
ghost use Rattle.discrete_events.specs.Core.{IsAtRest, IsOpen, core_of, world_of_core};
ghost use Rattle.discrete_events.specs.Theorems.{IsAmid};
ghost use Rattle.image_loader.specs.Images.{IsFor};
ghost use Rattle.node.specs.Laws.{Fits};
ghost use Rattle.quantum.specs.World.{start_of};
ghost use Rattle.core_steps.specs.declared.step.Step.TheVariants as step;
ghost use Rattle.core_steps.specs.Cores.{AreUnderWay, IsCore, IsUnbroken, seen, sim_of};
ghost use Rattle.core_steps.specs.Steps.{HasStepped, HaveStepped, IsEnabledStep, IsFault, IsReplayFault, IsWhy};

use crate::delivery::deliver;
use crate::marks::first_not_done;
use crate::opening::next_end;
use crate::sent::{empty_lists, first_out, has_any, move_first};
use crate::step::{Step, StepFault, Why};
use event_queue::Steps;
use image_loader::Loaded;
use quantum::Station;
use std::alloc::Global;
use std::marker::{Brand, Model};
use std::sync::ledger::{Blank, Ledger};
use wt_params::{Machine, NoMemory};
use wt_proto::StampedList;

/// A machine with all its nodes, in the middle of a quantum. After want of memory in a step it is broken: it answers
/// want of memory from then on.
#[derive(Drop)]
pub struct Core {
    alloc: Global,
    machine: Machine,
    stations: Vec<Station>,
    /// The nodes that have run in this quantum.
    done: Vec<bool>,
    /// What each node has sent to others and hasn't deposited yet, in order of sending.
    outs: Vec<StampedList>,
    /// What was deposited for each node.
    inboxes: Vec<StampedList>,
    /// The end of the last quantum that was ended.
    kept_end: u64,
    /// How many quanta were ended.
    quanta: u64,
    /// The end of the quantum that is open.
    until: Option<u64>,
    broken: bool,
}

impl Model for Core {
    ghost use Rattle.std.specs.Coded.{codes};
    ghost use Rattle.std.specs.FinMap.{code};
    ghost use Rattle.core_steps.specs.Cores.{CoreModel, IsSoundCore};

    ghost Value = { CoreModel };

    ghost coded = { Prim.hlevel (codes, code) };

    ghost view = { λ core. record {
      machine = core.machine;
      stations = core.stations.items;
      done = core.done.items;
      outs = core.outs.items;
      inboxes = core.inboxes.items;
      kept_end = core.kept_end;
      quanta = core.quanta;
      until = core.until;
      broken = core.broken;
    } };

    ghost invariant = { λ core. IsSoundCore (record {
      machine = core.machine;
      stations = core.stations.items;
      done = core.done.items;
      outs = core.outs.items;
      inboxes = core.inboxes.items;
      kept_end = core.kept_end;
      quanta = core.quanta;
      until = core.until;
      broken = core.broken;
    }) };
}

impl Core {
    /// The core of a machine at the start, with its first quantum open. The nodes' events are recorded exactly where
    /// `traced`.
    pub fn start(
        alloc: Global,
        machine: &Machine,
        loaded: &Loaded,
        traced: bool,
    ) -> Result<Core, NoMemory>
        requires images { IsFor machine.now loaded.now }
        ensures start { IfOk result (λ core. seen core ≡ core_of (sim_of core) (start_of machine.now loaded.now traced)) }
        ensures rest { IfOk result (λ core. IsAtRest (seen core) × (world_of_core (seen core) ≡ start_of machine.now loaded.now traced)) }
        ensures machine { IfOk result (λ core. core.machine ≡ machine.now) }
        ensures unbroken { IfOk result IsUnbroken }
    {
        Core::start_counted::<Brand>(Blank::new(1), alloc, machine, loaded, traced)
    }

    /// The same, with the steps of the queues counted in a ledger.
    fn start_counted<L: Ledger>(
        blank: Blank,
        alloc: Global,
        machine: &Machine,
        loaded: &Loaded,
        traced: bool,
    ) -> Result<Core, NoMemory>
        requires name { blank.name ≡ L.name }
        requires parts { blank.parts ≡ L.parts }
        requires some { 0 < blank.parts }
        requires images { IsFor machine.now loaded.now }
        ensures start { IfOk result (λ core. seen core ≡ core_of (sim_of core) (start_of machine.now loaded.now traced)) }
        ensures rest { IfOk result (λ core. IsAtRest (seen core) × (world_of_core (seen core) ≡ start_of machine.now loaded.now traced)) }
        ensures machine { IfOk result (λ core. core.machine ≡ machine.now) }
        ensures unbroken { IfOk result IsUnbroken }
    {
        let mut steps = Steps::<L>::new(blank);
        let nodes = machine.parts().nodes as u32;
        let mut stations = Vec::new(alloc);
        for number in 0..nodes {
            stations.push(Station::new(alloc, machine, number, loaded, traced)?)?;
        }
        let until = next_end(machine, &stations, &mut steps);
        Ok(Core {
            alloc,
            machine: *machine,
            stations,
            done: vec![in alloc; false; nodes as usize]?,
            outs: empty_lists(alloc, nodes)?,
            inboxes: empty_lists(alloc, nodes)?,
            kept_end: 0,
            quanta: 0,
            until,
            broken: false,
        })
    }

    /// Does a step. Refused exactly where it isn't enabled, with the first reason in the order of [`Why`]; the core is then
    /// as it was.
    pub fn apply(&mut self, step: Step) -> Result<(), StepFault>
        ensures ok { OnOk result (HasStepped self.old step self.new) }
        ensures fault { IfErr result (IsFault self.old step self.new) }
    {
        if self.broken {
            return Err(StepFault::NoMemory);
        }
        let Some(until) = self.until else {
            let why = Why::Ended;
            return Err(StepFault::Refused { step, why });
        };
        if let Some(why) = self.why_not(step) {
            return Err(StepFault::Refused { step, why });
        }
        match self.perform::<Brand>(Blank::new(1), step, until) {
            Ok(()) => Ok(()),
            Err(NoMemory) => Err(StepFault::NoMemory),
        }
    }

    /// The first reason why a step isn't enabled while a quantum is open.
    fn why_not(&self, step: Step) -> Option<Why>
        requires whole { IsUnbroken self.now }
        requires opened { IsOpen (seen self.now) }
        ensures { MatchOption result (IsEnabledStep self.now step) (IsWhy (sim_of self.now) (seen self.now) step) }
    {
        match step {
            Step::Quantum { node } => self.why_no_quantum(node),
            Step::Deposit { from, to } => self.why_no_deposit(from, to),
            Step::Turn => self.why_no_turn(),
        }
    }

    fn why_no_quantum(&self, node: u32) -> Option<Why>
        requires whole { IsUnbroken self.now }
        requires opened { IsOpen (seen self.now) }
        ensures { MatchOption result (IsEnabledStep self.now (step.Quantum node)) (IsWhy (sim_of self.now) (seen self.now) (step.Quantum node)) }
    {
        if node as usize >= self.stations.len() {
            return Some(Why::NoNode { node });
        }
        if self.done[node as usize] {
            return Some(Why::Done { node });
        }
        None
    }

    fn why_no_deposit(&self, from: u32, to: u32) -> Option<Why>
        requires whole { IsUnbroken self.now }
        requires opened { IsOpen (seen self.now) }
        ensures { MatchOption result (IsEnabledStep self.now (step.Deposit from to)) (IsWhy (sim_of self.now) (seen self.now) (step.Deposit from to)) }
    {
        let nodes = self.stations.len();
        if from as usize >= nodes {
            return Some(Why::NoNode { node: from });
        }
        if to as usize >= nodes {
            return Some(Why::NoNode { node: to });
        }
        if !self.done[from as usize] {
            return Some(Why::NotDone { node: from });
        }
        if !has_any(&self.outs[from as usize], to) {
            return Some(Why::NoneOut { from, to });
        }
        None
    }

    fn why_no_turn(&self) -> Option<Why>
        requires whole { IsUnbroken self.now }
        requires opened { IsOpen (seen self.now) }
        ensures { MatchOption result (IsEnabledStep self.now step.Turn) (IsWhy (sim_of self.now) (seen self.now) step.Turn) }
    {
        let nodes = self.stations.len() as u32;
        if let Some(node) = first_not_done(&self.done, nodes) {
            return Some(Why::NotDone { node });
        }
        if let Some((from, to)) = first_out(&self.outs, nodes) {
            return Some(Why::Out { from, to });
        }
        None
    }

    /// Does a step that is enabled in the quantum that is open up to a time.
    fn perform<L: Ledger>(&mut self, blank: Blank, step: Step, until: u64) -> Result<(), NoMemory>
        requires name { blank.name ≡ L.name }
        requires parts { blank.parts ≡ L.parts }
        requires some { 0 < blank.parts }
        requires whole { IsUnbroken self.old }
        requires opened { self.old.until ≡ Some until }
        requires enabled { IsEnabledStep self.old step }
        ensures done { OnOk result (HasStepped self.old step self.new) }
        ensures broken { OnErr result (self.new.broken ≡ true) }
    {
        let mut steps = Steps::<L>::new(blank);
        match step {
            Step::Quantum { node } => self.run_node(node, until, &mut steps),
            Step::Deposit { from, to } => self.deposit(from, to),
            Step::Turn => self.turn(until, &mut steps),
        }
    }

    fn run_node<L: Ledger>(
        &mut self,
        node: u32,
        until: u64,
        steps: &mut Steps<L>,
    ) -> Result<(), NoMemory>
        requires whole { IsUnbroken self.old }
        requires opened { self.old.until ≡ Some until }
        requires enabled { IsEnabledStep self.old (step.Quantum node) }
        ensures done { OnOk result (HasStepped self.old (step.Quantum node) self.new) }
        ensures broken { OnErr result (self.new.broken ≡ true) }
    {
        let place = node as usize;
        // What is half done isn't to be used, should memory be refused.
        self.broken = true;
        let outs = self.stations[place].run_to(until, steps)?;
        self.outs[place] = outs;
        self.done[place] = true;
        self.broken = false;
        Ok(())
    }

    fn deposit(&mut self, from: u32, to: u32) -> Result<(), NoMemory>
        requires whole { IsUnbroken self.old }
        requires enabled { IsEnabledStep self.old (step.Deposit from to) }
        ensures done { OnOk result (HasStepped self.old (step.Deposit from to) self.new) }
        ensures broken { OnErr result (self.new.broken ≡ true) }
    {
        let (source, place) = (from as usize, to as usize);
        self.broken = true;
        move_first(
            self.alloc,
            &mut self.outs[source],
            to,
            &mut self.inboxes[place],
        )?;
        self.broken = false;
        Ok(())
    }

    fn turn<L: Ledger>(&mut self, until: u64, steps: &mut Steps<L>) -> Result<(), NoMemory>
        requires whole { IsUnbroken self.old }
        requires opened { self.old.until ≡ Some until }
        requires enabled { IsEnabledStep self.old step.Turn }
        ensures done { OnOk result (HasStepped self.old step.Turn self.new) }
        ensures broken { OnErr result (self.new.broken ≡ true) }
    {
        self.broken = true;
        deliver(&mut self.stations, &mut self.inboxes, steps)?;
        self.done.fill(false);
        self.kept_end = until;
        self.quanta += 1;
        self.until = next_end(&self.machine, &self.stations, steps);
        self.broken = false;
        Ok(())
    }

    /// The end of the quantum that is open. None where no event is left.
    pub fn until(&self) -> Option<u64>
        ensures value { result ≡ self.now.until }
        ensures under_way { IsUnbroken self.now → AreUnderWay self.now }
    {
        self.until
    }

    /// The nodes with their messages, in the order of their numbers.
    pub fn stations(&self) -> &[Station]
        ensures value { result.now ≡ self.now.stations }
        ensures reached { IsUnbroken self.now → IsCore self.now }
    {
        &self.stations
    }
}

/// The steps one after the other. Refused where one of them is, and the core is then lost.
pub fn replay(core: Core, steps: &[Step]) -> Result<Core, StepFault>
    ensures steps { IfOk result (HaveStepped core steps.now) }
    ensures serial { IfOk result (λ after. IsAtRest (seen core) → IsAmid (sim_of core) (Fits core.machine) (world_of_core (seen core)) (seen after)) }
    ensures fault { IfErr result (IsReplayFault core steps.now) }
{
    if core.broken {
        return Err(StepFault::NoMemory);
    }
    let mut core = core;
    for step in steps {
        core.apply(*step)?;
    }
    Ok(core)
}
