ghost use Rattle.std.specs.Prelude.{◌≡◌, ◌<◌, true, IfOk};
ghost use Rattle.image_loader.specs.Images.{IsFor};
ghost use Rattle.discrete_events.specs.Simulation.{Step, Arrival};
ghost use Rattle.discrete_events.specs.Laws.{IsAfter};
ghost use Rattle.wt_proto.specs.Messages.{MsgFits, key_of};
ghost use Rattle.node.specs.Laws.{IsWhole, MayHandle};
ghost use Rattle.node.specs.React.{message_under_key};
ghost use Rattle.node.specs.Sound.{IsNode};
ghost use Rattle.node.specs.State.{next_key};

use crate::event_rows::{Act, CALL, Case, LOAD, Mail, READS, STRAYS, Says};
use image_loader::Loaded;
use node::Node;
use std::alloc::Global;
use std::cmp::Ordering;
use std::process::Abort;
use std::test::Fail;
use test_machines::small_parts;
use test_programs::program;
use wt_params::{Machine, NoMemory};
use wt_proto::{Block, Body, Key, Mode, Msg, Stamped, StampedList};
use wt_trace::Deed;

fn block_of(first: u32) -> Block {
    let mut block = Block::new(&[0; 16]);
    block.overwrite(0, &first.to_le_bytes());
    block
}

fn body_of(says: Says) -> Body {
    match says {
        Says::GetS => Body::GetS,
        Says::Upgrade => Body::GetX { had: true },
        Says::PutS => Body::PutS,
        Says::PutX(first) => Body::PutX {
            bytes: block_of(first),
        },
        Says::DataS(first) => Body::DataS {
            bytes: block_of(first),
        },
        Says::DataX(first) => Body::DataX {
            bytes: block_of(first),
        },
        Says::Inv => Body::Inv,
        Says::Ack => Body::InvAck { bytes: None },
        Says::AckWith(first) => Body::InvAck {
            bytes: Some(block_of(first)),
        },
        Says::Arrive => Body::Arrive,
        Says::Leave => Body::Leave,
        Says::Go => Body::Go,
    }
}

/// A message on its way from a node to a node.
fn message_of(mail: Mail, from: u32, to: u32) -> Stamped {
    let (time, _, sequence, block, says) = mail;
    Stamped {
        time,
        to,
        from,
        sequence,
        msg: Msg {
            block,
            body: body_of(says),
        },
    }
}

/// Whether the machine can have a message.
fn fits(machine: &Machine, msg: &Msg) -> bool
    ensures { result ≡ true → MsgFits machine.now msg.now }
{
    let bytes = match &msg.body {
        Body::Arrive | Body::Leave | Body::Go => return msg.block == 0,
        Body::PutX { bytes } | Body::DataS { bytes } | Body::DataX { bytes } => Some(bytes),
        Body::InvAck { bytes } => bytes.as_ref(),
        _ => None,
    };
    (msg.block as u64) < machine.blocks()
        && bytes.is_none_or(|bytes| bytes.bytes().len() as u64 == machine.block_bytes())
}

/// Whether a key is above the last one.
fn is_after(last: Option<Key>, key: Key) -> bool
    ensures { result ≡ true → IsAfter last key }
{
    match last {
        Some(last) => last.cmp(&key) == Ordering::Less,
        None => true,
    }
}

/// Whether the node may do its next step.
fn may_step(machine: &Machine, number: u32, node: &Node) -> bool
    requires machine { node.now.machine ≡ machine.now }
    requires number { IsWhole node.now → node.now.state.number ≡ number }
    ensures due { result ≡ true → MayHandle node.now (next_key node.now.machine node.now.state) Step }
    ensures sound { result ≡ true → IsWhole node.now → IsNode node.now.machine node.now.state }
{
    let Some(time) = node.next_step() else {
        return false;
    };
    let key = Key {
        time,
        to: number,
        from: machine.nodes() as u32,
        sequence: 0,
    };
    !node.spent() && time < machine.budget() && is_after(node.last(), key)
}

/// Does the node's next step, where it may.
fn step(
    machine: &Machine,
    number: u32,
    node: &mut Node,
    out: &mut StampedList,
) -> Result<bool, NoMemory>
    requires machine { node.old.machine ≡ machine.now }
    requires number { IsWhole node.old → node.old.state.number ≡ number }
    ensures machine { node.new.machine ≡ machine.now }
    ensures number { IsWhole node.new → node.new.state.number ≡ number }
{
    if !may_step(machine, number, node) {
        return Ok(false);
    }
    node.handle_step(out)?;
    Ok(true)
}

/// Whether the node may handle a message now.
fn may_hear(machine: &Machine, number: u32, node: &Node, message: &Stamped) -> bool
    requires machine { node.now.machine ≡ machine.now }
    requires number { IsWhole node.now → node.now.state.number ≡ number }
    ensures due { result ≡ true → MayHandle node.now (key_of message.now) (Arrival (message_under_key message.now)) }
    ensures sound { result ≡ true → IsWhole node.now → IsNode node.now.machine node.now.state }
{
    if let Some(next) = node.next_step() {
        if message.time > next {
            return false;
        }
    }
    if message.to != number
        || message.from as u64 >= machine.nodes()
        || !fits(machine, &message.msg)
    {
        return false;
    }
    !node.spent() && message.time < machine.budget() && is_after(node.last(), message.key())
}

/// Hands a message to the node, where it may handle it.
fn hear(
    machine: &Machine,
    number: u32,
    node: &mut Node,
    message: &Stamped,
    out: &mut StampedList,
) -> Result<bool, NoMemory>
    requires machine { node.old.machine ≡ machine.now }
    requires number { IsWhole node.old → node.old.state.number ≡ number }
    ensures machine { node.new.machine ≡ machine.now }
    ensures number { IsWhole node.new → node.new.state.number ≡ number }
{
    if !may_hear(machine, number, node, message) {
        return Ok(false);
    }
    node.handle_message(message, out)?;
    Ok(true)
}

/// Handles an event, which must be due.
fn handle(
    rt: &impl Abort,
    machine: &Machine,
    number: u32,
    node: &mut Node,
    event: Act,
    out: &mut StampedList,
) -> Result<(), Fail>
    requires machine { node.old.machine ≡ machine.now }
    requires number { IsWhole node.old → node.old.state.number ≡ number }
    ensures machine { node.new.machine ≡ machine.now }
    ensures number { IsWhole node.new → node.new.state.number ≡ number }
{
    let due = match event {
        Act::Step => step(machine, number, node, out)?,
        Act::Hear(mail) => {
            let message = message_of(mail, mail.1, number);
            hear(machine, number, node, &message, out)?
        }
    };
    assert!(rt; due);
    Ok(())
}

/// A node at the start.
#[tactic(auto, unfolding(node::specs::Start::start_node))]
fn start(
    alloc: Global,
    machine: &Machine,
    number: u32,
    loaded: &Loaded,
    traced: bool,
) -> Result<Node, NoMemory>
    requires number { number < machine.now.nodes }
    requires images { IsFor machine.now loaded.now }
    ensures machine { IfOk result (λ node. node.machine ≡ machine.now) }
    ensures number { IfOk result (λ node. node.state.number ≡ number) }
{
    Node::new(alloc, machine, number, loaded, traced)
}

/// The node of a case after its events.
fn played(
    rt: &impl Abort,
    alloc: Global,
    case: Case,
    traced: bool,
    out: &mut StampedList,
) -> Result<Node, Fail> {
    let machine = Machine::new(small_parts(case.nodes))
        .ok()
        .ok_or("no machine")?;
    let loaded = program(alloc, &machine, case.words)?.ok_or("no program")?;
    assert!(rt; (case.number as u64) < machine.nodes());
    let number = case.number;
    let mut node = start(alloc, &machine, number, &loaded, traced)?;
    for event in case.acts {
        handle(rt, &machine, number, &mut node, *event, out)?;
    }
    Ok(node)
}

/// Runs a case, and looks at what it sends and at how many messages nobody asked for.
fn run(rt: &impl Abort, alloc: Global, case: Case, at: usize) -> Result<(), Fail> {
    let mut out = StampedList::new(alloc);
    let node = played(rt, alloc, case, false, &mut out)?;
    for mail in case.sends {
        let wanted = message_of(*mail, case.number, mail.1);
        assert!(rt; out.pop_first() == Some(wanted), "row {at}");
    }
    assert!(rt; out.pop_first().is_none(), "row {at}");
    assert_eq!(rt; node.counters().stray, case.stray, "row {at}");
    Ok(())
}

#[test]
fn messages_that_no_machine_sends_by_worked_rows(rt: HostRuntime) -> Result<(), Fail> {
    let mut at = 0usize;
    for case in STRAYS {
        run(&rt, rt.alloc(), case, at)?;
        at = at.saturating_add(1);
    }
    Ok(())
}

#[test]
fn a_traced_node_has_a_record_of_each_event(rt: HostRuntime) -> Result<(), Fail> {
    let mut out = StampedList::new(rt.alloc());
    let node = played(&rt, rt.alloc(), READS, true, &mut out)?;
    assert_eq!(rt; node.log().len(), 3);
    let loaded = Deed::Loaded {
        address: 0x8000_0000,
        value: 0,
    };
    let deed = node.log().get(2).map(|record| record.deed);
    assert!(rt; deed == Some(loaded));
    Ok(())
}

#[test]
fn a_node_tells_its_parts(rt: HostRuntime) -> Result<(), Fail> {
    let alloc = rt.alloc();
    let mut out = StampedList::new(alloc);
    // x10 becomes 0x41, x17 becomes 1.
    let case = Case {
        nodes: 1,
        words: &[0x0410_0513, 0x0010_0893, CALL],
        acts: &[Act::Step, Act::Step, Act::Step],
        number: 0,
        sends: &[],
        stray: 0,
    };
    let node = played(&rt, alloc, case, false, &mut out)?;
    assert_eq!(rt; node.output(), [0x41].as_slice());
    assert!(rt; *node.mode() == Mode::Running);
    assert_eq!(rt; node.pc(), 12);
    assert_eq!(rt; node.regs().get(10), 0x41);
    assert_eq!(rt; node.counters().done, 3);
    assert_eq!(rt; node.ready(), 3);
    assert_eq!(rt; node.busy(), 0);
    assert_eq!(rt; node.private().bytes().len(), 4096);
    let _cache = node.cache();
    let _directory = node.directory();
    Ok(())
}
