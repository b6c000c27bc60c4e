ghost use Rattle.std.specs.Prelude.{IsTrue, OnOk, All};
ghost use Rattle.wt_proto.specs.Messages.{MsgFits, StampedFits};
ghost use Rattle.wt_trace.specs.EventLine.{WhatFits};

use std::alloc::Global;
use std::test::Fail;
use test_machines::two_nodes;
use wt_params::{Machine, NoMemory};
use wt_proto::{Block, Body, Cause, Key, Msg, Stamped, StampedList};
use wt_text::Line;
use wt_trace::{Deed, Log, NodeLog, Record, What, add_block, add_cause, add_message, line, merge};

/// The bytes of a block.
fn data() -> Block {
    Block::new(&[0, 0, 0, 0, 0xb8, 0xf9, 0xff, 0xff, 0, 0, 0, 0, 0, 0, 0, 0])
}

/// Whether a message is one that the machine can have.
fn fits(machine: &Machine, msg: &Msg) -> bool
    ensures { IsTrue result → MsgFits machine.now msg.now }
{
    let exists = (msg.block as u64) < machine.blocks();
    match &msg.body {
        Body::Arrive | Body::Leave | Body::Go => msg.block == 0,
        Body::PutX { bytes } | Body::DataS { bytes } | Body::DataX { bytes } => {
            exists && bytes.bytes().len() as u64 == machine.block_bytes()
        }
        Body::InvAck { bytes: Some(bytes) } => {
            exists && bytes.bytes().len() as u64 == machine.block_bytes()
        }
        _ => exists,
    }
}

const TEXTS: &[u8] = b"stop exit 4294967295, illegal 0xd2da7b0b, fetch 0xfffffffc, \
target 0xfffffffe, address 0xfffffff8, misaligned 0x00000025, call 77, break, \
GetS 0x80000030, GetX 0x80000030, GetX+ 0x80000030, PutS 0x80000030, \
PutX 0x80000030 00000000b8f9ffff0000000000000000, \
DataS 0x80000030 00000000b8f9ffff0000000000000000, \
DataX 0x80000030 00000000b8f9ffff0000000000000000, Inv 0x80000030, InvAck 0x80000030, \
InvAck 0x80000030 00000000b8f9ffff0000000000000000, Wake 0x80000030, Arrive, Leave, Go, 0x80000010";

#[test]
fn causes_messages_and_blocks_have_texts(rt: HostRuntime) -> Result<(), Fail> {
    let machine = two_nodes();
    let mut told = Line::new(rt.alloc(), b"stop ")?;
    for cause in [
        Cause::Exit {
            code: 4_294_967_295,
        },
        Cause::Illegal { word: 0xd2da_7b0b },
        Cause::Fetch {
            address: 0xffff_fffc,
        },
        Cause::Target {
            address: 0xffff_fffe,
        },
        Cause::Address {
            address: 0xffff_fff8,
        },
        Cause::Misaligned { address: 0x25 },
        Cause::Call { number: 77 },
        Cause::Break,
    ] {
        add_cause(&mut told, cause)?;
        told.text(b", ")?;
    }
    for (block, body) in [
        (3, Body::GetS),
        (3, Body::GetX { had: false }),
        (3, Body::GetX { had: true }),
        (3, Body::PutS),
        (3, Body::PutX { bytes: data() }),
        (3, Body::DataS { bytes: data() }),
        (3, Body::DataX { bytes: data() }),
        (3, Body::Inv),
        (3, Body::InvAck { bytes: None }),
        (
            3,
            Body::InvAck {
                bytes: Some(data()),
            },
        ),
        (3, Body::Wake),
        (0, Body::Arrive),
        (0, Body::Leave),
        (0, Body::Go),
    ] {
        let msg = Msg { block, body };
        assert!(rt; fits(&machine, &msg));
        add_message(&mut told, &machine, &msg)?;
        told.text(b", ")?;
    }
    add_block(&mut told, &machine, 1)?;
    assert!(rt; told.as_bytes() == TEXTS);
    Ok(())
}

/// Whether an event of the machine, and its copy, have a line.
fn has_line(
    alloc: Global,
    machine: &Machine,
    key: Key,
    what: What,
    deed: Deed,
    trap: Option<u64>,
    sends: StampedList,
    wanted: &[u8],
) -> Result<bool, NoMemory>
    requires what { WhatFits machine.now what }
    requires sends { All (StampedFits machine.now) sends }
{
    let item = Record {
        key,
        what,
        deed,
        trap,
        sends,
    };
    let first = line(alloc, &item, machine)?;
    let second = line(alloc, &item.copy(alloc)?, machine)?;
    Ok(first.as_bytes() == wanted && second.as_bytes() == wanted)
}

/// Whether an event is one that the machine can have.
fn what_fits(machine: &Machine, what: &What) -> bool
    ensures { IsTrue result → WhatFits machine.now what.now }
{
    match what {
        What::Step { .. } => true,
        What::Message { msg } => fits(machine, msg),
    }
}

/// Whether a message under way is one that the machine can have.
fn stamped_fits(machine: &Machine, send: &Stamped) -> bool
    ensures { IsTrue result → StampedFits machine.now send.now }
{
    (send.to as u64) < machine.nodes()
        && (send.from as u64) < machine.nodes()
        && fits(machine, &send.msg)
}

/// Adds a message, if it is one and the machine can have it.
fn add_send(
    list: &mut StampedList,
    machine: &Machine,
    send: Option<Stamped>,
) -> Result<(), NoMemory>
    requires { All (StampedFits machine.now) list.old }
    ensures { OnOk result (All (StampedFits machine.now) list.new) }
{
    let Some(send) = send else {
        return Ok(());
    };
    if !stamped_fits(machine, &send) {
        return Ok(());
    }
    list.push(send)
}

fn key(time: u64, to: u32, from: u32, sequence: u64) -> Key {
    Key {
        time,
        to,
        from,
        sequence,
    }
}

/// A message that came.
fn came(block: u32, body: Body) -> What {
    What::Message {
        msg: Msg { block, body },
    }
}

/// A message that node 0 sent.
fn sent(time: u64, to: u32, sequence: u64, block: u32, body: Body) -> Option<Stamped> {
    Some(Stamped {
        time,
        to,
        from: 0,
        sequence,
        msg: Msg { block, body },
    })
}

/// What came, what it did, the cycles of a trap, what was sent, and the line.
type Row = (
    Key,
    What,
    Deed,
    Option<u64>,
    Option<Stamped>,
    Option<Stamped>,
    &'static [u8],
);

#[test]
fn events_have_lines(rt: HostRuntime) -> Result<(), Fail> {
    let alloc = rt.alloc();
    let machine = two_nodes();
    let rows: [Row; 5] = [
        (
            key(18_446_744_073_709_551_615, 1, 1, 0),
            What::Step {
                pc: 0x10,
                word: Some(0xff41_2703),
            },
            Deed::Loaded {
                address: 0x1ff4,
                value: 0,
            },
            None,
            None,
            None,
            b"event 18446744073709551615 1 step 0x00000010 0xff412703 load 0x00001ff4 0x00000000\n",
        ),
        (
            key(21, 0, 0, 0),
            What::Step {
                pc: 0xffff_fffc,
                word: None,
            },
            Deed::Stopped {
                cause: Cause::Fetch {
                    address: 0xffff_fffc,
                },
            },
            None,
            None,
            None,
            b"event 21 0 step 0xfffffffc stop fetch 0xfffffffc\n",
        ),
        (
            key(276, 0, 1, 5),
            came(1, Body::DataX { bytes: data() }),
            Deed::Stored {
                address: 0x8000_0014,
                width: 4,
                value: 0xffff_fffd,
            },
            None,
            sent(376, 1, 7, 2, Body::PutS),
            None,
            b"event 276 0 from 1 #5 DataX 0x80000010 00000000b8f9ffff0000000000000000 store 0x80000014 4 0xfffffffd > 1 PutS 0x80000020 at 376 #7\n",
        ),
        (
            key(289, 0, 1, 6),
            came(3, Body::GetX { had: true }),
            Deed::Plain,
            Some(255),
            sent(545, 0, 4, 3, Body::Inv),
            None,
            b"event 289 0 from 1 #6 GetX+ 0x80000030 trap 255 > 0 Inv 0x80000030 at 545 #4\n",
        ),
        (
            key(9, 0, 1, 0),
            came(0, Body::Arrive),
            Deed::Plain,
            None,
            sent(10, 0, 1, 0, Body::Go),
            sent(16, 1, 2, 0, Body::Go),
            b"event 9 0 from 1 #0 Arrive > 0 Go at 10 #1 > 1 Go at 16 #2\n",
        ),
    ];
    for (key, what, deed, trap, first, second, wanted) in rows {
        let time = key.time;
        assert!(rt; what_fits(&machine, &what), "at {time}");
        let mut sends = StampedList::new(alloc);
        add_send(&mut sends, &machine, first)?;
        add_send(&mut sends, &machine, second)?;
        assert!(rt;
            has_line(alloc, &machine, key, what, deed, trap, sends, wanted)?,
            "at {time}"
        );
    }
    Ok(())
}

/// A record of a step, told from others by its place.
fn at(alloc: Global, time: u64, to: u32, pc: u32) -> Record {
    Record {
        key: key(time, to, to, 0),
        what: What::Step { pc, word: None },
        deed: Deed::Plain,
        trap: None,
        sends: StampedList::new(alloc),
    }
}

/// The place of the step that is so far on in a log.
fn pc_at(log: &NodeLog, i: u64) -> Option<u32> {
    match log.get(i)?.what {
        What::Step { pc, word: _ } => Some(pc),
        What::Message { msg: _ } => None,
    }
}

#[test]
fn logs_are_copied_and_merged(rt: HostRuntime) -> Result<(), Fail> {
    let alloc = rt.alloc();
    let rows: [&[(u64, u32, u32)]; 3] = [
        &[(1, 0, 10), (5, 0, 11), (7, 1, 12)],
        &[],
        &[(0, 2, 20), (1, 0, 21), (7, 0, 22)],
    ];
    let mut logs = Vec::new(alloc);
    for row in rows {
        let mut log = NodeLog::new(alloc);
        for (time, to, pc) in row {
            log.push(at(alloc, *time, *to, *pc))?;
        }
        logs.push(log.copy(alloc)?)?;
    }
    let merged = merge(alloc, &logs)?;
    let wanted = [20, 10, 21, 11, 22, 12];
    for (i, pc) in wanted.iter().enumerate() {
        assert!(rt; pc_at(&merged, i as u64) == Some(*pc), "at {i}");
    }
    assert!(rt; merged.len() == 6);
    Ok(())
}
