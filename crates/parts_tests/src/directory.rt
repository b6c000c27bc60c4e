ghost use Rattle.std.specs.Prelude.{OnOk};
ghost use Rattle.dir1sw.specs.Homes.{IsHome};

use dir_list::Readers;
use dir1sw::{DirAct, Directory};
use std::alloc::{AllocError, Global};
use std::process::Abort;
use std::test::Fail;
use test_machines::small_parts;
use wt_params::Machine;
use wt_proto::{Block, Body, DirState, Msg, Sends};

// A row has who sends a message, its name, the byte that fills its block, and what comes of it: the act, the entry's
// state, how many wait, the last byte of the memory, and who hears what, with the last byte that it carries.

/// A block that is read, then wanted alone, then wanted to read.
const CALLED_BACK: &str =
    "1 GetS 0 => Done Shared { readers: Counted { count: 1 } } 0 Some(0) > 1 DataS Some(0)
2 GetX 0 => AllBut { node: 2 } Busy { from: 2, exclusive: true, left: 3 } 0 Some(0)
3 GetS 0 => Done Busy { from: 2, exclusive: true, left: 3 } 1 Some(0)
0 InvAck 0 => Done Busy { from: 2, exclusive: true, left: 2 } 1 Some(0)
1 InvAck 0 => Done Busy { from: 2, exclusive: true, left: 1 } 1 Some(0)
3 InvAck 0 => Done Exclusive { owner: 2 } 1 Some(0) > 2 DataX Some(0) > 0 Wake None
0 Wake 0 => One { node: 2 } Busy { from: 3, exclusive: false, left: 1 } 0 Some(0)
2 PutX 7 => Done Busy { from: 3, exclusive: false, left: 1 } 0 Some(7)
2 InvAck 0 => Done Shared { readers: Counted { count: 1 } } 0 Some(7) > 3 DataS Some(7)
1 PutX 9 => Stray Shared { readers: Counted { count: 1 } } 0 Some(7)";

/// Strays, and four requests that wait.
const WAITING: &str = "1 PutS 0 => Stray Idle 0 Some(0)
1 PutX 5 => Stray Idle 0 Some(0)
1 InvAck 0 => Stray Idle 0 Some(0)
0 Wake 0 => Stray Idle 0 Some(0)
1 GetX+ 0 => Done Exclusive { owner: 1 } 0 Some(0) > 1 DataX Some(0)
2 PutS 0 => Stray Exclusive { owner: 1 } 0 Some(0)
2 PutX 5 => Stray Exclusive { owner: 1 } 0 Some(0)
1 PutX 5 => Done Idle 0 Some(5)
3 GetX 0 => Done Exclusive { owner: 3 } 0 Some(5) > 3 DataX Some(5)
2 GetX 0 => One { node: 3 } Busy { from: 2, exclusive: true, left: 1 } 0 Some(5)
1 PutS 0 => Done Busy { from: 2, exclusive: true, left: 1 } 0 Some(5)
0 Wake 0 => Stray Busy { from: 2, exclusive: true, left: 1 } 0 Some(5)
1 GetX 0 => Done Busy { from: 2, exclusive: true, left: 1 } 1 Some(5)
0 GetS 0 => Done Busy { from: 2, exclusive: true, left: 1 } 2 Some(5)
3 GetX+ 0 => Done Busy { from: 2, exclusive: true, left: 1 } 3 Some(5)
3 InvAck+ 8 => Done Exclusive { owner: 2 } 3 Some(8) > 2 DataX Some(8) > 0 Wake None
2 PutX 4 => Done Idle 3 Some(4)
2 GetS 0 => Done Idle 4 Some(4)
0 Wake 0 => Done Exclusive { owner: 1 } 3 Some(4) > 1 DataX Some(4) > 0 Wake None
0 Wake 0 => One { node: 1 } Busy { from: 0, exclusive: false, left: 1 } 2 Some(4)
1 InvAck+ 6 => Done Shared { readers: Counted { count: 1 } } 2 Some(6) > 0 DataS Some(6) > 0 Wake None
0 Wake 0 => AllBut { node: 3 } Busy { from: 3, exclusive: true, left: 3 } 1 Some(6)
0 InvAck+ 2 => Done Busy { from: 3, exclusive: true, left: 2 } 1 Some(2)
1 InvAck 0 => Done Busy { from: 3, exclusive: true, left: 1 } 1 Some(2)
2 InvAck 0 => Done Exclusive { owner: 3 } 1 Some(2) > 3 DataX Some(2) > 0 Wake None
3 PutX 1 => Done Idle 1 Some(1)
0 Wake 0 => Done Shared { readers: Counted { count: 1 } } 0 Some(1) > 2 DataS Some(1)
2 PutS 0 => Done Idle 0 Some(1)";

/// Copies to read come and go.
const COUNTED: &str =
    "1 GetS 0 => Done Shared { readers: Counted { count: 1 } } 0 Some(0) > 1 DataS Some(0)
2 GetS 0 => Done Shared { readers: Counted { count: 2 } } 0 Some(0) > 2 DataS Some(0)
1 PutS 0 => Done Shared { readers: Counted { count: 1 } } 0 Some(0)
3 GetS 0 => Done Shared { readers: Counted { count: 2 } } 0 Some(0) > 3 DataS Some(0)
2 GetX+ 0 => AllBut { node: 2 } Busy { from: 2, exclusive: true, left: 3 } 0 Some(0)";

/// A node alone has nobody to call copies back from.
const ALONE: &str =
    "0 GetS 0 => Done Shared { readers: Counted { count: 1 } } 0 Some(0) > 0 DataS Some(0)
0 GetX+ 0 => Done Exclusive { owner: 0 } 0 Some(0) > 0 DataX Some(0)";

const ALONE_AGAIN: &str =
    "0 GetS 0 => Done Shared { readers: Counted { count: 1 } } 0 Some(0) > 0 DataS Some(0)
0 GetX 0 => Done Exclusive { owner: 0 } 0 Some(0) > 0 DataX Some(0)
0 GetS 0 => One { node: 0 } Busy { from: 0, exclusive: false, left: 1 } 0 Some(0)";

/// Readers are listed: both are told, and those who wait are served in turn.
const LISTED: &str =
    "1 GetS 0 => Done Shared { readers: Listed { nodes: Few { nodes: [1] } } } 0 Some(0) > 1 DataS Some(0)
3 GetS 0 => Done Shared { readers: Listed { nodes: Few { nodes: [1, 3] } } } 0 Some(0) > 3 DataS Some(0)
0 GetX 0 => Done Busy { from: 0, exclusive: true, left: 2 } 0 Some(0) > 1 Inv None > 3 Inv None
2 GetX 0 => Done Busy { from: 0, exclusive: true, left: 2 } 1 Some(0)
1 InvAck 0 => Done Busy { from: 0, exclusive: true, left: 1 } 1 Some(0)
3 InvAck 0 => Done Exclusive { owner: 0 } 1 Some(0) > 0 DataX Some(0) > 0 Wake None
0 Wake 0 => One { node: 0 } Busy { from: 2, exclusive: true, left: 1 } 0 Some(0)
0 InvAck+ 4 => Done Exclusive { owner: 2 } 0 Some(4) > 2 DataX Some(4)
1 GetS 0 => One { node: 2 } Busy { from: 1, exclusive: false, left: 1 } 0 Some(4)
3 GetX 0 => Done Busy { from: 1, exclusive: false, left: 1 } 1 Some(4)
0 GetS 0 => Done Busy { from: 1, exclusive: false, left: 1 } 2 Some(4)
2 InvAck+ 6 => Done Shared { readers: Listed { nodes: Few { nodes: [1] } } } 2 Some(6) > 1 DataS Some(6) > 0 Wake None
0 Wake 0 => Done Busy { from: 3, exclusive: true, left: 1 } 1 Some(6) > 1 Inv None";

/// A reader that stands twice is told once, one that isn't listed is a stray, and a list that is full is counted.
const LISTED_TWICE: &str =
    "1 GetS 0 => Done Shared { readers: Listed { nodes: Few { nodes: [1] } } } 0 Some(0) > 1 DataS Some(0)
1 GetS 0 => Done Shared { readers: Listed { nodes: Few { nodes: [1, 1] } } } 0 Some(0) > 1 DataS Some(0)
2 PutS 0 => Stray Shared { readers: Listed { nodes: Few { nodes: [1, 1] } } } 0 Some(0)
2 GetX+ 0 => Done Busy { from: 2, exclusive: true, left: 1 } 0 Some(0) > 1 Inv None
1 InvAck 0 => Done Exclusive { owner: 2 } 0 Some(0) > 2 DataX Some(0)
2 PutX 3 => Done Idle 0 Some(3)
1 GetS 0 => Done Shared { readers: Listed { nodes: Few { nodes: [1] } } } 0 Some(3) > 1 DataS Some(3)
1 GetX+ 0 => Done Exclusive { owner: 1 } 0 Some(3) > 1 DataX Some(3)
1 PutX 5 => Done Idle 0 Some(5)
2 GetS 0 => Done Shared { readers: Listed { nodes: Few { nodes: [2] } } } 0 Some(5) > 2 DataS Some(5)
0 GetS 0 => Done Shared { readers: Listed { nodes: Few { nodes: [2, 0] } } } 0 Some(5) > 0 DataS Some(5)
3 GetS 0 => Done Shared { readers: Counted { count: 3 } } 0 Some(5) > 3 DataS Some(5)
1 PutS 0 => Done Shared { readers: Counted { count: 2 } } 0 Some(5)
2 GetX+ 0 => AllBut { node: 2 } Busy { from: 2, exclusive: true, left: 3 } 0 Some(5)";

/// A message by its name.
fn body_of(name: &str, byte: u8) -> Option<Body> {
    let bytes = Block::new(&[byte; 16]);
    Some(match name {
        "GetS" => Body::GetS,
        "GetX" => Body::GetX { had: false },
        "GetX+" => Body::GetX { had: true },
        "PutS" => Body::PutS,
        "PutX" => Body::PutX { bytes },
        "InvAck" => Body::InvAck { bytes: None },
        "InvAck+" => Body::InvAck { bytes: Some(bytes) },
        "Wake" => Body::Wake,
        _ => return None,
    })
}

/// Who hears what.
fn heard(alloc: Global, sends: &Sends) -> Result<String, AllocError> {
    let mut text = String::new(alloc);
    for i in 0..sends.len() {
        if let Some(item) = sends.get(i) {
            let (kind, byte) = match &item.msg.body {
                Body::DataS { bytes } => ("DataS", bytes.bytes().last().copied()),
                Body::DataX { bytes } => ("DataX", bytes.bytes().last().copied()),
                Body::Wake => ("Wake", None),
                Body::Inv => ("Inv", None),
                _ => ("another", None),
            };
            let to = item.to;
            let part = format!(in alloc; " > {to} {kind} {byte:?}")?;
            text.push_str(part.as_str())?;
        }
    }
    Ok(text)
}

/// Sends one message to a directory, and looks at all that it brings.
fn check(rt: &impl Abort, alloc: Global, directory: &mut Directory, row: &str) -> Result<(), Fail>
    requires { IsHome directory.old 0 }
    ensures { OnOk result (IsHome directory.new 0) }
{
    let copies = match &directory.entry(0).state {
        DirState::Shared {
            readers: Readers::Counted { count },
        } => *count,
        DirState::Shared {
            readers: Readers::Listed { nodes },
        } => nodes.nodes().len() as u64,
        _ => 0,
    };
    assert!(rt; copies < 100);
    let (said, wanted) = row.split_once(" => ").ok_or("no answer in a row")?;
    let (from, said) = said.split_once(' ').ok_or("no message in a row")?;
    let (name, byte) = said.split_once(' ').ok_or("no byte in a row")?;
    let body = body_of(name, byte.parse()?).ok_or("another message")?;
    let mut out = Sends::new(alloc);
    let act = directory.arrive(from.parse()?, &Msg { block: 0, body }, &mut out)?;
    let sent = heard(alloc, &out)?;
    let act = match act {
        DirAct::Trap(plan) => {
            let targets = plan.targets;
            format!(in alloc; "{targets:?}")?
        }
        act => format!(in alloc; "{act:?}")?,
    };
    let entry = directory.entry(0);
    let state = &entry.state;
    let waits = entry.waiting.len();
    let memory = directory.memory(0).last().copied();
    let told = format!(in alloc; "{act} {state:?} {waits} {memory:?}{sent}")?;
    assert!(rt; told.as_str() == wanted, "{row}");
    Ok(())
}

/// Sends messages to the directory of node 0, of so many nodes, that lists so many readers.
fn run(rt: &impl Abort, alloc: Global, nodes: u64, pointers: u64, rows: &str) -> Result<(), Fail> {
    let mut parts = small_parts(nodes);
    parts.pointers = pointers;
    let machine = Machine::new(parts).ok().ok_or("no machine")?;
    assert!(rt; machine.nodes() > 0);
    assert!(rt; machine.blocks() > 0 && machine.home(0) == 0);
    let mut directory = Directory::new(alloc, &machine, 0)?;
    for row in rows.split('\n') {
        check(rt, alloc, &mut directory, row)?;
    }
    assert!(rt; directory.memory(0).len() == 16);
    directory.fill(0, 14, &[1, 2]);
    assert!(rt; directory.memory(0).last().copied() == Some(2));
    Ok(())
}

#[test]
fn each_row_of_both_tables(rt: HostRuntime) -> Result<(), Fail> {
    let alloc = rt.alloc();
    for rows in [CALLED_BACK, WAITING, COUNTED] {
        run(&rt, alloc, 4, 0, rows)?;
    }
    for rows in [LISTED, LISTED_TWICE] {
        run(&rt, alloc, 4, 2, rows)?;
    }
    for rows in [ALONE, ALONE_AGAIN] {
        run(&rt, alloc, 1, 0, rows)?;
    }
    Ok(())
}
