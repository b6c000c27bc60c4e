use machine_json::{ByteList, Description, FileName, ImageSpecs, Key, MachineFault, read_machine};
use std::alloc::{AllocError, Global};
use std::test::Fail;

/// What reading a description answers: `ok`, or why it is refused.
fn answer(alloc: Global, bytes: &[u8]) -> Result<String, AllocError> {
    match read_machine(alloc, bytes) {
        Ok(_) => String::from_str(alloc, "ok"),
        Err(fault) => format!(in alloc; "{fault:?}"),
    }
}

/// Texts, or members after those of a machine of two nodes, of which a later one counts; each with its answer.
const ROWS: &str = r#" => Syntax
{} {} => Syntax
[] => NotObject
{} => Missing(Key { inner: "version" })
{"version":3} => Range(Key { inner: "version" }, 3)
{"version":"1","nodes":33} => Kind(Key { inner: "version" })
{"version":1} => Missing(Key { inner: "nodes" })
{"version":1,"nodes":33} => Range(Key { inner: "nodes" }, 33)
{"version":1,"nodes":32,"costs":{}} => Missing(Key { inner: "images" })
{"version":1,"nodes":2,"hop":1} => Unknown(Key { inner: "hop" })
{"version":2,"nodes":257} => Range(Key { inner: "nodes" }, 257)
{"version":2,"nodes":256,"hop":101} => Range(Key { inner: "hop" }, 101)
{"version":2,"nodes":2,"hop":5,"quantum":106} => Range(Key { inner: "quantum" }, 106)
{"version":2,"nodes":256,"hop":5,"quantum":105} => Missing(Key { inner: "images" })
{"version":2,"b":1,"a":1} => Unknown(Key { inner: "a" })
{"version":1,"nodes":2,"images":[{"hex":"" => Syntax
"latency":100 => ok
"zeta":1,"alpha":1 => Unknown(Key { inner: "alpha" })
"Nodes":1 => Unknown(Key { inner: "Nodes" })
"nodes":"2" => Kind(Key { inner: "nodes" })
"nodes":null => Kind(Key { inner: "nodes" })
"nodes":-1 => Kind(Key { inner: "nodes" })
"nodes":2.0 => Kind(Key { inner: "nodes" })
"nodes":18446744073709551616 => Kind(Key { inner: "nodes" })
"nodes":18446744073709551615 => Range(Key { inner: "nodes" }, 18446744073709551615)
"nodes":0 => Range(Key { inner: "nodes" }, 0)
"nodes":33 => Range(Key { inner: "nodes" }, 33)
"nodes":32 => ok
"private_bytes":4097 => Range(Key { inner: "private_bytes" }, 4097)
"block_bytes":48 => Range(Key { inner: "block_bytes" }, 48)
"blocks":65537 => Range(Key { inner: "blocks" }, 65537)
"latency":100,"quantum":101 => Range(Key { inner: "quantum" }, 101)
"latency":50,"quantum":100 => Range(Key { inner: "quantum" }, 100)
"latency":50 => ok
"ways":8,"sets":1024 => Range(Key { inner: "ways" }, 8)
"sets":1025,"ways":9 => Range(Key { inner: "sets" }, 1025)
"latency":0,"quantum":0 => Range(Key { inner: "latency" }, 0)
"ways":4,"sets":1024 => ok
"event_limit":0 => Range(Key { inner: "event_limit" }, 0)
"budget":1099511627777 => Range(Key { inner: "budget" }, 1099511627777)
"budget":1099511627776 => ok
"costs":{"zz":1,"aa":2} => Unknown(Key { inner: "costs.aa" })
"costs":[] => Kind(Key { inner: "costs" })
"costs":{"op":0} => Range(Key { inner: "costs.op" }, 0)
"costs":{"trap_each":"5"} => Kind(Key { inner: "costs.trap_each" })
"costs":{"fill":0,"trap":4097} => Range(Key { inner: "costs.trap" }, 4097)
"op":1 => Unknown(Key { inner: "op" })
"costs":{"costs.op":1} => Unknown(Key { inner: "costs.costs.op" })
"ways":"x","nodes":33 => Range(Key { inner: "nodes" }, 33)
"ways":9,"blocks":"x" => Kind(Key { inner: "blocks" })
"ways":9,"budget":"x" => Range(Key { inner: "ways" }, 9)
"costs":7,"budget":0 => Range(Key { inner: "budget" }, 0)
"costs":{"aa":1},"budget":0 => Range(Key { inner: "budget" }, 0)
"costs":{"aa":1,"op":0} => Unknown(Key { inner: "costs.aa" })
"images":7,"costs":{"op":0} => Range(Key { inner: "costs.op" }, 0)
"images":7 => Kind(Key { inner: "images" })
"images":[] => Range(Key { inner: "images" }, 0)
"images":[7,7,7] => Range(Key { inner: "images" }, 3)
"images":[7] => Kind(Key { inner: "images.0" })
"images":[{}] => Missing(Key { inner: "images.0.hex" })
"images":[{"hex":7,"file":7}] => Missing(Key { inner: "images.0.hex" })
"images":[{"z":1,"y":1}] => Unknown(Key { inner: "images.0.y" })
"images":[{"hex":7,"format":7}] => Kind(Key { inner: "images.0.hex" })
"images":[{"file":7,"format":7}] => Kind(Key { inner: "images.0.file" })
"images":[{"hex":"","format":7}] => Unknown(Key { inner: "images.0.format" })
"images":[{"file":"f","format":"x"}] => Kind(Key { inner: "images.0.format" })
"images":[{"file":"f","format":1,"at":2}] => Kind(Key { inner: "images.0.format" })
"images":[{"file":"f","format":"flat","at":2}] => Range(Key { inner: "images.0.at" }, 2)
"images":[{"file":"f","format":"elf","at":""}] => Kind(Key { inner: "images.0.at" })
"images":[{"hex":"0","at":4294967296}] => Range(Key { inner: "images.0.at" }, 4294967296)
"images":[{"hex":"","at":4294967292}] => ok
"images":[{"hex":"0"}] => Hex(0)
"images":[{"hex":"0g"}] => Hex(0)
"images":[{"hex":"aB"}] => ok
"images":[{"hex":""},{"hex":"0g"}] => Hex(1)
"images":[{"hex":"0g"},7] => Hex(0)
"images":[{"hex":""},7] => Kind(Key { inner: "images.1" })
"nodes":1,"images":[{"hex":""},{"hex":""}] => Range(Key { inner: "images" }, 2)"#;

#[test]
fn each_fault(rt: HostRuntime) -> Result<(), Fail> {
    let alloc = rt.alloc();
    for row in ROWS.split('\n') {
        let (part, wanted) = row.split_once(" => ").ok_or("no answer in a row")?;
        let text = if part.starts_with('"') {
            format!(in alloc; "{{\"version\":1,\"nodes\":2,\"images\":[{{\"hex\":\"\"}}],{part}}}")?
        } else {
            String::from_str(alloc, part)?
        };
        assert!(rt; answer(alloc, text.as_bytes())?.as_str() == wanted, "{row}");
    }
    assert!(rt; matches!(read_machine(alloc, b"\"\xff\""), Err(MachineFault::Syntax)));
    Ok(())
}

/// Two nodes, of which the second loads from shared memory.
const SHARED_LOAD: &str =
    r#"{"version":1,"nodes":2,"private_bytes":4096,"block_bytes":16,"blocks":4,
"sets":2,"ways":1,"latency":100,"self_latency":10,
"images":[{"hex":"9308D00573000000"},{"file":"b.elf","at":8}]}"#;

const READ: &str =
    "Description { machine: Machine { parts: MachineParts { nodes: 2, private_bytes: 4096, \
block_bytes: 16, blocks: 4, sets: 2, ways: 1, latency: 100, self_latency: 10, \
hop: 0, width: 2, pointers: 0, quantum: 100, \
event_limit: 4294967296, budget: 4294967296, costs: CostParts { op: 1, taken: 2, mem: 1, hit: 1, \
cico: 1, call: 1, fill: 4, trap: 250, trap_each: 5 } } }, images: ImageSpecs { inner: [Bytes { at: 0, \
bytes: ByteList { inner: [147, 8, 208, 5, 115, 0, 0, 0] } }, File { name: FileName { inner: \"b.elf\" }, \
elf: true, at: 8 }] }, version: 1 }";

#[test]
fn a_description(rt: HostRuntime) -> Result<(), Fail> {
    let alloc = rt.alloc();
    let description = read_machine(alloc, SHARED_LOAD.as_bytes())
        .ok()
        .ok_or("refused")?;
    let told = format!(in alloc; "{description:?}")?;
    assert!(rt; told.as_str() == READ, "{told}");
    Ok(())
}
