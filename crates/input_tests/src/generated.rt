ghost use Rattle.std.specs.Prelude.{◌≤◌};

use gen_load::generate;
use machine_json::{Description, ImageSpec};
use std::alloc::{AllocError, Global};
use std::test::Fail;
use wt_params::{CostParts, MachineParts, NoMemory};

// The words of each kind, as GNU as assembles the listings for rv32i (the annotations by its directive .insn).

/// Of 9999: 11 rounds, and 999 to begin with.
const STENCIL: [u32; 29] = [
    0x80000437, 0x00050913, 0x00058993, 0x00691293, 0x005404b3, 0x00190a13, 0x013a1463, 0x00000a13,
    0x006a1293, 0x00540a33, 0x3e790293, 0x0054a023, 0x00b00a93, 0x00500893, 0x00000073, 0x0004a283,
    0x000a2303, 0x00628b33, 0x00500893, 0x00000073, 0x0164a023, 0xfffa8a93, 0xfc0a9ee3, 0x000b0513,
    0x00100893, 0x00000073, 0x00000513, 0x05d00893, 0x00000073,
];

/// Of 7: 11 rounds.
const COUNTER: [u32; 22] = [
    0x80000437, 0x00050913, 0x00190a13, 0x00ba1463, 0x00000a13, 0x00b00a93, 0x00042283, 0xff229ee3,
    0x0404100b, 0x04042303, 0x00130313, 0x04642023, 0x0404200b, 0x01442023, 0xfffa8a93, 0xfc0a9ee3,
    0x00030513, 0x00100893, 0x00000073, 0x00000513, 0x05d00893, 0x00000073,
];

/// Of 92: 8 rounds.
const ALL_TO_ALL: [u32; 38] = [
    0x80000437, 0x00050913, 0x00058993, 0x00800a93, 0x00000b93, 0x00699c13, 0x00691293, 0x005404b3,
    0x00000a13, 0x01490333, 0x0064a023, 0x018484b3, 0x001a0a13, 0xff3a18e3, 0x00500893, 0x00000073,
    0x00040493, 0x00000a13, 0x012a0863, 0x018484b3, 0x001a0a13, 0xff5ff06f, 0x00000a13, 0x0004a303,
    0x006b8bb3, 0x04048493, 0x001a0a13, 0xff3a18e3, 0x00500893, 0x00000073, 0xfffa8a93, 0xf80a9ee3,
    0x000b8513, 0x00100893, 0x00000073, 0x00000513, 0x05d00893, 0x00000073,
];

/// The machine of so many nodes.
fn parts(nodes: u64) -> MachineParts {
    let costs = CostParts {
        op: 1,
        taken: 2,
        mem: 1,
        hit: 1,
        cico: 1,
        call: 1,
        fill: 4,
        trap: 250,
        trap_each: 5,
    };
    MachineParts {
        nodes,
        private_bytes: 65536,
        block_bytes: 64,
        blocks: 1024,
        sets: 16,
        ways: 2,
        latency: 100,
        self_latency: 10,
        hop: 0,
        width: nodes,
        pointers: 0,
        quantum: 100,
        event_limit: 4_294_967_296,
        budget: 4_294_967_296,
        costs,
    }
}

/// The bytes of the one image, where it is at 0; else none.
fn image(description: &Description) -> &[u8] {
    match description.images.get() {
        [ImageSpec::Bytes { at: 0, bytes }] => bytes.get(),
        _ => &[],
    }
}

/// The bytes of words, the lowest of each first.
fn bytes(alloc: Global, words: &[u32]) -> Result<Vec<u8>, AllocError> {
    let mut bytes = Vec::new(alloc);
    for word in words {
        bytes.extend_from_slice(&word.to_le_bytes())?;
    }
    Ok(bytes)
}

/// Whether a number stands for a machine of so many nodes with the image of these words.
fn is_machine(alloc: Global, number: u64, nodes: u64, words: &[u32]) -> Result<bool, NoMemory>
    requires { number ≤ 9999 }
{
    let description = generate(alloc, number)?;
    let wanted = bytes(alloc, words)?;
    Ok(description.machine.parts() == parts(nodes) && image(&description) == wanted.as_slice())
}

#[test]
fn each_kind(rt: HostRuntime) -> Result<(), Fail> {
    let alloc = rt.alloc();
    assert!(rt; is_machine(alloc, 9999, 18, &STENCIL)?);
    assert!(rt; is_machine(alloc, 7, 4, &COUNTER)?);
    assert!(rt; is_machine(alloc, 92, 32, &ALL_TO_ALL)?);
    // 4 rounds, and 0 to begin with.
    let mut least = STENCIL;
    least[10] = 0x00090293;
    least[12] = 0x00400a93;
    assert!(rt; is_machine(alloc, 0, 2, &least)?);
    Ok(())
}
