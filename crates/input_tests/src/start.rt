ghost use Rattle.std.specs.Prelude.{◌≡◌, ◌<◌, ◌∷◌, [], map, IfOk, IfSome};
ghost use Rattle.wt_params.specs.Machine.{flat_machine};
ghost use Rattle.elf_image.specs.Sizes.{FitsItsSize, HoldsItsBytes};
ghost use Rattle.image_loader.specs.Images.{IsFor};
ghost use Rattle.image_loader.specs.Examples.{two_images};
ghost use Rattle.start_memories.specs.Start.{homes_of};

use elf_image::{Bytes, Image, Segment, Segments};
use image_loader::{Loaded, load};
use start_memories::{directory_at_start, private_at_start};
use std::alloc::Global;
use std::test::Fail;
use test_machines::two_nodes;
use wt_params::{Machine, NoMemory};

/// A segment: where it goes, four bytes of its own, and how many zeros come behind them.
type Row = (u32, [u8; 4], u16);

fn segment_of(alloc: Global, row: Row) -> Result<Segment, NoMemory>
    ensures { IfOk result FitsItsSize }
{
    let (at, own, zeros) = row;
    Ok(Segment {
        at,
        bytes: Bytes::new(own.as_slice().to_vec(alloc)?),
        size: 4 + zeros as u32,
    })
}

/// An image that begins at 0 and has these segments.
fn image_of(alloc: Global, rows: &[Row]) -> Result<Image, NoMemory>
    ensures { IfOk result HoldsItsBytes }
{
    let mut segments = Vec::new(alloc);
    for row in rows {
        segments.push(segment_of(alloc, *row)?)?;
    }
    Ok(Image {
        entry: 0,
        segments: Segments::new(segments),
    })
}

/// An image for each of two nodes.
fn loaded_of(
    alloc: Global,
    machine: &Machine,
    first: &[Row],
    second: &[Row],
) -> Result<Option<Loaded>, NoMemory>
    requires { machine.now.nodes ≡ 2 }
    ensures { IfOk result (λ loaded. IfSome loaded (IsFor machine.now)) }
{
    let mut images = Vec::new(alloc);
    images.push(image_of(alloc, first)?)?;
    images.push(image_of(alloc, second)?)?;
    Ok(load(machine, images).ok())
}

/// The first bytes of a node's private memory at the start.
fn private_front(
    alloc: Global,
    machine: &Machine,
    loaded: &Loaded,
    node: u32,
) -> Result<[u8; 12], NoMemory>
    requires node { node < machine.now.nodes }
    requires images { IsFor machine.now loaded.now }
{
    let memory = private_at_start(alloc, machine, loaded, node)?;
    let mut front = [0xff; 12];
    for (cell, byte) in front.iter_mut().zip(memory.bytes()) {
        *cell = *byte;
    }
    Ok(front)
}

/// The memory of a block of 16 bytes at the start, which its home keeps.
fn memory_of(
    alloc: Global,
    machine: &Machine,
    loaded: &Loaded,
    block: u32,
) -> Result<[u8; 16], NoMemory>
    requires block { block < machine.now.blocks }
    requires images { IsFor machine.now loaded.now }
{
    let directory = directory_at_start(alloc, machine, loaded, machine.home(block))?;
    let mut memory = [0xff; 16];
    for (cell, byte) in memory.iter_mut().zip(directory.memory(block)) {
        *cell = *byte;
    }
    Ok(memory)
}

#[test]
fn later_bytes_win_in_every_memory(rt: HostRuntime) -> Result<(), Fail> {
    let alloc = rt.alloc();
    let machine = two_nodes();
    let first: [Row; 3] = [
        (1, [1, 2, 3, 4], 4),
        (3, [9, 8, 7, 6], 1),
        (0x8000_000e, [5, 6, 7, 8], 0),
    ];
    let second: [Row; 2] = [(8, [1, 1, 2, 2], 0), (0x8000_000c, [1, 2, 3, 4], 1)];
    let loaded = loaded_of(alloc, &machine, &first, &second)?.ok_or("refused")?;
    let private = private_front(alloc, &machine, &loaded, 0)?;
    assert!(rt; private == [0, 1, 2, 9, 8, 7, 6, 0, 0, 0, 0, 0]);
    let shared = memory_of(alloc, &machine, &loaded, 0)?;
    assert!(rt; shared == [0, 0, 0, 0, 0, 0, 0, 0, 0, 0, 0, 0, 1, 2, 3, 4]);
    let shared = memory_of(alloc, &machine, &loaded, 1)?;
    assert!(rt; shared == [0, 8, 0, 0, 0, 0, 0, 0, 0, 0, 0, 0, 0, 0, 0, 0]);
    Ok(())
}

/// The definition, computed by the checker on two images that overlap in shared memory.
fn definition_of_homes()
    ensures first { let machine = record flat_machine { nodes = 2; private_bytes = 8; block_bytes = 4; blocks = 2 } in
        map (λ home. home.memory) (homes_of machine two_images 0).blocks ≡ (0 ∷ 5 ∷ 8 ∷ 0 ∷ []) ∷ [] }
    ensures second { let machine = record flat_machine { nodes = 2; private_bytes = 8; block_bytes = 4; blocks = 2 } in
        map (λ home. home.memory) (homes_of machine two_images 1).blocks ≡ (0 ∷ 0 ∷ 0 ∷ 6 ∷ []) ∷ [] }
{}

#[test]
fn each_block_stands_at_its_home() {
    definition_of_homes();
}
