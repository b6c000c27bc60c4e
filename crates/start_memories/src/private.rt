ghost use Rattle.std.specs.Prelude.{◌≡◌, ◌<◌, ◌≤◌, ◌+◌, ◌*◌, ◌^◌, length, replicate, IfOk};
ghost use Rattle.priv_mem.specs.Memory.{overwritten};
ghost use Rattle.elf_image.specs.Sizes.{FitsItsSize};
ghost use Rattle.image_loader.specs.Images.{IsFor};
ghost use Rattle.image_loader.specs.Loading.{IsPlaced, with_segment, private_of};

use elf_image::Segment;
use image_loader::Loaded;
use priv_mem::PrivMem;
use std::alloc::Global;
use wt_params::{Machine, NoMemory};

/// Zeros, which are laid into memory a piece at a time.
const ZEROS: [u8; 128] = [0; 128];

/// A node's private memory at the start: zeros, and then the segments of the image that serves the node, in order.
pub fn private_at_start(
    alloc: Global,
    machine: &Machine,
    loaded: &Loaded,
    node: u32,
) -> Result<PrivMem, NoMemory>
    requires node { node < machine.now.nodes }
    requires images { IsFor machine.now loaded.now }
    ensures value { IfOk result (λ memory. memory ≡ private_of loaded.now node) }
    ensures size { IfOk result (λ memory. length memory ≡ machine.now.private_bytes) }
{
    let mut memory = PrivMem::new(alloc, machine.private_bytes() as u32)?;
    let image = loaded.image(node);
    for segment in image.segments.get() {
        lay(machine, &mut memory, segment);
    }
    Ok(memory)
}

/// Lays a segment into private memory. One that lies elsewhere leaves it as it is.
fn lay(machine: &Machine, memory: &mut PrivMem, segment: &Segment)
    requires size { length memory.old ≡ machine.now.private_bytes }
    requires placed { IsPlaced machine.now.private_bytes (machine.now.blocks * machine.now.block_bytes) segment.now }
    requires bytes { FitsItsSize segment.now }
    ensures value { memory.new ≡ with_segment 0 memory.old segment.now }
    ensures size { length memory.new ≡ length memory.old }
{
    if segment.at as u64 >= machine.private_bytes() {
        return;
    }
    let bytes = segment.bytes.get();
    let own = bytes.len() as u32;
    fill(memory, segment.at, bytes);
    clear(memory, segment.at + own, segment.size - own);
}

/// Lays zeros into private memory, so many from an address on.
fn clear(memory: &mut PrivMem, at: u32, count: u32)
    requires inside { at + count ≤ length memory.old }
    requires short { length memory.old < 2 ^ 32 }
    ensures value { memory.new ≡ overwritten memory.old at (replicate count 0) }
    ensures size { length memory.new ≡ length memory.old }
{
    let mut done = 0;
    while done < count {
        let piece = (count - done).min(128);
        fill(memory, at + done, &ZEROS[..piece as usize]);
        done += piece;
    }
}

/// Lays bytes into private memory that has room for them.
#[tactic(auto, using(crate::proofs::Overwrites::inside_is_filled))]
fn fill(memory: &mut PrivMem, at: u32, bytes: &[u8])
    requires { at + length bytes.now ≤ length memory.old }
    ensures value { memory.new ≡ overwritten memory.old at bytes.now }
    ensures size { length memory.new ≡ length memory.old }
{
    let filled = memory.fill(at, bytes).is_ok();
    prove!(filled);
}
