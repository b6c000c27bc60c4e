ghost use Rattle.std.specs.Prelude.{◌≡◌, ℕ, ◌<◌, ◌≤◌, ◌+◌, ◌*◌, ◌^◌, length, replicate, fold, slice_range};
ghost use Rattle.priv_mem.specs.Memory.{overwritten};
ghost use Rattle.wt_params.specs.Machine.{shared_base};
ghost use Rattle.elf_image.specs.Sizes.{FitsItsSize};
ghost use Rattle.image_loader.specs.Images.{IsFor};
ghost use Rattle.image_loader.specs.Loading.{IsPlaced, IsProgram, with_segment, shared_bytes, shared_of};
ghost use Rattle.start_memories.specs.Parts.{IsPartAfter};

use elf_image::{Image, Segment};
use image_loader::Loaded;
use wt_params::Machine;

/// Where shared memory begins in every node's address space.
pub(crate) const SHARED_BASE: u32 = 0x8000_0000;

/// Lays the segments of all nodes into a part of shared memory that is all zero, the nodes in order. One image for all
/// of them is laid once, since it leaves the same when it is laid again.
pub(crate) fn load(machine: &Machine, loaded: &Loaded, start: u32, part: &mut [u8])
    requires images { IsFor machine.now loaded.now }
    requires zero { part.old ≡ replicate (length part.old) 0 }
    requires inside { start + length part.old ≤ machine.now.blocks * machine.now.block_bytes }
    ensures { part.new ≡ slice_range (shared_of loaded.now) start (start + length part.old) }
{
    let nodes = machine.parts().nodes;
    if loaded.images().len() == 1 {
        lay_image(machine, loaded.image(0), start, part);
        return;
    }
    for node in 0..nodes as u32 {
        lay_image(machine, loaded.image(node), start, part);
    }
}

/// Lays the segments of an image into a part of shared memory, in order.
fn lay_image(machine: &Machine, image: &Image, start: u32, part: &mut [u8])
    requires { IsProgram machine.now.private_bytes (machine.now.blocks * machine.now.block_bytes) image.now }
    ensures { IsPartAfter (machine.now.blocks * machine.now.block_bytes) start part.old part.new (λ memory. fold (with_segment shared_base) memory image.now.segments) }
{
    for segment in image.segments.get() {
        lay(machine, segment, start, part);
    }
}

/// Lays a segment into a part of shared memory, as far as it lies in it.
fn lay(machine: &Machine, segment: &Segment, start: u32, part: &mut [u8])
    requires placed { IsPlaced machine.now.private_bytes (machine.now.blocks * machine.now.block_bytes) segment.now }
    requires bytes { FitsItsSize segment.now }
    ensures { IsPartAfter (machine.now.blocks * machine.now.block_bytes) start part.old part.new (λ memory. with_segment shared_base memory segment.now) }
{
    if segment.size == 0 || (segment.at as u64) < machine.private_bytes() {
        return;
    }
    let at = (segment.at - SHARED_BASE) as u64;
    let bytes = segment.bytes.get();
    let own = bytes.len() as u64;
    lay_bytes(at, bytes, start, part);
    lay_zeros(at + own, segment.size as u64 - own, start, part);
}

/// Lays bytes that go to a place of shared memory into a part of it, as far as they lie in it.
fn lay_bytes(at: u64, bytes: &[u8], start: u32, part: &mut [u8])
    requires { at < 2 ^ 40 }
    ensures { (size : ℕ) → at + length bytes.now ≤ size → IsPartAfter size start part.old part.new (λ memory. overwritten memory at bytes.now) }
{
    let at = at as usize;
    let start = start as usize;
    let low = at.max(start);
    let high = (at + bytes.len()).min(start + part.len());
    if low < high {
        part[low - start..high - start].copy_from_slice(&bytes[low - at..high - at]);
    }
}

/// Lays zeros, so many, that go to a place of shared memory into a part of it, as far as they lie in it.
fn lay_zeros(at: u64, count: u64, start: u32, part: &mut [u8])
    requires at { at < 2 ^ 40 }
    requires count { count < 2 ^ 40 }
    ensures { (size : ℕ) → at + count ≤ size → IsPartAfter size start part.old part.new (λ memory. overwritten memory at (replicate count 0)) }
{
    let start = start as usize;
    let low = (at as usize).max(start);
    let high = (at as usize + count as usize).min(start + part.len());
    if low < high {
        clear(&mut part[low - start..high - start]);
    }
}

/// Makes bytes zero.
fn clear(bytes: &mut [u8])
    ensures { bytes.new ≡ replicate (length bytes.old) 0 }
{
    bytes.fill(0);
}
