ghost use Rattle.std.specs.Prelude.{IfOk, IfSome};
ghost use Rattle.elf_image.specs.Sizes.{HoldsItsBytes};
ghost use Rattle.image_loader.specs.Images.{IsFor};

use elf_image::{Image, read_flat};
use image_loader::{Loaded, load};
use std::alloc::Global;
use wt_params::{Machine, NoMemory};

/// A program for every node of a machine. None where it is longer than private memory.
pub fn program(alloc: Global, machine: &Machine, words: &[u32]) -> Result<Option<Loaded>, NoMemory>
    ensures { IfOk result (λ loaded. IfSome loaded (IsFor machine.now)) }
{
    let mut images = Vec::new(alloc);
    images.push(image_of(alloc, words)?)?;
    Ok(load(machine, images).ok())
}

/// A program for each node of a machine. None where they are fewer or more, or one is longer than private memory.
pub fn programs(
    alloc: Global,
    machine: &Machine,
    programs: &[&[u32]],
) -> Result<Option<Loaded>, NoMemory>
    ensures { IfOk result (λ loaded. IfSome loaded (IsFor machine.now)) }
{
    let mut images = Vec::new(alloc);
    for words in programs {
        images.push(image_of(alloc, words)?)?;
    }
    if images.len() as u64 != machine.nodes() {
        return Ok(None);
    }
    Ok(load(machine, images).ok())
}

/// The image of words that stand from address 0 on. One that is longer than any private memory is cut there.
fn image_of(alloc: Global, words: &[u32]) -> Result<Image, NoMemory>
    ensures { IfOk result HoldsItsBytes }
{
    let mut bytes = Vec::new(alloc);
    for word in words {
        bytes.extend_from_slice(&word.to_le_bytes())?;
    }
    bytes.truncate(4 << 20);
    Ok(read_flat(alloc, bytes, 0)?)
}
