ghost use Rattle.std.specs.Prelude.{◌≡◌, ◌%◌, ◌⊎◌, None, All, IfOk, IfErr, vec_len};
ghost use Rattle.elf_image.specs.Elf.{elf_of};
ghost use Rattle.elf_image.specs.Flat.{flat_image};
ghost use Rattle.elf_image.specs.Sizes.{HoldsItsBytes};
ghost use Rattle.image_loader.specs.Faults.{load_fault};
ghost use Rattle.image_loader.specs.Images.{loaded_with};
ghost use Rattle.wwt_case.specs.Programs.{program_of, has_magic, load_case, executable, refused_load};
ghost use Rattle.wwt_case.specs.Reading.{Answers, IsOther, IsOtherRefusal};

use crate::refusal::{ImageRefusal, Refusal};
use elf_image::{Bytes, Image, ImageFault, read_elf, read_flat};
use image_loader::{LoadFault, Loaded, load};
use std::alloc::Global;
use wt_params::Machine;

/// The image with this number, of the bytes of a file, which is an executable or flat bytes for an address.
pub fn program(
    alloc: Global,
    number: u32,
    elf: bool,
    at: u32,
    bytes: Bytes,
) -> Result<Image, Refusal>
    requires { at % 4 ≡ 0 }
    ensures answer { Answers (program_of number elf at bytes) result }
    ensures other { IsOther result }
    ensures bytes { IfOk result HoldsItsBytes }
{
    if elf {
        executable(alloc, number, bytes.get())
    } else {
        flat(alloc, bytes.into_inner(), at)
    }
}

fn executable(alloc: Global, number: u32, bytes: &[u8]) -> Result<Image, Refusal>
    ensures answer { Answers (executable number (elf_of bytes.now)) result }
    ensures other { IsOther result }
    ensures bytes { IfOk result HoldsItsBytes }
{
    match read_elf(alloc, bytes) {
        Ok(image) => Ok(image),
        Err(ImageFault::NoMemory) => Err(Refusal::NoMemory),
        Err(fault) => Err(Refusal::Image {
            number,
            refusal: ImageRefusal::Elf { fault },
        }),
    }
}

/// Flat bytes for an address.
pub fn flat(alloc: Global, bytes: Vec<u8>, at: u32) -> Result<Image, Refusal>
    requires { at % 4 ≡ 0 }
    ensures image { IfOk result (λ image. image ≡ flat_image bytes.items at) }
    ensures memory { IfErr result (λ refusal. refusal ≡ Refusal.NoMemory) }
    ensures bytes { IfOk result HoldsItsBytes }
{
    // An image has fewer than 2^32 bytes; more can't be held.
    if bytes.len() > u32::MAX as usize {
        return Err(Refusal::NoMemory);
    }
    Ok(read_flat(alloc, bytes, at)?)
}

/// Whether the bytes begin as an executable does.
pub fn has_magic(bytes: &[u8]) -> bool
    ensures { result ≡ has_magic bytes.now }
{
    bytes.starts_with(b"\x7fELF")
}

/// Images laid into the memories of a machine.
pub fn load_images(machine: &Machine, images: Vec<Image>) -> Result<Loaded, Refusal>
    requires count { (vec_len images ≡ 1) ⊎ (vec_len images ≡ machine.now.nodes) }
    requires bytes { All HoldsItsBytes images.items }
    ensures answer { Answers (load_case machine.now images.items) result }
    ensures other { IsOther result }
    ensures loaded { IfOk result (λ loaded. loaded ≡ loaded_with machine.now images.items) }
    ensures placed { IfOk result (λ _. load_fault machine.now 0 images.items ≡ None) }
{
    match load(machine, images) {
        Ok(loaded) => Ok(loaded),
        Err(fault) => Err(refused_load(fault)),
    }
}

fn refused_load(fault: LoadFault) -> Refusal
    ensures value { result ≡ refused_load fault }
    ensures other { IsOtherRefusal result }
{
    match fault {
        LoadFault::Outside { image, address } => Refusal::Image {
            number: image,
            refusal: ImageRefusal::Outside { address },
        },
        LoadFault::BadEntry { image, entry } => Refusal::Image {
            number: image,
            refusal: ImageRefusal::Entry { entry },
        },
        LoadFault::NoMemory => Refusal::NoMemory,
    }
}
