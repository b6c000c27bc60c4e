ghost use Rattle.std.specs.Prelude.{◌≡◌, ◌+◌, ◌%◌, ◌^◌, ◌<◌, ◌∷◌, ◌++◌, [], length, All, IfOk, IfErr, OnOk};
ghost use Rattle.elf_image.specs.Sizes.{HoldsItsBytes};
ghost use Rattle.machine_json.specs.Images.{IsPlaced};
ghost use Rattle.wwt_case.specs.Programs.{image_plan, file_plan, images_plan};
ghost use Rattle.wwt_case.specs.Reading.{Reads, IsOther};

use crate::name::Name;
use crate::program::{flat, program};
use crate::read::read_file;
use crate::refusal::{FileKind, Refusal};
use elf_image::Image;
use machine_json::ImageSpec;
use std::alloc::Global;
use std::marker::Model;
use wt_outside::Store;

/// Images, in the order of a description. Contracts see them as their list.
#[derive(Debug, Drop)]
pub struct Images {
    inner: Vec<Image>,
}

impl Model for Images {
    ghost use Rattle.std.specs.Prelude.{List};
    ghost use Rattle.elf_image.specs.declared.image.Image.{Image};

    ghost Value = { List Image };

    ghost view = { λ images. images.inner.items };
}

impl Images {
    /// No image yet.
    pub fn new(alloc: Global) -> Images
        ensures { result ≡ [] }
    {
        Images {
            inner: Vec::new(alloc),
        }
    }

    /// Adds an image at the end.
    pub fn push(&mut self, image: Image) -> Result<(), Refusal>
        ensures ok { OnOk result (self.new ≡ self.old ++ image ∷ []) }
        ensures memory { IfErr result (λ refusal. refusal ≡ Refusal.NoMemory) }
    {
        match self.inner.push(image) {
            Ok(()) => Ok(()),
            Err(_) => Err(Refusal::NoMemory),
        }
    }

    /// The images as they are.
    pub fn into_inner(self) -> Vec<Image>
        ensures { result.items ≡ self }
    {
        self.inner
    }
}

/// The images of these entries, which are counted on from a number, after those that were found.
pub fn read_images<S: Store>(
    alloc: Global,
    found: Images,
    number: u32,
    entries: &[ImageSpec],
    store: &mut S,
) -> Result<Images, Refusal>
    requires placed { All IsPlaced entries.now }
    requires few { number + length entries.now < 2 ^ 32 }
    requires held { All HoldsItsBytes found }
    ensures read { Reads (images_plan found number entries.now) S.view store.old store.new result }
    ensures other { IsOther result }
    ensures bytes { IfOk result (All HoldsItsBytes) }
    ensures count { IfOk result (λ images. length images ≡ length found + length entries.now) }
{
    let [entry, rest @ ..] = entries else {
        return Ok(found);
    };
    match read_image(alloc, number, entry, store) {
        Ok(image) => match with_image(found, image) {
            Ok(found) => read_images(alloc, found, number + 1, rest, store),
            Err(refusal) => Err(refusal),
        },
        Err(refusal) => Err(refusal),
    }
}

/// The images with one more.
fn with_image(images: Images, image: Image) -> Result<Images, Refusal>
    requires images { All HoldsItsBytes images }
    requires image { HoldsItsBytes image }
    ensures ok { IfOk result (λ more. more ≡ images ++ image ∷ []) }
    ensures memory { IfErr result (λ refusal. refusal ≡ Refusal.NoMemory) }
    ensures held { IfOk result (All HoldsItsBytes) }
{
    let mut more = images;
    more.push(image)?;
    Ok(more)
}

/// The image with this number, by its entry in the description.
pub fn read_image<S: Store>(
    alloc: Global,
    number: u32,
    entry: &ImageSpec,
    store: &mut S,
) -> Result<Image, Refusal>
    requires { IsPlaced entry.now }
    ensures read { Reads (image_plan number entry.now) S.view store.old store.new result }
    ensures other { IsOther result }
    ensures bytes { IfOk result HoldsItsBytes }
{
    match entry {
        ImageSpec::Bytes { at, bytes } => {
            let copy = match bytes.get().to_vec(alloc) {
                Ok(copy) => copy,
                Err(_) => return Err(Refusal::NoMemory),
            };
            flat(alloc, copy, *at)
        }
        ImageSpec::File { name, elf, at } => {
            read_program(alloc, number, name.get(), *elf, *at, store)
        }
    }
}

/// The image with this number, of the file of a name.
pub fn read_program<S: Store>(
    alloc: Global,
    number: u32,
    name: &str,
    elf: bool,
    at: u32,
    store: &mut S,
) -> Result<Image, Refusal>
    requires { at % 4 ≡ 0 }
    ensures read { Reads (file_plan number name.now elf at) S.view store.old store.new result }
    ensures other { IsOther result }
    ensures bytes { IfOk result HoldsItsBytes }
{
    let file = Name::new(alloc, name)?;
    match read_file(store, file, FileKind::Image { number }) {
        Ok(bytes) => program(alloc, number, elf, at, bytes),
        Err(refusal) => Err(refusal),
    }
}
