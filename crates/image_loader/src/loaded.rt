ghost use Rattle.std.specs.Prelude.{◌≡◌, ◌<◌, Some};
ghost use Rattle.image_loader.specs.Images.{image_of};
ghost use Rattle.image_loader.specs.Loading.{AreLoaded, IsProgram, IsEntryOf, shared_bytes};

use elf_image::Image;
use std::marker::Model;

/// Images whose segments lie in the memories of a machine, one for all nodes or one for each. Contracts see the four
/// numbers of the machine that count for loading, and the images.
#[derive(Debug, Drop)]
pub struct Loaded {
    pub(crate) nodes: u64,
    pub(crate) private_bytes: u64,
    pub(crate) block_bytes: u64,
    pub(crate) blocks: u64,
    pub(crate) images: Vec<Image>,
}

impl Model for Loaded {
    ghost use Rattle.image_loader.specs.Images.{LoadedImages};

    ghost Value = { LoadedImages };

    ghost use Rattle.image_loader.specs.Inside.{loaded_images, IsSound};

    ghost view = { loaded_images };

    ghost invariant = { IsSound };
}

impl Loaded {
    /// The images, in their order. Each of them can be loaded.
    pub fn images(&self) -> &[Image]
        ensures value { result.now ≡ self.now.images }
        ensures loaded { AreLoaded self.now }
    {
        self.images.as_slice()
    }

    /// The address of a node's first instruction.
    pub fn entry(&self, node: u32) -> u32
        requires { node < self.now.nodes }
        ensures value { IsEntryOf self.now node result }
    {
        self.image(node).entry
    }

    /// The image that serves a node.
    pub fn image(&self, node: u32) -> &Image
        requires { node < self.now.nodes }
        ensures value { image_of self.now node ≡ Some result.now }
        ensures program { IsProgram self.now.private_bytes (shared_bytes self.now) result.now }
    {
        if self.images.len() == 1 {
            &self.images[0]
        } else {
            &self.images[node as usize]
        }
    }
}
