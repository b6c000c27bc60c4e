ghost use Rattle.std.specs.Prelude.{◌≡◌, ◌∷◌, [], IfOk};
ghost use Rattle.image_loader.specs.Examples.{two_images};
ghost use Rattle.elf_image.specs.Sizes.{HoldsItsBytes};
ghost use Rattle.image_loader.specs.Loading.{private_of, shared_of, block_of};

use elf_image::{Bytes, Image, Segment, Segments};
use image_loader::{LoadFault, load};
use std::alloc::Global;
use std::test::Fail;
use test_machines::two_nodes;

/// One image for both nodes of a machine, or one for each: the entry, where the one segment is, and its size, all in
/// hexadecimal; and what loading answers, with the entry of the last node.
const ROWS: &str = "0 0 1000 => Ok(0)
0 0 1001 => Err(Outside { image: 0, address: 4096 })
0 fff 1 => Ok(0)
0 1000 1 => Err(Outside { image: 0, address: 4096 })
0 ffc ffffffff => Err(Outside { image: 0, address: 4096 })
0 7fffffff 2 => Err(Outside { image: 0, address: 2147483647 })
0 80000000 40 => Ok(0)
0 80000000 41 => Err(Outside { image: 0, address: 2147483712 })
0 8000003f 1 => Ok(0)
0 80000040 1 => Err(Outside { image: 0, address: 2147483712 })
0 fffffff0 ffffffff => Err(Outside { image: 0, address: 4294967280 })
0 1000 0 => Ok(0)
0 ffffffff 0 => Ok(0)
ffc 0 1 => Ok(4092)
1000 0 1 => Err(BadEntry { image: 0, entry: 4096 })
2 0 1 => Err(BadEntry { image: 0, entry: 2 })
80000000 0 1 => Err(BadEntry { image: 0, entry: 2147483648 })
2 1000 1 => Err(Outside { image: 0, address: 4096 })
0 80000000 8 and 8 80000004 8 => Ok(8)
2 0 1 and 0 fff 2 => Err(BadEntry { image: 0, entry: 2 })
0 80000000 8 and 0 fff 2 => Err(Outside { image: 1, address: 4096 })";

/// The image of a row.
fn image_of(alloc: Global, text: &str) -> Result<Image, Fail>
    ensures { IfOk result HoldsItsBytes }
{
    let (entry, text) = text.split_once(' ').ok_or("no place")?;
    let (at, size) = text.split_once(' ').ok_or("no size")?;
    let mut segments = Vec::new(alloc);
    segments.push(Segment {
        at: u32::from_str_radix(at, 16)?,
        bytes: Bytes::new(Vec::new(alloc)),
        size: u32::from_str_radix(size, 16)?,
    })?;
    Ok(Image {
        entry: u32::from_str_radix(entry, 16)?,
        segments: Segments::new(segments),
    })
}

/// What loading the images of a row answers.
fn answer(alloc: Global, text: &str) -> Result<Result<u32, LoadFault>, Fail> {
    let machine = two_nodes();
    let mut images = Vec::new(alloc);
    match text.split_once(" and ") {
        None => images.push(image_of(alloc, text)?)?,
        Some((first, second)) => {
            images.push(image_of(alloc, first)?)?;
            images.push(image_of(alloc, second)?)?;
        }
    }
    match load(&machine, images) {
        Ok(loaded) => Ok(Ok(loaded.entry(1))),
        Err(fault) => Ok(Err(fault)),
    }
}

#[test]
fn each_fault_and_its_good_side(rt: HostRuntime) -> Result<(), Fail> {
    let alloc = rt.alloc();
    for row in ROWS.split('\n') {
        let (images, wanted) = row.split_once(" => ").ok_or("no answer in a row")?;
        let found = answer(alloc, images)?;
        let told = format!(in alloc; "{found:?}")?;
        assert!(rt; told.as_str() == wanted, "{row}");
    }
    Ok(())
}

/// The definition, computed by the checker on two images that overlap in shared memory.
fn definition_of_loading()
    ensures first { private_of two_images 0 ≡ 0 ∷ 1 ∷ 9 ∷ 3 ∷ 0 ∷ 0 ∷ 0 ∷ 0 ∷ [] }
    ensures second { private_of two_images 1 ≡ 0 ∷ 0 ∷ 0 ∷ 0 ∷ 0 ∷ 0 ∷ 0 ∷ 7 ∷ [] }
    ensures shared { shared_of two_images ≡ 0 ∷ 5 ∷ 8 ∷ 0 ∷ 0 ∷ 0 ∷ 0 ∷ 6 ∷ [] }
    ensures block { block_of two_images 1 ≡ 0 ∷ 0 ∷ 0 ∷ 6 ∷ [] }
{}

#[test]
fn later_bytes_win_and_the_rest_of_a_segment_is_zero() {
    definition_of_loading();
}
