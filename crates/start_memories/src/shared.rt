ghost use Rattle.std.specs.Prelude.{◌≡◌, ◌<◌, length, All, IfOk};
ghost use Rattle.dir1sw.specs.Fits.{HomeFits};
ghost use Rattle.dir1sw.specs.Homes.{IsHome, fresh_block, with_block};
ghost use Rattle.dir1sw.specs.Homes.{block_of as kept_of};
ghost use Rattle.image_loader.specs.Images.{IsFor};
ghost use Rattle.image_loader.specs.Loading.{block_of};
ghost use Rattle.start_memories.specs.Start.{block_at_start, homes_of};

use crate::part::{self, SHARED_BASE};
use dir1sw::Directory;
use image_loader::Loaded;
use std::alloc::Global;
use wt_params::{Machine, NoMemory};

/// A node's directory at the start: the segments of all nodes are laid into shared memory, the nodes in order, and the
/// directory has what they leave in each block whose home the node is.
pub fn directory_at_start(
    alloc: Global,
    machine: &Machine,
    loaded: &Loaded,
    node: u32,
) -> Result<Directory, NoMemory>
    requires node { node < machine.now.nodes }
    requires images { IsFor machine.now loaded.now }
    ensures value { IfOk result (λ directory. directory ≡ homes_of machine.now loaded.now node) }
    ensures fits { IfOk result (λ directory. All (HomeFits machine.now) directory.blocks) }
{
    let mut directory = Directory::new(alloc, machine, node)?;
    let nodes = machine.nodes();
    let count = (machine.blocks() + (nodes - 1 - node as u64)) / nodes;
    for place in 0..count {
        let block = node as u64 + place * nodes;
        fill_block(machine, loaded, block as u32, &mut directory);
    }
    Ok(directory)
}

/// Lays what loading leaves in a block into its memory.
fn fill_block(machine: &Machine, loaded: &Loaded, block: u32, directory: &mut Directory)
    requires images { IsFor machine.now loaded.now }
    requires machine { directory.old.machine ≡ machine.now }
    requires here { IsHome directory.old block }
    requires fresh { kept_of directory.old block ≡ fresh_block machine.now }
    ensures value { directory.new ≡ with_block block (block_at_start machine.now loaded.now block) directory.old }
    ensures size { length (block_of loaded.now block) ≡ machine.now.block_bytes }
{
    let mut bytes = [0; 128];
    let memory = &mut bytes[..machine.block_bytes() as usize];
    let start = machine.block_address(block) - SHARED_BASE;
    part::load(machine, loaded, start, memory);
    directory.fill(block, 0, memory);
}
