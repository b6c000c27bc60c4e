ghost use Rattle.std.specs.Prelude.{◌≡◌, ◌<◌, ℕ, Some, length, slice_get, IfOk};
ghost use Rattle.image_loader.specs.Images.{IsFor};
ghost use Rattle.image_loader.specs.Loading.{shared_of};
ghost use Rattle.start_memories.specs.Start.{homes_of};

use dir1sw::Directory;
use image_loader::Loaded;
use start_memories::directory_at_start;
use std::alloc::Global;
use wt_params::{Machine, NoMemory};

/// All of shared memory at the start: the memory of each block, as its home has it.
pub(crate) fn shared_at_start(
    alloc: Global,
    machine: &Machine,
    loaded: &Loaded,
) -> Result<Vec<u8>, NoMemory>
    requires { IsFor machine.now loaded.now }
    ensures { IfOk result (λ memory. memory.items ≡ shared_of loaded.now) }
{
    let homes = directories(alloc, machine, loaded)?;
    let parts = machine.parts();
    let _images = loaded.images();
    let mut memory = Vec::new(alloc);
    for block in 0..parts.blocks {
        let home = &homes[(block % parts.nodes) as usize];
        memory.extend_from_slice(home.memory(block as u32))?;
    }
    Ok(memory)
}

/// The directories of all nodes at the start.
fn directories(
    alloc: Global,
    machine: &Machine,
    loaded: &Loaded,
) -> Result<Vec<Directory>, NoMemory>
    requires { IsFor machine.now loaded.now }
    ensures count { IfOk result (λ homes. length homes.items ≡ machine.now.nodes) }
    ensures each { IfOk result (λ homes. (node : ℕ) → node < machine.now.nodes →
        slice_get homes.items node ≡ Some (homes_of machine.now loaded.now node)) }
{
    let mut homes = Vec::new(alloc);
    for node in 0..machine.nodes() {
        homes.push(directory_at_start(alloc, machine, loaded, node as u32)?)?;
    }
    Ok(homes)
}
