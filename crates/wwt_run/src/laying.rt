//! How long it takes to lay images into the memories of a machine.
use image_loader::Loaded;
use wt_params::{Machine, NoMemory};

/// A step lays so many bytes at a node.
const BYTES_OF_STEP: u64 = 32;

/// No more steps than these are done before a run: some seconds.
const MOST_STEPS: u64 = 1 << 30;

/// Refuses images that would be laid for minutes or hours. A file of 2 MiB has room for 65535 segments, each of which
/// can ask for all the memory of each node to be made zero.
pub fn test_laying(machine: &Machine, loaded: &Loaded) -> Result<(), NoMemory> {
    if steps(machine, loaded) > MOST_STEPS {
        return Err(NoMemory);
    }
    Ok(())
}

/// The steps of laying: those for the bytes of each segment at each node that it serves, and one for each block, of
/// which it has to be known whether the segment lies in it.
fn steps(machine: &Machine, loaded: &Loaded) -> u64 {
    let images = loaded.images();
    let served = if images.len() == 1 {
        machine.nodes()
    } else {
        1
    };
    let mut sum = 0u64;
    for image in images {
        for segment in image.segments.get() {
            let bytes = (segment.size as u64).saturating_mul(served);
            sum = sum
                .saturating_add(bytes / BYTES_OF_STEP)
                .saturating_add(machine.blocks());
        }
    }
    sum
}
