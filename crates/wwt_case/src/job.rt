use elf_image::Image;
use image_loader::Loaded;
use wt_params::Machine;

/// A machine with its images loaded, and the version of its description.
#[derive(Debug, Drop)]
pub(crate) struct Described {
    pub version: u64,
    pub machine: Machine,
    pub loaded: Loaded,
}

/// What is to be done for an accepted command.
#[derive(Debug, Drop)]
pub enum Job {
    /// Print a machine and its images, and the version of its description, 1 or 2.
    Check {
        version: u64,
        machine: Machine,
        loaded: Loaded,
    },
    /// Print the words of an image.
    Dis {
        image: Image,
    },
    /// Run flat bytes on the flat machine.
    Flat {
        loaded: Loaded,
    },
    /// Run a machine by so many workers, 1 to 16, and tell its events, registers and memories where they are asked for.
    Run {
        machine: Machine,
        loaded: Loaded,
        workers: u32,
        trace: bool,
        memory: bool,
    },
    /// Run a generated machine by so many workers, 1 to 16.
    Load {
        machine: Machine,
        loaded: Loaded,
        workers: u32,
    },
}
