ghost use Rattle.std.specs.Prelude.{◌≡◌};
ghost use Rattle.wwt_case.specs.declared.refusal.Refusal.TheVariants.{NoMemory};

use crate::name::Name;
use elf_image::ImageFault;
use machine_json::MachineFault;
use wt_params::NoMemory;

/// Why an image is refused.
#[derive(Clone, Copy, Debug, PartialEq, Eq)]
pub enum ImageRefusal {
    /// It has more bytes than are read.
    TooLong,
    /// It is no executable that can be run.
    Elf { fault: ImageFault },
    /// It has a byte at this address, which lies in no memory.
    Outside { address: u32 },
    /// It begins at this address, where no instruction can stand.
    Entry { entry: u32 },
}

/// Why a command isn't done.
#[derive(Debug, Drop)]
pub enum Refusal {
    /// The words are no command.
    Usage,
    /// The file of this name can't be read.
    Read { name: Name },
    /// The description of the machine is refused.
    Machine { fault: MachineFault },
    /// The image with this number is refused.
    Image { number: u32, refusal: ImageRefusal },
    /// The output can't be written.
    Write,
    /// Memory was wanted and refused.
    NoMemory,
}

/// What a file is read as.
#[derive(Clone, Copy, Debug, PartialEq, Eq)]
pub enum FileKind {
    /// The description of the machine.
    Description,
    /// The image with this number.
    Image { number: u32 },
}

impl From<NoMemory> for Refusal {
    ghost from_gives = { λ _ refusal. refusal ≡ NoMemory };

    fn from(_error: NoMemory) -> Refusal {
        Refusal::NoMemory
    }
}
