use std::alloc::{AllocError, AllocFailed};
use thiserror::Error;

/// Why the bytes of a file aren't an executable that can be run, in the order in which it is tested.
#[derive(Clone, Copy, Debug, PartialEq, Eq, Error)]
pub enum ImageFault {
    /// There are fewer bytes than a file header has.
    #[error("shorter than a file header")]
    Short,
    /// The bytes don't begin with the magic number.
    #[error("no ELF file")]
    Magic,
    /// It isn't of 32 bits.
    #[error("not of 32 bits")]
    Class,
    /// It isn't little-endian.
    #[error("not little-endian")]
    Order,
    /// It isn't an executable of fixed addresses.
    #[error("no executable of fixed addresses")]
    NotExec,
    /// It isn't for RISC-V.
    #[error("not for RISC-V")]
    Machine,
    /// Its program headers aren't of 32 bytes.
    #[error("program headers of another size")]
    Entries,
    /// Its program headers end past the file.
    #[error("program headers past the end")]
    TableOutside,
    /// It wants a dynamic linker.
    #[error("dynamically linked")]
    Dynamic,
    /// The bytes of a segment end past the file.
    #[error("a segment past the end")]
    SegmentOutside,
    /// A segment is smaller in memory than in the file.
    #[error("a segment smaller in memory than in the file")]
    SizeLess,
    /// It has no segment to load.
    #[error("no segment to load")]
    NoLoad,
    /// Memory was wanted and refused.
    #[error("out of memory")]
    NoMemory,
}

impl From<AllocError> for ImageFault {
    ghost use Rattle.std.specs.Prelude.{◌≡◌};
    ghost use Rattle.elf_image.specs.declared.fault.ImageFault.TheVariants.{NoMemory};

    ghost from_gives = { λ _ fault. fault ≡ NoMemory };

    fn from(_refused: AllocError) -> ImageFault {
        ImageFault::NoMemory
    }
}

impl<T: Drop> From<AllocFailed<T>> for ImageFault {
    ghost use Rattle.std.specs.Prelude.{◌≡◌};
    ghost use Rattle.elf_image.specs.declared.fault.ImageFault.TheVariants.{NoMemory};

    ghost from_gives = { λ _ fault. fault ≡ NoMemory };

    fn from(_refused: AllocFailed<T>) -> ImageFault {
        ImageFault::NoMemory
    }
}
