ghost use Rattle.std.specs.Prelude.{◌≡◌};
ghost use Rattle.wwt_case.specs.Files.{too_long_of};
ghost use Rattle.wwt_case.specs.Plan.{file};
ghost use Rattle.wwt_case.specs.Reading.{Reads, IsOther, IsOtherRefusal};

use crate::name::Name;
use crate::refusal::{FileKind, ImageRefusal, Refusal};
use elf_image::Bytes;
use machine_json::MachineFault;
use wt_outside::{Store, StoreFail};

/// No more bytes of a file than these are read.
const READ_LIMIT: u64 = 16_777_216;

/// The bytes of the file of a name, which is read as this kind of file.
pub fn read_file<S: Store>(store: &mut S, name: Name, kind: FileKind) -> Result<Bytes, Refusal>
    ensures read { Reads (file name kind) S.view store.old store.new result }
    ensures other { IsOther result }
{
    match store.read(name.get(), READ_LIMIT) {
        Ok(bytes) => Ok(Bytes::new(bytes)),
        Err(StoreFail::Failed) => Err(Refusal::Read { name }),
        Err(StoreFail::TooLong) => Err(too_long(kind)),
        Err(StoreFail::NoMemory) => Err(Refusal::NoMemory),
    }
}

/// The refusal of a file that is too long.
fn too_long(kind: FileKind) -> Refusal
    ensures value { result ≡ too_long_of kind }
    ensures other { IsOtherRefusal result }
{
    match kind {
        FileKind::Description => Refusal::Machine {
            fault: MachineFault::TooLong,
        },
        FileKind::Image { number } => Refusal::Image {
            number,
            refusal: ImageRefusal::TooLong,
        },
    }
}
