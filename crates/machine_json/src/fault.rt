use crate::lists::Key;
use std::alloc::{AllocError, AllocFailed};
use wt_params::NoMemory;

/// Why a description is refused.
#[derive(Debug, Drop)]
pub enum MachineFault {
    /// The description is too long. Whoever reads it from a store says so; the reader here never does.
    TooLong,
    /// The bytes are no JSON text.
    Syntax,
    /// The value isn't an object.
    NotObject,
    /// There is a member of this key, which isn't in the table.
    Unknown(Key),
    /// There is no member of this key, or both of two that exclude each other.
    Missing(Key),
    /// The member of this key isn't of its kind.
    Kind(Key),
    /// The number of this key is outside its range.
    Range(Key, u64),
    /// The text of the image with this number isn't an even number of hexadecimal digits.
    Hex(u64),
    /// Memory was wanted and refused.
    NoMemory,
}

impl From<NoMemory> for MachineFault {
    ghost use Rattle.std.specs.Prelude.{◌≡◌};
    ghost use Rattle.machine_json.specs.declared.fault.MachineFault.TheVariants as faults;

    ghost from_gives = { λ _ fault. fault ≡ faults.NoMemory };

    fn from(_refused: NoMemory) -> MachineFault {
        MachineFault::NoMemory
    }
}

impl From<AllocError> for MachineFault {
    ghost use Rattle.std.specs.Prelude.{◌≡◌};
    ghost use Rattle.machine_json.specs.declared.fault.MachineFault.TheVariants as faults;

    ghost from_gives = { λ _ fault. fault ≡ faults.NoMemory };

    fn from(_refused: AllocError) -> MachineFault {
        MachineFault::NoMemory
    }
}

impl<T: Drop> From<AllocFailed<T>> for MachineFault {
    ghost use Rattle.std.specs.Prelude.{◌≡◌};
    ghost use Rattle.machine_json.specs.declared.fault.MachineFault.TheVariants as faults;

    ghost from_gives = { λ _ fault. fault ≡ faults.NoMemory };

    fn from(_refused: AllocFailed<T>) -> MachineFault {
        MachineFault::NoMemory
    }
}
