ghost use Rattle.std.specs.Prelude.{◌≡◌};
ghost use Rattle.wt_outside.specs.declared.fault.WriteFault.TheVariants.{NoMemory};

use thiserror::Error;

/// Why a text wasn't written whole.
#[derive(Clone, Copy, Debug, PartialEq, Eq, Error)]
pub enum WriteFault {
    /// The sink failed.
    #[error("the sink failed")]
    Failed,
    /// Memory was wanted and refused.
    #[error("out of memory")]
    NoMemory,
}

impl From<wt_params::NoMemory> for WriteFault {
    ghost from_gives = { λ _ fault. fault ≡ NoMemory };

    fn from(_error: wt_params::NoMemory) -> WriteFault {
        WriteFault::NoMemory
    }
}
