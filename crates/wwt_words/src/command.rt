ghost use Rattle.std.specs.Prelude.{◌≡◌};
ghost use Rattle.wwt_words.specs.declared.command.WordFault.TheVariants.{NoMemory};
ghost use Rattle.wwt_words.specs.Workers.{workers_in};

use crate::word::Word;
use std::alloc::AllocError;
use thiserror::Error;

/// What the words call for.
#[derive(Debug, Drop)]
pub enum Command {
    /// Run a machine by its description and print the report.
    Run {
        /// How many workers, 1 to 16.
        workers: u32,
        /// Whether each event is printed.
        trace: bool,
        /// Whether registers and memory are printed.
        memory: bool,
        /// The budget that takes the place of the description's, 1 to 2^40 cycles.
        budget: Option<u64>,
        /// The name of the description.
        machine: Word,
    },
    /// Read and load a machine and print it.
    Check {
        /// The name of the description.
        machine: Word,
    },
    /// Run a generated machine and print the summary.
    Load {
        /// The number it is generated from, at most 9999.
        number: u64,
        /// How many workers, 1 to 16.
        workers: u32,
    },
    /// Print the words of an image.
    Dis {
        /// The name of the image.
        image: Word,
    },
    /// Run flat bytes from standard input and print the report.
    Flat,
}

impl Command {
    /// How many workers are called for: one but for a run or a load that asks for more.
    pub fn workers(&self) -> u32
        ensures { result ≡ workers_in self.now }
    {
        match self {
            Command::Run { workers, .. } | Command::Load { workers, .. } => *workers,
            _ => 1,
        }
    }
}

/// Why words make no command.
#[derive(Clone, Copy, Debug, PartialEq, Eq, Error)]
pub enum WordFault {
    /// They are no command's words.
    #[error("no command of these words")]
    Usage,
    /// Memory was wanted and refused.
    #[error("out of memory")]
    NoMemory,
}

impl From<AllocError> for WordFault {
    ghost from_gives = { λ _ fault. fault ≡ NoMemory };

    fn from(_error: AllocError) -> WordFault {
        WordFault::NoMemory
    }
}
