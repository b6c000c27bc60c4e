ghost use Rattle.std.specs.Prelude.{◌≡◌, ◌≤◌, ◌⊎◌, IfOk, IsSome, IsErrOf, vec_len};
ghost use Rattle.wt_outside.specs.Faults.{Rose, Stood};
ghost use Rattle.wt_outside.specs.Files.{IsMissing, HoldsThere, IsLonger};
ghost use Rattle.wt_outside.specs.Views.{StoreView};

use thiserror::Error;

/// Why a read gave no bytes.
#[derive(Clone, Copy, Debug, PartialEq, Eq, Error)]
pub enum StoreFail {
    /// Reading failed, or there is no such file.
    #[error("can't be read")]
    Failed,
    /// The file holds more bytes than were asked for.
    #[error("too long")]
    TooLong,
    /// Memory was wanted and refused.
    #[error("out of memory")]
    NoMemory,
}

/// Files by name, each read whole.
pub trait Store {
    ghost use Rattle.wt_outside.specs.Answers.{UnlessFailed};

    /// What it shows: its files, how often reading has failed, and what a read makes of it.
    ghost view: { StoreView Self };

    /// All bytes of a file, where there are at most `limit`. The name `-` is standard input.
    fn read(&mut self, name: &str, limit: u64) -> Result<Vec<u8>, StoreFail>
        // Reading changes no file.
        ensures files { view.files self.new ≡ view.files self.old }

        ensures within { IfOk result (λ bytes. vec_len bytes ≤ limit) }
        ensures content { IfOk result (λ bytes. HoldsThere (view.files self.old) name.now bytes.items) }

        // Only the outside makes a failure: a fault that is counted, or a name that the told files lack.
        ensures failed { IsErrOf result StoreFail.Failed → Rose (view.faults self.old) (view.faults self.new) ⊎ IsMissing (view.files self.old) name.now }
        ensures missing { IsMissing (view.files self.old) name.now → Stood (view.faults self.old) (view.faults self.new) → IsErrOf result StoreFail.Failed }

        // Of told files TooLong comes exactly where no fault rose and the file is longer; `NoMemory` alone may come in its place.
        ensures too_long { IsErrOf result StoreFail.TooLong → IsSome (view.files self.old) → Stood (view.faults self.old) (view.faults self.new) × IsLonger (view.files self.old) name.now limit }
        ensures longer { IsLonger (view.files self.old) name.now limit → Stood (view.faults self.old) (view.faults self.new) → IsErrOf result StoreFail.TooLong ⊎ IsErrOf result StoreFail.NoMemory }

        // This name was asked for, up to this limit.
        ensures asked { view.asked self.old name.now limit self.new }

        // Every other answer leaves the count as it was.
        ensures steady { UnlessFailed result (view.faults self.new ≡ view.faults self.old) }
        ensures later { view.faults self.old ≤ view.faults self.new };
}
