ghost use Rattle.std.specs.Prelude.{◌≡◌, ◌<◌, ◌≤◌, length, OnOk, OnErr};
ghost use Rattle.wt_outside.specs.Faults.{Rose};
ghost use Rattle.wt_outside.specs.Growth.{Grows, GrowsByPrefix};
ghost use Rattle.wt_outside.specs.Views.{SinkView};

use thiserror::Error;

/// Writing failed.
#[derive(Clone, Copy, Debug, PartialEq, Eq, Error)]
#[error("can't be written")]
pub struct Failed;

/// Takes bytes, in order.
pub trait Sink {
    /// What it shows: the bytes that were written, and how often writing has failed.
    ghost view: { SinkView Self };

    /// Writes all of these bytes, or fails with some first part of them written.
    fn write(&mut self, bytes: &[u8]) -> Result<(), Failed>
        requires { 0 < length bytes.now }
        ensures ok { OnOk result (Grows (view.written self.old) (view.written self.new) bytes.now) }
        ensures err { OnErr result (GrowsByPrefix (view.written self.old) (view.written self.new) bytes.now) }

        // Only the outside makes a failure.
        ensures steady { OnOk result (view.faults self.new ≡ view.faults self.old) }
        ensures failed { OnErr result (Rose (view.faults self.old) (view.faults self.new)) }

        ensures later { view.faults self.old ≤ view.faults self.new };
}
