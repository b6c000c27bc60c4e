ghost use Rattle.std.specs.Prelude.{◌≡◌, ◌<◌, ◌^◌, IfSome};
ghost use Rattle.quantum.specs.Sole.{quanta_after};

use wt_params::Machine;
use wt_proto::Key;

/// The quanta of a run so far.
#[derive(Clone, Copy, Debug)]
pub struct Quanta {
    /// The end of the last quantum that was begun.
    pub kept_end: u64,
    /// How many were begun.
    pub count: u64,
}

impl Quanta {
    /// Counts an event by its key. One that isn't before the kept end begins a quantum.
    pub(crate) fn count_event(&mut self, machine: &Machine, event: Option<Key>)
        requires early { IfSome event (λ key. key.time < 2 ^ 40) }
        requires room { self.old.count < 2 ^ 60 }
        ensures { self.new ≡ quanta_after machine.now event self.old }
    {
        if let Some(key) = event {
            if self.kept_end <= key.time {
                self.kept_end = (key.time + machine.quantum()).min(machine.budget());
                self.count += 1;
            }
        }
    }
}
