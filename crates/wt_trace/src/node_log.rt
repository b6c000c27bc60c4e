ghost use Rattle.std.specs.Prelude.{◌≡◌, IfOk};

use crate::record::Record;
use std::alloc::Global;
use wt_params::NoMemory;
use wt_proto::Fifo;

/// The records of a node's events, in the order in which it handled them.
pub type NodeLog = Fifo<Record>;

/// What a log can do besides being a list.
pub trait Log: Sized {
    /// An equal list.
    fn copy(&self, alloc: Global) -> Result<Self, NoMemory>
        ensures { IfOk result (λ copy. copy ≡ self.now) };
}

impl Log for NodeLog {
    fn copy(&self, alloc: Global) -> Result<NodeLog, NoMemory> {
        let mut list = NodeLog::new(alloc);
        while let Some(item) = self.get(list.len()) {
            list.push(item.copy(alloc)?)?;
        }
        Ok(list)
    }
}
