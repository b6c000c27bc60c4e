use thiserror::Error;

/// A step of a core.
#[derive(Clone, Copy, Debug, PartialEq, Eq)]
pub enum Step {
    /// A node runs on its own up to the end of the quantum.
    Quantum { node: u32 },
    /// The first message that a node has sent to another, and that isn't deposited yet, goes to the end of the other's
    /// inbox.
    Deposit { from: u32, to: u32 },
    /// Each node is given what was deposited for it, and the next quantum is opened.
    Turn,
}

/// Why a step isn't enabled.
#[derive(Clone, Copy, Debug, PartialEq, Eq)]
pub enum Why {
    /// No quantum is open: no event is left.
    Ended,
    /// The machine has no such node.
    NoNode { node: u32 },
    /// This node has run in the quantum.
    Done { node: u32 },
    /// This node hasn't run in the quantum yet.
    NotDone { node: u32 },
    /// Nothing is left to deposit from the one to the other.
    NoneOut { from: u32, to: u32 },
    /// Something is left to deposit from the one to the other.
    Out { from: u32, to: u32 },
}

/// Why a step wasn't done.
#[derive(Clone, Copy, Debug, PartialEq, Eq, Error)]
pub enum StepFault {
    /// Memory was wanted and refused. The core is broken.
    #[error("out of memory")]
    NoMemory,
    /// The step isn't enabled, for this reason, the first of all. The core is as it was.
    #[error("the step is not enabled")]
    Refused { step: Step, why: Why },
}
