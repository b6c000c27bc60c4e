ghost use Rattle.std.specs.Prelude.{◌≡◌};
ghost use Rattle.wwt_run.specs.Status.{code_of};

/// How a call of the program ends.
#[derive(Clone, Copy, Debug, PartialEq, Eq)]
pub enum Status {
    /// Every node's program ended itself by the code 0.
    Done,
    /// Every processor has stopped, and some otherwise than by an exit of code 0.
    NodeFault,
    /// The words are refused.
    Usage,
    /// What was left came after the budget.
    Budget,
    /// A node had handled all the events that it may.
    EventLimit,
    /// Nothing was left to handle, and some processor waited.
    Stalled,
    /// The description of the machine is refused.
    BadMachine,
    /// An image is refused.
    BadImage,
    /// A file can't be read.
    ReadFault,
    /// The output can't be written.
    WriteFault,
    /// Memory was wanted and refused.
    NoMemory,
}

impl Status {
    /// The exit status of the program.
    pub fn code(&self) -> u8
        ensures { result ≡ code_of self.now }
    {
        match self {
            Status::Done => 0,
            Status::NodeFault => 1,
            Status::Usage => 2,
            Status::Budget => 3,
            Status::EventLimit => 4,
            Status::Stalled => 5,
            Status::BadMachine => 6,
            Status::BadImage => 7,
            Status::ReadFault => 8,
            Status::WriteFault => 9,
            Status::NoMemory => 10,
        }
    }
}
