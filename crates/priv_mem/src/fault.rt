/// Why an access to private memory was refused.
#[derive(Clone, Copy, Debug, PartialEq, Eq)]
pub enum MemFault {
    /// The address isn't a multiple of the width.
    Misaligned,
    /// A byte lies past the memory's end.
    Outside,
}
