/// What a write to a block came to.
#[derive(Clone, Copy, Debug, PartialEq, Eq)]
pub enum WriteHit {
    /// It is done.
    Hit,
    /// The line may only be read, and nothing was changed.
    ReadOnly,
    /// No line holds the block, and nothing was changed.
    Absent,
}
