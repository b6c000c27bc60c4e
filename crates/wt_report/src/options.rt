/// What a report tells.
#[derive(Clone, Copy, Debug, PartialEq, Eq)]
pub struct Options {
    /// A line for each event.
    pub trace: bool,
    /// Registers and memories.
    pub memory: bool,
    /// The outcome and the sums alone, whatever else is asked for.
    pub summary: bool,
}
